// `probe`'s calls for C, for tests and benchmarks. A number is returned, and what the answer carries goes to the start of out. A refusal is its
// number, with what it carries. An out shorter than 4 words gets 999, and nothing is done.
// Kept: the C interface: lent buffers and a number for what is told, one function a probe.
#![tactic(auto)]

ghost use Rattle.std.specs.Prelude.{◌≡◌, ◌-◌, length};
ghost use Rattle.rules.specs.Answers.{read_answer, read_table, read_rest, write_answer, write_buffer, read_sheet_answer, read_sheet_table, write_sheet_answer, write_sheet_buffer, schedule_answer, schedule_buffer, verdict_answer, pattern_answer, pattern_buffer};
ghost use Rattle.rules.specs.Told.{read_told, write_told, schedule_told, pattern_told};
ghost use Rattle.rules.specs.Generator.{next_state, drawn, draw_answer, draw_state, draw_table};
ghost use Rattle.told.specs.Sayings.{read_probed, verdict_probed, draw_probed, set_probed};
ghost use Rattle.probe.specs.Probe.{Probes, by_room};

// The reader: 0 with the task count and the bytes used.
#[unsafe(no_mangle)]
pub extern "C" fn probe_read(text: &[u8], table: &mut [u32], out: &mut [u64]) -> u32
    ensures told { Probes (read_probed (read_answer text.now table.old) (length text.now - length (read_rest text.now table.old))) out.old result out.new }
    ensures filled { table.new ≡ by_room out.old table.old (read_table text.now table.old) }
{
    probe::probe_read(text, table, out)
}

// The writer: 0 with the length.
#[unsafe(no_mangle)]
pub extern "C" fn probe_write(table: &[u32], text: &mut [u8], out: &mut [u64]) -> u32
    ensures told { Probes (write_told (write_answer table.now text.old)) out.old result out.new }
    ensures filled { text.new ≡ by_room out.old text.old (write_buffer table.now text.old) }
{
    probe::probe_write(table, text, out)
}

// The sheet's reader: 0 with the task count.
#[unsafe(no_mangle)]
pub extern "C" fn probe_sheet_read(text: &[u8], table: &mut [u32], out: &mut [u64]) -> u32
    ensures told { Probes (read_told (read_sheet_answer text.now table.old)) out.old result out.new }
    ensures filled { table.new ≡ by_room out.old table.old (read_sheet_table text.now table.old) }
{
    probe::probe_sheet_read(text, table, out)
}

// The sheet's writer: 0 with the length.
#[unsafe(no_mangle)]
pub extern "C" fn probe_sheet_write(table: &[u32], text: &mut [u8], out: &mut [u64]) -> u32
    ensures told { Probes (write_told (write_sheet_answer table.now text.old)) out.old result out.new }
    ensures filled { text.new ≡ by_room out.old text.old (write_sheet_buffer table.now text.old) }
{
    probe::probe_sheet_write(table, text, out)
}

// The schedule: 200 on time with the row count; 201 late with the row count, task, job and deadline.
#[unsafe(no_mangle)]
pub extern "C" fn probe_schedule(table: &[u32], z: u32, rows: &mut [u64], out: &mut [u64]) -> u32
    ensures told { Probes (schedule_told (schedule_answer table.now z rows.old)) out.old result out.new }
    ensures filled { rows.new ≡ by_room out.old rows.old (schedule_buffer table.now z rows.old) }
{
    probe::probe_schedule(table, z, rows, out)
}

// The verdict: 100 with the span; 101 with the length, the blocker (2^64 - 1 for none) and the excess; 102.
#[unsafe(no_mangle)]
pub extern "C" fn probe_verdict(table: &[u32], out: &mut [u64]) -> u32
    ensures { Probes (verdict_probed (verdict_answer table.now)) out.old result out.new }
{
    probe::probe_verdict(table, out)
}

// The pattern: 0 with the row count.
#[unsafe(no_mangle)]
pub extern "C" fn probe_pattern(table: &[u32], rows: &mut [u64], out: &mut [u64]) -> u32
    ensures told { Probes (pattern_told (pattern_answer table.now rows.old)) out.old result out.new }
    ensures filled { rows.new ≡ by_room out.old rows.old (pattern_buffer table.now rows.old) }
{
    probe::probe_pattern(table, rows, out)
}

// A draw: 0 with the number drawn and the state after it.
#[unsafe(no_mangle)]
pub extern "C" fn probe_draw(state: u32, out: &mut [u64]) -> u32
    ensures { Probes (draw_probed (drawn state) (next_state state)) out.old result out.new }
{
    probe::probe_draw(state, out)
}

// A set drawn: 0 with the task count and the state after it; 6 with the state.
#[unsafe(no_mangle)]
pub extern "C" fn probe_generate(state: u32, number: u32, table: &mut [u32], out: &mut [u64]) -> u32
    ensures told { Probes (set_probed (draw_answer state number table.old) (draw_state state number table.old)) out.old result out.new }
    ensures filled { table.new ≡ by_room out.old table.old (draw_table state number table.old) }
{
    probe::probe_generate(state, number, table, out)
}
