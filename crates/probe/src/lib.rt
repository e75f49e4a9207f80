// Every call with plain numbers at its boundary, for tests and benchmarks: a number is returned, and what the answer
// carries goes to the start of out. A refusal is its number, with what it carries. An out shorter than 4 words gets 999,
// and nothing is done. `probe_c` hands each to C.
#![tactic(auto, unfolding(crate::specs::Probe::by_room))]

ghost use Rattle.std.specs.Prelude.{◌≡◌, ◌-◌, length, ltb, MatchBool};
ghost use Rattle.rules.specs.Answers.{read_answer, read_table, read_rest, write_answer, write_buffer, read_sheet_answer, read_sheet_table, write_sheet_answer, write_sheet_buffer, schedule_answer, schedule_buffer, verdict_answer, pattern_answer, pattern_buffer};
ghost use Rattle.rules.specs.Told.{read_told, write_told, schedule_told, pattern_told};
ghost use Rattle.rules.specs.Generator.{next_state, drawn, draw_answer, draw_state, draw_table};
ghost use Rattle.told.specs.Sayings.{said, read_probed, verdict_probed, draw_probed, set_probed};
ghost use Rattle.tell.specs.Gives.{Gives};
ghost use Rattle.probe.specs.Probe.{Probes, by_room};

use generator::Generator;
use told::Saying;

// How many words an out must have.
const ROOM: usize = 4;

// What is returned where it has fewer.
// Kept: the C interface, by which a probe answers in numbers.
const NO_ROOM: u32 = 999;

// What a probe says is told where out has room; where it has not, the probe is not asked.
fn in_room<F: FnMut() -> Saying>(out: &mut [u64], say: &mut F) -> u32
    requires { F.pre say.old }
    ensures { MatchBool (ltb (length out.old) 4) ((result ≡ 999) × (out.new ≡ out.old) × (say.new ≡ say.old))
        ((s : _) × F.step say.old s say.new × Gives (said s) out.old result out.new) }
{
    if out.len() < ROOM {
        return NO_ROOM;
    }
    tell::tell(out, say())
}

// The set at the start of a text goes to the start of table: what is said of it, with the bytes used.
fn say_reading(text: &[u8], table: &mut [u32]) -> Saying
    ensures told { said result ≡ read_probed (read_answer text.now table.old) (length text.now - length (read_rest text.now table.old)) }
    ensures filled { table.new ≡ read_table text.now table.old }
{
    let reading = reader::read(text, table);
    let used = (text.len() - reading.rest.len()) as u64;
    told::say_read(reading.answer, used)
}

// The reader: 0 with the task count and the bytes used.
pub fn probe_read(text: &[u8], table: &mut [u32], out: &mut [u64]) -> u32
    ensures told { Probes (read_probed (read_answer text.now table.old) (length text.now - length (read_rest text.now table.old))) out.old result out.new }
    ensures filled { table.new ≡ by_room out.old table.old (read_table text.now table.old) }
{
    in_room(out, &mut || say_reading(text, table))
}

// The writer: 0 with the length.
pub fn probe_write(table: &[u32], text: &mut [u8], out: &mut [u64]) -> u32
    ensures told { Probes (write_told (write_answer table.now text.old)) out.old result out.new }
    ensures filled { text.new ≡ by_room out.old text.old (write_buffer table.now text.old) }
{
    in_room(out, &mut || told::say_count(writer::write(table, text)))
}

// The sheet's reader: 0 with the task count.
pub fn probe_sheet_read(text: &[u8], table: &mut [u32], out: &mut [u64]) -> u32
    ensures told { Probes (read_told (read_sheet_answer text.now table.old)) out.old result out.new }
    ensures filled { table.new ≡ by_room out.old table.old (read_sheet_table text.now table.old) }
{
    in_room(out, &mut || told::say_count(sheet::read_sheet(text, table)))
}

// The sheet's writer: 0 with the length.
pub fn probe_sheet_write(table: &[u32], text: &mut [u8], out: &mut [u64]) -> u32
    ensures told { Probes (write_told (write_sheet_answer table.now text.old)) out.old result out.new }
    ensures filled { text.new ≡ by_room out.old text.old (write_sheet_buffer table.now text.old) }
{
    in_room(
        out,
        &mut || told::say_count(sheet::write_sheet(table, text)),
    )
}

// The schedule: 200 on time with the row count; 201 late with the row count, task, job and deadline.
pub fn probe_schedule(table: &[u32], z: u32, rows: &mut [u64], out: &mut [u64]) -> u32
    ensures told { Probes (schedule_told (schedule_answer table.now z rows.old)) out.old result out.new }
    ensures filled { rows.new ≡ by_room out.old rows.old (schedule_buffer table.now z rows.old) }
{
    in_room(
        out,
        &mut || told::say_schedule(schedule::schedule(table, z, rows)),
    )
}

// The verdict: 100 with the span; 101 with the length, the blocker (2^64 - 1 for none) and the excess; 102.
pub fn probe_verdict(table: &[u32], out: &mut [u64]) -> u32
    ensures { Probes (verdict_probed (verdict_answer table.now)) out.old result out.new }
{
    in_room(out, &mut || told::say_verdict(verdict::verdict(table)))
}

// The pattern: 0 with the row count.
pub fn probe_pattern(table: &[u32], rows: &mut [u64], out: &mut [u64]) -> u32
    ensures told { Probes (pattern_told (pattern_answer table.now rows.old)) out.old result out.new }
    ensures filled { rows.new ≡ by_room out.old rows.old (pattern_buffer table.now rows.old) }
{
    in_room(out, &mut || told::say_count(pattern::pattern(table, rows)))
}

// A draw: 0 with the number drawn and the state after it.
pub fn probe_draw(state: u32, out: &mut [u64]) -> u32
    ensures { Probes (draw_probed (drawn state) (next_state state)) out.old result out.new }
{
    in_room(
        out,
        &mut || {
            let (drawn, after) = generator::draw_value(Generator { state });
            told::say_drawn(drawn, after.state)
        },
    )
}

// A set drawn: 0 with the task count and the state after it; 6 with the state.
pub fn probe_generate(state: u32, number: u32, table: &mut [u32], out: &mut [u64]) -> u32
    ensures told { Probes (set_probed (draw_answer state number table.old) (draw_state state number table.old)) out.old result out.new }
    ensures filled { table.new ≡ by_room out.old table.old (draw_table state number table.old) }
{
    in_room(
        out,
        &mut || {
            let (answer, after) = generator::draw_set_value(Generator { state }, number, table);
            told::say_set(answer, after.state)
        },
    )
}
