// Sheets of comma-separated values, read into a table and written from one.
#![tactic(auto)]

ghost use Rattle.std.specs.Prelude.{◌++◌, [], length};
ghost use Rattle.rules.specs.Text.{bytes};
ghost use Rattle.rules.specs.Sheet.{crlf, after_word, write_records, write_sheet};
ghost use Rattle.rules.specs.Calls.{ReadsSheet, WritesSheet};

use print::Page;
use rules::Refusal;
use table::{TABLE_MOST, Tasks};
use writer::Form;

// The first line of a sheet that is written.
const FIRST_LINE: [u8; 35] = *b"execution,deadline,period,release\r\n";

// The sheet of a table: a line with the columns' names, then a line a task.
pub struct Sheet;

impl Form for Sheet {
    ghost use Rattle.rules.proofs.SheetWriting.{sheet_is, records_none, records_more};

    ghost make = { write_sheet };

    ghost first = { λ ws. bytes "execution,deadline,period,release" ++ crlf };

    ghost before = { λ which. [] };

    ghost after = { after_word };

    ghost words = { write_records };

    fn first_length(_tasks: Tasks) -> usize {
        FIRST_LINE.len()
    }

    fn put_first(_tasks: Tasks, page: &mut Page) {
        page.put_bytes(&FIRST_LINE);
    }

    fn before_word(_which: usize) -> &'static [u8] {
        b""
    }

    fn after_word(which: usize) -> &'static [u8] {
        if which == 3 { b"\r\n" } else { b"," }
    }

    // The number before the choice, so that the loop over its digits stands once: `put_phrase` in each arm took longer.
    fn put_word(page: &mut Page, which: usize, n: u32) {
        page.put_number(n);
        if which == 3 {
            page.put_bytes(b"\r\n");
        } else {
            page.put_bytes(b",");
        }
    }

    ghost made = { sheet_is };

    ghost none = { records_none };

    ghost more = { records_more };
}

// THE SHEET'S READER. The tasks of a sheet go to the start of table; the answer is how many they are.
pub fn read_sheet(text: &[u8], table: &mut [u32]) -> Result<u32, Refusal>
    ensures { ReadsSheet text.now table.old result table.new }
{
    let Some(header) = header::read_header(text) else {
        return Err(Refusal::NoHeader);
    };
    let mut words = [0u32; TABLE_MOST];
    let n = kernel::read_kernels(header, &mut words)?;
    if n == 0 {
        return Err(Refusal::NoRecord);
    }
    let read = &words[..4 * n];
    if table.len() < read.len() {
        return Err(Refusal::TooShort);
    }
    table[..read.len()].copy_from_slice(read);
    Ok(n as u32)
}

// THE SHEET'S WRITER. The sheet of a table goes to the start of out; the answer is its length.
pub fn write_sheet(table: &[u32], out: &mut [u8]) -> Result<u32, Refusal>
    ensures { WritesSheet table.now out.old result out.new }
{
    writer::make::<Sheet>(table, out)
}
