// What becomes of an input, on slices: of a sheet the text of its set, of a text the sheet of its first set; or the words for what is wrong.
#![tactic(auto)]

ghost use Rattle.std.specs.Prelude.{◌≤◌, length};
ghost use Rattle.rules.specs.Numbers.{table_most};
ghost use Rattle.rules.specs.Calls.{Makes};
ghost use Rattle.exchange.specs.Exchange.{exchanged, written, made_most, ReadsTable, MakesOther, Gives};

use rules::{INPUT_MOST, Refusal};
use table::TABLE_MOST;
use wording::Source;

// The most bytes that are put: those of a text of 64 tasks, 9 for its first line and 8 for each of 256 words.
pub const MADE_MOST: usize = 2057;

// Kept: a match on the source here and in write_table: the source is chosen as the program runs, and a trait for its two steps would be longer.
// The table of an input. There is room for 64 tasks, and no sheet or set has more.
fn read_table(source: Source, input: &[u8], table: &mut [u32]) -> Result<u32, Refusal>
    requires { table_most ≤ length table.old }
    ensures { ReadsTable source input.now table.old result table.new }
{
    match source {
        Source::Sheet => sheet::read_sheet(input, table),
        Source::Text => reader::read(input, table).answer,
    }
}

// The text of a sheet's table, or the sheet of a text's.
fn write_table(source: Source, table: &[u32], out: &mut [u8]) -> Result<u32, Refusal>
    ensures { Makes (written source) table.now out.old result out.new }
{
    match source {
        Source::Sheet => writer::write(table, out),
        Source::Text => sheet::write_sheet(table, out),
    }
}

// What is made of an input that is not too long goes to the start of out; or the input or its table is refused.
fn make(source: Source, input: &[u8], out: &mut [u8]) -> Result<u32, Refusal>
    requires { made_most ≤ length out.old }
    ensures { MakesOther source input.now out.old result out.new }
{
    let mut words = [0u32; TABLE_MOST];
    let n = read_table(source, input, &mut words)?;
    write_table(source, &words[..4 * n as usize], out)
}

// THE EXCHANGE. What becomes of an input goes to the start of out: so many bytes of the text or sheet that is made, or of the words for what is wrong.
// Kept: the length and not the bytes, here and in the other calls that fill a lent `out`: their contracts may not change.
pub fn exchange(source: Source, input: &[u8], out: &mut [u8]) -> Result<usize, usize>
    requires { made_most ≤ length out.old }
    ensures { Gives (exchanged source input.now) out.old result out.new }
{
    if input.len() > INPUT_MOST {
        return Err(wording::put_too_long(out));
    }
    match make(source, input, out) {
        Ok(length) => Ok(length as usize),
        Err(r) => Err(wording::put_sentence(out, source, r)),
    }
}
