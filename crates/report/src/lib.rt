// The report of one set: the lines that the program prints for the first set of a text.
#![tactic(auto)]

ghost use Rattle.std.specs.Prelude.{◌++◌};
ghost use Rattle.rules.specs.Text.{bytes, digits, line};
ghost use Rattle.rules.specs.Report.{answer_lines};
ghost use Rattle.rules.specs.Calls.{Reports};
ghost use Rattle.print.specs.Pages.{Fits, Adds};

use judged::First;
use print::Page;
use rules::{Refusal, Reported, Verdict};

// The most bytes that the lines for a set can take.
pub const LINES_MOST: usize = 83;

// The lines of a set with an answer are put on a page.
fn put_set(page: &mut Page, number: u32, answer: Result<Verdict, Refusal>)
    requires { Fits page.old (line (bytes "set=") (digits number) ++ answer_lines answer) }
    ensures { Adds page.old (line (bytes "set=") (digits number) ++ answer_lines answer) page.new }
{
    page.put_line(b"set=", number);
    answers::put_answer(page, answer);
}

// THE REPORT. The lines for the first set of a text, as set of that number, go to the start of out. The answer is their length, and how many
// bytes of the text are left to read.
pub fn report(number: u32, text: &[u8], out: &mut [u8]) -> Result<Reported, Refusal>
    ensures { Reports number text.now out.old result out.new }
{
    let First { answer, left } = judged::judge_first(text);
    let mut lines = [0u8; LINES_MOST];
    let mut page = Page::new(&mut lines);
    put_set(&mut page, number, answer);
    let length = page.at;
    if out.len() < length {
        return Err(Refusal::TooShort);
    }
    out[..length].copy_from_slice(&lines[..length]);
    Ok(Reported {
        length: length as u32,
        left,
    })
}
