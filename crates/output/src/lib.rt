// All that the program prints for an input, on slices: what is read and written stays outside.
#![tactic(auto)]

ghost use Rattle.std.specs.Prelude.{◌≤◌, length};
ghost use Rattle.rules.specs.Numbers.{input_most};
ghost use Rattle.output.specs.Output.{output_most, Outputs};

use print::Page;
use rules::INPUT_MOST;

// The most bytes that are printed: a set takes 24 bytes of the input at least, so there are at most 1,366.
pub const OUTPUT_MOST: usize = 1366 * report::LINES_MOST;

// The lines of all sets, each read from where the one before it ended, until nothing is left.
fn put_sets(input: &[u8], out: &mut [u8]) -> usize
    requires { (length input.now ≤ input_most) × (output_most ≤ length out.old) }
    ensures { Outputs input.now out.old result out.new }
{
    let mut number: u32 = 1;
    let mut text = input;
    let mut at: usize = 0;
    // Kept: this loop walks the text that is left; how many sets it has is not known before, so that a `for` has no end.
    loop {
        // There is room for every set's lines, so that no report is refused.
        let told = report::report(number, text, &mut out[at..]).unwrap();
        at += told.length as usize;
        if told.left == 0 {
            return at;
        }
        text = &text[text.len() - told.left..];
        number += 1;
    }
}

// THE PROGRAM'S OUTPUT for an input goes to the start of out; the answer is its length.
pub fn output(input: &[u8], out: &mut [u8]) -> usize
    requires { output_most ≤ length out.old }
    ensures { Outputs input.now out.old result out.new }
{
    if input.len() > INPUT_MOST {
        let mut page = Page::new(out);
        page.put_bytes(b"toolong\n");
        return page.at;
    }
    put_sets(input, out)
}
