// Executes document 01's sets: they stand in the file stdin, and what must be printed of each in the file stdout. Then come sets drawn from a fixed
// seed, and what is printed of them.
#![tactic(auto)]

ghost use Rattle.std.specs.Prelude.{◌≡◌, ◌+◌, ◌≤◌, length};
ghost use Rattle.rules.specs.Numbers.{input_most};

use output::OUTPUT_MOST;
use rules::INPUT_MOST;
use std::io::{Read, Write};
use stdio::{InputError, read_input, write_output};
use texts::TEXT_MOST;

// The seed, how many sets are drawn, and the room for their texts.
const SEED: u32 = 1;

const DRAWN: u32 = 9;

const DRAWN_BYTES: usize = DRAWN as usize * TEXT_MOST;

// What a text gives is printed.
// Kept: tilecheck has this with its own words for a write that failed; here nobody is told.
fn print_output<W: Write>(stdout: &mut W, text: &[u8]) {
    let mut out = [0u8; OUTPUT_MOST];
    let all = output::output(text, &mut out);
    let _ = write_output(stdout, &out[..all]);
}

// The sets drawn are printed, then what they give.
fn print_drawn<W: Write>(stdout: &mut W) {
    let mut state = SEED;
    let mut text = [0u8; DRAWN_BYTES];
    let all = texts::put_sets(&mut state, 0, DRAWN, &mut text);
    let _ = write_output(stdout, &text[..all]);
    print_output(stdout, &text[..all]);
}

// How many bytes were read of a text on standard input, of which no more than the most that a text can have count.
fn read_text<R: Read>(stdin: &mut R, buf: &mut [u8]) -> usize
    requires { length buf.old ≡ input_most + 1 }
    ensures { result ≤ input_most }
{
    match read_input(stdin, buf) {
        Ok(n) | Err(InputError::Failed(n)) => n,
        Err(InputError::TooLong) => INPUT_MOST,
    }
}

fn main(rt: HostRuntime) {
    let mut stdout = rt.stdout();
    let mut input = [0u8; INPUT_MOST + 1];
    let n = read_text(&mut rt.stdin(), &mut input);
    print_output(&mut stdout, &input[..n]);
    print_drawn(&mut stdout);
}
