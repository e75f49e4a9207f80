// The program: standard input is a sheet, and the text of its set is printed; or with --back it is a text, and the sheet of its first set is.
#![tactic(auto)]

ghost use Rattle.exchange.specs.Exchange.{exchanged};
ghost use Rattle.tilesheet.specs.Program.{PrintsMade, PrintsExchange};

use exchange::MADE_MOST;
use rules::INPUT_MOST;
use std::env::Env;
use std::io::{Read, Write};
use std::process::ExitCode;
use stdio::{has_argument, input_or_tell, print_bytes, tell};
use wording::Source;

// Wrong use is told on standard error.
fn tell_use<E: Write>(stderr: &mut E) {
    tell(
        stderr,
        b"tilecheck: call it as: tilecheck sheet [--back] [FILE]\n",
    );
}

// Whether argument 1 is --back.
fn is_back<A: Env>(rt: &A) -> bool {
    let mut word = [0u8; 6];
    matches!(rt.arg(1, &mut word), Ok(n) if word[..n] == b"--back"[..])
}

// What the program is called for: without an argument to read a sheet, with --back alone a text. Any other use is wrong.
fn source_asked<A: Env>(rt: &A) -> Option<Source> {
    if !has_argument(rt, 1) {
        Some(Source::Sheet)
    } else if !has_argument(rt, 2) && is_back(rt) {
        Some(Source::Text)
    } else {
        None
    }
}

// What is made of an input is printed; or what is wrong is told on standard error. The answer is the exit status.
fn print_made<W: Write, E: Write>(
    stdout: &mut W,
    stderr: &mut E,
    source: Source,
    input: &[u8],
) -> ExitCode
    ensures { PrintsMade (exchanged source input.now) (W.contents stdout.old) (W.contents stdout.new) }
{
    let mut out = [0u8; MADE_MOST];
    match exchange::exchange(source, input, &mut out) {
        Ok(all) => print_bytes(stdout, stderr, &out[..all]),
        Err(all) => {
            tell(stderr, &out[..all]);
            ExitCode::SUCCESS
        }
    }
}

// THE PROGRAM, on any streams: standard input is made into the other; one that cannot be read is told on standard error.
// Kept: tilecheck has this with another word and step; one of both over a closure would be longer than either.
// Never inlined: its buffers would stand on the stack of `main` then, also where that only tells of wrong use.
#[inline(never)]
fn exchange_input<R: Read, W: Write, E: Write>(
    stdin: &mut R,
    stdout: &mut W,
    stderr: &mut E,
    source: Source,
) -> ExitCode
    ensures { PrintsExchange source (R.remaining stdin.old) (W.contents stdout.old) (W.contents stdout.new) }
{
    let mut buf = [0u8; INPUT_MOST + 1];
    let Some(input) = input_or_tell(stdin, stderr, &mut buf, "made") else {
        return ExitCode::SUCCESS;
    };
    print_made(stdout, stderr, source, input)
}

fn main(rt: HostRuntime) -> ExitCode {
    let mut stderr = rt.stderr();
    let Some(source) = source_asked(&rt) else {
        tell_use(&mut stderr);
        return ExitCode::SUCCESS;
    };
    exchange_input(&mut rt.stdin(), &mut rt.stdout(), &mut stderr, source)
}
