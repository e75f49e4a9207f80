// The program: called with SEED and COUNT, it prints the texts of COUNT sets drawn from SEED, one after another.
#![tactic(auto)]

ghost use Rattle.std.specs.Prelude.{◌≡◌, ◌+◌, ◌^◌, ◌≤◌};
ghost use Rattle.rules.specs.Generator.{state_after_sets, generated};
ghost use Rattle.stdio.specs.Input.{Wrote, TookBeginning};

use std::env::Env;
use std::io::Write;
use std::process::ExitCode;
use stdio::{OutputError, has_argument, status_of, tell, tell_count, write_output};
use texts::TEXT_MOST;

// The greatest seed, a 32-bit number, and the greatest count, of five digits.
const SEED_MOST: u32 = u32::MAX;

const COUNT_MOST: u32 = 99999;

// How many sets are printed at a time, and the room for them.
const PIECE: u32 = 100;

const PIECE_BYTES: usize = PIECE as usize * TEXT_MOST;

// The number in argument i, where that fits buf.
fn argument<A: Env>(rt: &A, i: usize, buf: &mut [u8], most: u32) -> Option<u32> {
    let n = rt.arg(i, buf).ok()?;
    word::number_in(&buf[..n], most)
}

// The seed and the count that the program is called with: two words, and no third.
fn arguments<A: Env>(rt: &A) -> Option<(u32, u32)> {
    if has_argument(rt, 3) {
        return None;
    }
    let seed = argument(rt, 1, &mut [0u8; 4096], SEED_MOST)?;
    let count = argument(rt, 2, &mut [0u8; 5], COUNT_MOST)?;
    Some((seed, count))
}

// Wrong use is told on standard error.
fn tell_use<E: Write>(stderr: &mut E) {
    tell(
        stderr,
        b"tilecheck: call it as: tilecheck generate SEED COUNT ",
    );
    tell(
        stderr,
        b"(SEED: decimal digits, below 4294967296; COUNT: one to five decimal digits)\n",
    );
}

// A write that failed is told on standard error.
// Kept: `stdio` has other words for bytes that stand alone; one function of both would be no plainer than each one's line.
fn tell_write<E: Write>(stderr: &mut E, sets: u32, written: usize, all: usize) {
    tell(stderr, b"tilecheck: cannot write standard output: ");
    tell_count(stderr, sets as usize);
    tell(stderr, b" sets were written, and ");
    tell_count(stderr, written);
    tell(stderr, b" of the ");
    tell_count(stderr, all);
    tell(stderr, b" bytes after them\n");
}

// So many sets are printed, numbered from number on, and the state is moved on; the answer is what was written of their bytes.
fn print_piece<W: Write, E: Write>(
    stdout: &mut W,
    stderr: &mut E,
    state: &mut u32,
    number: u32,
    many: u32,
) -> Result<(), OutputError>
    requires { (number + many ≤ 2 ^ 32) × (many ≤ 100) }
    ensures moved { state.new ≡ state_after_sets many state.old }
    ensures printed { Wrote (W.contents stdout.old) (W.contents stdout.new) result (generated many number state.old) }
{
    let mut out = [0u8; PIECE_BYTES];
    let all = texts::put_sets(state, number, many, &mut out);
    let written = write_output(stdout, &out[..all]);
    if let Err(OutputError::Cut(n) | OutputError::Unread(n)) = written {
        tell_write(stderr, number, n, all);
    }
    written
}

// The sets are printed, a piece at a time.
fn print_sets<W: Write, E: Write>(
    stdout: &mut W,
    stderr: &mut E,
    seed: u32,
    count: u32,
) -> Result<(), OutputError>
    ensures { TookBeginning (W.contents stdout.old) (W.contents stdout.new) (generated count 0 seed) }
{
    let mut state = seed;
    for number in (0..count).step_by(PIECE as usize) {
        let many = PIECE.min(count - number);
        print_piece(stdout, stderr, &mut state, number, many)?;
    }
    Ok(())
}

fn main(rt: HostRuntime) -> ExitCode {
    let mut stderr = rt.stderr();
    let Some((seed, count)) = arguments(&rt) else {
        tell_use(&mut stderr);
        return ExitCode::SUCCESS;
    };
    status_of(print_sets(&mut rt.stdout(), &mut stderr, seed, count))
}
