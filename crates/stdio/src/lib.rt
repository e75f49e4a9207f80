// Standard input read to its end, and standard output written whole, however many calls that takes; what failed is told on standard error. The
// streams are lent by the caller: what is promised holds of any reader and writer. And how many arguments there are.
#![tactic(auto)]

ghost use Rattle.std.specs.Prelude.{◌≡◌, ◌+◌, ◌<◌, IsTrue, length};
ghost use Rattle.std.specs.Process.{exit_status};
ghost use Rattle.rules.specs.Numbers.{input_most};
ghost use Rattle.stdio.specs.Input.{Within, Took, Wrote, TookBeginning, Gives, status_after};

use std::env::{Env, FillError};
use std::io::{Error, ErrorKind, Read, Write};
use std::process::ExitCode;
use std::thread;

// How often in a row a call that moved nothing is tried again.
const TRIES: u32 = 10000000;

// 128 and the number of the signal for a reader that went away.
const UNREAD_STATUS: u8 = 141;

// Why standard input was not read whole: it fills the buffer; or a read failed after so many bytes.
#[derive(Clone, Copy, PartialEq, Eq)]
pub enum InputError {
    TooLong,
    Failed(usize),
}

// Why bytes were not written whole on standard output: a write failed after so many; or, after so many, nobody was there to read them.
#[derive(Clone, Copy, PartialEq, Eq)]
pub enum OutputError {
    Cut(usize),
    Unread(usize),
}

// How often a call that moves nothing is still tried again.
#[derive(Drop)]
struct Tries(u32);

impl Tries {
    // Whether the call that just failed is tried again: it was interrupted, or it would have had to wait. Then others may run first.
    // Kept: a bool, which the match guards of the two loops ask; what is spent is counted here and handed to nobody.
    fn again(&mut self, why: &Error) -> bool
        ensures spent { IsTrue result → self.new.0 + 1 ≡ self.old.0 }
    {
        let waits = why.kind() == ErrorKind::WouldBlock;
        if self.0 == 0 || !(waits || why.kind() == ErrorKind::Interrupted) {
            return false;
        }
        if waits {
            thread::yield_now();
        }
        self.0 -= 1;
        true
    }
}

// Kept: read_input and write_output stay two loops: one over a closure would have to say by its steps what each stream's contract says at once.
// Standard input is read to its end, however many reads that takes. The buffer is longer than the longest input, so one that fills it is too long.
#[tactic(auto, using(crate::proofs::Known::read_adds))]
pub fn read_input<R: Read>(input: &mut R, buf: &mut [u8]) -> Result<usize, InputError>
    requires { input_most < length buf.old }
    ensures within { Within result (length buf.new) }
    ensures took { Took (R.remaining input.old) (R.remaining input.new) result buf.new }
{
    let mut at: usize = 0;
    let mut tries = Tries(TRIES);
    // Kept: `at` goes on by as much as a call moved, so that no range or chain is plainer.
    while at < buf.len() {
        match input.read(&mut buf[at..]) {
            Ok(0) => return Ok(at),
            Ok(more) => {
                at += more;
                tries = Tries(TRIES);
            }
            Err(why) if tries.again(&why) => {}
            Err(_) => return Err(InputError::Failed(at)),
        }
    }
    Err(InputError::TooLong)
}

// The bytes are written to standard output, however many writes that takes.
#[tactic(auto, using(crate::proofs::Known::written_more))]
pub fn write_output<W: Write>(output: &mut W, bytes: &[u8]) -> Result<(), OutputError>
    ensures { Wrote (W.contents output.old) (W.contents output.new) result bytes.now }
{
    let mut at: usize = 0;
    let mut tries = Tries(TRIES);
    // Kept: `at` goes on by as much as a call moved, as in read_input.
    while at < bytes.len() {
        match output.write(&bytes[at..]) {
            Ok(0) => return Err(OutputError::Cut(at)),
            Ok(more) => {
                at += more;
                tries = Tries(TRIES);
            }
            Err(why) if why.kind() == ErrorKind::BrokenPipe => return Err(OutputError::Unread(at)),
            Err(why) if tries.again(&why) => {}
            Err(_) => return Err(OutputError::Cut(at)),
        }
    }
    Ok(())
}

// The exit status of a program that wrote so much: where its reader went away, the one that a shell gives a program which is ended by that.
pub fn status_of(written: Result<(), OutputError>) -> ExitCode
    ensures { exit_status result ≡ status_after written }
{
    match written {
        Err(OutputError::Unread(_)) => ExitCode::from(UNREAD_STATUS),
        Ok(()) | Err(OutputError::Cut(_)) => ExitCode::SUCCESS,
    }
}

// These words on standard error. Where they cannot be told, nobody is there to tell it to.
pub fn tell<E: Write>(error: &mut E, words: &[u8]) {
    let _ = error.write_all(words);
}

// A number on standard error.
pub fn tell_count<E: Write>(error: &mut E, n: usize) {
    let _ = write!(error, "{n}");
}

// A read that failed is told on standard error, with what nothing was.
// Kept: part by part, here and where a write failed: one `writeln!` would tell no more after the first part that standard error does not take.
pub fn tell_read<E: Write>(error: &mut E, read: usize, undone: &[u8]) {
    tell(error, b"tilecheck: cannot read standard input: ");
    tell_count(error, read);
    tell(error, b" bytes were read, nothing was ");
    tell(error, undone);
    tell(error, b"\n");
}

// A write that failed is told on standard error.
fn tell_write<E: Write>(error: &mut E, written: usize, all: usize) {
    tell(error, b"tilecheck: cannot write standard output: ");
    tell_count(error, written);
    tell(error, b" of ");
    tell_count(error, all);
    tell(error, b" bytes were written\n");
}

// What standard input gives: its bytes, or as many as the buffer holds; where a read failed, nothing, and that is told, with what nothing was.
// Kept: the streams one by one: each has a type of its own, and each function takes only those of the three that it uses.
pub fn input_or_tell<'a, R: Read, E: Write>(
    input: &mut R,
    error: &mut E,
    buf: &'a mut [u8],
    undone: &str,
) -> Option<&'a [u8]>
    requires { input_most < length buf.old }
    ensures { Gives (R.remaining input.old) (length buf.old) result }
{
    match read_input(input, buf) {
        Ok(n) => Some(&buf[..n]),
        Err(InputError::TooLong) => Some(buf),
        Err(InputError::Failed(n)) => {
            tell_read(error, n, undone.as_bytes());
            None
        }
    }
}

// The bytes are printed on standard output; where they are not written whole, that is told. The answer is the program's exit status.
#[tactic(auto, using(crate::proofs::Known::beginning_written))]
pub fn print_bytes<W: Write, E: Write>(output: &mut W, error: &mut E, bytes: &[u8]) -> ExitCode
    ensures { TookBeginning (W.contents output.old) (W.contents output.new) bytes.now }
{
    let written = write_output(output, bytes);
    if let Err(OutputError::Cut(n) | OutputError::Unread(n)) = written {
        tell_write(error, n, bytes.len());
    }
    status_of(written)
}

// Whether the program was called with an argument i; argument 0 is its own name.
pub fn has_argument<A: Env>(rt: &A, i: usize) -> bool {
    !matches!(rt.arg(i, &mut []), Err(FillError::NotPresent))
}
