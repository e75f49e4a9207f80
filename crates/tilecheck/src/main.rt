// The program reads standard input and writes what `output` makes of it.
#![tactic(auto)]

ghost use Rattle.rules.specs.Report.{output};
ghost use Rattle.stdio.specs.Input.{TookBeginning};
ghost use Rattle.tilecheck.specs.Program.{PrintsOutput};

use output::OUTPUT_MOST;
use rules::INPUT_MOST;
use std::io::{Read, Write};
use std::process::ExitCode;
use stdio::{input_or_tell, print_bytes};

// What an input gives is printed.
fn print_output<W: Write, E: Write>(stdout: &mut W, stderr: &mut E, input: &[u8]) -> ExitCode
    ensures { TookBeginning (W.contents stdout.old) (W.contents stdout.new) (output input.now) }
{
    let mut out = [0u8; OUTPUT_MOST];
    let all = output::output(input, &mut out);
    print_bytes(stdout, stderr, &out[..all])
}

// THE PROGRAM, on any streams: what standard input gives is printed; one that cannot be read is told on standard error. The answer is the exit status.
fn judge_input<R: Read, W: Write, E: Write>(
    stdin: &mut R,
    stdout: &mut W,
    stderr: &mut E,
) -> ExitCode
    ensures { PrintsOutput (R.remaining stdin.old) (W.contents stdout.old) (W.contents stdout.new) }
{
    let mut buf = [0u8; INPUT_MOST + 1];
    let Some(input) = input_or_tell(stdin, stderr, &mut buf, "judged") else {
        return ExitCode::SUCCESS;
    };
    print_output(stdout, stderr, input)
}

fn main(rt: HostRuntime) -> ExitCode {
    judge_input(&mut rt.stdin(), &mut rt.stdout(), &mut rt.stderr())
}
