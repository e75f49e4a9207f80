// Each answer told as a number with values, in code; rules/specs/Told.antt has the same as definitions. For the probe.
#![tactic(auto)]

ghost use Rattle.std.specs.Prelude.{◌≡◌};
ghost use Rattle.rules.specs.Told.{refusal_told, schedule_told};
ghost use Rattle.told.specs.Sayings.{said, Counts, read_probed, blocker_probed, misses_probed, verdict_probed, draw_probed, set_probed};

use rules::{Carried, Refusal, Timing, Verdict};

// A number with no to four values.
// Kept: an array of four with a length beside it is no plainer: here the variant says how many values there are.
#[derive(Clone, Copy)]
pub enum Saying {
    Bare(u32),
    One(u32, u64),
    Two(u32, u64, u64),
    Three(u32, u64, u64, u64),
    Four(u32, u64, u64, u64, u64),
}

// The value for a blocker where there is none.
const NOBODY: u64 = u64::MAX;

// A refusal.
fn say_refusal(r: Refusal) -> Saying
    ensures { said result ≡ refusal_told r }
{
    let number = numbers::refusal_number(r);
    let carried = numbers::refusal_carries(r);
    let Some(Carried::Word(n) | Carried::Line(n) | Carried::Record(n)) = carried else {
        return Saying::Bare(number);
    };
    Saying::One(number, u64::from(n))
}

// The reader's answer, and the bytes used.
pub fn say_read(answer: Result<u32, Refusal>, used: u64) -> Saying
    ensures { said result ≡ read_probed answer used }
{
    match answer {
        Ok(n) => Saying::Two(0, u64::from(n), used),
        Err(r) => say_refusal(r),
    }
}

// An answer that is a count: a writer's, the sheet's reader's, the pattern's.
pub fn say_count<N: Into<u64>>(answer: Result<N, Refusal>) -> Saying
    ensures { Counts N.converts answer (said result) }
{
    match answer {
        Ok(n) => Saying::One(0, n.into()),
        Err(r) => say_refusal(r),
    }
}

// The schedule's answer.
pub fn say_schedule(answer: Result<Timing, Refusal>) -> Saying
    ensures { said result ≡ schedule_told answer }
{
    match answer {
        Ok(t) => match t.late {
            Some(j) => Saying::Four(201, t.rows, j.task, j.job, j.deadline),
            None => Saying::One(200, t.rows),
        },
        Err(r) => say_refusal(r),
    }
}

// A blocker's value.
fn blocker_value(blocker: Option<u32>) -> u64
    ensures { result ≡ blocker_probed blocker }
{
    blocker.map_or(NOBODY, u64::from)
}

// A "misses".
fn say_misses(length: u32, blocker: Option<u32>, over: u32) -> Saying
    ensures { said result ≡ misses_probed length blocker over }
{
    let value = blocker_value(blocker);
    Saying::Three(101, u64::from(length), value, u64::from(over))
}

// A verdict.
// Kept: the C interface's numbers, as Told.antt has them; `verdict_number` would be asked for what each arm knows.
fn say_judged(verdict: Verdict) -> Saying
    ensures { said result ≡ verdict_probed (Ok verdict) }
{
    match verdict {
        Verdict::Meets(span) => Saying::One(100, u64::from(span)),
        Verdict::Misses(length, blocker, over) => say_misses(length, blocker, over),
        Verdict::TooFar => Saying::Bare(102),
    }
}

// The verdict call's answer.
pub fn say_verdict(answer: Result<Verdict, Refusal>) -> Saying
    ensures { said result ≡ verdict_probed answer }
{
    match answer {
        Ok(v) => say_judged(v),
        Err(r) => say_refusal(r),
    }
}

// A number drawn, and the state after it.
pub fn say_drawn(number: u32, after: u32) -> Saying
    ensures { said result ≡ draw_probed number after }
{
    Saying::Two(0, u64::from(number), u64::from(after))
}

// A set drawn, and the state after it.
pub fn say_set(answer: Result<u32, Refusal>, after: u32) -> Saying
    ensures { said result ≡ set_probed answer after }
{
    match answer {
        Ok(n) => Saying::Two(0, u64::from(n), u64::from(after)),
        Err(r) => Saying::One(numbers::refusal_number(r), u64::from(after)),
    }
}
