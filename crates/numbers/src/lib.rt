// The paper's number of each refusal and of each verdict, in code; rules/specs has the same as definitions.
#![tactic(auto)]

ghost use Rattle.std.specs.Prelude.{◌≡◌};
ghost use Rattle.rules.specs.Refusals.{entry};
ghost use Rattle.rules.specs.Told.{number_told, judged_told};

use rules::{Carried, Refusal, Verdict};

// A refusal's number.
// Kept: the paper's numbers, for the C interface, the lines and the words; inside, a refusal is the enum.
pub fn refusal_number(r: Refusal) -> u32
    ensures { result ≡ (entry r).number }
{
    match r {
        Refusal::NoWord => 1,
        Refusal::NotFours => 2,
        Refusal::TooManyWords => 3,
        Refusal::OutOfRange(_) => 4,
        Refusal::BadEnd => 5,
        Refusal::TooShort => 6,
        Refusal::BadLine(_) => 7,
        Refusal::NotMisses => 8,
        Refusal::NoHeader => 13,
        Refusal::BadRecord(_) => 14,
        Refusal::NoRecord => 15,
    }
}

// What a refusal carries, if anything.
pub fn refusal_carries(r: Refusal) -> Option<Carried>
    ensures { result ≡ (entry r).carries }
{
    match r {
        Refusal::OutOfRange(i) => Some(Carried::Word(i)),
        Refusal::BadLine(l) => Some(Carried::Line(l)),
        Refusal::BadRecord(l) => Some(Carried::Record(l)),
        _ => None,
    }
}

// A verdict's number for the C call.
// Kept: the paper's numbers, for the C interface; inside, a verdict is the enum.
pub fn verdict_number(v: Verdict) -> u32
    ensures { result ≡ number_told (judged_told v) }
{
    match v {
        Verdict::Meets(_) => 100,
        Verdict::Misses(_, _, _) => 101,
        Verdict::TooFar => 102,
    }
}
