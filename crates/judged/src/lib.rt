// The first set of a text, judged: for callers that want the answer and not the table.
#![tactic(auto)]

ghost use Rattle.judged.specs.First.{Judges};

use rules::{Refusal, Verdict};
use table::TABLE_MOST;

// What is found of the first set: the verdict or the refusal, and how many bytes are left to read.
#[derive(Clone, Copy)]
pub struct First {
    pub answer: Result<Verdict, Refusal>,
    pub left: usize,
}

// The first set of a text is judged, or refused by 7, after which nothing is left to read.
// Kept: as the reader does, but with the verdict: a lent table is filled there and none is lent here (D63).
pub fn judge_first(text: &[u8]) -> First
    ensures { Judges text.now result }
{
    let mut words = [0u32; TABLE_MOST];
    match scan::scan_set(text, &mut words) {
        Ok((n, rest)) => First {
            answer: verdict::verdict(&words[..4 * n as usize]),
            left: rest.len(),
        },
        Err(r) => First {
            answer: Err(r),
            left: 0,
        },
    }
}
