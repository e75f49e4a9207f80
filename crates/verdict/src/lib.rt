// The verdict over all arrivals: the look at the lengths, the span, and the call.
#![tactic(auto)]

ghost use Rattle.std.specs.Prelude.{◌≡◌, Some, None, MatchOption};
ghost use Rattle.rules.specs.Task.{tasks_of};
ghost use Rattle.rules.specs.Demand.{excess, first_fail, span, verdict};
ghost use Rattle.rules.specs.Answers.{verdict_answer};
ghost use Rattle.promises.specs.Demands.{KeptBy};

use demand::{blocker_at, excess_at, work_at};
use rules::{Refusal, Verdict};
use table::Tasks;

// The longest length looked at, and the greatest span.
const HORIZON: u32 = 100000;

// The least length from 1 to H that fails, with its excess. At that one the excess fits: it is below the sum of the executions.
fn first_fail(tasks: Tasks) -> Option<(u32, u32)>
    ensures { MatchOption result (first_fail (tasks_of tasks.entry.words.now) ≡ None)
        (λ f. (first_fail (tasks_of tasks.entry.words.now) ≡ Some f.0) × (f.1 ≡ excess f.0 (tasks_of tasks.entry.words.now))) }
{
    for length in 1..=HORIZON {
        let over = excess_at(tasks, length);
        if 0 < over {
            return Some((length, over as u32));
        }
    }
    None
}

// The span: no t below the work of one that does not close can close, so the look goes on from there.
// Kept: the loop; it counts no index, t goes on to its work, so that no range or chain is plainer.
fn find_span(tasks: Tasks) -> Option<u32>
    ensures { result ≡ span (tasks_of tasks.entry.words.now) }
{
    let mut t: u32 = 1;
    loop {
        let work = work_at(tasks, t);
        if work <= u64::from(t) {
            return Some(t);
        }
        if u64::from(HORIZON) < work {
            return None;
        }
        t = work as u32;
    }
}

// The verdict on the tasks of a table that is not refused.
pub fn judge_table(tasks: Tasks) -> Verdict
    ensures { result ≡ verdict (tasks_of tasks.entry.words.now) }
{
    if let Some((length, over)) = first_fail(tasks) {
        return Verdict::Misses(length, blocker_at(tasks, length), over);
    }
    match find_span(tasks) {
        Some(t) => Verdict::Meets(t),
        None => Verdict::TooFar,
    }
}

// The verdict on any table: the paper's, and true of every arrival pattern.
pub fn verdict(table: &[u32]) -> Result<Verdict, Refusal>
    ensures says { result ≡ verdict_answer table.now }
    ensures keeps { KeptBy table.now result }
{
    let tasks = Tasks::new(table)?;
    Ok(judge_table(tasks))
}
