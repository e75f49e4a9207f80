// The concrete schedule of a table to an end tick.
#![tactic(auto)]

ghost use Rattle.rules.specs.Calls.{Schedules};

use dispatch::dispatch;
use rules::{Plan, Refusal, Timing};
use table::Tasks;

// The greatest end tick.
const END_MOST: u32 = 100000;

// Writes the rows of the schedule to the start of a lent buffer, and tells whether all were on time; or refused, and then nothing is written.
pub fn schedule(table: &[u32], z: u32, rows: &mut [u64]) -> Result<Timing, Refusal>
    ensures { Schedules table.now z rows.old result rows.new }
{
    let tasks = Tasks::new(table)?;
    if !(1..=END_MOST).contains(&z) {
        return Err(Refusal::BadEnd);
    }
    dispatch(tasks, Plan::Concrete(z), rows)
}
