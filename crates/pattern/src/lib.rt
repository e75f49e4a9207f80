// The rows of the pattern behind a "misses".
#![tactic(auto)]

ghost use Rattle.rules.specs.Calls.{Shows};
ghost use Rattle.pattern.specs.OneLate.{OneLate};

use dispatch::dispatch;
use rules::{Plan, Refusal, Verdict};
use table::Tasks;
use verdict::judge_table;

// Writes the rows of the pattern behind a "misses" to the start of a lent buffer, and says how many; or refused, and then nothing is written.
pub fn pattern(table: &[u32], rows: &mut [u64]) -> Result<u64, Refusal>
    ensures shows { Shows table.now rows.old result rows.new }
    ensures late { OneLate table.now result }
{
    let tasks = Tasks::new(table)?;
    let Verdict::Misses(length, blocker, _) = judge_table(tasks) else {
        return Err(Refusal::NotMisses);
    };
    let timing = dispatch(tasks, Plan::Named(length, blocker), rows)?;
    Ok(timing.rows)
}
