// The rows of a plan's jobs: the one call that dispatches.
#![tactic(auto)]

ghost use Rattle.std.specs.Prelude.{◌≡◌, ◌*◌, ◌^◌, ◌<◌, ◌≤◌, length};
ghost use Rattle.rules.specs.Task.{tasks_of};
ghost use Rattle.rules.specs.Jobs.{planned};
ghost use Rattle.rules.specs.Calls.{Dispatches};

use row::{noted, put_row};
use rules::{Late, Plan, Refusal, Timing};
use table::{TASK_MOST, Tasks};
use trains::count_of;
use turn::Waiting;

// How many jobs a plan has.
fn count_jobs(tasks: Tasks<'_>, plan: Plan) -> usize
    ensures { (result ≡ length (planned plan (tasks_of tasks.entry.words.now))) × (result < 2 ^ 39) }
{
    (0..tasks.count())
        .map(|i| count_of(plan, i, tasks.task(i)) as usize)
        .sum()
}

// Writes the rows of a plan's n jobs, four words a row, and tells of them.
// Kept: tasks and plan apart: the callers have them apart, and only the walk needs the counters that `Waiting` has beside them.
fn run(tasks: Tasks<'_>, plan: Plan, n: usize, rows: &mut [u64]) -> Timing
    requires n_value { n ≡ length (planned plan (tasks_of tasks.words.now)) }
    requires n_bound { n < 2 ^ 39 }
    requires n_in_bounds { 4 * n ≤ length rows.old }
    ensures { Dispatches (planned plan (tasks_of tasks.entry.words.now)) rows.old (Ok result) rows.new }
{
    let mut waiting = Waiting {
        tasks,
        plan,
        next: [0; TASK_MOST],
    };
    let mut t: u64 = 0;
    let mut late: Option<Late> = None;
    // Kept: rows by number, and not the parts of rows.chunks_exact_mut(4): a proof knows no element of a slice written through them.
    for k in 0..n {
        let turn = waiting.choose(t).unwrap();
        let job = Late {
            task: turn.task as u64,
            job: u64::from(waiting.next[turn.task]),
            deadline: turn.due,
        };
        t = turn.start + u64::from(tasks.task(turn.task).C);
        put_row(rows, k, job.task, job.job, turn.start, t);
        late = noted(late, job, t);
        waiting.next[turn.task] += 1;
    }
    Timing {
        rows: n as u64,
        late,
    }
}

// Writes the rows of a plan's jobs to the start of a lent buffer, and tells whether all were on time; or refused, where the buffer is too short,
// and then nothing is written.
pub fn dispatch(tasks: Tasks<'_>, plan: Plan, rows: &mut [u64]) -> Result<Timing, Refusal>
    ensures { Dispatches (planned plan (tasks_of tasks.entry.words.now)) rows.old result rows.new }
{
    let n = count_jobs(tasks, plan);
    if rows.len() < 4 * n {
        return Err(Refusal::TooShort);
    }
    Ok(run(tasks, plan, n, rows))
}
