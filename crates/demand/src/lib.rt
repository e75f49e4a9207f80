// What is worked out for a length: what is due and what is waited for, the blocker, the work.
#![tactic(auto)]

ghost use Rattle.std.specs.Prelude.{◌≡◌, ◌*◌, ◌≤◌, ◌<◌, ◌^◌};
ghost use Rattle.rules.specs.Task.{tasks_of};
ghost use Rattle.rules.specs.Demand.{due, total_due, wait, longest_wait, blocker, ceiling, work};
ghost use Rattle.demand.specs.Parts.{Bounded, fails_by};

use rules::Task;
use table::Tasks;
use trains::count_within;

// What one task has due within a length.
fn due_of(task: Task, length: u32) -> u64
    requires { Bounded task }
    ensures { (result ≡ due length task) × (result ≤ 2 ^ 49) }
{
    u64::from(task.C) * u64::from(count_within(task, length))
}

// What one task can make the others wait.
#[tactic(auto, using(rules::proofs::Verdicts::wait_in, rules::proofs::Verdicts::wait_out))]
fn wait_of(task: Task, length: u32) -> u64
    ensures { result ≡ wait length task }
{
    if length < task.D {
        u64::from(task.C).saturating_sub(1)
    } else {
        0
    }
}

// What is due and what is waited for at a length, of one walk over the tasks.
// Kept: a `for`, and no chain: two chains are two walks at each length, and one over a closure would have to say by its calls what it adds up. The
// first task stands before it: a table has one, and a look at one alone then takes no walk.
fn demand_at(tasks: Tasks, length: u32) -> (u64, u64)
    ensures due { (result.0 ≡ total_due length (tasks_of tasks.entry.words.now)) × (result.0 ≤ 2 ^ 55) }
    ensures wait { (result.1 ≡ longest_wait length (tasks_of tasks.entry.words.now)) × (result.1 < 2 ^ 32) }
{
    let first = tasks.task(0);
    let mut due = due_of(first, length);
    let mut wait = wait_of(first, length);
    for i in 1..tasks.count() {
        let task = tasks.task(i);
        due += due_of(task, length);
        wait = wait.max(wait_of(task, length));
    }
    (due, wait)
}

// By how much a length fails: its excess, or 0 where it passes.
// Kept: 0 is no flag: a length that passes fails by 0, and where no task makes the others wait the longest wait is 0.
pub fn excess_at(tasks: Tasks, length: u32) -> u64
    ensures { result ≡ fails_by length (tasks_of tasks.entry.words.now) }
{
    let (due, wait) = demand_at(tasks, length);
    if due == 0 {
        return 0;
    }
    (due + wait).saturating_sub(u64::from(length))
}

// The blocker of a length: the first task that waits longest. From the last task to the first, so that of equals the lowest stays.
// Kept: a `for`, and no `find`: that looks for the longest wait, so that a walk has to find it before. And a number beside it, which is nobody's where
// most is 0: an Option held from task to task took a third more of this walk.
pub fn blocker_at(tasks: Tasks, length: u32) -> Option<u32>
    ensures { result ≡ blocker length (tasks_of tasks.entry.words.now) }
{
    let mut most: u64 = 0;
    let mut first: u32 = 0;
    for i in (0..tasks.count()).rev() {
        let wait = wait_of(tasks.task(i), length);
        if most <= wait {
            most = wait;
            first = i as u32;
        }
    }
    if most == 0 {
        return None;
    }
    Some(first)
}

// C × (t / T rounded up).
fn work_of(task: Task, t: u32) -> u64
    requires { Bounded task }
    ensures { (result ≡ task.C * ceiling t task.T) × (result ≤ 2 ^ 49) }
{
    u64::from(task.C) * u64::from(t.div_ceil(task.T))
}

// The sum of that over the tasks.
pub fn work_at(tasks: Tasks, t: u32) -> u64
    ensures { result ≡ work t (tasks_of tasks.entry.words.now) }
{
    (0..tasks.count()).map(|i| work_of(tasks.task(i), t)).sum()
}
