// A task's train of jobs under a plan: how many there are, and when each is released. Nothing of it is kept: it is worked out where it is asked for.
#![tactic(auto)]

ghost use Rattle.std.specs.Prelude.{◌≡◌, ◌-◌, ◌*◌, ◌^◌, ◌<◌};
ghost use Rattle.rules.specs.Task.{Sound};
ghost use Rattle.rules.specs.declared.Task.{Task};
ghost use Rattle.rules.specs.Demand.{count_within};
ghost use Rattle.rules.specs.Jobs.{count_before, plan_train};
ghost use Rattle.trains.specs.Releases.{Comes, ComesOnce, released_before, due_within, train_of};

use rules::{Plan, Task};

// Which jobs a task's train has: those that are released before an end tick; those that are due within a length, from a tick on; or one, at 0.
// Kept: two matches on a train's reach, which is found as the program runs; a trait for its two steps would be longer.
#[derive(Clone, Copy)]
enum Reach {
    Before(u32),
    Within { length: u32, first: u32 },
    Once,
}

// The jobs of task k under a plan: in the pattern that a length names a blocker comes once, and the others come from 1 on; without one all come from
// 0 on.
#[inline(always)]
fn reach_of(plan: Plan, k: usize) -> Reach
    ensures { (task : Task) → train_of result task ≡ plan_train plan k task }
{
    match plan {
        Plan::Concrete(end) => Reach::Before(end),
        Plan::Named(length, None) => Reach::Within { length, first: 0 },
        Plan::Named(_, Some(b)) if k == b as usize => Reach::Once,
        Plan::Named(length, Some(_)) => Reach::Within { length, first: 1 },
    }
}

// Kept: `requires { Sound task }` in six functions, and no invariant of a type: the definitions of document 01 make a rules::Task of any four words.

// How many jobs of a task are released before an end tick.
// Kept: two counts and two releases, each a definition of document 01; one of both would take what they differ in as arguments.
#[tactic(auto, using(rules::proofs::TaskTrains::before_some, rules::proofs::TaskTrains::before_none))]
fn count_before(task: Task, end: u32) -> u32
    requires { Sound task }
    ensures { result ≡ count_before end task }
{
    if task.R < end {
        1 + (end - 1 - task.R) / task.T
    } else {
        0
    }
}

// How many jobs of a task are due within a length, where the first is released as the length begins.
#[tactic(auto, using(rules::proofs::TaskTrains::within_some, rules::proofs::TaskTrains::within_none))]
pub fn count_within(task: Task, length: u32) -> u32
    requires { Sound task }
    ensures { result ≡ count_within length task }
{
    if task.D <= length {
        1 + (length - task.D) / task.T
    } else {
        0
    }
}

// How many jobs task k has under a plan.
pub fn count_of(plan: Plan, k: usize, task: Task) -> u32
    requires { Sound task }
    ensures { result ≡ (plan_train plan k task).count }
{
    match reach_of(plan, k) {
        Reach::Before(end) => count_before(task, end),
        Reach::Within { length, first: _ } => count_within(task, length),
        Reach::Once => 1,
    }
}

// How long q periods are: a wide number has room for a word more.
#[inline(always)]
fn periods(q: u32, period: u32) -> u64
    ensures { (result ≡ q * period) × (result < 2 ^ 64 - 2 ^ 32) }
{
    u64::from(q) * u64::from(period)
}

// When job q of a task is released, if that is before an end tick.
#[inline(always)]
#[tactic(auto, using(crate::proofs::Released::before_at, crate::proofs::Released::before_never))]
fn release_before(task: Task, end: u32, q: u32) -> Option<u64>
    requires { Sound task }
    ensures { Comes (released_before end task) task.T q result }
{
    let at = u64::from(task.R) + periods(q, task.T);
    if at < u64::from(end) { Some(at) } else { None }
}

// When job q of a task that comes from a tick on is released, if it is due within a length from then.
#[inline(always)]
#[tactic(auto, using(crate::proofs::Released::within_at, crate::proofs::Released::within_never))]
fn release_within(task: Task, length: u32, first: u32, q: u32) -> Option<u64>
    requires { Sound task }
    ensures { Comes (due_within first length task) task.T q result }
{
    let after = periods(q, task.T);
    if u64::from(task.D) + after <= u64::from(length) {
        Some(u64::from(first) + after)
    } else {
        None
    }
}

// When job q of a task that comes once, at 0, is released, whatever its period.
#[inline(always)]
fn release_once(q: u32) -> Option<u64>
    ensures { ComesOnce q result }
{
    if q == 0 { Some(0) } else { None }
}

// When job q of task k is released under a plan, if its train has that job.
#[inline(always)]
pub fn release_of(plan: Plan, k: usize, task: Task, q: u32) -> Option<u64>
    requires { Sound task }
    ensures { Comes (plan_train plan k task) task.T q result }
{
    match reach_of(plan, k) {
        Reach::Before(end) => release_before(task, end, q),
        Reach::Within { length, first } => release_within(task, length, first, q),
        Reach::Once => release_once(q),
    }
}
