// Draws on plain numbers: the state is a number that each draw is lent and moves on.
#![tactic(auto)]

ghost use Rattle.std.specs.Prelude.{◌≡◌, ◌+◌, ◌*◌, ◌%◌, ◌<◌, ◌≤◌, ◌&&◌, ◌∷◌, ◌++◌, length, take, drop, ◌==◌, if◌then◌else◌};
ghost use Rattle.rules.specs.Generator.{next_state, state_after, task_drawn, tasks_drawn, long_kernel, with_long, words_of, Draws, DrawsSet};

use rules::{Refusal, Task};

// D and T of the long kernel.
const LONG: u32 = 65535;

// The product of two numbers, modulo 4,294,967,296.
// Kept: document 01 ("Language form for each place") asks for an own wrapping multiply, so it is not the method `wrapping_mul`.
fn wrapping_mul(a: u32, b: u32) -> u32
    ensures { result ≡ a * b % 4294967296 }
{
    (u64::from(a) * u64::from(b) % 4294967296) as u32
}

// The state after a draw.
#[tactic(auto, using(rules::proofs::Drawn::next_is))]
pub fn next(state: u32) -> u32
    ensures { result ≡ next_state state }
{
    wrapping_mul(1664525, state).wrapping_add(1013904223)
}

// A draw: the number drawn; the state is moved on.
#[tactic(auto, using(rules::proofs::Drawn::drew))]
pub fn draw_from(state: &mut u32) -> u32
    ensures { Draws state.old result state.new }
{
    *state = next(*state);
    *state / 65536
}

// A task, by four draws: T, C, D, R.
fn draw_task(state: &mut u32) -> Task
    ensures { (result ≡ task_drawn state.old) × (state.new ≡ state_after 4 state.old) }
{
    let T = 1 + draw_from(state) % 1000;
    let C = 1 + draw_from(state) % T;
    let D = 1 + draw_from(state) % 2000;
    let R = draw_from(state) % 1000;
    Task { C, D, T, R }
}

// What a task drawn becomes: the long kernel, where that is asked for and it is the only one left.
fn place(task: Task, asked: bool, left: usize, least: u32) -> Task
    ensures { result ≡ (if asked && left == 1 then long_kernel least task else task) }
{
    if asked && left == 1 {
        Task {
            C: least,
            D: LONG,
            T: LONG,
            ..task
        }
    } else {
        task
    }
}

// A task's four words go to a place in a table.
fn put_task(table: &mut [u32], at: usize, task: Task)
    requires { at + 3 < length table.old }
    ensures { table.new ≡ take at table.old ++ (task.C ∷ task.D ∷ task.T ∷ task.R ∷ drop (at + 4) table.old) }
{
    table[at..at + 4].copy_from_slice(&[task.C, task.D, task.T, task.R]);
}

// The n tasks of a set go to the start of a table; the last one is the long kernel where that is asked for and another stands before it.
// Kept: `n` beside the table, which may be longer: what lies beyond the set stays, and the contract says so of all of it.
fn draw_tasks(state: &mut u32, n: usize, asked: bool, table: &mut [u32])
    requires { (1 ≤ n) × (n ≤ 8) × (4 * n ≤ length table.old) }
    ensures moved { state.new ≡ state_after (4 * n) state.old }
    ensures filled { table.new ≡ words_of (if asked then with_long (tasks_drawn n state.old) else tasks_drawn n state.old) ++ drop (4 * n) table.old }
{
    let first = draw_task(state);
    put_task(table, 0, first);
    let mut least = first.D;
    for i in 1..n {
        let task = draw_task(state);
        put_task(table, 4 * i, place(task, asked, n - i, least));
        least = least.min(task.D);
    }
}

// THE SET of a number goes to the start of a table; the answer is the task count, and the state is moved on. Where the table is too short,
// nothing is.
pub fn draw_set_from(state: &mut u32, number: u32, table: &mut [u32]) -> Result<u32, Refusal>
    ensures { DrawsSet state.old number table.old result state.new table.new }
{
    let mut after = *state;
    let n = 1 + draw_from(&mut after) % 8;
    let count = n as usize;
    if table.len() < 4 * count {
        return Err(Refusal::TooShort);
    }
    draw_tasks(&mut after, count, number % 4 == 0, table);
    *state = after;
    Ok(n)
}
