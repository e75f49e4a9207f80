// Which job starts next. Of each task the number of its next job is kept; when that job is released is worked out while walking.
#![tactic(auto)]

ghost use Rattle.std.specs.Prelude.{◌≡◌, ◌+◌, ◌*◌, ◌^◌, ◌<◌};
ghost use Rattle.turn.specs.Counters.{last_turn, first_of};

use rules::Plan;
use table::{TASK_MOST, Tasks};
use trains::release_of;

// A job that could start next: its start, its deadline, its task. The one that can start first goes first, then the one with the lesser
// deadline, then that of the lower task.
#[derive(Clone, Copy, PartialEq, Eq, PartialOrd, Ord)]
pub struct Turn {
    pub start: u64,
    pub due: u64,
    pub task: usize,
}

// The turn of no task: each other goes before it.
const LAST: Turn = Turn {
    start: u64::MAX,
    due: u64::MAX,
    task: usize::MAX,
};

impl Turn {
    // Start and deadline as one number: of two turns the one with the lesser number goes first.
    // Kept: one number, and not the derived order: a comparison of start, deadline and task in turn took up to twice the time over 64 tasks.
    #[inline(always)]
    fn rank(self) -> u128
        ensures { result ≡ self.start * 2 ^ 64 + self.due }
    {
        (u128::from(self.start) << 64) + u128::from(self.due)
    }
}

// The jobs of a plan that are not started: of each task the number of its next job is kept.
// Kept: `next` beside the tasks, in fixed memory: the tasks' words are lent to be read, and only these numbers change.
#[derive(Clone, Copy)]
pub struct Waiting<'a> {
    pub tasks: Tasks<'a>,
    pub plan: Plan,
    pub next: [u32; TASK_MOST],
}

impl<'a> Waiting<'a> {
    ghost use Rattle.rules.specs.Table.{task_count};
    ghost use Rattle.turn.specs.Counters.{Offers, Best};

    // The next job of task i, if it has one left. It can start at t or at its release, whichever is later.
    #[inline(always)]
    fn offer(&self, t: u64, i: usize) -> Option<Turn>
        requires { i < task_count self.now.tasks.words.now }
        ensures { Offers self.now.tasks.words.now self.now.plan self.now.next t i result }
    {
        let task = self.tasks.task(i);
        let r = release_of(self.plan, i, task, self.next[i])?;
        let due = r + u64::from(task.D);
        Some(Turn {
            start: t.max(r),
            due,
            task: i,
        })
    }

    // The next job to start, with the tile free from tick t on, if one is left.
    // Kept: a loop over the tasks, and no chain with `min`, which took a fifth longer over 32 tasks; and the last turn in it for none: an option of
    // the best turn took up to twice the time over 64.
    pub fn choose(&self, t: u64) -> Option<Turn>
        ensures { Best self.now.tasks.words.now self.now.plan self.now.next t (task_count self.now.tasks.words.now) 0 result }
    {
        let mut best = LAST;
        for i in (0..self.tasks.count()).rev() {
            if let Some(turn) = self.offer(t, i) {
                best = sooner(best, turn);
            }
        }
        if best.task == usize::MAX {
            None
        } else {
            Some(best)
        }
    }
}

// Of two turns, the second of a lower task, the one that goes first.
#[inline(always)]
fn sooner(best: Turn, turn: Turn) -> Turn
    requires lower { turn.task < best.task }
    ensures first { result ≡ first_of best turn }
    ensures only { best ≡ last_turn → result ≡ turn }
{
    if best.rank() < turn.rank() {
        best
    } else {
        turn
    }
}
