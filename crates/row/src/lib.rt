// One row: its words, and the late job that is held from row to row.
#![tactic(auto)]

ghost use Rattle.std.specs.Prelude.{◌≡◌, ◌∷◌, ◌++◌, ◌+◌, ◌*◌, ◌<◌, length, take, drop};
ghost use Rattle.row.specs.Lateness.{noting};

use rules::Late;

// Writes row k.
pub fn put_row(rows: &mut [u64], k: usize, task: u64, number: u64, s: u64, f: u64)
    requires { 4 * k + 3 < length rows.old }
    ensures { rows.new ≡ take (4 * k) rows.old ++ (task ∷ number ∷ s ∷ f ∷ drop (4 * k + 4) rows.old) }
{
    rows[4 * k..4 * k + 4].copy_from_slice(&[task, number, s, f]);
}

// The late job after one row more, of a job that finishes at f and is late if it is due before: the one whose deadline is least, ties to the
// lower task.
// Kept: deadlines, then tasks, and not as tuples: where each row is late a schedule took a fifth longer with these.
pub fn noted(held: Option<Late>, job: Late, f: u64) -> Option<Late>
    ensures { result ≡ noting held job f }
{
    if f <= job.deadline {
        return held;
    }
    match held {
        Some(other) if other.deadline < job.deadline => held,
        Some(other) if other.deadline == job.deadline && other.task <= job.task => held,
        _ => Some(job),
    }
}
