// The first set of a text, line by line, into a table.
#![tactic(auto)]

ghost use Rattle.std.specs.Prelude.{◌*◌, ◌≤◌, ◌<◌, length, MatchResult};
ghost use Rattle.rules.specs.Numbers.{task_most, table_most};
ghost use Rattle.rules.specs.Text.{key_of, read_line, read_lines, read_set};
ghost use Rattle.lines.specs.Line.{Finds};
ghost use Rattle.scan.specs.Scanned.{Scans, IsWhole, Stops};

use rules::{Refusal, TASK_KEYS, TASKS_KEY};
use table::TASK_MOST;

// One of a task's four lines: its number, and what is left.
// Kept: `which < 4`, as in header::column_name.
fn task_line<'a>(s: &'a [u8], which: usize) -> Option<(u32, &'a [u8])>
    requires { which < 4 }
    ensures { Finds (read_line (key_of which) s.now) result }
{
    lines::read_line(s, &TASK_KEYS[2 * which..2 * which + 2])
}

// The lines of tasks, one for each of so many words: their numbers fill the words, what is left comes back.
fn task_lines<'a>(s: &'a [u8], words: &mut [u32]) -> Result<&'a [u8], Refusal>
    requires { length words.old ≤ table_most }
    ensures { MatchResult result (λ rest. IsWhole (read_lines (length words.old) 0 s.now) words.new rest.now) (λ r. Stops (read_lines (length words.old) 0 s.now) r) }
{
    let mut rest = s;
    for (k, word) in words.iter_mut().enumerate() {
        let Some((v, after)) = task_line(rest, k % 4) else {
            return Err(Refusal::BadLine((2 + k) as u32));
        };
        *word = v;
        rest = after;
    }
    Ok(rest)
}

// The first set of a text goes straight to the start of words, which has room for any set: how many tasks it has, and the bytes after it. Where a
// line is not as due, words may hold some of the set: it is for callers that own the table.
// Kept: a slice with room for any set, and no array of 256 words: the contract of this call may not change, and a longer one may be lent.
pub fn scan_set<'a>(text: &'a [u8], words: &mut [u32]) -> Result<(u32, &'a [u8]), Refusal>
    requires { table_most ≤ length words.old }
    ensures { Scans (read_set text.now) result words.new }
{
    let Some((n, after)) = lines::read_line(text, &TASKS_KEY) else {
        return Err(Refusal::BadLine(1));
    };
    if !(1..=TASK_MOST as u32).contains(&n) {
        return Err(Refusal::BadLine(1));
    }
    let rest = task_lines(after, &mut words[..4 * n as usize])?;
    Ok((n, rest))
}
