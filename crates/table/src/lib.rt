// A table and its tasks: whether it is one, refusals 1 to 4; and the one reader of a task.
#![tactic(auto)]

ghost use Rattle.std.specs.Prelude.{◌≡◌, ◌+◌, ◌*◌, ◌≤◌, ◌<◌, length, Some, None, MatchResult};
ghost use Rattle.rules.specs.Numbers.{table_most};
ghost use Rattle.rules.specs.Refusals.{answering};
ghost use Rattle.rules.specs.Table.{word_least, in_range, out_of_range, table_refusal, table_answer, task_in, task_count, ValidTable};

use rules::{Refusal, Task};

// The most tasks, the most words of a table, and the greatest value of a word.
pub const TASK_MOST: usize = 64;

pub const TABLE_MOST: usize = 4 * TASK_MOST;

const WORD_MOST: u32 = 65535;

// The task of number i.
// Kept: beside `Tasks::task`, which is this for a table that is not refused: its contract may not change, and this asks less.
pub fn task_at(table: &[u32], i: usize) -> Task
    requires { 4 * i + 3 < length table.now }
    ensures { result ≡ task_in table.now i }
{
    Task {
        C: table[4 * i],
        D: table[4 * i + 1],
        T: table[4 * i + 2],
        R: table[4 * i + 3],
    }
}

// The least value of the word at an index: R may be 0.
#[tactic(auto, using(rules::proofs::TableSteps::least_r, rules::proofs::TableSteps::least_other))]
pub fn word_least(i: usize) -> u32
    ensures { result ≡ word_least i }
{
    if i % 4 == 3 { 0 } else { 1 }
}

// Whether the word at an index is in its range.
#[tactic(auto, using(rules::proofs::TableSteps::too_low, rules::proofs::TableSteps::too_high, rules::proofs::TableSteps::in_between))]
fn in_range(i: usize, x: u32) -> bool
    ensures { result ≡ in_range i x }
{
    (word_least(i)..=WORD_MOST).contains(&x)
}

// Refusal 4, with the index of the first word out of its range.
fn check_words(table: &[u32]) -> Result<(), Refusal>
    requires { length table.now ≤ table_most }
    ensures { result ≡ answering (out_of_range 0 table.now) Err (Ok tt) }
{
    match table
        .iter()
        .enumerate()
        .position(|(i, word)| !in_range(i, *word))
    {
        Some(i) => Err(Refusal::OutOfRange(i as u32)),
        None => Ok(()),
    }
}

// Whether a table is one: refusals 1, 2, 3, 4, in this order.
#[tactic(auto, using(rules::proofs::TableSteps::no_word, rules::proofs::TableSteps::not_fours, rules::proofs::TableSteps::too_many, rules::proofs::TableSteps::by_words))]
pub fn check_table(table: &[u32]) -> Result<(), Refusal>
    ensures { result ≡ table_answer table.now }
{
    let n = table.len();
    if n == 0 {
        return Err(Refusal::NoWord);
    }
    if n % 4 != 0 {
        return Err(Refusal::NotFours);
    }
    if n > TABLE_MOST {
        return Err(Refusal::TooManyWords);
    }
    check_words(table)
}

// The tasks of a table that is not refused, in the words that were lent.
#[derive(Clone, Copy)]
pub struct Tasks<'a> {
    pub words: &'a [u32],
    pub ghost valid: { ValidTable words.now },
}

impl<'a> Tasks<'a> {
    // The tasks of a table; or its refusal, 1 to 4.
    pub fn new(words: &'a [u32]) -> Result<Tasks<'a>, Refusal>
        ensures { MatchResult result (λ tasks. (table_refusal words.now ≡ None) × (tasks.words.now ≡ words.now))
            (λ why. table_refusal words.now ≡ Some why) }
    {
        check_table(words)?;
        Ok(Tasks { words })
    }

    // How many there are.
    pub fn count(self) -> usize
        ensures { result ≡ task_count self.entry.words.now }
    {
        self.words.len() / 4
    }

    // The task of number i.
    pub fn task(self, i: usize) -> Task
        requires { i < task_count self.words.now }
        ensures { result ≡ task_in self.entry.words.now i }
    {
        task_at(self.words, i)
    }
}
