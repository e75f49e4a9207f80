// The writers of a table: one for every form, and the text of a set, which is one of the forms.
#![tactic(auto)]

ghost use Rattle.std.specs.Prelude.{◌≡◌, ◌+◌, ◌/◌, ◌%◌, ◌≤◌, ◌<◌, ◌++◌, [], ◌∷◌, length, drop};
ghost use Rattle.rules.specs.Text.{tasks_key, key_of, digits, line, write_lines, write_set};
ghost use Rattle.rules.specs.Calls.{Makes, Writes};

use print::Page;
use rules::{Refusal, TASK_KEYS, TASKS_KEY};
use table::Tasks;

// A form in which a table is written: what stands first, and what stands before and after a word, by the word's place among its task's four.
pub trait Form {
    ghost use Rattle.std.specs.Prelude.{ℕ, List, get_or};
    ghost use Rattle.print.specs.Pages.{Fits, Adds};

    ghost make: { List ℕ → List ℕ };

    ghost first: { List ℕ → List ℕ };

    ghost before: { ℕ → List ℕ };

    ghost after: { ℕ → List ℕ };

    ghost words: { ℕ → List ℕ → List ℕ };

    // How long what stands first is.
    fn first_length(tasks: Tasks) -> usize
        ensures { (result ≡ length (first tasks.entry.words.now)) × (result ≤ 35) };

    // What stands first is put at the page's place.
    fn put_first(tasks: Tasks, page: &mut Page)
        requires { Fits page.old (first tasks.words.now) }
        ensures { Adds page.old (first tasks.entry.words.now) page.new };

    // What stands before a word.
    // Kept: `which < 4`, as in header::column_name.
    fn before_word(which: usize) -> &'static [u8]
        requires { which < 4 }
        ensures { (result.now ≡ before which) × (length (before which) ≤ 2) };

    // What stands after a word.
    fn after_word(which: usize) -> &'static [u8]
        requires { which < 4 }
        ensures { (result.now ≡ after which) × (length (after which) ≤ 2) };

    // A word is put at the page's place, with what stands before and after it.
    fn put_word(page: &mut Page, which: usize, n: u32)
        requires low { which < 4 }
        requires room { Fits page.old (before which ++ (digits n ++ after which)) }
        ensures { Adds page.old (before which ++ (digits n ++ after which)) page.new };

    ghost made: { (ws : List ℕ) → make ws ≡ first ws ++ words 0 ws };

    ghost none: { (ws : List ℕ) (k : ℕ) → length ws ≤ k → words k (drop k ws) ≡ [] };

    ghost more: { (ws : List ℕ) (k : ℕ) → k < length ws
        → words k (drop k ws) ≡ (before (k % 4) ++ (digits (get_or ws k 0) ++ after (k % 4))) ++ words (k + 1) (drop (k + 1) ws) };
}

// The text of a set: a line for the count, then a line a word.
pub struct Text;

impl Form for Text {
    ghost use Rattle.std.proofs.Common.{ap, ◌∙◌};
    ghost use Rattle.rules.proofs.WriteSteps.{line_is, set_is, write_none, write_more};

    ghost make = { write_set };

    ghost first = { λ ws. line tasks_key (digits (length ws / 4)) };

    ghost before = { key_of };

    ghost after = { λ k. 10 ∷ [] };

    ghost words = { write_lines };

    fn first_length(tasks: Tasks) -> usize {
        print::width(tasks.count() as u32) + 7
    }

    fn put_first(tasks: Tasks, page: &mut Page) {
        page.put_line(&TASKS_KEY, tasks.count() as u32);
    }

    fn before_word(which: usize) -> &'static [u8] {
        &TASK_KEYS[2 * which..2 * which + 2]
    }

    fn after_word(_which: usize) -> &'static [u8] {
        b"\n"
    }

    fn put_word(page: &mut Page, which: usize, n: u32) {
        page.put_phrase(&TASK_KEYS[2 * which..2 * which + 2], n, b"\n");
    }

    ghost made = { set_is };

    ghost none = { write_none };

    ghost more = { λ ws k h. write_more ws k h ∙ ap (λ l. l ++ write_lines (k + 1) (drop (k + 1) ws)) (line_is _ _) };
}

// How long what is made of a table is.
// Kept: a loop as in `put`, over the same words with the same `which`; its invariant has the bound that a sum would ask for.
fn length_of<F: Form>(tasks: Tasks) -> usize
    ensures { (result ≡ length (F.make tasks.entry.words.now)) × (result < 100000) }
{
    let mut total = F::first_length(tasks);
    for (k, &n) in tasks.words.iter().enumerate() {
        let which = k % 4;
        total += F::before_word(which).len() + print::width(n) + F::after_word(which).len();
    }
    total
}

// What is made of a table is put at the start of out.
fn put<F: Form>(tasks: Tasks, out: &mut [u8])
    requires { length (F.make tasks.words.now) ≤ length out.old }
    ensures { out.new ≡ F.make tasks.entry.words.now ++ drop (length (F.make tasks.entry.words.now)) out.old }
{
    let mut page = Page::new(out);
    F::put_first(tasks, &mut page);
    for (k, &n) in tasks.words.iter().enumerate() {
        F::put_word(&mut page, k % 4, n);
    }
}

// A WRITER. What is made of a table in a form goes to the start of out; the answer is its length.
pub fn make<F: Form>(table: &[u32], out: &mut [u8]) -> Result<u32, Refusal>
    ensures { Makes F.make table.now out.old result out.new }
{
    let tasks = Tasks::new(table)?;
    let total = length_of::<F>(tasks);
    if out.len() < total {
        return Err(Refusal::TooShort);
    }
    put::<F>(tasks, out);
    Ok(total as u32)
}

// THE WRITER. The text of a table goes to the start of out; the answer is its length.
pub fn write(table: &[u32], out: &mut [u8]) -> Result<u32, Refusal>
    ensures { Writes table.now out.old result out.new }
{
    make::<Text>(table, out)
}
