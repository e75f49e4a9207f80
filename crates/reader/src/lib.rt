// THE READER: the first set of a text, the rest handed back.
#![tactic(auto)]

ghost use Rattle.rules.specs.Calls.{Reads};

use rules::Refusal;
use table::TABLE_MOST;

// What the reader answers: how many tasks the set has, or the refusal; and the part of the text after the set, which is all of it at a refusal.
#[derive(Clone, Copy)]
pub struct Reading<'a> {
    pub answer: Result<u32, Refusal>,
    pub rest: &'a [u8],
}

// THE READER. The first set of a text goes to the start of table. A refusal changes nothing of it, so the set is scanned into a table of its own
// first.
// Kept: the last lines are in sheet and report too; a function of them would be one call for two, with a contract to state.
pub fn read<'a>(text: &'a [u8], table: &mut [u32]) -> Reading<'a>
    ensures { Reads text.now table.old result.answer result.rest.now table.new }
{
    let mut words = [0u32; TABLE_MOST];
    match scan::scan_set(text, &mut words) {
        Err(r) => Reading {
            answer: Err(r),
            rest: text,
        },
        Ok((n, rest)) => {
            let set = &words[..4 * n as usize];
            if table.len() < set.len() {
                return Reading {
                    answer: Err(Refusal::TooShort),
                    rest: text,
                };
            }
            table[..set.len()].copy_from_slice(set);
            Reading {
                answer: Ok(n),
                rest,
            }
        }
    }
}
