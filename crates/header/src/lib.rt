// The header of a sheet: how many columns there are, and which of them have the four names.
#![tactic(auto)]

ghost use Rattle.std.specs.Prelude.{◌≡◌, ◌<◌, length};
ghost use Rattle.rules.specs.Sheet.{name_of, is_name};
ghost use Rattle.header.specs.Headers.{Notes, AllOf, Heads};

mod found;

use field::Taker;
pub use found::Header;
use rules::{DEADLINE, EXECUTION, PERIOD, RELEASE};

// The name of a column, by the place of its word in a task.
// Kept: `which < 4`, a number and no enum: the definitions (name_of, key_of, after_word) take it, and the words are counted by it.
pub fn column_name(which: usize) -> &'static [u8]
    requires { which < 4 }
    ensures { result.now ≡ name_of which }
{
    match which {
        0 => &EXECUTION,
        1 => &DEADLINE,
        2 => &PERIOD,
        _ => &RELEASE,
    }
}

// Whether bytes are a name.
// Kept: `==` by the definition's name: its contract is `is_name`, which note_name and its loop are stated by.
pub fn is_name(body: &[u8], name: &[u8]) -> bool
    ensures { result ≡ is_name name.now body.now }
{
    body == name
}

// A column's name is noted where it is one of the four, if none was noted before.
fn note_name(body: &[u8], column: usize, columns: &mut [Option<usize>; 4]) -> Option<()>
    ensures { Notes body.now column columns.old result columns.new }
{
    for (k, noted) in columns.iter_mut().enumerate() {
        if is_name(body, column_name(k)) {
            if noted.is_some() {
                return None;
            }
            *noted = Some(column);
        }
    }
    Some(())
}

// The columns of the four names, as far as they have come.
#[derive(Clone, Copy)]
struct Named {
    columns: [Option<usize>; 4],
}

impl Taker for Named {
    ghost use Rattle.header.specs.Headers.{IsNoted, IsTwice, none_noted};

    ghost taken = { λ start cs now. IsNoted start.columns cs now.columns };

    ghost refused = { λ start cs. IsTwice start.columns cs };

    fn take(&mut self, body: &[u8], n: usize) -> Option<()> {
        note_name(body, n, &mut self.columns)
    }

    ghost begins = { λ x. none_noted x.columns };
}

// The columns of the four names, if all have one.
fn all_named(columns: &[Option<usize>; 4]) -> Option<[usize; 4]>
    ensures { AllOf columns.now result }
{
    Some([columns[0]?, columns[1]?, columns[2]?, columns[3]?])
}

// The header at the start of a sheet, if it is there and good.
pub fn read_header<'a>(s: &'a [u8]) -> Option<Header<'a>>
    ensures { Heads s.now result }
{
    let mut named = Named { columns: [None; 4] };
    let (count, rest) = field::read_record(s, &mut named)?;
    let columns = all_named(&named.columns)?;
    Some(Header {
        columns,
        count,
        rest,
    })
}
