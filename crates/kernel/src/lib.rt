// The records after a sheet's header: of each a kernel's four numbers, by the columns that have the names.
#![tactic(auto)]

ghost use Rattle.std.specs.Prelude.{◌≡◌};
ghost use Rattle.rules.specs.Sheet.{field_number};
ghost use Rattle.kernel.specs.Kernels.{Stores, Takes, Reads};

use field::Taker;
use header::Header;
use rules::Refusal;
use table::{TABLE_MOST, TASK_MOST};

// A kernel: its four words, and the bytes after its record.
#[derive(Clone, Copy)]
struct Kernel<'a> {
    words: [u32; 4],
    rest: &'a [u8],
}

// The number that bytes are, all of them.
#[tactic(auto, using(rules::proofs::RowSteps::no_number, rules::proofs::RowSteps::whole_number, rules::proofs::RowSteps::number_and_more))]
fn field_number(body: &[u8]) -> Option<u32>
    ensures { result ≡ field_number body.now }
{
    let (number, rest) = lines::read_number(body)?;
    if !rest.is_empty() {
        return None;
    }
    Some(number)
}

// The number in a column goes to each word whose column it is, if it is as due there.
// Kept: by the number k, since columns and words are two arrays; a zip of the one with the other's `iter_mut` is no plainer.
fn store_number(
    body: &[u8],
    column: usize,
    columns: &[usize; 4],
    words: &mut [u32; 4],
) -> Option<()>
    ensures { Stores body.now column columns.now words.old result words.new }
{
    for k in 0..4 {
        if columns[k] == column {
            words[k] = field_number(body)?;
        }
    }
    Some(())
}

// A kernel's words, as far as their fields have come, by the columns of the four names.
// Kept: two arrays of four side by side: the columns are the header's and stay, the words are filled for each record.
#[derive(Clone, Copy)]
struct Row {
    columns: [usize; 4],
    words: [u32; 4],
}

impl Taker for Row {
    ghost use Rattle.kernel.specs.Kernels.{IsStored, IsMissing, none_stored};

    ghost taken = { λ start cs now. IsStored start.columns start.words cs now.columns now.words };

    ghost refused = { λ start cs. IsMissing start.columns cs };

    fn take(&mut self, body: &[u8], n: usize) -> Option<()> {
        store_number(body, n, &self.columns, &mut self.words)
    }

    ghost begins = { λ x. none_stored x.columns x.words };
}

// The kernel of the record at the start of s, if it is as due.
fn read_kernel<'a>(s: &'a [u8], header: Header<'_>) -> Option<Kernel<'a>>
    ensures { Takes s.now header.entry.columns header.entry.count result }
{
    let columns = header.columns;
    let mut row = Row {
        columns,
        words: [0; 4],
    };
    let (n, rest) = field::read_record(s, &mut row)?;
    if n != header.count {
        return None;
    }
    let words = row.words;
    Some(Kernel { words, rest })
}

// All records after the header, which is record 1, up to the end of the sheet: their numbers go to the start of words; the answer is how many there
// are, or the number of the first that is not as due.
pub fn read_kernels(header: Header<'_>, words: &mut [u32; TABLE_MOST]) -> Result<usize, Refusal>
    ensures { Reads header.entry.rest.now header.entry.columns header.entry.count result words.new }
{
    let mut rest = header.rest;
    let mut n: usize = 0;
    // Kept: this loop walks the bytes that are left; a `for` over the tasks' places would ask twice whether the sheet has ended.
    while !rest.is_empty() {
        let record = (n + 2) as u32;
        if n == TASK_MOST {
            return Err(Refusal::BadRecord(record));
        }
        let Some(kernel) = read_kernel(rest, header) else {
            return Err(Refusal::BadRecord(record));
        };
        words[4 * n..4 * n + 4].copy_from_slice(&kernel.words);
        rest = kernel.rest;
        n += 1;
    }
    Ok(n)
}
