// The words for what is wrong with a sheet or with a text, put into a lent buffer.
#![tactic(auto)]

ghost use Rattle.std.specs.Prelude.{◌≤◌, ◌<◌, length};
ghost use Rattle.rules.specs.Numbers.{table_most};
ghost use Rattle.print.specs.Place.{Puts};
ghost use Rattle.print.specs.Pages.{Fits, Adds};
ghost use Rattle.wording.specs.Wording.{place, bad_record, wrong_in, sentence, too_long, InTable};

use print::Page;
use rules::Refusal;

// Where something is wrong: in a sheet, or in a text.
#[derive(Clone, Copy)]
pub enum Source {
    Sheet,
    Text,
}

// Where word i of the table stands is put on a page.
fn put_place(page: &mut Page, source: Source, i: u32)
    requires { (i < table_most) × Fits page.old (place source i) }
    ensures { Adds page.old (place source i) page.new }
{
    // Kept: a match on the source, which is chosen as the program runs; only here do the words differ by it.
    match source {
        Source::Sheet => {
            page.put_phrase(b"record ", i / 4 + 2, b": ");
            page.put_bytes(header::column_name(i as usize % 4));
        }
        Source::Text => {
            page.put_bytes(b"line ");
            page.put_number(i + 2);
        }
    }
}

// That word i is out of its range is put on a page.
fn put_out_of_range(page: &mut Page, source: Source, i: u32)
    requires { (i < table_most) × Fits page.old (wrong_in source (Refusal.OutOfRange i)) }
    ensures { Adds page.old (wrong_in source (Refusal.OutOfRange i)) page.new }
{
    put_place(page, source, i);
    let least = table::word_least(i as usize);
    page.put_phrase(b" is out of its range, which is ", least, b" to 65535");
}

// That a record is not as due is put on a page.
fn put_bad_record(page: &mut Page, l: u32)
    requires { Fits page.old (bad_record l) }
    ensures { Adds page.old (bad_record l) page.new }
{
    // Kept: 66 and no refusal of its own: a 65th record is refused by its number, whatever it holds (D51).
    let wrong: &[u8] = if l == 66 {
        b" is one too many: a tile has at most 64 kernels"
    } else {
        b" is not as due"
    };
    page.put_phrase(b"record ", l, wrong);
}

// What is wrong is put on a page.
// Kept: `InTable refusal` in three functions, and no invariant of a type: the definitions make a rules::Refusal of any index.
fn put_wrong(page: &mut Page, source: Source, refusal: Refusal)
    requires { InTable refusal × Fits page.old (wrong_in source refusal) }
    ensures { Adds page.old (wrong_in source refusal) page.new }
{
    match refusal {
        Refusal::NoHeader => page.put_bytes(
            b"the header must name execution, deadline, period and release once each",
        ),
        Refusal::BadRecord(l) => put_bad_record(page, l),
        Refusal::NoRecord => page.put_bytes(b"no record comes after the header"),
        Refusal::OutOfRange(i) => put_out_of_range(page, source, i),
        Refusal::BadLine(l) => page.put_phrase(b"line ", l, b" is missing or not as due"),
        _ => {}
    }
}

// The line for a refusal is put on a page: what is wrong, and the refusal's number.
fn put_refused(page: &mut Page, source: Source, refusal: Refusal)
    requires { InTable refusal × Fits page.old (sentence source refusal) }
    ensures { Adds page.old (sentence source refusal) page.new }
{
    page.put_bytes(b"tilecheck: ");
    put_wrong(page, source, refusal);
    page.put_phrase(b" (refusal ", numbers::refusal_number(refusal), b")\n");
}

// The line for a refusal is put at the start of out.
pub fn put_sentence(out: &mut [u8], source: Source, refusal: Refusal) -> usize
    requires { InTable refusal × (length (sentence source refusal) ≤ length out.old) }
    ensures { Puts out.old 0 (sentence source refusal) result out.new }
{
    let mut page = Page::new(out);
    put_refused(&mut page, source, refusal);
    page.at
}

// The line for an input that is too long is put at the start of out.
pub fn put_too_long(out: &mut [u8]) -> usize
    requires { length too_long ≤ length out.old }
    ensures { Puts out.old 0 too_long result out.new }
{
    let mut page = Page::new(out);
    page.put_bytes(b"tilecheck: the input has more than 32768 bytes\n");
    page.at
}
