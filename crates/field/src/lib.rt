// One field of a sheet, and what follows it: a comma, the end of the record, or neither.
#![tactic(auto)]

ghost use Rattle.std.specs.Prelude.{◌≡◌, MatchOption, Some, None};
ghost use Rattle.rules.specs.Sheet.{mark, content, no_field, read_field, after_end, next_field};
ghost use Rattle.rules.specs.Standing.{standing, standing_step};
ghost use Rattle.std.specs.List.{position};
ghost use Rattle.field.specs.Fields.{Quoted, stepped};
ghost use Rattle.field.specs.Takers.{Taken, Refused};

// A field: its bytes, without the quotes around them; the bytes after what follows it; and whether that is the end of the record.
#[derive(Clone, Copy)]
pub struct Field<'a> {
    pub body: &'a [u8],
    pub rest: &'a [u8],
    pub last: bool,
}

// Whether a byte is a quote, a comma, a carriage return or a line feed.
#[tactic(auto, using(rules::proofs::FieldSteps::is_quote, rules::proofs::FieldSteps::is_comma, rules::proofs::FieldSteps::is_cr, rules::proofs::FieldSteps::is_lf_or_none))]
fn is_mark(b: u8) -> bool
    ensures { result ≡ mark b }
{
    matches!(b, b'\n' | b'\r' | b',' | b'"')
}

// Where the first mark stands, if there is one.
fn first_mark(s: &[u8]) -> Option<usize>
    ensures { result ≡ position mark s.now }
{
    s.iter().position(|b| is_mark(*b))
}

// How many bytes of a quoted field, after its first quote, stand before the quote that closes it, if one does.
// Never inlined: with this loop among them, the steps from one plain field to the next take longer.
#[inline(never)]
fn quoted_length(s: &[u8]) -> Option<usize>
    ensures { Quoted s.now result }
{
    let mut rest = s;
    while let Some((b, after)) = rest.split_first() {
        rest = if *b == b'"' {
            let Some((next, further)) = after.split_first() else {
                return Some(s.len() - rest.len());
            };
            if *next != *b {
                return Some(s.len() - rest.len());
            }
            further
        } else {
            after
        };
    }
    None
}

// The field at the start of s: its bytes, without the quotes around them, and those after it.
fn read_field<'a>(s: &'a [u8]) -> Option<(&'a [u8], &'a [u8])>
    ensures { MatchOption result (standing (read_field s.now) ≡ no_field) (λ p. standing (read_field s.now) ≡ content p.0.now p.1.now) }
{
    let Some(t) = lines::skip_key(s, b"\"") else {
        return Some(s.split_at(first_mark(s).unwrap_or(s.len())));
    };
    let n = quoted_length(t)?;
    Some((&t[..n], &t[n + 1..]))
}

// The bytes after the end of a record, if one ends at the start of s.
fn end_record<'a>(s: &'a [u8]) -> Option<&'a [u8]>
    ensures { MatchOption result (after_end s.now ≡ None) (λ rest. after_end s.now ≡ Some rest.now) }
{
    if s.is_empty() {
        return Some(s);
    }
    lines::skip_key(s, b"\n").or(lines::skip_key(s, b"\r\n"))
}

// The next field of a record, if it is as due.
pub fn next_field<'a>(s: &'a [u8]) -> Option<Field<'a>>
    ensures { stepped result ≡ standing_step (next_field s.now) }
{
    let (body, after) = read_field(s)?;
    if let Some(rest) = lines::skip_key(after, b",") {
        return Some(Field {
            body,
            rest,
            last: false,
        });
    }
    let rest = end_record(after)?;
    Some(Field {
        body,
        rest,
        last: true,
    })
}

// What takes the fields of a record one after another, with their numbers, which are counted from 1.
pub trait Taker {
    ghost use Rattle.std.specs.Prelude.{List, [], ℕ};
    ghost use Rattle.field.specs.Takers.{TakesOn};

    // what one has become of another by taking fields with these contents
    ghost taken: { Self → List (List ℕ) → Self → Type 0 };

    // what such contents have if no record that begins with them is as due
    ghost refused: { Self → List (List ℕ) → Type 0 };

    // One field is taken, if it is as due.
    fn take(&mut self, body: &[u8], n: usize) -> Option<()>
        ensures { TakesOn taken refused body.now n self.old self.new result };

    ghost begins: { (x : Self) → taken x [] x };
}

// The fields of the record at the start of s are taken, if all are as due: how many there are, and the bytes after the record.
pub fn read_record<'a, T: Taker>(s: &'a [u8], to: &mut T) -> Option<(usize, &'a [u8])>
    ensures { MatchOption result (Refused T.refused s.now to.old) (λ p. Taken T.taken s.now to.old to.new p.0 p.1.now) }
{
    let mut rest = s;
    let mut n: usize = 0;
    // Kept: this loop walks the fields that are left; a `for` over their numbers would want a last one, which no reader knows before.
    loop {
        let field = next_field(rest)?;
        n += 1;
        to.take(field.body, n)?;
        rest = field.rest;
        if field.last {
            return Some((n, rest));
        }
    }
}
