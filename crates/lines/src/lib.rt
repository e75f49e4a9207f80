// One line, read: a key, a number, byte 10. What was found comes with the bytes left to read after it.
#![tactic(auto)]

ghost use Rattle.std.specs.Prelude.{◌≡◌, ◌<◌, MatchOption};
ghost use Rattle.rules.specs.Text.{got, more_digits, read_number, read_line};
ghost use Rattle.lines.specs.Line.{Skips, Finds, IsValueOf, NoDigit};

// The bytes after a key, if s begins with it.
// Kept: by hand, and not by `strip_prefix`, which compares groups of bytes by a call: most keys have one byte or two.
pub fn skip_key<'a>(s: &'a [u8], key: &[u8]) -> Option<&'a [u8]>
    ensures { Skips key.now s.now result }
{
    let mut rest = s;
    for &due in key {
        let (b, after) = rest.split_first()?;
        if *b != due {
            return None;
        }
        rest = after;
    }
    Some(rest)
}

// The number that a byte stands for, if it is a decimal digit.
#[tactic(auto, using(rules::proofs::ReadSteps::below_digits, rules::proofs::ReadSteps::above_digits, rules::proofs::ReadSteps::a_digit))]
fn digit(b: u8) -> Option<u32>
    ensures { MatchOption result (NoDigit b) (λ v. IsValueOf b v) }
{
    char::from(b).to_digit(10)
}

// The number with at most four digits more, after the first; and the bytes after it.
// Kept: by hand, and not by `parse`, which takes a `+` and any number of digits, and does not say where they end.
fn more_digits<'a>(s: &'a [u8], first: u32) -> (u32, &'a [u8])
    requires { first < 10 }
    ensures { more_digits 4 first s.now ≡ got result.0 result.1.now }
{
    let mut v = first;
    let mut rest = s;
    for _ in 0..4u32 {
        let Some((b, after)) = rest.split_first() else {
            return (v, rest);
        };
        let Some(d) = digit(*b) else {
            return (v, rest);
        };
        v = v * 10 + d;
        rest = after;
    }
    (v, rest)
}

// The number at the start of s, and the bytes after it.
pub fn read_number<'a>(s: &'a [u8]) -> Option<(u32, &'a [u8])>
    ensures { Finds (read_number s.now) result }
{
    let (b, after) = s.split_first()?;
    let first = digit(*b)?;
    if first == 0 {
        return Some((0, after));
    }
    Some(more_digits(after, first))
}

// The number of a line with a key, and the bytes after the line.
pub fn read_line<'a>(s: &'a [u8], key: &[u8]) -> Option<(u32, &'a [u8])>
    ensures { Finds (read_line key.now s.now) result }
{
    let after_key = skip_key(s, key)?;
    let (v, end) = read_number(after_key)?;
    let rest = skip_key(end, b"\n")?;
    Some((v, rest))
}
