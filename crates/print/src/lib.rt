// Bytes, numbers and lines, put on a page: a lent buffer with a place, which each call moves on.
#![tactic(auto)]

ghost use Rattle.std.specs.Prelude.{◌≡◌, ◌+◌, ◌≤◌, length};
ghost use Rattle.rules.specs.Text.{digits, line};

// The numbers at which a digit more is needed.
const POWERS: [u32; 9] = [
    10, 100, 1000, 10000, 100000, 1000000, 10000000, 100000000, 1000000000,
];

// How many digits a number has.
// By comparisons, the least power first, since most numbers have few digits: `ilog10` takes longer for them.
pub fn width(n: u32) -> usize
    ensures { (result ≡ length (digits n)) × (result ≤ 10) }
{
    POWERS
        .iter()
        .position(|power| n < *power)
        .unwrap_or(POWERS.len())
        + 1
}

// A lent buffer, and the place from which bytes are put next.
#[derive(Drop)]
pub struct Page<'a> {
    pub out: &'a mut [u8],
    pub at: usize,
}

// What can be put on a page: bytes, or the digits of a number.
pub trait Part {
    ghost use Rattle.std.specs.Prelude.{ℕ, List};
    ghost use Rattle.print.specs.Pages.{Fits, Adds};

    ghost shown: { Self → List ℕ };

    // It is put at the page's place.
    fn put(self, page: &mut Page)
        requires { Fits page.old (shown self) }
        ensures { Adds page.old (shown self) page.new };
}

impl<const N: usize> Part for &[u8; N] {
    ghost shown = { λ bytes. bytes.now };

    fn put(self, page: &mut Page) {
        page.put_bytes(self);
    }
}

impl Part for &[u8] {
    ghost shown = { λ bytes. bytes.now };

    fn put(self, page: &mut Page) {
        page.put_bytes(self);
    }
}

impl Part for u32 {
    ghost shown = { digits };

    fn put(self, page: &mut Page) {
        page.put_number(self);
    }
}

impl<'a> Page<'a> {
    ghost use Rattle.std.specs.Prelude.{◌++◌};
    ghost use Rattle.print.specs.Pages.{Fits, Adds};

    // A buffer, from its start.
    pub fn new(out: &'a mut [u8]) -> Page<'a>
        ensures start { result.at ≡ 0 }
        ensures same { result.out.ghost_name ≡ out.entry.ghost_name }
        ensures holds { result.out.now ≡ out.old }
    {
        Page { out, at: 0 }
    }

    // Bytes are put at the place.
    pub fn put_bytes(&mut self, bytes: &[u8])
        requires { Fits self.old bytes.now }
        ensures { Adds self.old bytes.now self.new }
    {
        let end = self.at + bytes.len();
        self.out[self.at..end].copy_from_slice(bytes);
        self.at = end;
    }

    // A number's digits are put at the place, the last one first.
    // Kept: by hand, and not by Display, since what std's fmt::Write promises of a text leaves open that nothing is written (`OnOk result`).
    pub fn put_number(&mut self, n: u32)
        requires { Fits self.old (digits n) }
        ensures { Adds self.old (digits n) self.new }
    {
        // One digit, as many words have, is put without a division.
        if n < 10 {
            self.out[self.at] = b'0' + n as u8;
            self.at += 1;
            return;
        }
        let end = self.at + width(n);
        let mut v = n;
        // Kept: by the place i: once a slice's `iter_mut` is over, a proof knows no element that was written through it.
        for i in (self.at..end).rev() {
            self.out[i] = b'0' + (v % 10) as u8;
            v /= 10;
        }
        self.at = end;
    }

    // Bytes, a part and bytes are put at the place.
    pub fn put_phrase<V: Part>(&mut self, before: &[u8], value: V, after: &[u8])
        requires { Fits self.old (before.now ++ (V.shown value ++ after.now)) }
        ensures { Adds self.old (before.now ++ (V.shown value ++ after.now)) self.new }
    {
        self.put_bytes(before);
        value.put(self);
        self.put_bytes(after);
    }

    // A line is put at the place: a key, a value, byte 10.
    pub fn put_line<V: Part>(&mut self, key: &[u8], value: V)
        requires { Fits self.old (line key.now (V.shown value)) }
        ensures { Adds self.old (line key.now (V.shown value)) self.new }
    {
        self.put_phrase(key, value, b"\n");
    }
}
