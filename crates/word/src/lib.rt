// A word that a program is called with, as a number.
#![tactic(auto)]

ghost use Rattle.std.specs.Prelude.{◌≡◌};
ghost use Rattle.word.specs.Word.{number_in};

// The number in a word: one or more decimal digits, with a value of at most most. A word with a greater value is read no further.
// Kept: by hand, and not by `parse`, which is for a `str` and takes a `+` before the digits, where a word has digits alone.
pub fn number_in(word: &[u8], most: u32) -> Option<u32>
    ensures { result ≡ number_in word.now most }
{
    if word.is_empty() {
        return None;
    }
    let most = u64::from(most);
    let mut value: u64 = 0;
    for &b in word {
        let digit = char::from(b).to_digit(10)?;
        value = value * 10 + u64::from(digit);
        if value > most {
            return None;
        }
    }
    Some(value as u32)
}
