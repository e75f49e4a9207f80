// The texts of sets drawn one after another, on slices.
#![tactic(auto)]

ghost use Rattle.std.specs.Prelude.{◌+◌, ◌*◌, ◌^◌, ◌≤◌, length};
ghost use Rattle.texts.specs.Texts.{text_most, PutsSet, PutsSets};

// The most bytes of a set's text: 8 for the line of the count, and 8 for each of at most 32 words.
pub const TEXT_MOST: usize = 264;

// The set of a number is drawn, and its text goes to the start of out; the answer is its length.
fn put_set(state: &mut u32, number: u32, out: &mut [u8]) -> usize
    requires { text_most ≤ length out.old }
    ensures { PutsSet state.old number out.old result state.new out.new }
{
    let mut table = [0u32; 32];
    // A set has at most 8 tasks, so that no draw is refused.
    let n = draws::draw_set_from(state, number, &mut table).unwrap();
    // A set drawn is a table, and there is room for its text, so that no text is refused.
    let length = writer::write(&table[..4 * n as usize], out).unwrap();
    length as usize
}

// THE TEXTS of count sets, numbered from number on, go to the start of out one after another; the answer is their length.
pub fn put_sets(state: &mut u32, number: u32, count: u32, out: &mut [u8]) -> usize
    requires { (number + count ≤ 2 ^ 32) × (text_most * count ≤ length out.old) }
    ensures { PutsSets state.old number count out.old result state.new out.new }
{
    let mut at = 0;
    for i in 0..count {
        at += put_set(state, number + i, &mut out[at..]);
    }
    at
}
