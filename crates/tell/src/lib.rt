// What is said of an answer goes out: its number is returned, its values go to a lent buffer. For the probe.
#![tactic(auto)]

ghost use Rattle.std.specs.Prelude.{◌≤◌, ◌≡◌, ◌++◌, length, drop};
ghost use Rattle.told.specs.Sayings.{said};
ghost use Rattle.tell.specs.Gives.{Gives};

use told::Saying;

// Values go to the start of out.
fn put(out: &mut [u64], values: &[u64])
    requires { length values.now ≤ length out.old }
    ensures { out.new ≡ values.now ++ drop (length values.now) out.old }
{
    out[..values.len()].copy_from_slice(values);
}

// What is said: the number is returned, the values go to the start of out.
pub fn tell(out: &mut [u64], saying: Saying) -> u32
    requires { 4 ≤ length out.old }
    ensures { Gives (said saying) out.old result out.new }
{
    match saying {
        Saying::Bare(n) => n,
        Saying::One(n, a) => {
            put(out, &[a]);
            n
        }
        Saying::Two(n, a, b) => {
            put(out, &[a, b]);
            n
        }
        Saying::Three(n, a, b, c) => {
            put(out, &[a, b, c]);
            n
        }
        Saying::Four(n, a, b, c, d) => {
            put(out, &[a, b, c, d]);
            n
        }
    }
}
