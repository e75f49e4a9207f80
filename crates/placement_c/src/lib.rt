// `placement`'s call for C, as the header include/tilecheck.h names it.
#![tactic(auto)]

ghost use Rattle.std.specs.Prelude.{◌≡◌};
ghost use Rattle.rules.specs.Answers.{check_number};

// 100 meets, 101 misses, 102 too far, for the first set; or the number of the refusal, of the reading or of the table, at once.
// Kept: the C interface: a call that C can name, thin over placement's.
#[unsafe(no_mangle)]
pub extern "C" fn tile_check(text: &[u8]) -> u32
    ensures { result ≡ check_number text.now }
{
    placement::tile_check(text)
}
