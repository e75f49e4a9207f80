// The placement pass's call: one number for the first set of a text. `placement_c` hands it to C.
#![tactic(auto)]

ghost use Rattle.std.specs.Prelude.{◌≡◌};
ghost use Rattle.rules.specs.Answers.{check_number};

// 100 meets, 101 misses, 102 too far, for the first set; or the number of the refusal, of the reading or of the table, at once.
// Kept: a match and not `let .. else`, whose else could not name the refusal.
#[tactic(auto, using(rules::proofs::Calls::check_number_law))]
pub fn tile_check(text: &[u8]) -> u32
    ensures { result ≡ check_number text.now }
{
    match judged::judge_first(text).answer {
        Ok(v) => numbers::verdict_number(v),
        Err(r) => numbers::refusal_number(r),
    }
}
