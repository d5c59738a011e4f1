// The highest word of a quotient, rounded to a double.
ghost use Rattle.std.specs.Prelude.{◌≡◌, ◌+◌, ◌*◌, ◌^◌, ◌≤◌, ◌<◌};
ghost use Rattle.std.specs.Float.{binary64};
ghost use Rattle.std.specs.Float.Ieee.{units};
ghost use Rattle.std.specs.Float.Ieee.Nearest.{closest};
ghost use Rattle.decimal.specs.Inner.Steps.{digit};

// The word without its last 11 bits, rounded to nearest. The carry is 1 where they are above half
// of the last place, or are half of it and either something follows the word or the kept number is
// odd.
pub(crate) fn rounded(word: u64, follows: bool) -> u64
    ensures { result ≡ closest (2 * word + digit follows) 4096 }
{
    let follows = follows as u64;
    let kept = word / 2048;
    let up_at_tie = (follows + kept % 2 + 1) / 2;
    let carry = (word % 2048 + 1023 + up_at_tie) / 2048;
    kept + carry
}

// ±significand * 2^exponent of the smallest doubles, 2^-1074. A significand of 2^53 carries into
// the exponent's field.
#[tactic(auto, using(crate::proofs::Pattern::pattern_laws))]
pub(crate) fn assembled(negative: bool, significand: u64, exponent: u64) -> f64
    requires { (2 ^ 52 ≤ significand) × (significand ≤ 2 ^ 53) × (exponent < 2045) }
    ensures { result ≡ units binary64 negative significand exponent }
{
    let magnitude = exponent * 0x10_0000_0000_0000 + significand;
    if negative {
        f64::from_bits(0x8000_0000_0000_0000 + magnitude)
    } else {
        f64::from_bits(magnitude)
    }
}
