// What the layers above need of a double beyond its operators: the square root, and Rust's
// is_finite, abs, max and min.
#![tactic(auto)]

ghost use Rattle.std.specs.Prelude.{◌≡◌, ◌+◌, ◌%◌, ◌^◌, true};
ghost use Rattle.std.specs.Float.{binary64};
ghost use Rattle.numeric.specs.Double.{finite, magnitude, positive_part};
ghost use Rattle.numeric.specs.Double.{larger, smaller};
ghost use Rattle.numeric.specs.Inner.Bits.{bits_of};
ghost use Rattle.numeric.specs.Correct.{RootIsNearest};
ghost use Rattle.numeric.specs.Root.{root};

mod nearest;
mod root;

// The weight of the exponent field, which is the digit that a normal number's pattern leaves out.
const HIDDEN: u64 = 0x10_0000_0000_0000;

// Rust's x.sqrt(): the double nearest to the exact root. It is decided by the exponent field; with
// the sign above it, a field of 2048 or more is that of a number with a minus sign. (A match with
// ranges over the field: the form was asked for.)
#[tactic(auto, using(crate::proofs::Roots::sqrt_laws))]
pub fn sqrt(x: f64) -> f64
    ensures root { result ≡ root binary64 x }
    ensures nearest { RootIsNearest x result }
{
    if x.is_nan() {
        return x;
    }
    let bits = x.to_bits();
    match bits >> 52 {
        0 => root::small(bits),
        1..=2046 => root::normal(bits),
        2047 => x,
        _ => root::negative(bits),
    }
}

// Whether g is seen to be the root of x, a normal number above zero. A `false` says nothing.
pub fn is_root(x: f64, g: f64) -> bool
    ensures { result ≡ true → g ≡ root binary64 x }
{
    let bits = bits_of(x);
    let field = bits / HIDDEN;
    let e = field + 1073;
    let m = digits_of(bits) * (1 + e % 2);
    let guess = bits_of(g);
    if field < 1 || 2046 < field || guess / HIDDEN != e / 2 - 25 {
        return false;
    }
    nearest::is_nearest(m, digits_of(guess))
}

// The digits of a normal number's pattern, with the leading one that it leaves out.
fn digits_of(bits: u64) -> u64
    ensures { result ≡ bits % 2 ^ 52 + 2 ^ 52 }
{
    bits % HIDDEN + HIDDEN
}

// The bits of a number, and 0 for a NaN, for which the library's f64_to_bits_with_nan has others.
#[tactic(auto, using(crate::proofs::Patterns::bits_laws))]
pub fn bits_of(x: f64) -> u64
    ensures { result ≡ bits_of x }
{
    if x.is_nan() { 0 } else { x.to_bits() }
}

// Rust's x.is_finite(): neither a NaN nor an infinity. The library's x.is_finite() was slower in a
// loop over a matrix, 0.67 ns an entry where this takes 0.46.
#[tactic(auto, using(crate::proofs::Doubles::finite_laws))]
pub fn is_finite(x: f64) -> bool
    ensures { result ≡ finite x }
{
    f64::NEG_INFINITY < x && x < f64::INFINITY
}

// Rust's x.abs(): the sign bit is cleared.
#[tactic(auto, using(crate::proofs::Doubles::magnitude_is))]
pub fn abs(x: f64) -> f64
    ensures { result ≡ magnitude x }
{
    x.abs()
}

// Rust's v.max(0.0), as a payoff has it: a NaN gives 0.0. The library, as Rust, leaves the sign of
// the larger of two zeros open; here it is +0.0.
#[tactic(auto, using(crate::proofs::Doubles::positive_part_is))]
pub fn positive_part(v: f64) -> f64
    ensures { result ≡ positive_part v }
{
    if v > 0.0 { v } else { 0.0 }
}

// Rust's x.max(y), as a running maximum x has it, which is no NaN: a NaN for y is passed over. Of
// two zeros the library's x.max(y) may give either one; here it is x.
#[tactic(auto, unfolding(crate::specs::Double::larger))]
pub fn max(x: f64, y: f64) -> f64
    ensures { result ≡ larger x y }
{
    if x < y { y } else { x }
}

// Rust's x.min(y), as a running minimum x has it, which is no NaN: a NaN for y is passed over. Of
// two zeros the library's x.min(y) may give either one; here it is x.
#[tactic(auto, unfolding(crate::specs::Double::smaller))]
pub fn min(x: f64, y: f64) -> f64
    ensures { result ≡ smaller x y }
{
    if y < x { y } else { x }
}
