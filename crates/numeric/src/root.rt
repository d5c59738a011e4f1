// The square root, correctly rounded, with no square root in hardware. A Newton iteration in
// floating point gives a guess, of which nothing is proved. Exact integer arithmetic confirms it,
// or finds the root by itself, which takes longer (nearest.rt).
ghost use Rattle.std.specs.Prelude.{◌≡◌, ◌*◌, ◌^◌, ◌<◌, ◌≤◌, false, from_bits};
ghost use Rattle.std.specs.Float.{binary64};
ghost use Rattle.std.specs.Float.Ieee.{units};
ghost use Rattle.numeric.specs.Root.{root, root_units};
ghost use Rattle.numeric.specs.Inner.Step.{Digits};

use crate::{HIDDEN, bits_of, digits_of, nearest};

// The root of +0 or of a subnormal number: its digits are shifted up until the leading one stands
// where a normal number has it.
#[tactic(auto, using(crate::proofs::Roots::small_laws))]
pub fn small(bits: u64) -> f64
    requires { bits < 2 ^ 52 }
    ensures { result ≡ root binary64 (from_bits binary64 bits) }
{
    if bits == 0 {
        return 0.0;
    }
    let up = bits.leading_zeros() as u64 - 11;
    let digits = bits << up;
    let e = 1074 - up;
    scaled(digits, e, guess(digits + (1022 + e % 2) * HIDDEN))
}

// The root of a normal number above zero.
#[tactic(auto, using(crate::proofs::Roots::root_of_normal))]
pub fn normal(bits: u64) -> f64
    requires { (2 ^ 52 ≤ bits) × (bits < 2047 * 2 ^ 52) }
    ensures { result ≡ root binary64 (from_bits binary64 bits) }
{
    scaled(digits_of(bits), bits / HIDDEN + 1073, guess(bits))
}

// -0 is its own root, and a number below zero has none.
#[tactic(auto, using(crate::proofs::Roots::negative_laws))]
pub fn negative(bits: u64) -> f64
    requires { (2 ^ 63 ≤ bits) × (bits ≤ 4095 * 2 ^ 52) }
    ensures { result ≡ root binary64 (from_bits binary64 bits) }
{
    if bits == 0x8000_0000_0000_0000 {
        -0.0
    } else {
        0.0 / 0.0
    }
}

// The root of digits * 2^e, counted in units of the smallest double: `digits` and the exponent are
// those of the number times the square of such a unit. With an even exponent, 52 + 2k, the root is
// that of m * 2^52, k digits further up. `guess` may be any double. Where it has the root's digits
// and exponent field it is the root.
#[tactic(auto, using(crate::proofs::Roots::scaled_laws))]
fn scaled(digits: u64, e: u64, guess: f64) -> f64
    requires digits { Digits digits }
    requires le_e { (1022 ≤ e) × (e ≤ 3119) }
    ensures { result ≡ root_units binary64 (digits * 2 ^ e) }
{
    let m = digits * (1 + e % 2);
    let k = e / 2 - 26;
    let bits = bits_of(guess);
    let s = digits_of(bits);
    if !nearest::is_nearest(m, s) {
        return placed(nearest::nearest_root(m), k);
    }
    if bits / HIDDEN == k + 1 {
        guess
    } else {
        placed(s, k)
    }
}

// The double of s * 2^k units.
#[tactic(auto, using(crate::proofs::Roots::placed_laws))]
fn placed(s: u64, k: u64) -> f64
    requires digits { Digits s }
    requires k_bound { k ≤ 2045 }
    ensures { result ≡ units binary64 false s k }
{
    f64::from_bits(k * HIDDEN + s)
}

// About √x, for the x of a bit pattern. 1 / √x comes from half of the pattern, as in the fast
// inverse square root, and two steps of Newton's method, whose constants are moved a little so that
// the error is even to both sides. Then s, which is about √x, and one step of third order. There
// `upper` is the upper half of s's digits (Veltkamp), so that x - s * s is exact. At a normal
// number the guess is wrong in about one case of seven hundred. Nothing depends on that but the
// time.
#[tactic(auto, using(crate::proofs::Patterns::no_nan))]
fn guess(bits: u64) -> f64
    requires { bits < 2047 * 2 ^ 52 }
{
    let x = f64::from_bits(bits);
    let h = 0.5 * x;
    let r0 = f64::from_bits(0x5fe6_ed21_02dc_bfda - (bits >> 1));
    let r1 = 1.50087895511633457 * r0 - h * r0 * (r0 * r0);
    let r = 1.50000057967625766 * r1 - h * r1 * (r1 * r1);
    let s = x * r;
    let p = 134217729.0 * s;
    let upper = (s - p) + p;
    let rest = (x - upper * upper) - (s + upper) * (s - upper);
    s + (0.875 - 0.375 * (s * r)) * r * rest
}
