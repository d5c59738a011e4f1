// The roots of four variances, guessed at once and confirmed afterwards.
ghost use Rattle.std.specs.Prelude.{◌≡◌, true, ℕ, ◌<◌, get_or};
ghost use Rattle.std.specs.Float.{nan, binary64};
ghost use Rattle.numeric.specs.Root.{root};

use crate::Lanes;

// About √x. There is no branch, so that the compiler works two numbers together. 1 / √x comes from
// half of x's bits and two steps of Newton's method, as in numeric's guess; the rest differs. The
// last step is of fourth order; in it `upper` is the upper half of the digits of s, which is about
// √x: c is about 2^27 × √x, so that s + c keeps these. At a normal number it is wrong in about one
// case of two million, and within a hundred thousand units of a power of four in about one of five.
fn near_root(x: f64) -> f64 {
    let h = 0.5 * x;
    let half = (numeric::bits_of(x) >> 1) % 0x4000_0000_0000_0000;
    let r0 = f64::from_bits(0x5fe6_ed21_02dc_bfda - half);
    let r1 = 1.50087895511633457 * r0 - h * r0 * (r0 * r0);
    let c = 134217728.0 * r1 * x;
    let r = 1.50000057967625766 * r1 - h * r1 * (r1 * r1);
    let s = x * r;
    let upper = (s + c) - c;
    let rest = (x - upper * upper) - (s + upper) * (s - upper);
    let w = s * r;
    s + (1.1875 * r - r * w * (1.0 - 0.3125 * w)) * rest
}

// About the root of each variance, of which nothing is known until `are_roots` says so.
pub(crate) fn guesses(s: Lanes) -> [f64; 4] {
    std::array::from_fn(|l| near_root(s.variance[l]))
}

// Whether these are seen to be the roots of the variances. A `false` says nothing.
pub(crate) fn are_roots(s: Lanes, roots: [f64; 4]) -> bool
    ensures { result ≡ true → (l : ℕ) → l < 4
        → get_or roots l nan ≡ root binary64 (get_or s.variance l nan) }
{
    let mut pairs = s.variance.iter().zip(roots.iter());
    pairs.all(|(x, root)| numeric::is_root(*x, *root))
}
