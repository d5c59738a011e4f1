// Decimals: their comparison with zero, and the double that is nearest to one.
#![tactic(auto)]

mod divide;
mod round;

ghost use Rattle.std.specs.Prelude.{◌≡◌, ◌≤◌, ◌<◌};
ghost use Rattle.decimal.specs.Decimal.{is_zero, is_negative, is_positive, scale_fits};
ghost use Rattle.decimal.specs.Decimal.{coefficient, nearest_double, value, convert};
ghost use Rattle.decimal.specs.Inner.Answers.{AnswersNearest};

use divide::Wide;

// ±(high * 2^64 + low) / 10^scale. Every value of the struct is a Decimal.
#[repr(C)]
#[derive(Clone, Copy)]
pub struct Decimal {
    pub low: u64,
    pub high: u32,
    pub scale: u8,
    pub negative: bool,
}

const LARGEST_SCALE: u8 = 28;

impl Decimal {
    #[tactic(auto, using(crate::proofs::Zero::zero_by_words))]
    pub fn is_zero(self) -> bool
        ensures { result ≡ is_zero self }
    {
        self.high == 0 && self.low == 0
    }

    // A negative zero is zero.
    #[tactic(auto, using(crate::proofs::Zero::negative_is))]
    pub fn is_negative(self) -> bool
        ensures { result ≡ is_negative self }
    {
        self.negative && !self.is_zero()
    }

    #[tactic(auto, using(crate::proofs::Zero::positive_is))]
    pub fn is_positive(self) -> bool
        ensures { result ≡ is_positive self }
    {
        !self.negative && !self.is_zero()
    }

    #[tactic(auto, unfolding(crate::specs::Decimal::scale_fits))]
    pub fn scale_fits(self) -> bool
        ensures { result ≡ scale_fits self }
    {
        self.is_zero() || self.scale <= LARGEST_SCALE
    }

    // The double nearest to it. The highest word of the quotient counts 2^64 and drops 11 bits, and
    // the smallest double is 2^-1074: 64 + 11 + 1074 = 1149.
    fn nearest_double(self) -> f64
        requires { (0 < coefficient self) × (self.scale ≤ 28) }
        ensures { result ≡ nearest_double self }
    {
        let coefficient = Wide {
            high: self.high as u64,
            low: self.low,
        };
        let first = coefficient.aligned();
        let quotient = first.number.by_fives(self.scale);
        let top = quotient.whole.aligned();
        let inexact = top.number.low != 0 || quotient.inexact;
        let significand = round::rounded(top.number.high, inexact);
        let exponent = 1149 - first.shift - top.shift - self.scale as u32;
        round::assembled(self.negative, significand, exponent as u64)
    }

    // The double of a Decimal whose scale fits, and +0.0 for any other: callers ask `scale_fits`
    // first. (No Option: the definition is total, and `to_f64` is the one that tells.)
    #[tactic(auto, using(crate::proofs::Value::value_laws))]
    pub fn value(self) -> f64
        ensures { result ≡ value self }
    {
        if self.is_zero() || LARGEST_SCALE < self.scale {
            return 0.0;
        }
        self.nearest_double()
    }

    // Its double, and none where its scale is too large. (No `TryFrom`: the name is the Rust's, and
    // what there is no double of has no other reason.)
    #[tactic(auto, using(crate::proofs::Value::conversion_laws))]
    pub fn to_f64(self) -> Option<f64>
        ensures answer { result ≡ convert self }
        ensures nearest { AnswersNearest self result }
    {
        if self.scale_fits() {
            Some(self.value())
        } else {
            None
        }
    }
}
