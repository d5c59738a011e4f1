// Numbers of two words, moved left and divided by powers of five. A u128 would hold them, but its
// division is a call into the C runtime: of conversions that do not wait for each other, as those
// of a call are, one took 22 ns with it and takes 14 as it is here. (Of those that do wait, 21 and
// 28.)
ghost use Rattle.std.specs.Prelude.{◌≡◌, ◌+◌, ◌^◌, ◌<◌};
ghost use Rattle.decimal.specs.Inner.Steps.{wide, number, IsAligned, IsQuotient};
ghost use Rattle.decimal.specs.Inner.Steps.{IsDivided, IsDividedOnce};

// high * 2^64 + low.
#[derive(Clone, Copy)]
pub(crate) struct Wide {
    pub high: u64,
    pub low: u64,
}

// A number with bit 127 as its highest, and how far it was moved left.
#[derive(Clone, Copy)]
pub(crate) struct Aligned {
    pub number: Wide,
    pub shift: u32,
}

// The whole part of a quotient, and whether the division left something over.
#[derive(Clone, Copy)]
pub(crate) struct Quotient {
    pub whole: Wide,
    pub inexact: bool,
}

// One word of a quotient, and what is left for the words after it.
#[derive(Clone, Copy)]
struct Divided {
    quotient: u64,
    rest: u64,
}

const DIGIT: u64 = 0x1_0000_0000;

// The largest power of five below 2^32.
const FIVE_TO_13: u64 = 1220703125;

impl Wide {
    // The number moved left until its highest bit is bit 127.
    pub(crate) fn aligned(self) -> Aligned
        requires { 0 < number self }
        ensures { IsAligned (number self) result }
    {
        if self.high == 0 {
            let zeros = self.low.leading_zeros();
            let number = Wide {
                high: self.low << zeros,
                low: 0,
            };
            return Aligned {
                number,
                shift: 64 + zeros,
            };
        }
        let zeros = self.high.leading_zeros();
        let number = Wide {
            high: (self.high << zeros) + (self.low >> 1 >> (63 - zeros)),
            low: self.low << zeros,
        };
        Aligned {
            number,
            shift: zeros,
        }
    }

    // The number by 5^scale, which may be above a word: in parts below 2^32, and by 5^13 as long as
    // that goes, since a division by a constant compiles to a multiplication.
    pub(crate) fn by_fives(self, scale: u8) -> Quotient
        ensures { IsQuotient (number self) (5 ^ scale) result }
    {
        let mut q = Quotient {
            whole: self,
            inexact: false,
        };
        let mut left = scale;
        // By hand: a `for` over 0..scale / 13 makes a conversion slower, 10.8 ns for 10.0.
        while 13 <= left {
            q = q.divided(FIVE_TO_13);
            left -= 13;
        }
        q.divided(five_to(left))
    }
}

impl Quotient {
    // One more factor divided out of it.
    fn divided(self, by: u64) -> Quotient
        requires { (0 < by) × (by < 2 ^ 32) }
        ensures { IsDividedOnce self by result }
    {
        let lower = divide_word(self.whole.high % by, self.whole.low, by);
        Quotient {
            whole: Wide {
                high: self.whole.high / by,
                low: lower.quotient,
            },
            inexact: self.inexact || lower.rest != 0,
        }
    }
}

// One word of a long division, as two digits of 32 bits; `rest` is what the words before it left.
fn divide_word(rest: u64, word: u64, by: u64) -> Divided
    requires { (rest < by) × (by < 2 ^ 32) }
    ensures { IsDivided (wide rest word) by result }
{
    let upper = rest * DIGIT + word / DIGIT;
    let lower = upper % by * DIGIT + word % DIGIT;
    Divided {
        quotient: upper / by * DIGIT + lower / by,
        rest: lower % by,
    }
}

// 5^0 to 5^12. A match, since a constant table would be copied to the stack at each call, and the
// library's 5u64.pow(power) makes a conversion slower, 20 ns for 16.
#[tactic(auto, using(crate::proofs::Fives::same_power))]
fn five_to(power: u8) -> u64
    requires { power < 13 }
    ensures { result ≡ 5 ^ power }
{
    match power {
        0 => 1,
        1 => 5,
        2 => 25,
        3 => 125,
        4 => 625,
        5 => 3125,
        6 => 15625,
        7 => 78125,
        8 => 390625,
        9 => 1953125,
        10 => 9765625,
        11 => 48828125,
        _ => 244140625,
    }
}
