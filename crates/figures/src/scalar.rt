// P1 to P6: the conversion of a Decimal and the square root.
use crate::given::{scaled, whole};
use crate::report::{Figure, same};
use decimal::Decimal;
use std::num::f64_to_bits_with_nan;

// 2^-1074.
const SMALLEST: f64 = 5e-324;

// Whether a Decimal is answered by this double.
fn converts(d: Decimal, value: f64) -> bool {
    let answer = qrh::qrh_convert(d);
    answer.number == 0 && same(&[answer.value], &[value])
}

// Whether a Decimal is turned away by question 1, which has no place.
fn is_refused(d: Decimal) -> bool {
    let answer = qrh::qrh_convert(d);
    answer.number == 1 && answer.place == [0; 4]
}

// 90071992547409930000001 at scale 7; the coefficient is 4882 * 2^64 + low.
fn wide() -> Decimal {
    Decimal {
        low: 14_987_979_559_899_010_689,
        high: 4_882,
        scale: 7,
        negative: false,
    }
}

pub(crate) fn figures() -> [Figure; 7] {
    [
        Figure::new(
            "P1: 1 at scale 1 has the bits 3FB999999999999A",
            f64_to_bits_with_nan(qrh::qrh_convert(scaled(1, 1)).value) == 0x3fb9_9999_9999_999a,
        ),
        Figure::new(
            "P2: 9007199254740993 becomes 9007199254740992",
            converts(whole(9_007_199_254_740_993), 9007199254740992.0),
        ),
        Figure::new(
            "P3: 9007199254740995 becomes 9007199254740996",
            converts(whole(9_007_199_254_740_995), 9007199254740996.0),
        ),
        Figure::new(
            "P4: 90071992547409930000001 at scale 7 becomes 9007199254740994",
            converts(wide(), 9007199254740994.0),
        ),
        Figure::new(
            "P5: zero at scale 29 becomes +0.0",
            converts(scaled(0, 29), 0.0),
        ),
        Figure::new(
            "P5: one at scale 29 is refused by 1",
            is_refused(scaled(1, 29)),
        ),
        Figure::new(
            "P6: the root of 2^-1074 is 2^-537",
            f64_to_bits_with_nan(qrh::qrh_sqrt(SMALLEST)) == (1023 - 537) << 52,
        ),
    ]
}
