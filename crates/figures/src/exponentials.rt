// P11 and the limits of the exponential.
use crate::report::{Figure, same};

// 2^1023.
const TWO_1023: f64 = 8.98846567431158e307;

fn nilpotent() -> bool {
    let mut output = [0.0; 4];
    let answer = qrh::qrh_exponential(2, &[0.0, 1.0, 0.0, 0.0], &mut output, &mut [0.0; 20]);
    answer.number == 0 && answer.squarings == 1 && same(&output, &[1.0, 1.0, 0.0, 1.0])
}

// Whether a matrix of one entry is answered by this number and number of squarings.
fn one_entry(entry: f64, number: u32, squarings: u64) -> bool {
    let answer = qrh::qrh_exponential(1, &[entry], &mut [0.0], &mut [0.0; 5]);
    answer.number == number && answer.squarings == squarings
}

// The number that a dimension with these matrices is answered by.
fn number_of(dimension: usize, input: &[f64], output: &mut [f64], workspace: &mut [f64]) -> u32 {
    qrh::qrh_exponential(dimension, input, output, workspace).number
}

pub(crate) fn figures() -> [Figure; 6] {
    [
        Figure::new("P11: [0 1; 0 0]: one squaring, [1 1; 0 1]", nilpotent()),
        Figure::new("norm 0.5: no squaring", one_entry(0.5, 0, 0)),
        Figure::new("norm 2^1023: 17", one_entry(TWO_1023, 17, 0)),
        Figure::new(
            "dimension 67 passes",
            number_of(67, &[0.0; 4489], &mut [0.0; 4489], &mut [0.0; 22445]) == 0,
        ),
        Figure::new(
            "dimension 68: 26",
            number_of(68, &[0.0; 4624], &mut [0.0; 4624], &mut [0.0]) == 26,
        ),
        Figure::new(
            "dimension 0: 26",
            number_of(0, &[], &mut [], &mut [0.0]) == 26,
        ),
    ]
}
