// A figure as it is reported, and how doubles are compared.
use std::fmt;
use std::num::f64_to_bits_with_nan;
use vanilla::Estimate;

// What should be so, and whether it is.
#[derive(Clone, Copy)]
pub(crate) struct Figure {
    text: &'static str,
    right: bool,
}

impl Figure {
    pub(crate) fn new(text: &'static str, right: bool) -> Figure {
        Figure { text, right }
    }

    pub(crate) fn is_right(&self) -> bool {
        self.right
    }
}

impl fmt::Display for Figure {
    fn fmt<W: fmt::Write>(&self, f: &mut fmt::Formatter<W>) -> fmt::Result {
        let text = self.text;
        let verdict = if self.right { "ok" } else { "WRONG" };
        write!(f, "{text}: {verdict}")
    }
}

// Whether two doubles have the same bits; any NaN is as any other. (A line in each program: they
// share no crate but those under test.)
fn is_same(x: f64, y: f64) -> bool {
    f64_to_bits_with_nan(x) == f64_to_bits_with_nan(y)
}

// Whether doubles are the expected ones.
pub(crate) fn same(values: &[f64], expected: &[f64]) -> bool {
    let mut pairs = values.iter().zip(expected);
    values.len() == expected.len() && pairs.all(|(x, y)| is_same(*x, *y))
}

// The four estimates of a batch, in the order in which they are reported. (`replay` has the four
// lines too: a library for them is no plainer.)
pub(crate) fn estimates(answer: Estimate) -> [f64; 4] {
    [
        answer.price,
        answer.price_error,
        answer.spot_mean,
        answer.spot_error,
    ]
}
