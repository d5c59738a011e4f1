// The inputs of the figures: n = 1, weight 1, discount 4, a = 1, b = 0, c = 4, lambda = eta = 1,
// spot 100, factor 0, dt 0.25, but for what a figure says.
use admission::Given;
use decimal::Decimal;
use model::{Model, Schedule, Segment};
use vanilla::{Estimate, Order, Terms};

pub(crate) const WEIGHTS: [f64; 1] = [1.0];

pub(crate) const DISCOUNTS: [f64; 1] = [4.0];

// digits / 10^scale.
pub(crate) fn scaled(digits: u64, scale: u8) -> Decimal {
    Decimal {
        low: digits,
        high: 0,
        scale,
        negative: false,
    }
}

pub(crate) fn whole(number: u64) -> Decimal {
    scaled(number, 0)
}

pub(crate) fn quarter() -> Decimal {
    scaled(25, 2)
}

pub(crate) fn model() -> Model {
    Model {
        a: whole(1),
        b: whole(0),
        c: whole(4),
        lambda: whole(1),
        eta: whole(1),
        spot: whole(100),
        factor_count: 1,
        factors: [whole(0); 10],
    }
}

// One segment of dt 0.25.
pub(crate) fn segment(steps: u32) -> Schedule {
    let dt = quarter();
    Schedule {
        count: 1,
        segments: [Segment { dt, steps }; 64],
    }
}

// The model over a schedule.
pub(crate) fn given(schedule: Schedule) -> Given<'static> {
    Given {
        weights: &WEIGHTS,
        discounts: &DISCOUNTS,
        model: model(),
        schedule,
    }
}

// A batch with a path for each observation, over one segment.
pub(crate) fn batch_of(
    given: &Given,
    terms: Terms,
    mirrored: bool,
    draws: &[f64],
    observations: &mut [f64],
) -> Estimate {
    let paths = observations.len();
    let order = Order {
        terms,
        mirrored,
        paths,
    };
    qrh::qrh_vanilla(given, order, draws, observations)
}

// The same of the model, over so many steps.
pub(crate) fn batch(
    steps: u32,
    terms: Terms,
    mirrored: bool,
    draws: &[f64],
    observations: &mut [f64],
) -> Estimate {
    batch_of(&given(segment(steps)), terms, mirrored, draws, observations)
}
