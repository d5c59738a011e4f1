// P7, P8 and the limits of a model and a schedule: traces.
use crate::given::{given, model, quarter, scaled, segment, whole};
use crate::report::{Figure, same};
use admission::Given;
use model::{Schedule, Segment};
use trace::Tracing;

// 2^90, and the doubles next to 1.
const TWO_90: f64 = 1237940039285380274899124224.0;

const ABOVE_ONE: f64 = 1.0000000000000002;

const BELOW_ONE: f64 = 0.9999999999999999;

// The answer of a trace, and the four tables that it was lent.
#[derive(Clone, Copy)]
struct Traced<const POINTS: usize, const FACTORS: usize> {
    answer: Tracing,
    spots: [f64; POINTS],
    variances: [f64; POINTS],
    z: [f64; POINTS],
    factors: [f64; FACTORS],
}

fn trace<const POINTS: usize, const FACTORS: usize>(
    given: &Given,
    draws: &[f64],
) -> Traced<POINTS, FACTORS> {
    let mut spots = [0.0; POINTS];
    let mut variances = [0.0; POINTS];
    let mut z = [0.0; POINTS];
    let mut factors = [0.0; FACTORS];
    let answer = qrh::qrh_trace(
        given,
        draws,
        &mut spots,
        &mut variances,
        &mut z,
        &mut factors,
    );
    Traced {
        answer,
        spots,
        variances,
        z,
        factors,
    }
}

// One step with this weight, discount and draw.
fn one_step(weight: f64, discount: f64, draw: f64) -> Traced<2, 2> {
    let given = Given {
        weights: &[weight],
        discounts: &[discount],
        ..given(segment(1))
    };
    trace(&given, &[draw])
}

// Whether a draw leads to this spot, factor and z, and variance.
fn leads_to(draw: f64, spot: f64, z: f64, variance: f64) -> bool {
    let step = one_step(1.0, 4.0, draw);
    let end = [step.spots[1], step.factors[1], step.z[1], step.variances[1]];
    step.answer.number == 0 && same(&end, &[spot, z, z, variance])
}

fn passes(weight: f64, discount: f64) -> bool {
    one_step(weight, discount, 0.5).answer.number == 0
}

// Whether question 4 turns the weight or the discount away: table 1 or 2, place 1 there.
fn is_out_of_range(weight: f64, discount: f64, table: u64) -> bool {
    let answer = one_step(weight, discount, 0.5).answer;
    answer.number == 4 && answer.place == [table, 1, 0, 0]
}

// The number that a step is answered by with these as weights and as discounts, and as many
// factors.
fn number_of(kernel: &[f64]) -> u32 {
    let mut model = model();
    model.factor_count = kernel.len();
    let given = Given {
        weights: kernel,
        discounts: kernel,
        model,
        schedule: segment(1),
    };
    let traced = trace::<2, 20>(&given, &[0.5]);
    traced.answer.number
}

// Whether so many steps, with 4,096 draws of 0, which leave the spot at 100, are answered by a
// number with a place, and end at that spot.
fn many_steps(steps: u32, number: u32, segment_at: u64, spot: f64) -> bool {
    let draws = [0.0; 4096];
    let traced = trace::<4097, 4097>(&given(segment(steps)), &draws);
    let answer = traced.answer;
    answer.number == number
        && answer.place == [segment_at, 0, 0, 0]
        && same(&[traced.spots[4096]], &[spot])
}

// The segments (0.25, 2), (0.5, 3).
fn two_segments() -> Schedule {
    let mut schedule = segment(2);
    schedule.count = 2;
    schedule.segments[1] = Segment {
        dt: scaled(5, 1),
        steps: 3,
    };
    schedule
}

// Draws of 0 from factor 1: a step takes z to (z - z * dt) / (1 + 4 * dt), exactly.
fn uses_own_dt() -> bool {
    let mut model = model();
    model.factors = [whole(1); 10];
    let given = Given {
        model,
        ..given(two_segments())
    };
    let traced = trace::<6, 6>(&given, &[0.0; 5]);
    traced.answer.number == 0 && same(&traced.z[1..4], &[0.375, 0.140625, 0.0234375])
}

pub(crate) fn figures() -> [Figure; 13] {
    let most = TWO_90;
    let above = ABOVE_ONE * TWO_90;
    let least = 1.0 / TWO_90;
    let below = BELOW_ONE / TWO_90;
    [
        Figure::new(
            "P7: draw 0.5: spot 150, factor and z 0.25, variance 4.0625",
            leads_to(0.5, 150.0, 0.25, 4.0625),
        ),
        Figure::new(
            "P8: draw -1: spot 0, z -0.5, variance 4.25",
            leads_to(-1.0, 0.0, -0.5, 4.25),
        ),
        Figure::new("10 factors pass", number_of(&[1.0; 10]) == 0),
        Figure::new("11 factors: 2", number_of(&[1.0; 11]) == 2),
        Figure::new("4,096 steps pass", many_steps(4096, 0, 0, 100.0)),
        Figure::new("4,097 steps: 14, segment 1", many_steps(4097, 14, 1, 0.0)),
        Figure::new(
            "segments (0.25, 2), (0.5, 3): step 2 uses 0.25, step 3 uses 0.5",
            uses_own_dt(),
        ),
        Figure::new("weight 2^-90 and discount 2^90 pass", passes(least, most)),
        Figure::new("weight 2^90 and discount 2^-90 pass", passes(most, least)),
        Figure::new(
            "the weight below 2^-90: 4, weights, 1",
            is_out_of_range(below, most, 1),
        ),
        Figure::new(
            "the weight above 2^90: 4, weights, 1",
            is_out_of_range(above, least, 1),
        ),
        Figure::new(
            "the discount below 2^-90: 4, discounts, 1",
            is_out_of_range(most, below, 2),
        ),
        Figure::new(
            "the discount above 2^90: 4, discounts, 1",
            is_out_of_range(least, above, 2),
        ),
    ]
}
