// P9, P10, mirrored pairs, and the least numbers of paths: vanilla batches, calls.
use crate::given::{batch, batch_of, given, model, scaled, segment, whole};
use crate::report::{Figure, estimates, same};
use admission::Given;
use model::Model;
use vanilla::{Estimate, Style, Terms};

fn call_at(strike: u64) -> Terms {
    Terms::Vanilla {
        style: Style::Call,
        strike: whole(strike),
    }
}

// A call at 100 over one step, with a path for each observation.
fn call_at_100(draws: &[f64], observations: &mut [f64]) -> Estimate {
    batch(1, call_at(100), false, draws, observations)
}

fn mirrored_call_at_100(draws: &[f64], observations: &mut [f64]) -> Estimate {
    batch(1, call_at(100), true, draws, observations)
}

fn two_paths() -> bool {
    let mut observations = [0.0; 2];
    let answer = call_at_100(&[0.5, -1.0], &mut observations);
    answer.number == 0
        && same(&estimates(answer), &[25.0, 25.0, 75.0, 75.0])
        && answer.paths == 2
        && answer.non_positive == 1
        && answer.steps == 2
        && same(&observations, &[150.0, 0.0])
}

// The second observation stays as lent.
fn infinite_draw() -> bool {
    let mut observations = [7.0; 2];
    let answer = call_at_100(&[0.5, f64::INFINITY], &mut observations);
    answer.number == 22
        && answer.place == [2, 1, 1, 2]
        && answer.steps == 2
        && same(&observations, &[150.0, 7.0])
}

fn one_path() -> bool {
    call_at_100(&[0.5], &mut [0.0]).number == 19
}

// Two samples of 25 and 12.5; and both pairs have the mean spot 100.
fn two_pairs() -> bool {
    let mut observations = [0.0; 4];
    let answer = mirrored_call_at_100(&[0.5, 0.25], &mut observations);
    answer.number == 0
        && same(&estimates(answer), &[18.75, 6.25, 100.0, 0.0])
        && answer.paths == 4
        && answer.non_positive == 0
        && answer.steps == 4
        && same(&observations, &[150.0, 50.0, 125.0, 75.0])
}

fn one_pair() -> bool {
    let answer = mirrored_call_at_100(&[0.5], &mut [0.0; 2]);
    answer.number == 28 && answer.place == [0; 4] && answer.steps == 0
}

// Each path ends above 10^308, and the two of a pair add up to infinity.
fn infinite_average() -> bool {
    let small = Model {
        spot: scaled(1, 12),
        ..model()
    };
    let given = Given {
        model: small,
        ..given(segment(22))
    };
    let mut observations = [0.0; 4];
    let answer = batch_of(&given, call_at(0), true, &[64.0; 44], &mut observations);
    answer.number == 25
        && answer.place == [1, 0, 0, 0]
        && answer.steps == 88
        && observations
            .iter()
            .all(|spot| *spot > 1.0e308 && spot.is_finite())
}

pub(crate) fn figures() -> [Figure; 6] {
    [
        Figure::new(
            "P9: both as two paths, call at 100: price 25, error 25, spot mean 75, error 75, \
             one non-positive, 2 steps",
            two_paths(),
        ),
        Figure::new(
            "P10: second draw infinite: 22, path 2, step 1, spot, 2 steps",
            infinite_draw(),
        ),
        Figure::new("one path: 19", one_path()),
        Figure::new(
            "draws 0.5 and 0.25 mirrored, call at 100: price 18.75, error 6.25, spot mean 100, \
             error 0, 4 paths, none non-positive, 4 steps",
            two_pairs(),
        ),
        Figure::new("one mirrored pair: 28", one_pair()),
        Figure::new(
            "two mirrored pairs of spots above 10^308, call at 0: 25, the price",
            infinite_average(),
        ),
    ]
}
