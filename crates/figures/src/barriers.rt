// Down-and-out puts at 200. With the draws of P9 the paths have the spots 100, 150 and 100, 0. Over
// two steps each path falls to 50, and ends at 100.389.. or at 75.194..
use crate::given::{batch, scaled, whole};
use crate::report::{Figure, estimates, same};
use decimal::Decimal;
use vanilla::{Style, Terms};

const P9: [f64; 2] = [0.5, -1.0];

// A path to 50 and back, and another.
const TWO: [f64; 4] = [-0.5, 1.0, -0.5, 0.5];

// The same twice.
const FOUR: [f64; 8] = [-0.5, 1.0, -0.5, 0.5, -0.5, 1.0, -0.5, 0.5];

fn at_barrier(barrier: Decimal) -> Terms {
    Terms::DownAndOut {
        strike: whole(200),
        barrier,
    }
}

// The put without a barrier.
fn plain() -> Terms {
    Terms::Vanilla {
        style: Style::Put,
        strike: whole(200),
    }
}

// Whether the draws of P9 give this price and error, the rest being that of P9.
fn one_step(barrier: u64, price: f64, error: f64) -> bool {
    let answer = batch(1, at_barrier(whole(barrier)), false, &P9, &mut [0.0; 2]);
    answer.number == 0
        && same(&estimates(answer), &[price, error, 75.0, 75.0])
        && answer.paths == 2
        && answer.non_positive == 1
        && answer.steps == 2
}

// Whether the draws 0.5 and 0.25, with their mirror images, give this price and error: the spots of
// the one pair are 150 and 50, of the other 125 and 75.
fn mirrored(barrier: u64, price: f64, error: f64) -> bool {
    let terms = at_barrier(whole(barrier));
    let answer = batch(1, terms, true, &[0.5, 0.25], &mut [0.0; 4]);
    answer.number == 0
        && same(&estimates(answer), &[price, error, 100.0, 0.0])
        && answer.non_positive == 0
}

// Whether the put is worth nothing, though the spots end above 75 in the mean.
fn vanishes(barrier: u64, draws: &[f64], observations: &mut [f64]) -> bool {
    let answer = batch(2, at_barrier(whole(barrier)), false, draws, observations);
    answer.number == 0
        && same(&[answer.price, answer.price_error], &[0.0, 0.0])
        && answer.spot_mean > 75.0
}

// Whether the four estimates are those of the put without a barrier.
fn is_plain(barrier: u64, draws: &[f64], observations: &mut [f64]) -> bool {
    let plain = batch(2, plain(), false, draws, observations);
    let answer = batch(2, at_barrier(whole(barrier)), false, draws, observations);
    answer.number == 0 && answer.price > 99.0 && same(&estimates(answer), &estimates(plain))
}

// Whether a barrier is turned away by this number, which has no place.
fn is_refused(barrier: Decimal, number: u32) -> bool {
    let answer = batch(1, at_barrier(barrier), false, &P9, &mut [0.0; 2]);
    answer.number == number && answer.place == [0; 4] && answer.steps == 0
}

// Two paths go through the plain walk, and four side by side.
pub(crate) fn figures() -> [Figure; 11] {
    [
        Figure::new(
            "P9's draws, put at 200, barrier 50: price 25, error 25",
            one_step(50, 25.0, 25.0),
        ),
        Figure::new(
            "P9's draws, put at 200, barrier 99: price 25, error 25",
            one_step(99, 25.0, 25.0),
        ),
        Figure::new(
            "P9's draws, put at 200, barrier 100, the spot: price 0, error 0",
            one_step(100, 0.0, 0.0),
        ),
        Figure::new(
            "two paths to 50 and back, barrier 60: price 0, error 0",
            vanishes(60, &TWO, &mut [0.0; 2]),
        ),
        Figure::new(
            "two paths to 50 and back, barrier 49: the put's own doubles",
            is_plain(49, &TWO, &mut [0.0; 2]),
        ),
        Figure::new(
            "four paths to 50 and back, barrier 50: price 0, error 0",
            vanishes(50, &FOUR, &mut [0.0; 4]),
        ),
        Figure::new(
            "four paths to 50 and back, barrier 49: the put's own doubles",
            is_plain(49, &FOUR, &mut [0.0; 4]),
        ),
        Figure::new(
            "draws 0.5 and 0.25 mirrored, put at 200, barrier 60: price 62.5, error 37.5",
            mirrored(60, 62.5, 37.5),
        ),
        Figure::new(
            "draws 0.5 and 0.25 mirrored, put at 200, barrier 49: price 100, error 0",
            mirrored(49, 100.0, 0.0),
        ),
        Figure::new("barrier 0: 27", is_refused(whole(0), 27)),
        Figure::new("barrier of scale 29: 1", is_refused(scaled(1, 29), 1)),
    ]
}
