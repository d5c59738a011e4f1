// What the paths that have ended come to: the last column of their observations, which they show
// the payoff, and their lowest spots.
#![tactic(auto)]

ghost use Rattle.std.specs.Prelude.{◌≡◌, ◌*◌, ◌≤◌, length};
ghost use Rattle.tally.specs.Inner.Rows.{last_observation, with_rows, fallen_among};

use estimates::{Payoff, Tally, payoffs};
use walks::Observed;

// The last observation of row p, counted from 1, in a table of `count` columns. Rows and count stay
// two arguments: a struct that lends the rows makes each clause longer.
pub fn last_observation(rows: &[f64], count: usize, p: usize) -> f64
    requires { (1 ≤ count) × (1 ≤ p) × (p * count ≤ length rows.now) }
    ensures { result ≡ last_observation rows.now count p }
{
    rows[(p - 1) * count + (count - 1)]
}

// The tally with the paths whose lowest spots these are, in their order, from the first row on.
#[tactic(auto, using(crate::proofs::Tallying::rows_none, crate::proofs::Tallying::rows_more))]
pub fn with_rows(
    tally: Tally,
    payoff: Payoff,
    observed: Observed,
    rows: &[f64],
    count: usize,
    lowest: &[f64],
) -> Tally
    requires { (1 ≤ count) × (length lowest.now * count ≤ length rows.now) }
    ensures { result ≡ with_rows tally payoff observed rows.now count
        lowest.now (length lowest.now) }
{
    let mut sum = tally;
    for (i, own_lowest) in lowest.iter().enumerate() {
        let underlying = payoffs::underlying_of(observed, last_observation(rows, count, i + 1));
        sum = sum.with_path(payoff, underlying, *own_lowest);
    }
    sum
}

// How many of these lowest spots are at or below zero.
pub fn fallen(lowest: &[f64]) -> u64
    ensures { result ≡ fallen_among lowest.now (length lowest.now) }
{
    lowest.iter().filter(|spot| **spot <= 0.0).count() as u64
}
