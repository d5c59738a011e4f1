// The VIX squared in every lane. It stands beside vix::raw_squared, which takes the factors of one
// path by value: a form that was asked for.
#![tactic(auto)]

ghost use Rattle.std.specs.Prelude.{◌≡◌, ℕ, ◌≤◌, ◌<◌, get_or};
ghost use Rattle.std.specs.Float.{nan};
ghost use Rattle.numeric.specs.Double.{times};
ghost use Rattle.generator_rows.specs.State.{pairs_before};
ghost use Rattle.vix.specs.Form.{raw_squared};
ghost use Rattle.vix.specs.Inner.Form.{vix_in_use};
ghost use Rattle.lanes.specs.Inner.Lanes.{lane_factors};
ghost use Rattle.vix_lanes.specs.Inner.Form.{LinearValues, RowAdded};

use generator_rows::state;
use lanes::rows;
use vix::Vix;

// coefficient × factor, in each lane.
fn multiples(coefficient: f64, row: &[f64; 4]) -> [f64; 4]
    ensures { (l : ℕ) → l < 4 → get_or result l nan ≡ times coefficient (get_or row.now l nan) }
{
    std::array::from_fn(|l| coefficient * row[l])
}

// The constant and the linear terms, in each lane. (No form, here and below: a copy of the
// coefficients is read, as told at `squared`.)
fn linear_values(n: usize, constant: f64, linear: &[f64; 10], factors: &[[f64; 4]; 10]) -> [f64; 4]
    requires { n ≤ 10 }
    ensures { LinearValues n constant linear.now factors.now result }
{
    let mut value = [constant; 4];
    for i in 0..n {
        let next = rows::add_products(value, [linear[i]; 4], &factors[i]);
        value = next;
    }
    value
}

// The pairs of row i, whose coefficients begin at `first`, added in each lane.
fn add_pairs(
    value: [f64; 4],
    n: usize,
    i: usize,
    first: usize,
    pairs: &[f64; 55],
    factors: &[[f64; 4]; 10],
) -> [f64; 4]
    requires { (n ≤ 10) × (i < n) × (first ≡ pairs_before n i) }
    ensures { RowAdded n i pairs.now factors.now value result }
{
    let mut sum = value;
    for m in 0..n - i {
        let of_left = multiples(pairs[first + m], &factors[i]);
        let next = rows::add_products(sum, of_left, &factors[i + m]);
        sum = next;
    }
    sum
}

// The VIX squared in each lane.
#[tactic(auto, unfolding(vix::specs::Form::value_through))]
pub fn squared(form: &Vix, factors: &[[f64; 4]; 10]) -> [f64; 4]
    ensures { (l : ℕ) → l < 4 → get_or result l nan
        ≡ raw_squared (vix_in_use form.now) (lane_factors form.now.n factors.now l) }
{
    let n = form.n;
    // Copies: read through the form, the coefficients take a fifth of the time more.
    let linear = form.linear;
    let pairs = form.pairs;
    let mut value = linear_values(n, form.constant, &linear, factors);
    for i in 0..n {
        let first = state::pairs_before(n, i);
        let next = add_pairs(value, n, i, first, &pairs, factors);
        value = next;
    }
    std::array::from_fn(|l| form.scale * value[l])
}
