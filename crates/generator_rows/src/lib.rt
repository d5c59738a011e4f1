// The rows of the moment system's generator. Each lies in the first places of an array, as many as
// the state has: fixed memory, with no heap.
#![tactic(auto)]

ghost use Rattle.std.specs.Prelude.{◌≡◌, [], ◌∷◌, ℕ, ◌-◌, ◌≤◌, ◌<◌, length, get_or, take, set};
ghost use Rattle.std.specs.Float.{nan};
ghost use Rattle.numeric.specs.Double.{plus, plus_zero};
ghost use Rattle.model.specs.Inner.InUse.{kernel_in_use};
ghost use Rattle.generator_rows.specs.Inner.Appended.{Appended};
ghost use Rattle.generator_rows.specs.State.{dimension, pair_at, joined, pairs_of_row};
ghost use Rattle.generator_rows.specs.Inner.Order.{InOrder};
ghost use Rattle.generator_rows.specs.Rows.{mean_coefficient, pair_coefficient};
ghost use Rattle.generator_rows.specs.Rows.{constant_coefficient, variance_row, mean_row};
ghost use Rattle.generator_rows.specs.Rows.{drift_entry, pair_row};

pub mod state;

use model::{Kernel, Params};

// Kernel and parameters stay two arguments: with a struct, k.n is self.kernel.n in each clause.

// The part of E[V] in the means: -2 × a × b × weight.
fn mean_coefficients(k: Kernel, p: Params) -> [f64; 67]
    ensures { take k.n result
        ≡ joined (λ i. mean_coefficient (kernel_in_use k) p i ∷ []) k.n }
{
    let mut row = [0.0; 67];
    for i in 0..k.n {
        row[i] = -2.0 * p.a * p.b * k.weights[i];
    }
    row
}

// The part of E[V] in the pairs of row i: a × weight × weight, twice where the two factors differ.
#[tactic(auto, using(crate::proofs::Places::pair_most))]
fn pair_coefficients(k: Kernel, p: Params, i: usize, row: &mut [f64; 67])
    requires { i < k.n }
    ensures { Appended (pair_at k.n i i)
        (pairs_of_row (λ i j. pair_coefficient (kernel_in_use k) p i j ∷ []) i (k.n - i))
        row.old row.new }
{
    for j in i..k.n {
        let multiplicity = if i == j { 1.0 } else { 2.0 };
        let place = state::pair(k.n, i, j);
        row[place] = multiplicity * p.a * k.weights[i] * k.weights[j];
    }
}

// E[V] as a row over the state.
#[tactic(auto, using(crate::proofs::Places::dimension_most))]
pub fn variance_row(k: Kernel, p: Params) -> [f64; 67]
    ensures row { take (dimension k.n) result ≡ variance_row (kernel_in_use k) p }
    ensures order { InOrder k.n (mean_coefficient (kernel_in_use k) p)
        (pair_coefficient (kernel_in_use k) p) plus_zero (constant_coefficient p)
        (take (dimension k.n) result) }
{
    let mut row = mean_coefficients(k, p);
    for i in 0..k.n {
        pair_coefficients(k, p, i, &mut row);
    }
    let dim = state::dimension_of(k.n);
    row[dim - 2] = 0.0;
    row[dim - 1] = p.a * p.b * p.b + p.c;
    row
}

fn add_to(row: &mut [f64; 67], column: usize, value: f64)
    requires { column < 67 }
    ensures { row.new ≡ set row.old column
        (plus (get_or row.old column nan) value) }
{
    row[column] += value;
}

// The row of mean i: -discount at its own column, then (-lambda) × weight at each mean.
pub fn mean_row(k: Kernel, p: Params, i: usize) -> [f64; 67]
    requires { i < k.n }
    ensures { take (dimension k.n) result ≡ mean_row (kernel_in_use k) p i }
{
    let mut row = [0.0; 67];
    add_to(&mut row, i, -k.discounts[i]);
    for m in 0..k.n {
        add_to(&mut row, m, -p.lambda * k.weights[m]);
    }
    row
}

// The row of the pair (i, j) without E[V]: -(discount + discount) at its own column, then for each
// m (-lambda) × weight at the pairs (m, j) and (i, m).
#[tactic(auto, using(crate::proofs::Places::pair_most))]
fn drift_row(k: Kernel, p: Params, i: usize, j: usize) -> [f64; 67]
    requires { (i < k.n) × (j < k.n) }
    ensures { (column : ℕ) → column < dimension k.n
        → get_or result column nan ≡ drift_entry (kernel_in_use k) p i j column k.n }
{
    let n = k.n;
    let mut row = [0.0; 67];
    let own = state::pair(n, i, j);
    add_to(&mut row, own, -(k.discounts[i] + k.discounts[j]));
    for m in 0..n {
        let reversion = -p.lambda * k.weights[m];
        let left = state::pair(n, m, j);
        add_to(&mut row, left, reversion);
        let right = state::pair(n, i, m);
        add_to(&mut row, right, reversion);
    }
    row
}

// The whole row of the pair (i, j): eta² × E[V] is added at every column.
#[tactic(auto, using(crate::proofs::Places::dimension_most))]
pub fn pair_row(k: Kernel, p: Params, variance: &[f64; 67], i: usize, j: usize) -> [f64; 67]
    requires places { (i < k.n) × (j < k.n) }
    requires variance_value { take (dimension k.n) variance.now ≡ variance_row (kernel_in_use k) p }
    ensures { take (dimension k.n) result ≡ pair_row (kernel_in_use k) p i j }
{
    let eta_squared = p.eta * p.eta;
    let mut row = drift_row(k, p, i, j);
    for column in 0..state::dimension_of(k.n) {
        row[column] += eta_squared * variance[column];
    }
    row
}
