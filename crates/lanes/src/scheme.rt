// One step of the scheme in every lane. Kernel and parameters stay two arguments, as in the
// definition, and that the rates are the kernel's is no fact of one type.
ghost use Rattle.std.specs.Prelude.{◌≡◌, true, false, ℕ, ◌≤◌, ◌<◌, get_or};
ghost use Rattle.std.specs.Float.{nan};
ghost use Rattle.numeric.specs.Double.{smaller};
ghost use Rattle.model.specs.Step.{variance_at};
ghost use Rattle.model.specs.Inner.Rates.{RatesOf};
ghost use Rattle.lanes.specs.Inner.Lanes.{LanesMoved, LanesStepped, LaneSteps};

use crate::{Lanes, roots, rows};
use model::{Kernel, Params, Rates, scheme};

// Every factor moved, and each lane's sum of weight × factor, in index order, begun at -0.0. (No
// kernel, as in the step of one path: of its tables the weights alone are read.)
fn move_factors(
    n: usize,
    forcing: [f64; 4],
    divisors: &[f64; 10],
    weights: &[f64; 10],
    factors: &mut [[f64; 4]; 10],
) -> [f64; 4]
    requires { n ≤ 10 }
    ensures { LanesMoved n forcing divisors.now weights.now
        factors.old factors.new result }
{
    let mut z = [-0.0; 4];
    for i in 0..n {
        rows::move_row(forcing, divisors[i], &mut factors[i]);
        let sum = rows::add_products(z, [weights[i]; 4], &factors[i]);
        z = sum;
    }
    z
}

// The lower of two spots, in each lane.
fn lower_of(x: [f64; 4], y: [f64; 4]) -> [f64; 4]
    ensures { (l : ℕ) → l < 4
        → get_or result l nan ≡ smaller (get_or x l nan) (get_or y l nan) }
{
    std::array::from_fn(|l| numeric::min(x[l], y[l]))
}

fn variances(p: Params, z: [f64; 4]) -> [f64; 4]
    ensures { (l : ℕ) → l < 4 → get_or result l nan ≡ variance_at p (get_or z l nan) }
{
    std::array::from_fn(|l| scheme::variance_at(p, z[l]))
}

// The step with these roots, on the draws g.
fn step_with(
    roots: [f64; 4],
    k: Kernel,
    p: Params,
    s: Lanes,
    g: [f64; 4],
    rates: Rates,
    factors: &mut [[f64; 4]; 10],
) -> Lanes
    requires { RatesOf k rates.dt rates.sqrt_dt rates }
    ensures { LanesStepped roots k p s g rates
        factors.old factors.new result }
{
    // Copies: with the fields read in place, the compiler works the lanes one by one (a step takes
    // 70 ns in the place of 49).
    let old_spot = s.spot;
    let old_z = s.z;
    let old_lowest = s.lowest;
    let mut spot = [0.0; 4];
    let mut forcing = [0.0; 4];
    for l in 0..4 {
        let diffusion = roots[l] * (rates.sqrt_dt * g[l]);
        forcing[l] = (-p.lambda) * old_z[l] * rates.dt + p.eta * diffusion;
        spot[l] = old_spot[l] + old_spot[l] * diffusion;
    }
    let z = move_factors(k.n, forcing, &rates.divisors, &k.weights, factors);
    Lanes {
        spot,
        z,
        variance: variances(p, z),
        lowest: lower_of(old_lowest, spot),
    }
}

// Every lane takes a step with guessed roots, which are asked after it, so that it does not wait
// for the answer. Where they were not seen to be the roots, the answer is `false`, the lanes stay,
// and nothing is known of the factors. (An `Option<Lanes>` is copied at each step: 701 instructions
// in the place of 632.)
pub fn try_step(
    k: Kernel,
    p: Params,
    s: &mut Lanes,
    g: [f64; 4],
    rates: Rates,
    factors: &mut [[f64; 4]; 10],
) -> bool
    requires { RatesOf k rates.dt rates.sqrt_dt rates }
    ensures moved { result ≡ true → (l : ℕ) → l < 4
        → LaneSteps k p s.old g rates factors.old factors.new s.new l }
    ensures kept { result ≡ false → s.new ≡ s.old }
{
    let before = *s;
    let roots = roots::guesses(before);
    let next = step_with(roots, k, p, before, g, rates, factors);
    if !roots::are_roots(before, roots) {
        return false;
    }
    *s = next;
    true
}
