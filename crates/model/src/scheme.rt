// Reading a state off its factors, and one step of the scheme.
ghost use Rattle.std.specs.Prelude.{◌≡◌, ◌≤◌, ◌<◌, get_or, take};
ghost use Rattle.std.specs.Float.{nan};
ghost use Rattle.model.specs.Step.{weighted_sum, variance_at, read, step, finiteness};
ghost use Rattle.model.specs.Inner.InUse.{kernel_in_use, state_in_use};
ghost use Rattle.model.specs.Inner.Rates.{RatesOf, Moved};

use crate::{Kernel, Params, Rates, State, TimeGrid};
use refusal::Quantity;

// The sum of weight × factor, in index order, begun at -0.0.
fn weighted_sum(k: &Kernel, factors: &[f64; 10]) -> f64
    ensures { result ≡ weighted_sum k.now.weights factors.now k.now.n }
{
    let mut sum = -0.0;
    for i in 0..k.n {
        sum += k.weights[i] * factors[i];
    }
    sum
}

#[tactic(auto, unfolding(crate::specs::Step::variance_at))]
pub fn variance_at(p: Params, z: f64) -> f64
    ensures { result ≡ variance_at p z }
{
    let shifted = z - p.b;
    p.a * shifted * shifted + p.c
}

// The state with this spot, this lowest spot and these factors. Kernel and parameters stay two
// arguments, here and where a step is taken: of a struct each clause would name its fields. What is
// larger than a few doubles is lent, but for the state: handed by value, the kernel and the rates
// were copied at each step (a trace of ten factors took 73 ns a step in the place of 64).
pub fn read(k: &Kernel, p: Params, spot: f64, lowest: f64, factors: &[f64; 10]) -> State
    ensures { state_in_use k.now.n result
        ≡ read (kernel_in_use k.now) p spot lowest (take k.now.n factors.now) }
{
    let z = weighted_sum(k, factors);
    let variance = variance_at(p, z);
    State {
        spot,
        z,
        variance,
        factors: *factors,
        lowest,
    }
}

// The rates of a segment of `dt` years a step.
pub fn rates_of(k: &Kernel, dt: f64, sqrt_dt: f64) -> Rates
    ensures { RatesOf k.now dt sqrt_dt result }
{
    let mut divisors = [1.0; 10];
    for i in 0..k.n {
        divisors[i] = 1.0 + k.discounts[i] * dt;
    }
    Rates {
        dt,
        sqrt_dt,
        divisors,
    }
}

// The rates of a segment, counted from 0. A walk at its end asks for the next: past the 64th, which
// has no dt, it gets those of NaNs. (One test serves dt and sqrt_dt, where `get` would make two.)
pub fn rates_at(k: &Kernel, sched: &TimeGrid, segment: usize) -> Rates
    ensures { RatesOf k.now (get_or sched.now.dt segment nan)
        (get_or sched.now.sqrt_dt segment nan) result }
{
    if segment < 64 {
        return rates_of(k, sched.dt[segment], sched.sqrt_dt[segment]);
    }
    rates_of(k, 0.0 / 0.0, 0.0 / 0.0)
}

// Each of the first n factors becomes (factor + forcing) / divisor. (No kernel: none of its tables
// is read. No slices: each clause would speak of prefixes.)
fn move_factors(n: usize, factors: &[f64; 10], forcing: f64, divisors: &[f64; 10]) -> [f64; 10]
    requires { n ≤ 10 }
    ensures { Moved n factors.now forcing divisors.now result }
{
    let mut next = [0.0; 10];
    for i in 0..n {
        next[i] = (factors[i] + forcing) / divisors[i];
    }
    next
}

// One step of the scheme, on the draw g. That the rates are the kernel's relates two values, and is
// no fact of a type.
pub fn step(k: &Kernel, p: Params, s: State, g: f64, rates: &Rates) -> State
    requires { RatesOf k.now rates.now.dt rates.now.sqrt_dt rates.now }
    ensures { state_in_use k.now.n result ≡ step (kernel_in_use k.now) p
        (state_in_use k.now.n s) g rates.now.dt rates.now.sqrt_dt }
{
    let dw = rates.sqrt_dt * g;
    let diffusion = numeric::sqrt(s.variance) * dw;
    let forcing = (-p.lambda) * s.z * rates.dt + p.eta * diffusion;
    let next = move_factors(k.n, &s.factors, forcing, &rates.divisors);
    let spot = s.spot + s.spot * diffusion;
    read(k, p, spot, numeric::min(s.lowest, spot), &next)
}

// Every weight is above zero, so a factor that is not finite leaves z not finite.
#[tactic(auto, unfolding(crate::specs::Step::finiteness))]
pub fn ensure_finite(s: State) -> Result<(), Quantity>
    ensures { result ≡ finiteness s }
{
    if !numeric::is_finite(s.spot) {
        return Err(Quantity::Spot);
    }
    if !numeric::is_finite(s.z) {
        return Err(Quantity::Z);
    }
    if !numeric::is_finite(s.variance) {
        return Err(Quantity::Variance);
    }
    Ok(())
}
