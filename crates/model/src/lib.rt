// The quadratic rough Heston model: kernel tables, parameters, schedule, state and step.
#![tactic(auto)]

use decimal::Decimal;

pub mod draws;
pub mod scheme;

// The tables of n weights and n discounts, in the first n places. Memory is fixed and there is no
// heap, here and in what follows: so arrays stand side by side, with how much of them is in use.
#[derive(Clone, Copy)]
pub struct Kernel {
    pub n: usize,
    pub weights: [f64; 10],
    pub discounts: [f64; 10],
}

impl std::marker::Model for Kernel {
    ghost use Rattle.std.specs.Prelude.{◌≤◌};
    ghost use Rattle.model.specs.Tables.{Tables};

    ghost Value = { Tables };

    ghost view = { λ k. record { n = k.n; weights = k.weights; discounts = k.discounts } };

    ghost invariant = { λ k. k.n ≤ 10 };

    ghost inverse = { λ v. record { n = v.n; weights = v.weights; discounts = v.discounts } };
}

// The model as given: its parameters and the initial factors. A C struct, as those of the schedule.
#[repr(C)]
#[derive(Clone, Copy)]
pub struct Model {
    pub a: Decimal,
    pub b: Decimal,
    pub c: Decimal,
    pub lambda: Decimal,
    pub eta: Decimal,
    pub spot: Decimal,
    pub factor_count: usize,
    pub factors: [Decimal; 10],
}

// The parameters as converted.
#[derive(Clone, Copy)]
pub struct Params {
    pub a: f64,
    pub b: f64,
    pub c: f64,
    pub lambda: f64,
    pub eta: f64,
}

// The state of a path: spot, z, variance, its factors, in the first n places, and the lowest spot
// so far, the start's included.
#[derive(Clone, Copy)]
pub struct State {
    pub spot: f64,
    pub z: f64,
    pub variance: f64,
    pub factors: [f64; 10],
    pub lowest: f64,
}

// One segment of a schedule as given: `steps` steps of `dt` years.
#[repr(C)]
#[derive(Clone, Copy)]
pub struct Segment {
    pub dt: Decimal,
    pub steps: u32,
}

// A schedule as given: its segments, in the first `count` places.
#[repr(C)]
#[derive(Clone, Copy)]
pub struct Schedule {
    pub count: usize,
    pub segments: [Segment; 64],
}

// A schedule as converted, with the last step of each segment, in the first `count` places. That
// its segments end one after the other is no fact of the type: `rates_at` takes any grid.
#[derive(Clone, Copy)]
pub struct TimeGrid {
    pub count: usize,
    pub total: usize,
    pub dt: [f64; 64],
    pub sqrt_dt: [f64; 64],
    pub last: [usize; 64],
}

// What does not change along a segment. A divisor is 1 + discount × dt.
#[derive(Clone, Copy)]
pub struct Rates {
    pub dt: f64,
    pub sqrt_dt: f64,
    pub divisors: [f64; 10],
}

// What every path shares: kernel, parameters, start and time grid.
#[derive(Clone, Copy)]
pub struct Simulation {
    pub kernel: Kernel,
    pub params: Params,
    pub start: State,
    pub grid: TimeGrid,
}
