// Payoffs, and running means with their standard errors (Welford 1962).
#![tactic(auto)]

pub mod payoffs;
pub mod welford;

#[derive(Clone, Copy)]
pub enum Style {
    Call,
    Put,
}

// A payoff, with strike and barrier as converted. Only a put has a barrier. (An enum, and no
// closure: the form was asked for, docs/DECISIONS.md.)
#[derive(Clone, Copy)]
pub enum Payoff {
    Future,
    Vanilla { style: Style, strike: f64 },
    DownAndOut { strike: f64, barrier: f64 },
}

// The running mean and squared deviations of Welford's algorithm.
#[derive(Clone, Copy)]
pub struct Moments {
    pub count: f64,
    pub mean: f64,
    pub squared_deviations: f64,
}

// What a path pays, and what it pays on: the spot or the index. Or the averages of two paths.
#[derive(Clone, Copy)]
pub struct Sample {
    pub paid: f64,
    pub underlying: f64,
}

// What is a sample: each path, or each mirrored pair, whose first path may wait for its second.
#[derive(Clone, Copy)]
pub enum Sampling {
    Paths,
    Pairs,
    PairBegun(Sample),
}

// The moments of the samples so far, of what they pay and of what they pay on.
#[derive(Clone, Copy)]
pub struct Tally {
    pub payoffs: Moments,
    pub underlyings: Moments,
    pub sampling: Sampling,
}

// A mean and its standard error.
#[derive(Clone, Copy)]
pub struct MeanAndError {
    pub mean: f64,
    pub error: f64,
}

// The estimates of a batch: of the payoff, and of the terminal spot or the index.
#[derive(Clone, Copy)]
pub struct Estimates {
    pub payoff: MeanAndError,
    pub underlying: MeanAndError,
}
