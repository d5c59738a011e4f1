// The walks of a batch: which draw a step of a path takes, and what is observed of a state.
#![tactic(auto)]

ghost use Rattle.std.specs.Prelude.{◌≡◌, suc, ◌+◌, ◌<◌, ◌≤◌, length, get_or};
ghost use Rattle.std.specs.Float.{nan};
ghost use Rattle.model.specs.Inner.InUse.{state_in_use};
ghost use Rattle.walks.specs.Batch.{draw_place, draw_of};
ghost use Rattle.walks.specs.Inner.Handed.{observed_of, factors_read, observe_by};

use model::{Simulation, State, draws};
use vix::Vix;

// What an observation at a segment's end reads off a state: the kind alone, which is all that the
// payoff and the estimates ask for.
#[derive(Clone, Copy)]
pub enum Observed {
    Spot,
    VixSquared,
}

// What is observed, with the form that the VIX is read off. An enum and no closure: it lies in the
// batch by value, and the form was asked for (docs/DECISIONS.md).
#[derive(Clone, Copy)]
pub enum Observation {
    Spot,
    VixSquared(Vix),
}

// The paths of a batch. In a mirrored one path 2i has the draws of path 2i - 1, negated.
#[derive(Clone, Copy)]
pub struct Batch {
    pub simulation: Simulation,
    pub observation: Observation,
    pub mirrored: bool,
    pub paths: usize,
}

// The draws of a batch, `total` for each path or, in a mirrored one, for each pair of paths.
#[derive(Clone, Copy)]
pub struct Draws<'a> {
    pub values: &'a [f64],
    pub mirrored: bool,
    pub total: usize,
}

impl Observation {
    // The kind alone. (No `From`: the name says which part of it is kept.)
    pub fn observed(&self) -> Observed
        ensures { result ≡ observed_of self.now }
    {
        match self {
            Observation::Spot => Observed::Spot,
            Observation::VixSquared(_) => Observed::VixSquared,
        }
    }
}

// The draw that a path takes after `at` of its `total` draws, which begin at place `first`. The
// reader is lent the draws of this path alone.
fn path_draw(draws: &[f64], first: usize, total: usize, at: usize) -> f64
    requires { (at < total) × (first + total ≤ length draws.now) }
    ensures { result ≡ get_or draws.now (first + at) nan }
{
    let end = first + total;
    draws::take_draw(&draws[first..end], at)
}

impl<'a> Draws<'a> {
    // The draw of step `at` + 1 of path `path` + 1. In a mirrored batch two paths share their
    // draws, and the second has them negated.
    pub fn at(&self, path: usize, at: usize) -> f64
        requires at_lt_total { at < self.now.total }
        requires total_in_bounds { draw_place self.now.mirrored self.now.total (suc path)
            (suc self.now.total) ≤ length self.now.values.now }
        ensures { result ≡ draw_of self.now.mirrored self.now.values.now self.now.total
            (suc path) (suc at) }
    {
        if self.mirrored {
            let g = path_draw(self.values, path / 2 * self.total, self.total, at);
            if path % 2 == 1 {
                return -g;
            }
            return g;
        }
        path_draw(self.values, path * self.total, self.total, at)
    }
}

pub fn observe(observation: &Observation, s: State) -> f64
    ensures { result ≡ observe_by observation.now
        (state_in_use (factors_read observation.now) s) }
{
    match observation {
        Observation::Spot => s.spot,
        Observation::VixSquared(form) => vix::raw_squared(*form, s.factors),
    }
}
