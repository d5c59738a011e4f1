// A group of four paths of a batch, walked side by side: the same walks as those of one path after
// the other, where each of their steps is finite. The walk of one path stays beside it, with its
// state by value: a form that was asked for.
#![tactic(auto)]

ghost use Rattle.std.specs.Prelude.{◌≡◌, ℕ, suc, ◌+◌, ◌≤◌, ◌<◌, length, get_or, IfSome};
ghost use Rattle.std.specs.Float.{nan};
ghost use Rattle.walks.specs.Batch.{draw_place, draw_of};
ghost use Rattle.walks.specs.Inner.Handed.{batch_of};
ghost use Rattle.groups.specs.Inner.Group.{GroupPrepared, FourWalked};
ghost use Rattle.groups.specs.Inner.Group.{ObservedLanes, Column, Copied};

use lanes::Lanes;
use model::scheme;
use walks::{Batch, Draws, Observation};

// The draws of step `at` + 1 of paths `path` + 1 to `path` + 4.
fn draws_at(draws: &Draws<'_>, path: usize, at: usize) -> [f64; 4]
    requires at_lt_total { (at < draws.now.total) × (path ≤ 65536) }
    requires by_index { (l : ℕ) → l < 4
        → draw_place draws.now.mirrored draws.now.total (suc (path + l)) (suc draws.now.total)
        ≤ length draws.now.values.now }
    ensures { (l : ℕ) → l < 4 → get_or result l nan
        ≡ draw_of draws.now.mirrored draws.now.values.now draws.now.total
        (suc (path + l)) (suc at) }
{
    std::array::from_fn(|l| draws.at(path + l, at))
}

// What is observed in each lane.
fn observe(observation: &Observation, s: Lanes, factors: &[[f64; 4]; 10]) -> [f64; 4]
    ensures { ObservedLanes observation.now s factors.now result }
{
    match observation {
        Observation::Spot => s.spot,
        Observation::VixSquared(form) => vix_lanes::squared(form, factors),
    }
}

// One entry of each row, in column `segment`.
fn write_column(values: [f64; 4], count: usize, segment: usize, rows: &mut [f64; 256])
    requires { (count ≤ 64) × (segment < count) }
    ensures { Column values count segment rows.old rows.new }
{
    for l in 0..4 {
        rows[l * count + segment] = values[l];
    }
}

// Paths `path` + 1 to `path` + 4, walked to their ends: their lowest spots. Their observations go
// to `rows`, a row a path and a column a segment. Finiteness is asked once: a path that ends finite
// was finite throughout. Where a step was not finite or a root was not found, there is no answer,
// and nothing is known.
pub fn walk_four(
    batch: &Batch,
    path: usize,
    draws: &[f64],
    rows: &mut [f64; 256],
) -> Option<[f64; 4]>
    requires { GroupPrepared batch.now path draws.now }
    ensures { IfSome result (λ lowest. FourWalked (batch_of batch.now draws.now)
        path rows.new lowest) }
{
    let simulation = batch.simulation;
    let k = simulation.kernel;
    let p = simulation.params;
    let start = simulation.start;
    let sched = simulation.grid;
    let drawn = Draws {
        values: draws,
        mirrored: batch.mirrored,
        total: sched.total,
    };
    let mut factors = [[0.0; 4]; 10];
    lanes::spread(k.n, start.factors, &mut factors);
    let mut s = lanes::all_at(start);
    let mut segment: usize = 0;
    let mut rates = scheme::rates_at(&k, &sched, segment);
    for at in 0..sched.total {
        let g = draws_at(&drawn, path, at);
        if !lanes::scheme::try_step(k, p, &mut s, g, rates, &mut factors) {
            return None;
        }
        // The segment is counted on, as in the walk of one path.
        if at + 1 == sched.last[segment] {
            let values = observe(&batch.observation, s, &factors);
            write_column(values, sched.count, segment, rows);
            segment += 1;
            rates = scheme::rates_at(&k, &sched, segment);
        }
    }
    if !lanes::all_finite(s) {
        return None;
    }
    Some(s.lowest)
}

// Copies rows to observations, from place `at` on.
pub fn write_rows(rows: &[f64], at: usize, observations: &mut [f64])
    requires { at + length rows.now ≤ length observations.old }
    ensures { Copied rows.now at
        observations.old observations.new }
{
    observations[at..at + rows.len()].copy_from_slice(rows);
}
