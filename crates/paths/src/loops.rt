// The path and step loops.
ghost use Rattle.std.specs.Prelude.{◌≡◌, ◌<◌};
ghost use Rattle.walks.specs.Inner.Handed.{batch_of};
ghost use Rattle.paths.specs.Inner.Handed.{Prepared, GroupReady, Grouped};
ghost use Rattle.paths.specs.Inner.Handed.{stopped_at, BatchRun};

use crate::{Refused, Walked};
use estimates::Payoff;
use model::scheme;
use refusal::{Quantity, Refusal};
use walks::{Batch, Draws};

// What the paths come to with `path` + 1 to `path` + 4, walked side by side: their observations are
// written to their rows. None where that is not sure, and then nothing of the four is written.
fn walk_group(
    batch: &Batch,
    payoff: Payoff,
    path: usize,
    walked: Walked,
    draws: &[f64],
    observations: &mut [f64],
) -> Option<Walked>
    requires { GroupReady batch.now payoff path walked draws.now observations.old }
    ensures { Grouped (batch_of batch.now draws.now) payoff path
        observations.old observations.new result }
{
    let observed = batch.observation.observed();
    let grid = batch.simulation.grid;
    let count = grid.count;
    let mut rows = [0.0; 256];
    let lowest = groups::walk_four(batch, path, draws, &mut rows)?;
    groups::write_rows(&rows[..4 * count], path * count, observations);
    let mut ended = walked.with_ended(payoff, observed, &rows[..], count, &lowest[..]);
    ended.steps += 4 * (grid.total as u64);
    Some(ended)
}

// Step `step` of path `path` + 1 is not finite, `steps` of the batch being taken by then.
fn stopped(path: usize, step: usize, quantity: Quantity, steps: u64) -> Refused
    requires { path < 65536 }
    ensures { result ≡ stopped_at path step quantity steps }
{
    let number = path as u64 + 1;
    Refused {
        refusal: Refusal::NonFinite {
            path: number,
            step: step as u64,
            quantity,
            steps,
        },
        steps,
    }
}

// Every path in turn, step by step, up to the first step that is not finite. `observations` has a
// row a path and a column a segment. Four paths at a time are walked side by side where that is
// sure to give what the plain loop gives; a group of which that cannot be said goes through the
// plain loop. What a path shows the payoff is added as the path ends. Batch, payoff, draws and
// observations stay four arguments: of a struct that holds a `&mut` each function would have to say
// that it stays the same reference.
pub fn run_paths(
    batch: &Batch,
    payoff: Payoff,
    draws: &[f64],
    observations: &mut [f64],
) -> Result<Walked, Refused>
    requires { Prepared batch.now draws.now observations.old }
    ensures { BatchRun (batch_of batch.now draws.now) payoff
        observations.old observations.new result }
{
    let observed = batch.observation.observed();
    let simulation = batch.simulation;
    let k = simulation.kernel;
    let grid = simulation.grid;
    let count = grid.count;
    let first = scheme::rates_at(&k, &grid, 0);
    let drawn = Draws {
        values: draws,
        mirrored: batch.mirrored,
        total: grid.total,
    };
    let mut walked = Walked::new(batch.mirrored);
    let mut ended = Ok(());
    let mut path = 0;
    let mut next_group = 0;
    // No `for`: a turn takes one path or four. The labelled break leaves both loops, and the steps
    // are counted as they are taken: forms that were asked for.
    'paths: while path < batch.paths {
        if next_group <= path && path + 4 <= batch.paths {
            if let Some(group) = walk_group(batch, payoff, path, walked, draws, observations) {
                walked = group;
                path += 4;
                continue 'paths;
            }
            next_group = path + 4;
        }
        let mut s = simulation.start;
        let mut rates = first;
        let mut segment = 0;
        for at in 0..grid.total {
            let g = drawn.at(path, at);
            s = scheme::step(&k, simulation.params, s, g, &rates);
            let step = at + 1;
            walked.steps += 1;
            if let Err(quantity) = scheme::ensure_finite(s) {
                ended = Err(stopped(path, step, quantity, walked.steps));
                break 'paths;
            }
            if step == grid.last[segment] {
                observations[path * count + segment] = walks::observe(&batch.observation, s);
                // Counted on: a loop over segments around that over steps would state the
                // invariant of a path twice.
                segment += 1;
                rates = scheme::rates_at(&k, &grid, segment);
            }
        }
        let row = &observations[path * count..];
        let lowest = [s.lowest];
        walked = walked.with_ended(payoff, observed, row, count, &lowest[..]);
        path += 1;
    }
    ended?;
    Ok(walked)
}
