// The walk of a trace, which writes each point into the lent tables.
ghost use Rattle.std.specs.Prelude.{◌≡◌, ◌+◌, ◌*◌, ◌≤◌, ◌<◌, length};
ghost use Rattle.model.specs.Inner.InUse.{simulation_in_use};
ghost use Rattle.model.specs.Inner.Laid.{Laid};
ghost use Rattle.trace.specs.Trace.{tables, trace_walk, trace_answer, tables_after};
ghost use Rattle.trace.specs.Inner.Points.{Sized, Written, PointWritten};

use crate::Stopped;
use model::{Simulation, State, draws, scheme};

// `values`, at the places of a point.
fn write_factors(values: &[f64], point: usize, factors: &mut [f64])
    requires { point * length values.now + length values.now ≤ length factors.old }
    ensures { Written (point * length values.now) (length values.now) values.now
        factors.old factors.new }
{
    let n = values.len();
    let at = point * n;
    factors[at..at + n].copy_from_slice(values);
}

// A state, as the point of that number. The kernel alone knows how many of its factors are in use.
// (Four tables one by one: of a struct of four `&mut` each function would have to say that they
// stay the same references.)
fn write_point(
    n: usize,
    s: State,
    point: usize,
    spots: &mut [f64],
    variances: &mut [f64],
    z: &mut [f64],
    factors: &mut [f64],
)
    requires n_bound { n ≤ 10 }
    requires point_in_bounds { (point < length spots.old) × (point < length variances.old)
        × (point < length z.old) }
    requires n_in_bounds { point * n + n ≤ length factors.old }
    ensures { PointWritten n s point
        (tables spots.old variances.old z.old
        factors.old)
        (tables spots.new variances.new z.new
        factors.new) }
{
    spots[point] = s.spot;
    variances[point] = s.variance;
    z[point] = s.z;
    write_factors(&s.factors[..n], point, factors);
}

// Each point is written, up to the first step that is not finite. Answers the steps taken.
pub fn walk(
    simulation: &Simulation,
    draws: &[f64],
    spots: &mut [f64],
    variances: &mut [f64],
    z: &mut [f64],
    factors: &mut [f64],
) -> Result<u64, Stopped>
    requires le_n { 1 ≤ simulation.now.kernel.n }
    requires laid { Laid simulation.now.grid }
    requires draws_len { length draws.now ≡ simulation.now.grid.total }
    requires sized { Sized simulation.now.grid.total simulation.now.kernel.n
        (tables spots.old variances.old z.old factors.old) }
    ensures answer { result
        ≡ trace_answer (trace_walk (simulation_in_use simulation.now) draws.now) }
    ensures tables { tables spots.new variances.new z.new factors.new
        ≡ tables_after (trace_walk (simulation_in_use simulation.now) draws.now)
        (tables spots.old variances.old z.old factors.old) }
{
    let kernel = simulation.kernel;
    let params = simulation.params;
    let grid = simulation.grid;
    let n = kernel.n;
    let total = grid.total;
    let mut s = simulation.start;
    let mut segment: usize = 0;
    let mut rates = scheme::rates_at(&kernel, &grid, segment);
    for at in 0..total {
        write_point(n, s, at, spots, variances, z, factors);
        let g = draws::take_draw(draws, at);
        let next = scheme::step(&kernel, params, s, g, &rates);
        let step = at as u64 + 1;
        scheme::ensure_finite(next).map_err(|quantity| Stopped { step, quantity })?;
        // The segment is counted on: a loop over segments around that over steps would state the
        // invariant of a walk twice.
        if at + 1 == grid.last[segment] {
            segment += 1;
            rates = scheme::rates_at(&kernel, &grid, segment);
        }
        s = next;
    }
    write_point(n, s, total, spots, variances, z, factors);
    Ok(total as u64)
}
