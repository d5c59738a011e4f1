// The trace call: one path over the whole schedule, with a table of what each of its points holds.
#![tactic(auto)]

ghost use Rattle.std.specs.Prelude.{◌≡◌, ◌≤◌, ◌==◌, length};
ghost use Rattle.refusal.specs.Questions.{first_no};
ghost use Rattle.admission.specs.Inner.Given.{given_of};
ghost use Rattle.trace.specs.Trace.{tables};
ghost use Rattle.trace.specs.Call.{trace_inputs, answered, refused_after};
ghost use Rattle.trace.specs.Call.{table_questions};
ghost use Rattle.trace.specs.Call.{TraceAnswered};
ghost use Rattle.trace.specs.Inner.Admission.{lengths_needed, TraceAdmitted};

use admission::Given;
use model::Simulation;
use refusal::{Outcome, Quantity, Refusal};

pub mod walk;

// Where a trace stops: its first step that is not finite, and what is not finite there.
#[derive(Clone, Copy, Debug, PartialEq, Eq)]
pub struct Stopped {
    pub step: u64,
    pub quantity: Quantity,
}

// The answer of a trace: 0 or the number of a refusal, its place, and the steps taken. A C struct:
// C has no Result.
#[repr(C)]
#[derive(Clone, Copy)]
pub struct Tracing {
    pub number: u32,
    pub place: [u64; 4],
    pub steps: u64,
}

// How long the lent tables are.
#[derive(Clone, Copy, Debug, PartialEq, Eq)]
pub struct Lengths {
    pub spots: usize,
    pub variances: usize,
    pub z: usize,
    pub factors: usize,
}

// How long the tables of so many points with n factors are. (No kernel, here and below: the lengths
// are those of a number of factors, whatever the factors are.)
#[tactic(auto, using(crate::proofs::Tables::factors_fit))]
fn lengths_needed(points: usize, n: usize) -> Lengths
    requires { (points ≤ 4097) × (n ≤ 10) }
    ensures { result ≡ lengths_needed points n }
{
    Lengths {
        spots: points,
        variances: points,
        z: points,
        factors: points * n,
    }
}

// A refusal, with the steps taken by then. (No `From`: it is made of two things.)
fn refused(refusal: Refusal, steps: u64) -> Tracing
    ensures { result ≡ refused_after steps refusal }
{
    Tracing {
        number: refusal.number(),
        place: refusal.place(),
        steps,
    }
}

// The steps taken, or 22; a trace is path 1.
impl From<Result<u64, Stopped>> for Tracing {
    ghost from_gives = { λ traced r. r ≡ answered traced };

    fn from(traced: Result<u64, Stopped>) -> Tracing {
        match traced {
            Ok(steps) => Tracing {
                number: 0,
                place: [0; 4],
                steps,
            },
            Err(Stopped { step, quantity }) => {
                let not_finite = Refusal::NonFinite {
                    path: 1,
                    step,
                    quantity,
                    steps: step,
                };
                refused(not_finite, step)
            }
        }
    }
}

// Questions 20 and 21, of so many draws and of tables of these lengths.
#[tactic(auto, unfolding(refusal::specs::Questions::first_no))]
fn table_questions(steps: usize, n: usize, drawn: usize, lent: Lengths) -> Outcome
    requires { (steps ≤ 4096) × (n ≤ 10) }
    ensures { result ≡ first_no (table_questions steps n drawn lent) }
{
    refusal::ensure(drawn == steps, Refusal::Draws)?;
    refusal::ensure(lent == lengths_needed(steps + 1, n), Refusal::Lengths)
}

// The questions of the model, then 20 and 21.
fn admitted(given: &Given, drawn: usize, lent: Lengths) -> Result<Simulation, Refusal>
    ensures { TraceAdmitted (given_of given.now) drawn lent result }
{
    let simulation = admission::prepare(given)?;
    // Bound first: the proof then opens the kernel alone, and not the whole simulation.
    let kernel = simulation.kernel;
    table_questions(simulation.grid.total, kernel.n, drawn, lent)?;
    Ok(simulation)
}

// All questions but 22 are asked before a table is written. The tables are lent one by one: a
// struct of four `&mut` would have every function say of each that it stays the same reference.
pub fn trace(
    given: &Given,
    draws: &[f64],
    spots: &mut [f64],
    variances: &mut [f64],
    z: &mut [f64],
    factors: &mut [f64],
) -> Tracing
    ensures { TraceAnswered (trace_inputs (given_of given.now) draws.now)
        (tables spots.old variances.old z.old factors.old)
        (tables spots.new variances.new z.new factors.new) result }
{
    let lent = Lengths {
        spots: spots.len(),
        variances: variances.len(),
        z: z.len(),
        factors: factors.len(),
    };
    match admitted(given, draws.len(), lent) {
        Ok(simulation) => Tracing::from(walk::walk(
            &simulation,
            draws,
            spots,
            variances,
            z,
            factors,
        )),
        Err(refusal) => refused(refusal, 0),
    }
}
