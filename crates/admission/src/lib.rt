// Admission of a model: what is asked of its inputs, in the order of rule 14.7, and the simulation
// that is prepared of them.
#![tactic(auto)]

ghost use Rattle.admission.specs.Inner.Admission.{ModelPrepared};
ghost use Rattle.admission.specs.Inner.Given.{given_of};

use model::{Model, Schedule, Simulation};
use refusal::Refusal;

pub mod kernel;
pub mod params;

// What every simulating call is given.
#[derive(Clone, Copy)]
pub struct Given<'a> {
    pub weights: &'a [f64],
    pub discounts: &'a [f64],
    pub model: Model,
    pub schedule: Schedule,
}

// Admission to every simulating call: kernel tables, then parameters, then segments.
pub fn prepare(given: &Given) -> Result<Simulation, Refusal>
    ensures { ModelPrepared (given_of given.now) result }
{
    let kernel = kernel::tables(given.weights, given.discounts)?;
    let initial = params::try_new(kernel, given.model)?;
    let grid = schedule::from_segments(given.schedule)?;
    Ok(Simulation {
        kernel,
        params: initial.params,
        start: initial.start,
        grid,
    })
}
