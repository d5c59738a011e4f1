// Pricing a batch: its paths, and what is made of them.
ghost use Rattle.std.specs.Prelude.{◌≡◌, ◌*◌, ◌≤◌, length};
ghost use Rattle.refusal.specs.Questions.{first_no, each};
ghost use Rattle.walks.specs.Inner.Handed.{batch_of};
ghost use Rattle.batch.specs.Report.{questions_of_squared, squared_questions, last_questions};
ghost use Rattle.tally.specs.Inner.Rows.{last_observation};
ghost use Rattle.paths.specs.Inner.Handed.{Prepared};
ghost use Rattle.batch.specs.Inner.Handed.{reported_of, priced_from};
ghost use Rattle.batch.specs.Inner.Handed.{BatchPriced, Ready, PricedOnceAsked};

use crate::{Priced, Report, questions};
use estimates::Payoff;
use paths::{Refused, Walked, loops};
use refusal::{Outcome, Refusal};
use walks::{Batch, Observed};

// 23 and 24 of the last VIX squared of path `path`, counted from 1.
#[tactic(auto, using(crate::proofs::Squared::asked_is), unfolding(refusal::specs::Questions::first_no))]
fn squared_questions(squared: f64, path: u64) -> Outcome
    ensures { result ≡ first_no (questions_of_squared squared path) }
{
    vix::check_squared(squared).map_err(|fault| Refusal::Squared {
        fault,
        path: Some(path),
    })
}

// 23 and 24 of every path, in turn. (Observations and count stay two arguments, as in tally.)
fn check_squared(observations: &[f64], paths: usize, count: usize) -> Outcome
    requires { (1 ≤ count) × (length observations.now ≡ paths * count) }
    ensures { result ≡ first_no
        (each (squared_questions (last_observation observations.now count)) paths) }
{
    for path in 0..paths {
        let number = path + 1;
        let squared = tally::last_observation(observations, count, number);
        squared_questions(squared, number as u64)?;
    }
    Ok(())
}

// What is asked of the last observations: of spots nothing.
fn check_last(observed: Observed, observations: &[f64], paths: usize, count: usize) -> Outcome
    requires { (1 ≤ count) × (length observations.now ≡ paths * count) }
    ensures { result ≡ first_no
        (last_questions observed (last_observation observations.now count) paths) }
{
    match observed {
        Observed::Spot => Ok(()),
        Observed::VixSquared => check_squared(observations, paths, count),
    }
}

// The estimates, or question 25. (The four doubles tell which is not finite; that it is an error is
// said here, where alone it is one.)
#[tactic(auto, unfolding(crate::specs::Inner::Handed::reported_of))]
fn reported(walked: Walked, paths: u64) -> Priced
    ensures { result ≡ reported_of walked paths }
{
    let estimates = walked.tally.estimates();
    let steps = walked.steps;
    if let Some(which) = estimates.first_not_finite() {
        let refusal = Refusal::Estimate(which);
        return Err(Refused { refusal, steps });
    }
    Ok(Report {
        estimates,
        paths,
        non_positive: walked.non_positive,
        steps,
    })
}

// Questions 23 and 24 where the VIX squared is observed, then the estimates.
#[tactic(auto, unfolding(crate::specs::Inner::Handed::priced_from))]
fn priced_from(walked: Walked, batch: &Batch, observations: &[f64]) -> Priced
    requires le_count { 1 ≤ batch.now.simulation.grid.count }
    requires observations_len { length observations.now
        ≡ batch.now.paths * batch.now.simulation.grid.count }
    ensures { result ≡ priced_from walked batch.now observations.now }
{
    let observed = batch.observation.observed();
    let count = batch.simulation.grid.count;
    let steps = walked.steps;
    check_last(observed, observations, batch.paths, count).map_err(|refusal| Refused {
        refusal,
        steps,
    })?;
    reported(walked, batch.paths as u64)
}

// The paths of a batch whose questions are passed, and what is made of them: 22 where a step is not
// finite. (The four arguments stay four, as in `run_paths`.)
fn price_admitted(batch: &Batch, payoff: Payoff, draws: &[f64], observations: &mut [f64]) -> Priced
    requires { Prepared batch.now draws.now observations.old }
    ensures { BatchPriced (batch_of batch.now draws.now) payoff
        observations.old observations.new result }
{
    let walked = loops::run_paths(batch, payoff, draws, observations)?;
    priced_from(walked, batch, observations)
}

// Questions 19, 28, 20 and 21, and the price where they are passed.
pub fn price(batch: &Batch, payoff: Payoff, draws: &[f64], observations: &mut [f64]) -> Priced
    requires { Ready batch.now }
    ensures { PricedOnceAsked batch.now payoff draws.now
        observations.old observations.new result }
{
    let grid = batch.simulation.grid;
    let drawn = draws.len();
    let lent = observations.len();
    questions::batch_questions(grid, batch.mirrored, batch.paths, drawn, lent)?;
    price_admitted(batch, payoff, draws, observations)
}
