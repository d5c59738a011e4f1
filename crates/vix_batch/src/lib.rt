// The VIX batch: a future, or calls or puts, on the index.
#![tactic(auto)]

ghost use Rattle.std.specs.Prelude.{◌≡◌};
ghost use Rattle.refusal.specs.Questions.{first_no};
ghost use Rattle.admission.specs.Inner.Given.{given_of};
ghost use Rattle.vix_batch.specs.Call.{vix_batch_inputs, payoff_for, payoff_questions};
ghost use Rattle.vix_batch.specs.Call.{VixBatchAnswered};
ghost use Rattle.vix_batch.specs.Inner.Answer.{written};

use admission::Given;
use batch::{Priced, pricing, questions};
use decimal::Decimal;
use estimates::Payoff;
use refusal::Outcome;
use walks::{Batch, Observation};

// A future on the index, or a vanilla on it with its style and its strike. Flags: C has no enum
// that carries values.
#[repr(C)]
#[derive(Clone, Copy)]
pub struct VixPayoff {
    pub future: bool,
    pub put: bool,
    pub strike: Decimal,
}

// What is priced: a payoff on the index over a window, over so many paths.
#[derive(Clone, Copy)]
pub struct Order {
    pub window: Decimal,
    pub payoff: VixPayoff,
    pub paths: usize,
}

// The values of a VIX batch, in the order in which they are reported. At a refusal they are zeros,
// but for the steps taken. A C struct: C has no Result.
#[repr(C)]
#[derive(Clone, Copy)]
pub struct VixEstimate {
    pub number: u32,
    pub place: [u64; 4],
    pub payoff: f64,
    pub payoff_error: f64,
    pub index: f64,
    pub index_error: f64,
    pub paths: u64,
    pub steps: u64,
}

impl From<Priced> for VixEstimate {
    ghost from_gives = { λ priced r. r ≡ written priced };

    fn from(priced: Priced) -> VixEstimate {
        match priced {
            Ok(report) => {
                let payoff = report.estimates.payoff;
                let index = report.estimates.underlying;
                VixEstimate {
                    number: 0,
                    place: [0; 4],
                    payoff: payoff.mean,
                    payoff_error: payoff.error,
                    index: index.mean,
                    index_error: index.error,
                    paths: report.paths,
                    steps: report.steps,
                }
            }
            Err(refused) => VixEstimate {
                number: refused.refusal.number(),
                place: refused.refusal.place(),
                payoff: 0.0,
                payoff_error: 0.0,
                index: 0.0,
                index_error: 0.0,
                paths: 0,
                steps: refused.steps,
            },
        }
    }
}

// Questions 18 and 1 of the strike, which a future has not.
#[tactic(auto, unfolding(refusal::specs::Questions::first_no))]
fn payoff_questions(payoff: VixPayoff) -> Outcome
    ensures { result ≡ first_no (payoff_questions payoff) }
{
    if payoff.future {
        return Ok(());
    }
    questions::strike_questions(payoff.strike)
}

// (No `From`, as of a vanilla's terms.)
fn payoff_of(payoff: VixPayoff) -> Payoff
    ensures { result ≡ payoff_for payoff }
{
    if payoff.future {
        return Payoff::Future;
    }
    questions::vanilla_payoff(questions::style_of(payoff.put), payoff.strike)
}

// The questions in turn, and the price where they are passed. (Five arguments, here and below, as
// the four of a vanilla batch.)
fn priced(
    given: &Given,
    order: Order,
    draws: &[f64],
    workspace: &mut [f64],
    observations: &mut [f64],
) -> Priced
    ensures { VixBatchAnswered (vix_batch_inputs (given_of given.now) order draws.now)
        workspace.old workspace.new observations.old observations.new (written result) }
{
    let simulation = admission::prepare(given)?;
    let form = vix::prepare(
        simulation.kernel,
        simulation.params,
        order.window,
        workspace,
    )?;
    payoff_questions(order.payoff)?;
    let batch = Batch {
        simulation,
        observation: Observation::VixSquared(form),
        mirrored: false,
        paths: order.paths,
    };
    pricing::price(&batch, payoff_of(order.payoff), draws, observations)
}

// A row of raw VIX squared a path, a column a segment.
pub fn price(
    given: &Given,
    order: Order,
    draws: &[f64],
    workspace: &mut [f64],
    observations: &mut [f64],
) -> VixEstimate
    ensures { VixBatchAnswered (vix_batch_inputs (given_of given.now) order draws.now)
        workspace.old workspace.new observations.old observations.new result }
{
    VixEstimate::from(priced(given, order, draws, workspace, observations))
}
