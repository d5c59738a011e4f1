// The vanilla call: a batch of calls, puts or down-and-out puts on the spot, ordinary or mirrored.
#![tactic(auto)]

ghost use Rattle.std.specs.Prelude.{◌≡◌};
ghost use Rattle.refusal.specs.Questions.{first_no};
ghost use Rattle.admission.specs.Inner.Given.{given_of};
ghost use Rattle.vanilla.specs.Call.{terms_questions, terms_payoff};
ghost use Rattle.vanilla.specs.Call.{vanilla_inputs, VanillaAnswered};
ghost use Rattle.vanilla.specs.Inner.Answer.{written};

use admission::Given;
use batch::{Priced, pricing, questions};
use decimal::Decimal;
use estimates::Payoff;
pub use estimates::Style;
use refusal::Outcome;
use walks::{Batch, Observation};

// What is paid on the spot: a call or a put at its strike, or a put that vanishes once the spot is
// at its barrier or below.
#[derive(Clone, Copy)]
pub enum Terms {
    Vanilla { style: Style, strike: Decimal },
    DownAndOut { strike: Decimal, barrier: Decimal },
}

// What is priced: these terms, over so many paths.
#[derive(Clone, Copy)]
pub struct Order {
    pub terms: Terms,
    pub mirrored: bool,
    pub paths: usize,
}

// The values of a vanilla batch, in the order in which they are reported. At a refusal they are
// zeros, but for the steps taken. A C struct: C has no Result.
#[repr(C)]
#[derive(Clone, Copy)]
pub struct Estimate {
    pub number: u32,
    pub place: [u64; 4],
    pub price: f64,
    pub price_error: f64,
    pub spot_mean: f64,
    pub spot_error: f64,
    pub paths: u64,
    pub non_positive: u64,
    pub steps: u64,
}

impl From<Priced> for Estimate {
    ghost from_gives = { λ priced r. r ≡ written priced };

    fn from(priced: Priced) -> Estimate {
        match priced {
            Ok(report) => {
                let price = report.estimates.payoff;
                let spot = report.estimates.underlying;
                Estimate {
                    number: 0,
                    place: [0; 4],
                    price: price.mean,
                    price_error: price.error,
                    spot_mean: spot.mean,
                    spot_error: spot.error,
                    paths: report.paths,
                    non_positive: report.non_positive,
                    steps: report.steps,
                }
            }
            Err(refused) => Estimate {
                number: refused.refusal.number(),
                place: refused.refusal.place(),
                price: 0.0,
                price_error: 0.0,
                spot_mean: 0.0,
                spot_error: 0.0,
                paths: 0,
                non_positive: 0,
                steps: refused.steps,
            },
        }
    }
}

// 18 and 1 of the strike, then 27 and 1 of a barrier.
fn terms_questions(terms: Terms) -> Outcome
    ensures { result ≡ first_no (terms_questions terms) }
{
    match terms {
        Terms::Vanilla { strike, .. } => questions::strike_questions(strike),
        Terms::DownAndOut { strike, barrier } => {
            questions::strike_questions(strike)?;
            questions::barrier_questions(barrier)
        }
    }
}

// (No `From`: the name says what is made, and a caller that reads `into` would not.)
fn terms_payoff(terms: Terms) -> Payoff
    ensures { result ≡ terms_payoff terms }
{
    match terms {
        Terms::Vanilla { style, strike } => questions::vanilla_payoff(style, strike),
        Terms::DownAndOut { strike, barrier } => questions::down_and_out_payoff(strike, barrier),
    }
}

// The questions in turn, and the price where they are passed. (Four arguments, here and below: of a
// struct that holds a `&mut` each function would have to say that it stays the same reference.)
fn priced(given: &Given, order: Order, draws: &[f64], observations: &mut [f64]) -> Priced
    ensures { VanillaAnswered (vanilla_inputs (given_of given.now) order draws.now)
        observations.old observations.new (written result) }
{
    let simulation = admission::prepare(given)?;
    terms_questions(order.terms)?;
    let batch = Batch {
        simulation,
        observation: Observation::Spot,
        mirrored: order.mirrored,
        paths: order.paths,
    };
    pricing::price(&batch, terms_payoff(order.terms), draws, observations)
}

// A row of observations a path, a column a segment.
pub fn price(given: &Given, order: Order, draws: &[f64], observations: &mut [f64]) -> Estimate
    ensures { VanillaAnswered (vanilla_inputs (given_of given.now) order draws.now)
        observations.old observations.new result }
{
    Estimate::from(priced(given, order, draws, observations))
}
