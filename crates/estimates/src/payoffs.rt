// What a path shows a payoff, and what the payoff pays on it.
ghost use Rattle.std.specs.Prelude.{◌≡◌};
ghost use Rattle.estimates.specs.Payoff.{vanilla_payoff, payoff_of, underlying_of};

use crate::{Payoff, Style};
use walks::Observed;

impl Style {
    // What a vanilla pays on the spot or the index.
    #[tactic(auto, unfolding(crate::specs::Payoff::vanilla_payoff))]
    pub fn paid(self, strike: f64, x: f64) -> f64
        ensures { result ≡ vanilla_payoff self strike x }
    {
        match self {
            Style::Call => numeric::positive_part(x - strike),
            Style::Put => numeric::positive_part(strike - x),
        }
    }
}

impl Payoff {
    // What is paid on the spot or the index, where this is the path's lowest spot.
    #[tactic(auto, unfolding(crate::specs::Payoff::payoff_of))]
    pub fn paid(self, x: f64, lowest: f64) -> f64
        ensures { result ≡ payoff_of self x lowest }
    {
        match self {
            Payoff::Future => x,
            Payoff::Vanilla { style, strike } => style.paid(strike, x),
            Payoff::DownAndOut { strike, barrier } => {
                if lowest <= barrier {
                    0.0
                } else {
                    Style::Put.paid(strike, x)
                }
            }
        }
    }
}

// The spot or the index of a path: its last observation, or the root of that.
pub fn underlying_of(observed: Observed, observation: f64) -> f64
    ensures { result ≡ underlying_of observed observation }
{
    match observed {
        Observed::Spot => observation,
        Observed::VixSquared => numeric::sqrt(observation),
    }
}
