// The paths of a batch: the path and step loops, with their observations and their tally.
#![tactic(auto)]

ghost use Rattle.std.specs.Prelude.{◌≡◌};
ghost use Rattle.paths.specs.Inner.Before.{before_steps};

use estimates::Tally;
use refusal::Refusal;

mod ended;
pub mod loops;

// What the paths of a batch that have ended come to, each of their steps being finite.
#[derive(Clone, Copy)]
pub struct Walked {
    pub non_positive: u64,
    pub steps: u64,
    pub tally: Tally,
}

// Why a batch has no price, and how many steps were taken, a failing one included.
#[derive(Clone, Copy)]
pub struct Refused {
    pub refusal: Refusal,
    pub steps: u64,
}

// A question that is asked before the first step.
impl From<Refusal> for Refused {
    ghost from_gives = { λ refusal r. r ≡ before_steps refusal };

    fn from(refusal: Refusal) -> Refused {
        Refused { refusal, steps: 0 }
    }
}
