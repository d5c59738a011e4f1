// What the paths that have ended come to.
ghost use Rattle.std.specs.Prelude.{◌≡◌, ◌+◌, ◌*◌, ◌≤◌, length};
ghost use Rattle.paths.specs.Inner.Handed.{nothing_walked, with_ended};

use crate::Walked;
use estimates::{Payoff, Tally};
use walks::Observed;

impl Walked {
    // No path has ended.
    pub(crate) fn new(mirrored: bool) -> Walked
        ensures { result ≡ nothing_walked mirrored }
    {
        Walked {
            non_positive: 0,
            steps: 0,
            tally: Tally::new(mirrored),
        }
    }

    // With the paths whose lowest spots these are, in their order, from the first row on. Their
    // steps are counted as they are taken. (Rows and count stay two arguments, as in tally.)
    #[tactic(auto, using(tally::proofs::Tallying::fallen_few))]
    pub(crate) fn with_ended(
        self,
        payoff: Payoff,
        observed: Observed,
        rows: &[f64],
        count: usize,
        lowest: &[f64],
    ) -> Walked
        requires few { self.non_positive + length lowest.now ≤ 65536 }
        requires in_rows { (1 ≤ count) × (length lowest.now * count ≤ length rows.now) }
        ensures { result ≡ with_ended self payoff observed rows.now count lowest.now }
    {
        Walked {
            non_positive: self.non_positive + tally::fallen(lowest),
            steps: self.steps,
            tally: tally::with_rows(self.tally, payoff, observed, rows, count, lowest),
        }
    }
}
