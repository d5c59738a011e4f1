// Welford's running mean, and the estimates of a batch.
ghost use Rattle.std.specs.Prelude.{◌≡◌};
ghost use Rattle.estimates.specs.Moments.{no_moments, with_value, average};
ghost use Rattle.estimates.specs.Moments.{estimate_of, not_finite};
ghost use Rattle.estimates.specs.Inner.Tally.{averaged, sampled_by, no_paths};
ghost use Rattle.estimates.specs.Inner.Tally.{with_sample, with_path, estimates_from};

use crate::{Estimates, MeanAndError, Moments, Payoff, Sample, Sampling, Tally};
use refusal::Reported;

impl Moments {
    // No value yet.
    pub fn new() -> Moments
        ensures { result ≡ no_moments }
    {
        Moments {
            count: 0.0,
            mean: 0.0,
            squared_deviations: 0.0,
        }
    }

    // These with one value more.
    fn with_value(self, value: f64) -> Moments
        ensures { result ≡ with_value self value }
    {
        let count = self.count + 1.0;
        let deviation = value - self.mean;
        let mean = self.mean + deviation / count;
        Moments {
            count,
            mean,
            squared_deviations: self.squared_deviations + deviation * (value - mean),
        }
    }

    // Takes in one value more. (Lent by reference: the form was asked for.)
    pub fn add(&mut self, value: f64)
        ensures { self.new ≡ with_value self.old value }
    {
        *self = self.with_value(value);
    }

    // The mean and its standard error.
    pub fn estimate(self) -> MeanAndError
        ensures { result ≡ estimate_of self }
    {
        let variance_of_mean = self.squared_deviations / (self.count - 1.0) / self.count;
        MeanAndError {
            mean: self.mean,
            error: numeric::sqrt(variance_of_mean),
        }
    }
}

// The average of a mirrored pair. The sum may overflow, and then so does the average.
fn average(first: f64, second: f64) -> f64
    ensures { result ≡ average first second }
{
    (first + second) / 2.0
}

impl Sample {
    // The averages of this path and the second one of its pair.
    #[tactic(auto, unfolding(crate::specs::Inner::Tally::averaged))]
    fn averaged(self, second: Sample) -> Sample
        ensures { result ≡ averaged self second }
    {
        Sample {
            paid: average(self.paid, second.paid),
            underlying: average(self.underlying, second.underlying),
        }
    }
}

impl Sampling {
    // Before the first path.
    fn of(mirrored: bool) -> Sampling
        ensures { result ≡ sampled_by mirrored }
    {
        if mirrored {
            Sampling::Pairs
        } else {
            Sampling::Paths
        }
    }
}

impl Tally {
    // No path yet.
    pub fn new(mirrored: bool) -> Tally
        ensures { result ≡ no_paths mirrored }
    {
        Tally {
            payoffs: Moments::new(),
            underlyings: Moments::new(),
            sampling: Sampling::of(mirrored),
        }
    }

    // With one sample more, and what becomes of the next path.
    #[tactic(auto, unfolding(crate::specs::Inner::Tally::with_sample))]
    fn with_sample(mut self, sample: Sample, sampling: Sampling) -> Tally
        ensures { result ≡ with_sample self sample sampling }
    {
        self.payoffs.add(sample.paid);
        self.underlyings.add(sample.underlying);
        self.sampling = sampling;
        self
    }

    // With one path more, which shows the payoff this spot or index and this lowest spot.
    #[tactic(auto, unfolding(crate::specs::Inner::Tally::with_path))]
    pub fn with_path(mut self, payoff: Payoff, underlying: f64, lowest: f64) -> Tally
        ensures { result ≡ with_path payoff self underlying lowest }
    {
        let paid = payoff.paid(underlying, lowest);
        let path = Sample { paid, underlying };
        match self.sampling {
            Sampling::Paths => self.with_sample(path, Sampling::Paths),
            Sampling::Pairs => {
                self.sampling = Sampling::PairBegun(path);
                self
            }
            Sampling::PairBegun(first) => self.with_sample(first.averaged(path), Sampling::Pairs),
        }
    }

    #[tactic(auto, unfolding(crate::specs::Inner::Tally::estimates_from))]
    pub fn estimates(self) -> Estimates
        ensures { result ≡ estimates_from self }
    {
        Estimates {
            payoff: self.payoffs.estimate(),
            underlying: self.underlyings.estimate(),
        }
    }
}

impl Estimates {
    // The first of the four doubles that is not finite, in reported order.
    #[tactic(auto, unfolding(crate::specs::Moments::not_finite))]
    pub fn first_not_finite(self) -> Option<Reported>
        ensures { result ≡ not_finite self }
    {
        if !numeric::is_finite(self.payoff.mean) {
            return Some(Reported::Payoff);
        }
        if !numeric::is_finite(self.payoff.error) {
            return Some(Reported::PayoffError);
        }
        if !numeric::is_finite(self.underlying.mean) {
            return Some(Reported::Underlying);
        }
        if !numeric::is_finite(self.underlying.error) {
            return Some(Reported::UnderlyingError);
        }
        None
    }
}
