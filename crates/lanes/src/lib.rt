// Four states of the model side by side, which the compiler works two at a time. A table of factors
// has a row for each factor, with a place for each lane.
#![tactic(auto)]

ghost use Rattle.std.specs.Prelude.{◌≡◌, true, ℕ, ◌≤◌, ◌<◌, get_or};
ghost use Rattle.std.specs.Float.{nan};
ghost use Rattle.numeric.specs.Double.{finite};
ghost use Rattle.lanes.specs.Inner.Lanes.{AllAt, Spread, FiniteLane};

use model::State;

mod roots;
pub mod rows;
pub mod scheme;

// Four states but for their factors: a path's spot, z, variance and lowest spot are in one place of
// each. Arrays side by side, so that the compiler works two lanes at a time. (The step of one path
// is no twin of theirs: its state by value is a form that was asked for.)
#[derive(Clone, Copy)]
pub struct Lanes {
    pub spot: [f64; 4],
    pub z: [f64; 4],
    pub variance: [f64; 4],
    pub lowest: [f64; 4],
}

// Every lane at the same state. (No `From`: the name says in how many places.)
pub fn all_at(s: State) -> Lanes
    ensures { AllAt s result }
{
    Lanes {
        spot: [s.spot; 4],
        z: [s.z; 4],
        variance: [s.variance; 4],
        lowest: [s.lowest; 4],
    }
}

// The first n of `values`, in every lane. (No kernel: n alone of it would be read.)
pub fn spread(n: usize, values: [f64; 10], factors: &mut [[f64; 4]; 10])
    requires { n ≤ 10 }
    ensures { Spread n values factors.new }
{
    for i in 0..n {
        factors[i] = [values[i]; 4];
    }
}

fn are_finite(values: &[f64; 4]) -> bool
    ensures { result ≡ true → (l : ℕ) → l < 4 → finite (get_or values.now l nan) ≡ true }
{
    values.iter().all(|x| numeric::is_finite(*x))
}

// Whether every lane's spot, z and variance are finite.
pub fn all_finite(s: Lanes) -> bool
    ensures { result ≡ true → (l : ℕ) → l < 4 → FiniteLane s l }
{
    are_finite(&s.spot) && are_finite(&s.z) && are_finite(&s.variance)
}
