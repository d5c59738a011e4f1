// Refusals: what a call answers when one of its questions gets a No.
#![tactic(auto)]

ghost use Rattle.std.specs.Prelude.{◌≡◌, None};
ghost use Rattle.refusal.specs.declared.Refusal.TheVariants.{Squared};
ghost use Rattle.refusal.specs.Refusal.{number_of, place_of, quantity_number};
ghost use Rattle.refusal.specs.Refusal.{table_number, estimate_number};
ghost use Rattle.refusal.specs.Questions.{ask, first_no, unless, passed};

// What can stop being finite in a step, in the order in which it is asked.
#[derive(Clone, Copy, Debug, PartialEq, Eq)]
pub enum Quantity {
    Spot,
    Z,
    Variance,
}

// The tables of a kernel.
#[derive(Clone, Copy, Debug, PartialEq, Eq)]
pub enum Table {
    Weights,
    Discounts,
}

// The doubles that a batch reports, in their order.
#[derive(Clone, Copy, Debug, PartialEq, Eq)]
pub enum Reported {
    Payoff,
    PayoffError,
    Underlying,
    UnderlyingError,
}

// What keeps a VIX squared from having an index.
#[derive(Clone, Copy, Debug, PartialEq, Eq)]
pub enum BadSquared {
    NotFinite,
    NotPositive,
}

// A question that got a No, with its place. Tables, paths, steps, segments and indices count from
// 1.
#[derive(Clone, Copy, Debug, PartialEq, Eq)]
pub enum Refusal {
    Scale,
    WeightCount,
    DiscountCount,
    OutOfRange {
        table: Table,
        index: u64,
    },
    A,
    C,
    Lambda,
    Eta,
    Spot,
    FactorCount,
    NoSegment,
    TooManySegments,
    Segment(u64),
    TooManySteps(u64),
    Window,
    Workspace,
    Exponential,
    Strike,
    Paths,
    Draws,
    Lengths,
    NonFinite {
        path: u64,
        step: u64,
        quantity: Quantity,
        steps: u64,
    },
    Squared {
        fault: BadSquared,
        path: Option<u64>,
    },
    Estimate(Reported),
    Matrix,
    Barrier,
    Pairs,
}

// What a list of questions comes to: each got a Yes, or the first No.
pub type Outcome = Result<(), Refusal>;

// A question: whether its condition holds, and what a No answers.
pub fn ensure(passes: bool, refusal: Refusal) -> Outcome
    ensures { result ≡ unless passes refusal passed }
{
    if passes { Ok(()) } else { Err(refusal) }
}

impl From<Quantity> for u64 {
    ghost from_gives = { λ q r. r ≡ quantity_number q };

    fn from(quantity: Quantity) -> u64 {
        match quantity {
            Quantity::Spot => 1,
            Quantity::Z => 2,
            Quantity::Variance => 3,
        }
    }
}

impl From<Table> for u64 {
    ghost from_gives = { λ t r. r ≡ table_number t };

    fn from(table: Table) -> u64 {
        match table {
            Table::Weights => 1,
            Table::Discounts => 2,
        }
    }
}

impl From<Reported> for u64 {
    ghost from_gives = { λ e r. r ≡ estimate_number e };

    fn from(reported: Reported) -> u64 {
        match reported {
            Reported::Payoff => 1,
            Reported::PayoffError => 2,
            Reported::Underlying => 3,
            Reported::UnderlyingError => 4,
        }
    }
}

// A VIX squared that is of no path.
impl From<BadSquared> for Refusal {
    ghost from_gives = { λ fault r. r ≡ Squared fault None };

    fn from(fault: BadSquared) -> Refusal {
        Refusal::Squared { fault, path: None }
    }
}

impl Refusal {
    pub fn number(self) -> u32
        ensures { result ≡ number_of self }
    {
        match self {
            Refusal::Scale => 1,
            Refusal::WeightCount => 2,
            Refusal::DiscountCount => 3,
            Refusal::OutOfRange { .. } => 4,
            Refusal::A => 5,
            Refusal::C => 6,
            Refusal::Lambda => 7,
            Refusal::Eta => 8,
            Refusal::Spot => 9,
            Refusal::FactorCount => 10,
            Refusal::NoSegment => 11,
            Refusal::TooManySegments => 12,
            Refusal::Segment(_) => 13,
            Refusal::TooManySteps(_) => 14,
            Refusal::Window => 15,
            Refusal::Workspace => 16,
            Refusal::Exponential => 17,
            Refusal::Strike => 18,
            Refusal::Paths => 19,
            Refusal::Draws => 20,
            Refusal::Lengths => 21,
            Refusal::NonFinite { .. } => 22,
            Refusal::Squared {
                fault: BadSquared::NotFinite,
                ..
            } => 23,
            Refusal::Squared {
                fault: BadSquared::NotPositive,
                ..
            } => 24,
            Refusal::Estimate(_) => 25,
            Refusal::Matrix => 26,
            Refusal::Barrier => 27,
            Refusal::Pairs => 28,
        }
    }

    // The place as four numbers, with 0 where there is none.
    pub fn place(self) -> [u64; 4]
        ensures { result ≡ place_of self }
    {
        match self {
            Refusal::OutOfRange { table, index } => [u64::from(table), index, 0, 0],
            Refusal::Segment(segment) | Refusal::TooManySteps(segment) => [segment, 0, 0, 0],
            Refusal::NonFinite {
                path,
                step,
                quantity,
                steps,
            } => [path, step, u64::from(quantity), steps],
            Refusal::Squared {
                path: Some(path),
                ..
            } => [path, 0, 0, 0],
            Refusal::Estimate(reported) => [u64::from(reported), 0, 0, 0],
            Refusal::Squared { path: None, .. }
            | Refusal::Scale
            | Refusal::WeightCount
            | Refusal::DiscountCount
            | Refusal::A
            | Refusal::C
            | Refusal::Lambda
            | Refusal::Eta
            | Refusal::Spot
            | Refusal::FactorCount
            | Refusal::NoSegment
            | Refusal::TooManySegments
            | Refusal::Window
            | Refusal::Workspace
            | Refusal::Exponential
            | Refusal::Strike
            | Refusal::Paths
            | Refusal::Draws
            | Refusal::Lengths
            | Refusal::Matrix
            | Refusal::Barrier
            | Refusal::Pairs => [0; 4],
        }
    }
}
