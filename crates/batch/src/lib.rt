// A batch: what is asked of it, its price, and the claim of it.
#![tactic(auto)]

use estimates::Estimates;
use paths::Refused;

pub mod pricing;
pub mod questions;

// What a batch reports.
#[derive(Clone, Copy)]
pub struct Report {
    pub estimates: Estimates,
    pub paths: u64,
    pub non_positive: u64,
    pub steps: u64,
}

// What pricing a batch answers: its report, or the first question that got a No, with the steps
// taken by then.
pub type Priced = Result<Report, Refused>;
