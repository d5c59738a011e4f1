// Square matrices of doubles: passes over their entries, and their product. A matrix of dimension
// dim lies row by row in a slice of dim * dim doubles.
#![tactic(auto)]

pub mod entries;
pub mod product;
