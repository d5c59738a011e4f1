// Admission of the kernel tables: questions 2, 3 and 4 (rule 14.3).
ghost use Rattle.std.specs.Prelude.{◌≡◌, ◌≤◌, length, take};
ghost use Rattle.refusal.specs.Questions.{first_no};
ghost use Rattle.model.specs.Kernel.{in_range};
ghost use Rattle.admission.specs.Questions.{count_questions, questions_of};
ghost use Rattle.admission.specs.Inner.Admission.{KernelPrepared};

use model::Kernel;
use refusal::{Outcome, Refusal, Table};

// 2^-90 and 2^90.
const SMALLEST: f64 = 8.077935669463161e-28;

const LARGEST: f64 = 1237940039285380274899124224.0;

// From 2^-90 to 2^90, both included. A NaN is not.
fn in_range(x: f64) -> bool
    ensures { result ≡ in_range x }
{
    SMALLEST <= x && x <= LARGEST
}

// Questions 2 and 3, of tables of so many weights and discounts.
#[tactic(auto, unfolding(refusal::specs::Questions::first_no))]
fn count_questions(weights: usize, discounts: usize) -> Outcome
    ensures { result ≡ first_no (count_questions weights discounts) }
{
    refusal::ensure(1 <= weights && weights <= 10, Refusal::WeightCount)?;
    refusal::ensure(discounts == weights, Refusal::DiscountCount)
}

// Question 4 of a weight and the discount beside it, counted from 1.
#[tactic(auto, unfolding(refusal::specs::Questions::first_no))]
fn entry_questions(weight: f64, discount: f64, index: u64) -> Outcome
    ensures { result ≡ first_no (questions_of weight discount index) }
{
    let table = Table::Weights;
    refusal::ensure(in_range(weight), Refusal::OutOfRange { table, index })?;
    let table = Table::Discounts;
    refusal::ensure(in_range(discount), Refusal::OutOfRange { table, index })
}

// Ten entries at most, in the first places of ten.
fn kept(entries: &[f64]) -> [f64; 10]
    requires { length entries.now ≤ 10 }
    ensures { take (length entries.now) result ≡ entries.now }
{
    let mut all = [0.0; 10];
    all[..entries.len()].copy_from_slice(entries);
    all
}

// The tables of weights and discounts, copied.
pub fn tables(weights: &[f64], discounts: &[f64]) -> Result<Kernel, Refusal>
    ensures { KernelPrepared weights.now discounts.now result }
{
    let n = weights.len();
    count_questions(n, discounts.len())?;
    for i in 0..n {
        entry_questions(weights[i], discounts[i], (i as u64) + 1)?;
    }
    Ok(Kernel {
        n,
        weights: kept(weights),
        discounts: kept(discounts),
    })
}
