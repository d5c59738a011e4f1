// What is asked of a batch before 22, past its model: 18 and 1 of the strike, 27 and 1 of the
// barrier, 19 and 28 of the paths, 20 of the draws and 21 of the lent table.
ghost use Rattle.std.specs.Prelude.{◌≡◌, ◌≤◌};
ghost use Rattle.refusal.specs.Questions.{first_no};
ghost use Rattle.model.specs.Inner.Laid.{Laid};
ghost use Rattle.walks.specs.Batch.{draws_needed};
ghost use Rattle.batch.specs.Questions.{strike_questions, barrier_questions};
ghost use Rattle.batch.specs.Questions.{style_of, vanilla_at, down_and_out_at};
ghost use Rattle.batch.specs.Questions.{paths_pass, pair_questions, path_questions};
ghost use Rattle.batch.specs.Questions.{batch_questions};

use decimal::Decimal;
use estimates::{Payoff, Style};
use model::TimeGrid;
use refusal::{Outcome, Refusal};

#[tactic(auto, unfolding(refusal::specs::Questions::first_no))]
pub fn strike_questions(strike: Decimal) -> Outcome
    ensures { result ≡ first_no (strike_questions strike) }
{
    refusal::ensure(!strike.is_negative(), Refusal::Strike)?;
    refusal::ensure(strike.scale_fits(), Refusal::Scale)
}

// Asked of a down-and-out put, after those of its strike.
#[tactic(auto, unfolding(refusal::specs::Questions::first_no))]
pub fn barrier_questions(barrier: Decimal) -> Outcome
    ensures { result ≡ first_no (barrier_questions barrier) }
{
    refusal::ensure(barrier.is_positive(), Refusal::Barrier)?;
    refusal::ensure(barrier.scale_fits(), Refusal::Scale)
}

// C hands a style as a flag: one that is set says put.
pub fn style_of(put: bool) -> Style
    ensures { result ≡ style_of put }
{
    if put { Style::Put } else { Style::Call }
}

pub fn vanilla_payoff(style: Style, strike: Decimal) -> Payoff
    ensures { result ≡ vanilla_at style strike }
{
    let strike = strike.value();
    Payoff::Vanilla { style, strike }
}

pub fn down_and_out_payoff(strike: Decimal, barrier: Decimal) -> Payoff
    ensures { result ≡ down_and_out_at strike barrier }
{
    Payoff::DownAndOut {
        strike: strike.value(),
        barrier: barrier.value(),
    }
}

// Question 19. (Mirrored and paths stay two arguments, here and below: a whole batch would ask that
// its kernel has ten factors at most, which no question needs.)
#[tactic(auto, unfolding(crate::specs::Questions::paths_pass))]
fn paths_pass(mirrored: bool, paths: usize) -> bool
    ensures { result ≡ paths_pass mirrored paths }
{
    2 <= paths && paths <= 65536 && (!mirrored || paths % 2 == 0)
}

#[tactic(auto, using(crate::proofs::Sizes::product_small))]
fn draws_needed(mirrored: bool, paths: usize, total: usize) -> usize
    requires { (paths ≤ 65536) × (total ≤ 4096) }
    ensures { result ≡ draws_needed mirrored paths total }
{
    let sources = if mirrored { paths / 2 } else { paths };
    sources * total
}

// Question 28, of a mirrored batch alone.
#[tactic(auto, unfolding(refusal::specs::Questions::first_no))]
fn pair_questions(mirrored: bool, paths: usize) -> Outcome
    ensures { result ≡ first_no (pair_questions mirrored paths) }
{
    if !mirrored {
        return Ok(());
    }
    refusal::ensure(4 <= paths, Refusal::Pairs)
}

// Questions 19 and 28.
#[tactic(auto, unfolding(refusal::specs::Questions::first_no, crate::specs::Questions::path_questions))]
fn path_questions(mirrored: bool, paths: usize) -> Outcome
    ensures { result ≡ first_no (path_questions mirrored paths) }
{
    refusal::ensure(paths_pass(mirrored, paths), Refusal::Paths)?;
    pair_questions(mirrored, paths)
}

// Questions 19, 28, 20 and 21, with so many draws and a table of so many doubles lent. No product
// is taken before the paths are known to be few, so none wraps.
#[tactic(auto, using(refusal::proofs::Laws::append), unfolding(refusal::specs::Questions::first_no))]
pub fn batch_questions(
    grid: TimeGrid,
    mirrored: bool,
    paths: usize,
    drawn: usize,
    lent: usize,
) -> Outcome
    requires { Laid grid }
    ensures { result ≡ first_no (batch_questions grid mirrored paths drawn lent) }
{
    path_questions(mirrored, paths)?;
    let needed = draws_needed(mirrored, paths, grid.total);
    refusal::ensure(drawn == needed, Refusal::Draws)?;
    let rows = paths * grid.count;
    refusal::ensure(lent == rows, Refusal::Lengths)
}
