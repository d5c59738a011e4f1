// The VIX squared of the model as a quadratic form in the factors: its coefficients, and its value.
#![tactic(auto)]

ghost use Rattle.std.specs.Prelude.{◌≡◌, ◌-◌, ◌≤◌, ◌<◌, take};
ghost use Rattle.refusal.specs.Questions.{first_no};
ghost use Rattle.model.specs.Inner.InUse.{kernel_in_use};
ghost use Rattle.generator_rows.specs.State.{pairs_before};
ghost use Rattle.vix.specs.Form.{linear_value, row_value, raw_squared};
ghost use Rattle.vix.specs.Questions.{window_questions};
ghost use Rattle.vix.specs.Evaluation.{checked, evaluation};
ghost use Rattle.vix.specs.Inner.Form.{vix_in_use, FormPrepared};

mod form;

use decimal::Decimal;
use generator_rows::state;
use model::{Kernel, Params};
use refusal::{BadSquared, Outcome, Refusal};

// 10000 / window, and the coefficients of the value: of each factor, of each pair i ≤ j row by row,
// and the constant. n factors are in use, and n × (n + 1) / 2 pairs.
// Arrays beside a count, since memory is fixed: there is no heap that a list could grow in.
#[derive(Clone, Copy)]
pub struct Vix {
    pub n: usize,
    pub scale: f64,
    pub constant: f64,
    pub linear: [f64; 10],
    pub pairs: [f64; 55],
}

impl std::marker::Model for Vix {
    ghost use Rattle.std.specs.Prelude.{◌≤◌};
    ghost use Rattle.vix.specs.Coefficients.{Coefficients};

    ghost Value = { Coefficients };

    ghost view = { λ v. record {
      n = v.n;
      scale = v.scale;
      constant = v.constant;
      linear = v.linear;
      pairs = v.pairs;
    } };

    ghost invariant = { λ v. v.n ≤ 10 };

    ghost inverse = { λ v. record {
      n = v.n;
      scale = v.scale;
      constant = v.constant;
      linear = v.linear;
      pairs = v.pairs;
    } };
}

// VIX squared at a factor state, and the index.
#[derive(Clone, Copy)]
pub struct Evaluation {
    pub squared: f64,
    pub index: f64,
}

// The constant and the linear terms.
#[tactic(auto, unfolding(crate::specs::Form::linear_value))]
fn linear_value(v: Vix, factors: [f64; 10]) -> f64
    ensures { result ≡ linear_value v factors v.n }
{
    let mut value = v.constant;
    for i in 0..v.n {
        value += v.linear[i] * factors[i];
    }
    value
}

// `before` and the pairs of row i, which begin at `first`.
#[tactic(auto, using(generator_rows::proofs::Pairs::row_most))]
fn row_value(v: Vix, factors: [f64; 10], i: usize, first: usize, before: f64) -> f64
    requires { (i < v.n) × (first ≡ pairs_before v.n i) }
    ensures { result ≡ row_value v factors i before (v.n - i) }
{
    let mut value = before;
    for k in 0..v.n - i {
        value += v.pairs[first + k] * factors[i] * factors[i + k];
    }
    value
}

// The VIX squared at these factors.
#[tactic(auto, unfolding(crate::specs::Form::value_through))]
pub fn raw_squared(v: Vix, factors: [f64; 10]) -> f64
    ensures { result ≡ raw_squared (vix_in_use v) (take v.n factors) }
{
    let n = v.n;
    let mut value = linear_value(v, factors);
    for i in 0..n {
        let first = state::pairs_before(n, i);
        value = row_value(v, factors, i, first, value);
    }
    v.scale * value
}

// 15, 1 of the window, and 16.
#[tactic(auto, unfolding(refusal::specs::Questions::first_no, crate::specs::Questions::window_questions))]
fn window_questions(k: Kernel, window: Decimal, workspace: usize) -> Outcome
    ensures { result ≡ first_no (window_questions k.n window workspace) }
{
    let dim = state::dimension_of(k.n);
    refusal::ensure(window.is_positive(), Refusal::Window)?;
    refusal::ensure(window.scale_fits(), Refusal::Scale)?;
    refusal::ensure(workspace == 5 * (dim * dim), Refusal::Workspace)
}

// The form over a window, by the exponential of the moment system's generator. Where 15, 1 or 16
// gets a No the workspace is as lent; else what it held before is lost. (Kernel and parameters stay
// two arguments, as in the definition.)
pub fn prepare(k: Kernel, p: Params, window: Decimal, workspace: &mut [f64]) -> Result<Vix, Refusal>
    ensures { FormPrepared (kernel_in_use k) p window
        workspace.old workspace.new result }
{
    let n = k.n;
    window_questions(k, window, workspace.len())?;
    let span = window.value();
    generator::fill(k, p, span, workspace);
    let dim = state::dimension_of(n);
    exponential::exponential(dim, workspace).ok_or(Refusal::Exponential)?;
    Ok(form::of_matrix(n, dim, span, workspace))
}

// Whether a VIX squared has an index: it is finite, then it is above zero.
#[tactic(auto, unfolding(crate::specs::Evaluation::checked))]
pub fn check_squared(squared: f64) -> Result<(), BadSquared>
    ensures { result ≡ checked squared }
{
    if !numeric::is_finite(squared) {
        return Err(BadSquared::NotFinite);
    }
    if squared <= 0.0 {
        return Err(BadSquared::NotPositive);
    }
    Ok(())
}

// VIX squared and the index at these factors.
#[tactic(auto, unfolding(crate::specs::Evaluation::evaluation))]
pub fn evaluate(v: Vix, factors: [f64; 10]) -> Result<Evaluation, BadSquared>
    ensures { result ≡ evaluation (vix_in_use v) (take v.n factors) }
{
    let squared = raw_squared(v, factors);
    check_squared(squared)?;
    Ok(Evaluation {
        squared,
        index: numeric::sqrt(squared),
    })
}
