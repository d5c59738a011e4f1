// Admission of the parameters: questions 5 to 10 (rule 14.4), then 1 (14.5).
ghost use Rattle.std.specs.Prelude.{◌≡◌, ◌≤◌, take};
ghost use Rattle.refusal.specs.Questions.{first_no, each};
ghost use Rattle.admission.specs.Questions.{factor_questions, range_questions};
ghost use Rattle.admission.specs.Questions.{parameter_scale_questions, scale_questions};
ghost use Rattle.model.specs.Parameters.{params_of, factors_of};
ghost use Rattle.admission.specs.Inner.Admission.{ParamsPrepared};

use decimal::Decimal;
use model::{Kernel, Model, Params, State, scheme};
use refusal::{Outcome, Refusal};

// The parameters as converted, and the state that a walk starts from.
#[derive(Clone, Copy)]
pub struct Initial {
    pub params: Params,
    pub start: State,
}

// Questions 5 to 10.
#[tactic(auto, unfolding(refusal::specs::Questions::first_no, crate::specs::Questions::range_questions))]
fn ranges(n: usize, p: Model) -> Outcome
    ensures { result ≡ first_no (range_questions n p) }
{
    refusal::ensure(!p.a.is_negative(), Refusal::A)?;
    refusal::ensure(p.c.is_positive(), Refusal::C)?;
    refusal::ensure(p.lambda.is_positive(), Refusal::Lambda)?;
    refusal::ensure(p.eta.is_positive(), Refusal::Eta)?;
    refusal::ensure(p.spot.is_positive(), Refusal::Spot)?;
    refusal::ensure(p.factor_count == n, Refusal::FactorCount)
}

// Question 1 of each of n factors. (No slice: the questions are about the places of a table of ten,
// and each caller would have to bring them over from those of a prefix.)
pub fn factor_scales(n: usize, factors: [Decimal; 10]) -> Outcome
    requires { n ≤ 10 }
    ensures { result ≡ first_no (each (factor_questions factors) n) }
{
    for i in 0..n {
        refusal::ensure(factors[i].scale_fits(), Refusal::Scale)?;
    }
    Ok(())
}

// Question 1 of a, b, c, lambda and eta.
#[tactic(auto, unfolding(refusal::specs::Questions::first_no))]
fn parameter_scales(p: Model) -> Outcome
    ensures { result ≡ first_no (parameter_scale_questions p) }
{
    refusal::ensure(p.a.scale_fits(), Refusal::Scale)?;
    refusal::ensure(p.b.scale_fits(), Refusal::Scale)?;
    refusal::ensure(p.c.scale_fits(), Refusal::Scale)?;
    refusal::ensure(p.lambda.scale_fits(), Refusal::Scale)?;
    refusal::ensure(p.eta.scale_fits(), Refusal::Scale)
}

// Question 1 of the parameters, the factors and spot.
#[tactic(auto, using(refusal::proofs::Laws::append), unfolding(refusal::specs::Questions::first_no, crate::specs::Questions::scale_questions))]
fn scales(k: Kernel, p: Model) -> Outcome
    ensures { result ≡ first_no (scale_questions k.n p) }
{
    parameter_scales(p)?;
    factor_scales(k.n, p.factors)?;
    refusal::ensure(p.spot.scale_fits(), Refusal::Scale)
}

pub fn params_of(p: Model) -> Params
    ensures { result ≡ params_of p }
{
    Params {
        a: p.a.value(),
        b: p.b.value(),
        c: p.c.value(),
        lambda: p.lambda.value(),
        eta: p.eta.value(),
    }
}

// The first n factors as converted. (No slice: what is returned has ten places, so that a slice too
// would be asked to have no more than ten.)
pub fn factors_of(n: usize, factors: [Decimal; 10]) -> [f64; 10]
    requires { n ≤ 10 }
    ensures { take n result ≡ factors_of n factors }
{
    let mut converted = [0.0; 10];
    for i in 0..n {
        converted[i] = factors[i].value();
    }
    converted
}

// The parameters as converted, and the start.
#[tactic(auto, using(refusal::proofs::Laws::append), unfolding(crate::specs::Questions::params_questions))]
pub fn try_new(k: Kernel, p: Model) -> Result<Initial, Refusal>
    ensures { ParamsPrepared k p result }
{
    let n = k.n;
    ranges(n, p)?;
    scales(k, p)?;
    let params = params_of(p);
    let spot = p.spot.value();
    let given = p.factors;
    let factors = factors_of(n, given);
    Ok(Initial {
        params,
        start: scheme::read(&k, params, spot, spot, &factors),
    })
}
