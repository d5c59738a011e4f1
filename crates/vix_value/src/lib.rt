// The VIX evaluation call: VIX squared and the index at the factors given.
#![tactic(auto)]

ghost use Rattle.std.specs.Prelude.{◌≡◌, ◌≤◌};
ghost use Rattle.refusal.specs.Questions.{first_no};
ghost use Rattle.vix.specs.Inner.Form.{vix_in_use};
ghost use Rattle.vix_value.specs.Answer.{value_of};
ghost use Rattle.vix_value.specs.Call.{given_questions, vix_inputs, VixValueAnswered};
ghost use Rattle.vix_value.specs.Inner.Given.{value_at};

use admission::{kernel, params};
use decimal::Decimal;
use model::Model;
use refusal::{Outcome, Refusal};
use vix::{Evaluation, Vix};

// The factors at which the VIX is wanted, in the first `count` places. A C struct: an array and how
// much of it is in use.
#[repr(C)]
#[derive(Clone, Copy)]
pub struct Factors {
    pub count: usize,
    pub factors: [Decimal; 10],
}

// VIX squared and the index, which are zeros at a refusal. A C struct, as every answer: number and
// place stand beside the values, since C has no Result.
#[repr(C)]
#[derive(Clone, Copy)]
pub struct VixValue {
    pub number: u32,
    pub place: [u64; 4],
    pub squared: f64,
    pub index: f64,
}

impl From<Result<Evaluation, Refusal>> for VixValue {
    ghost from_gives = { λ evaluated r. r ≡ value_of evaluated };

    fn from(evaluated: Result<Evaluation, Refusal>) -> VixValue {
        match evaluated {
            Ok(Evaluation { squared, index }) => VixValue {
                number: 0,
                place: [0; 4],
                squared,
                index,
            },
            Err(refusal) => VixValue {
                number: refusal.number(),
                place: refusal.place(),
                squared: 0.0,
                index: 0.0,
            },
        }
    }
}

// 10 and 1 again. (No form: how many factors it has is all that is asked of it.)
#[tactic(auto, unfolding(refusal::specs::Questions::first_no, crate::specs::Call::given_questions))]
fn given_questions(n: usize, given: Factors) -> Outcome
    requires { n ≤ 10 }
    ensures { result ≡ first_no (given_questions n given) }
{
    refusal::ensure(given.count == n, Refusal::FactorCount)?;
    params::factor_scales(n, given.factors)
}

// The form at the factors given, once they are asked.
#[tactic(auto, unfolding(crate::specs::Inner::Given::value_at))]
fn value_at(form: Vix, given: Factors) -> Result<Evaluation, Refusal>
    ensures { result ≡ value_at (vix_in_use form) given }
{
    let n = form.n;
    given_questions(n, given)?;
    let evaluation = vix::evaluate(form, params::factors_of(n, given.factors))?;
    Ok(evaluation)
}

// One admission after the other, and then the form at the factors given. (No `Given`: there is no
// schedule here. All six stay arguments, as C has them: with the `&mut` in a struct each function
// would have to say that it stays the same reference.)
fn evaluated(
    weights: &[f64],
    discounts: &[f64],
    model: Model,
    window: Decimal,
    given: Factors,
    workspace: &mut [f64],
) -> Result<Evaluation, Refusal>
    ensures { VixValueAnswered
        (vix_inputs weights.now discounts.now model window given)
        workspace.old workspace.new (value_of result) }
{
    let kernel = kernel::tables(weights, discounts)?;
    let initial = params::try_new(kernel, model)?;
    let form = vix::prepare(kernel, initial.params, window, workspace)?;
    value_at(form, given)
}

pub fn evaluate(
    weights: &[f64],
    discounts: &[f64],
    model: Model,
    window: Decimal,
    given: Factors,
    workspace: &mut [f64],
) -> VixValue
    ensures { VixValueAnswered
        (vix_inputs weights.now discounts.now model window given)
        workspace.old workspace.new result }
{
    VixValue::from(evaluated(weights, discounts, model, window, given, workspace))
}
