// The outer calls. An answer begins with its number, 0 where the call is answered and else the
// refusal's, and its place, 0 where there is none. The crate qrh_c exports ten calls of
// C names over them.
#![tactic(auto)]

ghost use Rattle.std.specs.Prelude.{◌≡◌};
ghost use Rattle.std.specs.Float.{binary64};
ghost use Rattle.numeric.specs.Correct.{RootIsNearest};
ghost use Rattle.numeric.specs.Root.{root};
ghost use Rattle.decimal.specs.Decimal.{convert, ConvertsToNearest};
ghost use Rattle.admission.specs.Inner.Given.{given_of};
ghost use Rattle.trace.specs.Trace.{tables};
ghost use Rattle.trace.specs.Call.{trace_inputs, TraceAnswered};
ghost use Rattle.vanilla.specs.Call.{vanilla_inputs, VanillaAnswered};
ghost use Rattle.exponentiation.specs.Call.{matrix_inputs, ExponentialAnswered};
ghost use Rattle.vix_value.specs.Call.{vix_inputs, VixValueAnswered};
ghost use Rattle.vix_batch.specs.Call.{vix_batch_inputs, VixBatchAnswered};
ghost use Rattle.qrh.specs.Conversion.{conversion};

use admission::Given;
use decimal::Decimal;
use exponentiation::Exponentiation;
use model::Model;
use refusal::Refusal;
use trace::Tracing;
use vanilla::Estimate;
use vix_batch::VixEstimate;
use vix_value::{Factors, VixValue};

// A conversion. A C struct, as every answer: C has no Result.
#[repr(C)]
#[derive(Clone, Copy)]
pub struct Conversion {
    pub number: u32,
    pub place: [u64; 4],
    pub value: f64,
}

pub fn qrh_convert(d: Decimal) -> Conversion
    ensures answer { result ≡ conversion (convert d) }
    ensures nearest { ConvertsToNearest d result.value }
{
    // Made first: an answer put together in each arm would be copied once more after the
    // conversion.
    let mut answer = Conversion {
        number: 0,
        place: [0; 4],
        value: 0.0,
    };
    match d.to_f64() {
        Some(value) => answer.value = value,
        None => answer.number = Refusal::Scale.number(),
    }
    answer
}

pub fn qrh_sqrt(x: f64) -> f64
    ensures root { result ≡ root binary64 x }
    ensures nearest { RootIsNearest x result }
{
    numeric::sqrt(x)
}

// Four tables one by one: of a struct of four `&mut` each function would have to say that they stay
// the same references.
pub fn qrh_trace(
    given: &Given,
    draws: &[f64],
    spots: &mut [f64],
    variances: &mut [f64],
    z: &mut [f64],
    factors: &mut [f64],
) -> Tracing
    ensures { TraceAnswered (trace_inputs (given_of given.now) draws.now)
        (tables spots.old variances.old z.old factors.old)
        (tables spots.new variances.new z.new factors.new) result }
{
    trace::trace(given, draws, spots, variances, z, factors)
}

// A batch of calls, puts or down-and-out puts on the spot, ordinary or mirrored, as the order says:
// a row of observations a path, a column a segment. qrh_c has a call for each kind.
pub fn qrh_vanilla(
    given: &Given,
    order: vanilla::Order,
    draws: &[f64],
    observations: &mut [f64],
) -> Estimate
    ensures { VanillaAnswered (vanilla_inputs (given_of given.now) order draws.now)
        observations.old observations.new result }
{
    vanilla::price(given, order, draws, observations)
}

pub fn qrh_exponential(
    dimension: usize,
    input: &[f64],
    output: &mut [f64],
    workspace: &mut [f64],
) -> Exponentiation
    ensures { ExponentialAnswered
        (matrix_inputs dimension input.now output.old workspace.old)
        result output.new workspace.new }
{
    exponentiation::exponentiate(dimension, input, output, workspace)
}

// No `Given`: there is no schedule here.
pub fn qrh_vix(
    weights: &[f64],
    discounts: &[f64],
    model: Model,
    window: Decimal,
    given: Factors,
    workspace: &mut [f64],
) -> VixValue
    ensures { VixValueAnswered
        (vix_inputs weights.now discounts.now model window given)
        workspace.old workspace.new result }
{
    vix_value::evaluate(weights, discounts, model, window, given, workspace)
}

// A VIX batch: a row of raw VIX squared a path, a column a segment.
pub fn qrh_vix_batch(
    given: &Given,
    order: vix_batch::Order,
    draws: &[f64],
    workspace: &mut [f64],
    observations: &mut [f64],
) -> VixEstimate
    ensures { VixBatchAnswered (vix_batch_inputs (given_of given.now) order draws.now)
        workspace.old workspace.new observations.old observations.new result }
{
    vix_batch::price(given, order, draws, workspace, observations)
}
