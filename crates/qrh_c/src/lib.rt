// The outer calls under their C names (include/qrh.h), as C, Rust and Python programs link them.
// Each makes of what C hands it what the call of the crate qrh is given. Their parameters, and that
// there is a call for each kind of batch, are C's interface.
#![tactic(auto)]

ghost use Rattle.std.specs.Prelude.{◌≡◌, true, false};
ghost use Rattle.std.specs.Float.{binary64};
ghost use Rattle.numeric.specs.Correct.{RootIsNearest};
ghost use Rattle.numeric.specs.Root.{root};
ghost use Rattle.decimal.specs.Decimal.{convert, ConvertsToNearest};
ghost use Rattle.model.specs.Simulation.{given};
ghost use Rattle.trace.specs.Trace.{tables};
ghost use Rattle.trace.specs.Call.{trace_inputs, TraceAnswered};
ghost use Rattle.batch.specs.Questions.{style_of};
ghost use Rattle.vanilla.specs.declared.Terms.TheVariants.{Vanilla};
ghost use Rattle.vanilla.specs.Call.{vanilla_inputs, VanillaAnswered};
ghost use Rattle.exponentiation.specs.Call.{matrix_inputs, ExponentialAnswered};
ghost use Rattle.vix_value.specs.Call.{vix_inputs, VixValueAnswered};
ghost use Rattle.vix_batch.specs.Call.{vix_batch_inputs, VixBatchAnswered};
ghost use Rattle.qrh.specs.Conversion.{conversion};

use admission::Given;
use batch::questions;
use decimal::Decimal;
use exponentiation::Exponentiation;
use model::{Model, Schedule};
use qrh::Conversion;
use trace::Tracing;
use vanilla::{Estimate, Order, Terms};
use vix_batch::{VixEstimate, VixPayoff};
use vix_value::{Factors, VixValue};

pub mod down_and_out;

#[unsafe(no_mangle)]
pub extern "C" fn qrh_convert(d: Decimal) -> Conversion
    ensures answer { result ≡ conversion (convert d) }
    ensures nearest { ConvertsToNearest d result.value }
{
    qrh::qrh_convert(d)
}

#[unsafe(no_mangle)]
pub extern "C" fn qrh_sqrt(x: f64) -> f64
    ensures root { result ≡ root binary64 x }
    ensures nearest { RootIsNearest x result }
{
    qrh::qrh_sqrt(x)
}

#[unsafe(no_mangle)]
pub extern "C" fn qrh_trace(
    weights: &[f64],
    discounts: &[f64],
    model: Model,
    schedule: Schedule,
    draws: &[f64],
    spots: &mut [f64],
    variances: &mut [f64],
    z: &mut [f64],
    factors: &mut [f64],
) -> Tracing
    ensures { TraceAnswered
        (trace_inputs (given weights.now discounts.now model schedule)
        draws.now)
        (tables spots.old variances.old z.old
        factors.old)
        (tables spots.new variances.new z.new
        factors.new) result }
{
    let given = Given {
        weights,
        discounts,
        model,
        schedule,
    };
    qrh::qrh_trace(&given, draws, spots, variances, z, factors)
}

// A vanilla batch: a row of observations a path, a column a segment.
#[unsafe(no_mangle)]
pub extern "C" fn qrh_vanilla(
    weights: &[f64],
    discounts: &[f64],
    model: Model,
    schedule: Schedule,
    put: bool,
    strike: Decimal,
    paths: usize,
    draws: &[f64],
    observations: &mut [f64],
) -> Estimate
    ensures { VanillaAnswered
        (vanilla_inputs (given weights.now discounts.now model schedule)
        (record { terms = Vanilla (style_of put) strike; mirrored = false; paths = paths })
        draws.now)
        observations.old observations.new result }
{
    let given = Given {
        weights,
        discounts,
        model,
        schedule,
    };
    let style = questions::style_of(put);
    let order = Order {
        terms: Terms::Vanilla { style, strike },
        mirrored: false,
        paths,
    };
    qrh::qrh_vanilla(&given, order, draws, observations)
}

// A mirrored vanilla batch: path 2i has the draws of path 2i - 1, negated.
#[unsafe(no_mangle)]
pub extern "C" fn qrh_mirrored(
    weights: &[f64],
    discounts: &[f64],
    model: Model,
    schedule: Schedule,
    put: bool,
    strike: Decimal,
    paths: usize,
    draws: &[f64],
    observations: &mut [f64],
) -> Estimate
    ensures { VanillaAnswered
        (vanilla_inputs (given weights.now discounts.now model schedule)
        (record { terms = Vanilla (style_of put) strike; mirrored = true; paths = paths })
        draws.now)
        observations.old observations.new result }
{
    let given = Given {
        weights,
        discounts,
        model,
        schedule,
    };
    let style = questions::style_of(put);
    let order = Order {
        terms: Terms::Vanilla { style, strike },
        mirrored: true,
        paths,
    };
    qrh::qrh_vanilla(&given, order, draws, observations)
}

#[unsafe(no_mangle)]
pub extern "C" fn qrh_exponential(
    dimension: usize,
    input: &[f64],
    output: &mut [f64],
    workspace: &mut [f64],
) -> Exponentiation
    ensures { ExponentialAnswered
        (matrix_inputs dimension input.now output.old workspace.old)
        result output.new workspace.new }
{
    qrh::qrh_exponential(dimension, input, output, workspace)
}

#[unsafe(no_mangle)]
pub extern "C" fn qrh_vix(
    weights: &[f64],
    discounts: &[f64],
    model: Model,
    window: Decimal,
    given: Factors,
    workspace: &mut [f64],
) -> VixValue
    ensures { VixValueAnswered
        (vix_inputs weights.now discounts.now model window given)
        workspace.old workspace.new result }
{
    qrh::qrh_vix(weights, discounts, model, window, given, workspace)
}

// A VIX batch: a row of raw VIX squared a path, a column a segment.
#[unsafe(no_mangle)]
pub extern "C" fn qrh_vix_batch(
    weights: &[f64],
    discounts: &[f64],
    model: Model,
    schedule: Schedule,
    window: Decimal,
    payoff: VixPayoff,
    paths: usize,
    draws: &[f64],
    workspace: &mut [f64],
    observations: &mut [f64],
) -> VixEstimate
    ensures { VixBatchAnswered
        (vix_batch_inputs (given weights.now discounts.now model schedule)
        (record { window = window; payoff = payoff; paths = paths }) draws.now)
        workspace.old workspace.new
        observations.old observations.new result }
{
    let given = Given {
        weights,
        discounts,
        model,
        schedule,
    };
    let order = vix_batch::Order {
        window,
        payoff,
        paths,
    };
    qrh::qrh_vix_batch(&given, order, draws, workspace, observations)
}
