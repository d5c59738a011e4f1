// The calls that price down-and-out puts, under their C names. Parameters and calls are those of
// the header.
ghost use Rattle.std.specs.Prelude.{true, false};
ghost use Rattle.model.specs.Simulation.{given};
ghost use Rattle.vanilla.specs.declared.Terms.TheVariants.{DownAndOut};
ghost use Rattle.vanilla.specs.Call.{vanilla_inputs, VanillaAnswered};

use admission::Given;
use decimal::Decimal;
use model::{Model, Schedule};
use vanilla::{Estimate, Order, Terms};

// A batch of puts that vanish once the spot is at the barrier or below.
#[unsafe(no_mangle)]
pub extern "C" fn qrh_down_and_out(
    weights: &[f64],
    discounts: &[f64],
    model: Model,
    schedule: Schedule,
    strike: Decimal,
    barrier: Decimal,
    paths: usize,
    draws: &[f64],
    observations: &mut [f64],
) -> Estimate
    ensures { VanillaAnswered
        (vanilla_inputs (given weights.now discounts.now model schedule)
        (record { terms = DownAndOut strike barrier; mirrored = false; paths = paths })
        draws.now)
        observations.old observations.new result }
{
    let given = Given {
        weights,
        discounts,
        model,
        schedule,
    };
    let order = Order {
        terms: Terms::DownAndOut { strike, barrier },
        mirrored: false,
        paths,
    };
    qrh::qrh_vanilla(&given, order, draws, observations)
}

// A mirrored batch of them: path 2i has the draws of path 2i - 1, negated.
#[unsafe(no_mangle)]
pub extern "C" fn qrh_mirrored_down_and_out(
    weights: &[f64],
    discounts: &[f64],
    model: Model,
    schedule: Schedule,
    strike: Decimal,
    barrier: Decimal,
    paths: usize,
    draws: &[f64],
    observations: &mut [f64],
) -> Estimate
    ensures { VanillaAnswered
        (vanilla_inputs (given weights.now discounts.now model schedule)
        (record { terms = DownAndOut strike barrier; mirrored = true; paths = paths })
        draws.now)
        observations.old observations.new result }
{
    let given = Given {
        weights,
        discounts,
        model,
        schedule,
    };
    let order = Order {
        terms: Terms::DownAndOut { strike, barrier },
        mirrored: true,
        paths,
    };
    qrh::qrh_vanilla(&given, order, draws, observations)
}
