// Calls 6 and 7: the evaluation of the VIX, and a VIX batch.
use crate::fault::Fault;
use crate::inputs::{Modelled, decimal, factors, schedule};
use crate::outcomes::{counts, head, values};
use crate::tables::Table;
use crate::words::Reader;
use std::alloc::Global;
use vix_batch::VixPayoff;

pub(crate) fn evaluation(case: &mut Reader<'_>, alloc: Global) -> Result<(), Fault> {
    let given = Modelled::read(case, alloc)?;
    let window = decimal(case)?;
    let factors = factors(case)?;
    let mut workspace = Table::workspace(case, alloc, 1)?;
    let answer = qrh::qrh_vix(
        &given.weights,
        &given.discounts,
        given.model,
        window,
        factors,
        workspace.entries(),
    );
    head(case, answer.number, answer.place)?;
    values(case, &[answer.squared, answer.index])?;
    workspace.is_left_as_recorded(case)
}

fn payoff(case: &mut Reader<'_>) -> Result<VixPayoff, Fault> {
    let future = case.flag()?;
    let put = case.flag()?;
    let strike = decimal(case)?;
    Ok(VixPayoff {
        future,
        put,
        strike,
    })
}

pub(crate) fn batch(case: &mut Reader<'_>, alloc: Global) -> Result<(), Fault> {
    let given = Modelled::read(case, alloc)?;
    let schedule = schedule(case)?;
    let window = decimal(case)?;
    let payoff = payoff(case)?;
    let paths = case.size()?;
    let order = vix_batch::Order {
        window,
        payoff,
        paths,
    };
    let draws = case.doubles(alloc)?;
    let mut workspace = Table::workspace(case, alloc, 1)?;
    let mut observations = Table::lent(case, alloc, 2)?;
    let answer = qrh::qrh_vix_batch(
        &given.over(schedule),
        order,
        &draws,
        workspace.entries(),
        observations.entries(),
    );
    head(case, answer.number, answer.place)?;
    let estimates = [
        answer.payoff,
        answer.payoff_error,
        answer.index,
        answer.index_error,
    ];
    values(case, &estimates)?;
    counts(case, &[answer.paths, answer.steps])?;
    observations.is_recorded(case)?;
    workspace.is_left_as_recorded(case)
}
