// Call 3: a trace.
use crate::fault::Fault;
use crate::inputs::{Modelled, schedule};
use crate::outcomes::{counts, head};
use crate::tables::Table;
use crate::words::Reader;
use std::alloc::Global;

pub(crate) fn replay(case: &mut Reader<'_>, alloc: Global) -> Result<(), Fault> {
    let given = Modelled::read(case, alloc)?;
    let schedule = schedule(case)?;
    let draws = case.doubles(alloc)?;
    let mut spots = Table::lent(case, alloc, 1)?;
    let mut variances = Table::lent(case, alloc, 2)?;
    let mut z = Table::lent(case, alloc, 3)?;
    let mut factors = Table::lent(case, alloc, 4)?;
    let answer = qrh::qrh_trace(
        &given.over(schedule),
        &draws,
        spots.entries(),
        variances.entries(),
        z.entries(),
        factors.entries(),
    );
    head(case, answer.number, answer.place)?;
    counts(case, &[answer.steps])?;
    for table in [&spots, &variances, &z, &factors] {
        table.is_recorded(case)?;
    }
    Ok(())
}
