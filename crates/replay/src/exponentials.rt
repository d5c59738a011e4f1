// Call 8: the exponential of a matrix.
use crate::fault::Fault;
use crate::outcomes::{counts, head};
use crate::tables::Table;
use crate::words::Reader;
use std::alloc::Global;

pub(crate) fn replay(case: &mut Reader<'_>, alloc: Global) -> Result<(), Fault> {
    let dimension = case.size()?;
    let input = case.doubles(alloc)?;
    let mut output = Table::lent(case, alloc, 1)?;
    let mut workspace = Table::workspace(case, alloc, 2)?;
    let answer = qrh::qrh_exponential(dimension, &input, output.entries(), workspace.entries());
    head(case, answer.number, answer.place)?;
    counts(case, &[answer.squarings])?;
    output.is_recorded(case)?;
    workspace.is_left_as_recorded(case)
}
