// Calls 1 and 2: the conversion of a Decimal and the square root.
use crate::fault::Fault;
use crate::inputs::decimal;
use crate::outcomes::{head, values};
use crate::words::Reader;

pub(crate) fn convert(case: &mut Reader<'_>) -> Result<(), Fault> {
    let answer = qrh::qrh_convert(decimal(case)?);
    head(case, answer.number, answer.place)?;
    values(case, &[answer.value])
}

// A square root is not refused: its outcome has number 0.
pub(crate) fn square_root(case: &mut Reader<'_>) -> Result<(), Fault> {
    let root = qrh::qrh_sqrt(case.double()?);
    head(case, 0, [0; 4])?;
    values(case, &[root])
}
