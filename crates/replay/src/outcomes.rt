// Whether the outcome of a call is the recorded one.
ghost use Rattle.std.specs.Prelude.{◌≡◌, ◌+◌, length, IfOk};
ghost use Rattle.replay.specs.Words.{Read};

use crate::fault::Fault;
use crate::words::{Reader, same};

// The next words are these numbers.
pub(crate) fn counts(case: &mut Reader<'_>, counts: &[u64]) -> Result<(), Fault>
    ensures { IfOk result (λ _. Read (length counts.now) case.old.rest.now case.new.rest.now) }
{
    for count in counts {
        if case.word()? != *count {
            return Err(Fault::Different);
        }
    }
    Ok(())
}

// The next words are the bits of these doubles. (Apart from `counts`: numbers and doubles are
// compared in different ways.)
pub(crate) fn values(case: &mut Reader<'_>, values: &[f64]) -> Result<(), Fault>
    ensures { IfOk result (λ _. Read (length values.now) case.old.rest.now case.new.rest.now) }
{
    for value in values {
        if !same(*value, case.double()?) {
            return Err(Fault::Different);
        }
    }
    Ok(())
}

// The number and the place, with which every outcome begins.
pub(crate) fn head(case: &mut Reader<'_>, number: u32, place: [u64; 4]) -> Result<(), Fault>
    ensures { IfOk result (λ _. Read 5 case.old.rest.now case.new.rest.now) }
{
    counts(case, &[u64::from(number)])?;
    counts(case, &place)
}
