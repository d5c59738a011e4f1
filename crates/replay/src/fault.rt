// Why a case is not as recorded, or cannot be told to be.
use std::alloc::{AllocError, AllocFailed};
use std::num::TryFromIntError;

#[derive(Clone, Copy, Debug, PartialEq, Eq)]
pub(crate) enum Fault {
    // It ends before it is whole, or holds a number that none is recorded with.
    Damaged,
    // A number of the outcome is another.
    Different,
    OutOfMemory(AllocError),
}

impl From<TryFromIntError> for Fault {
    fn from(_error: TryFromIntError) -> Fault {
        Fault::Damaged
    }
}

impl From<AllocError> for Fault {
    fn from(error: AllocError) -> Fault {
        Fault::OutOfMemory(error)
    }
}

impl<T: Drop> From<AllocFailed<T>> for Fault {
    fn from(error: AllocFailed<T>) -> Fault {
        Fault::OutOfMemory(AllocError::from(error))
    }
}
