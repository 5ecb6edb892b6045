//! Why a statement failed.

ghost use Rattle.std.specs.Prelude.{◌≡◌, ◌≢◌};
ghost use Rattle.sql_calls.specs.Faults.{broken_named, fault_asked, fault_named};
ghost use Rattle.sql_calls.specs.declared.fault.Fault.TheVariants.{Memory};

use sqlite::{Error, ErrorCode};
use std::alloc::{AllocError, AllocFailed};

/// Why a statement failed.
#[derive(Clone, Copy)]
pub enum Fault {
    /// Memory was refused, to `sqlite` or to who reads its rows.
    Memory,
    /// Anything else that `sqlite` answered. It is counted as a failure.
    Store,
    /// What was read isn't what was written: a value that its column can't have, or a query that the tables aren't made for.
    /// It isn't counted as a failure.
    Broken,
}

/// The fault that an error of `sqlite` is.
pub fn fault_of(error: Error) -> Fault
    ensures named { result ≡ fault_named error }
    ensures sound { result ≢ Fault.Broken }
{
    match error {
        Error::SqliteFailure(ErrorCode::OutOfMemory) => Fault::Memory,
        _ => Fault::Store,
    }
}

/// The fault that an error of a query is: `Broken` where its text isn't understood, is no query or takes another count of
/// parameters.
pub(crate) fn asked_fault_of(error: Error) -> Fault
    ensures { result ≡ fault_asked error }
{
    match error {
        Error::SqlInputError(_)
        | Error::MultipleStatement
        | Error::InvalidParameterCount(_, _)
        | Error::InvalidQuery
        | Error::SqliteFailure(ErrorCode::NoClock) => Fault::Broken,
        error => fault_of(error),
    }
}

/// The fault that an error of a column's value is.
pub fn broken_of(error: Error) -> Fault
    ensures { result ≡ broken_named error }
{
    match error {
        Error::SqliteFailure(ErrorCode::OutOfMemory) => Fault::Memory,
        _ => Fault::Broken,
    }
}

impl From<AllocError> for Fault {
    ghost from_gives = { λ _ e. e ≡ Memory };

    fn from(_refused: AllocError) -> Fault {
        Fault::Memory
    }
}

impl<T: Drop> From<AllocFailed<T>> for Fault {
    ghost from_gives = { λ _ e. e ≡ Memory };

    fn from(_refused: AllocFailed<T>) -> Fault {
        Fault::Memory
    }
}
