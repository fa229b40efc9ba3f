//! Why a program's calls are not inlined.

ghost use Rattle.std.specs.Prelude.{◌≡◌};

use chp_base::Fault;
use std::alloc::{AllocError, AllocFailed};
use thiserror::Error;

/// Why no program without procedures was made: the calls are refused, or it would have too many forms, of which this is
/// the number, where 2^64 and more count as 2^64 - 1; or memory ran out.
#[derive(Debug, Drop, Error)]
pub enum CallError {
    #[error("the program is refused")]
    Refused(Fault),
    #[error("too many forms: {0}")]
    TooManyForms(u64),
    #[error("no memory")]
    NoMemory(AllocError),
}

impl From<AllocError> for CallError {
    ghost use Rattle.call_merge.specs.declared.error.CallError.TheVariants.{NoMemory};

    ghost from_gives = { λ e t. t ≡ NoMemory e };

    fn from(error: AllocError) -> CallError {
        CallError::NoMemory(error)
    }
}

impl<T: Drop> From<AllocFailed<T>> for CallError {
    ghost use Rattle.std.specs.Prelude.{alloc_error};
    ghost use Rattle.call_merge.specs.declared.error.CallError.TheVariants.{NoMemory};

    ghost from_gives = { λ e t. t ≡ NoMemory alloc_error };

    fn from(error: AllocFailed<T>) -> CallError {
        CallError::NoMemory(AllocError::from(error))
    }
}
