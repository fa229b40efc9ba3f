//! Why a delay file is refused.

ghost use Rattle.std.specs.Prelude.{◌≡◌};
ghost use Rattle.delay_script.specs.DelayFaults.{delay_fault_number};

use std::alloc::{AllocError, AllocFailed};
use thiserror::Error;

/// The causes for which a delay file is refused. Each has a number that is never given to another.
#[derive(Clone, Copy, Debug)]
pub enum DelayFault {
    /// A line that isn't the name of a node and two numbers.
    BadLine,
    /// A name that no node has.
    UnknownNode,
    /// A delay above 1,000,000.
    TooLarge,
    /// A second line of a node.
    DoubleNode,
}

impl DelayFault {
    /// The number of the cause, from 60 to 63.
    pub fn number(&self) -> u8
        ensures { result ≡ delay_fault_number self.now }
    {
        match self {
            DelayFault::BadLine => 60,
            DelayFault::UnknownNode => 61,
            DelayFault::TooLarge => 62,
            DelayFault::DoubleNode => 63,
        }
    }
}

/// Why no delays were made of a text: it is refused at a line, counted from 1, or memory ran out.
#[derive(Debug, Drop, Error)]
pub enum DelayError {
    #[error("the delay file is refused")]
    Refused { fault: DelayFault, line: u32 },
    #[error("no memory")]
    NoMemory(AllocError),
}

impl From<AllocError> for DelayError {
    ghost use Rattle.delay_script.specs.declared.fault.DelayError.TheVariants.{NoMemory};

    ghost from_gives = { λ e t. t ≡ NoMemory e };

    fn from(error: AllocError) -> DelayError {
        DelayError::NoMemory(error)
    }
}

impl<T: Drop> From<AllocFailed<T>> for DelayError {
    ghost use Rattle.std.specs.Prelude.{alloc_error};
    ghost use Rattle.delay_script.specs.declared.fault.DelayError.TheVariants.{NoMemory};

    ghost from_gives = { λ e t. t ≡ NoMemory alloc_error };

    fn from(error: AllocFailed<T>) -> DelayError {
        DelayError::NoMemory(AllocError::from(error))
    }
}
