//! Why a wave file is refused.

ghost use Rattle.std.specs.Prelude.{◌≡◌};
ghost use Rattle.wave_file.specs.WaveFaults.{wave_fault_number};

use std::alloc::{AllocError, AllocFailed};
use thiserror::Error;

/// The causes for which a wave file is refused. Each has a number that is never given to another.
#[derive(Clone, Copy, Debug)]
pub enum WaveFault {
    /// A line that isn't of a form allowed at its position, or isn't ended; a mark of a time with no change after it;
    /// or a text that ends too early.
    BadLine,
    /// A change whose identifier is not that of a node.
    UnknownId,
    /// A time that isn't above the one before.
    TimeBack,
    /// A change to the value that the node has.
    NoChange,
    /// More nodes than a wave may have.
    TooMany,
}

impl WaveFault {
    /// The number of the cause, from 70 to 74.
    pub fn number(&self) -> u8
        ensures { result ≡ wave_fault_number self.now }
    {
        match self {
            WaveFault::BadLine => 70,
            WaveFault::UnknownId => 71,
            WaveFault::TimeBack => 72,
            WaveFault::NoChange => 73,
            WaveFault::TooMany => 74,
        }
    }
}

/// Why no wave was made of a wave file: it is refused at a line, counted from 1, or memory ran out.
#[derive(Debug, Drop, Error)]
pub enum WaveError {
    #[error("the wave file is refused")]
    Refused { fault: WaveFault, line: u32 },
    #[error("no memory")]
    NoMemory(AllocError),
}

impl From<AllocError> for WaveError {
    ghost use Rattle.wave_file.specs.declared.fault.WaveError.TheVariants.{NoMemory};

    ghost from_gives = { λ e t. t ≡ NoMemory e };

    fn from(error: AllocError) -> WaveError {
        WaveError::NoMemory(error)
    }
}

impl<T: Drop> From<AllocFailed<T>> for WaveError {
    ghost use Rattle.std.specs.Prelude.{alloc_error};
    ghost use Rattle.wave_file.specs.declared.fault.WaveError.TheVariants.{NoMemory};

    ghost from_gives = { λ e t. t ≡ NoMemory alloc_error };

    fn from(error: AllocFailed<T>) -> WaveError {
        WaveError::NoMemory(AllocError::from(error))
    }
}
