//! Why a script is refused.

ghost use Rattle.std.specs.Prelude.{◌≡◌};
ghost use Rattle.env_script.specs.Faults.{script_fault_number};

use std::alloc::{AllocError, AllocFailed};
use thiserror::Error;

/// The causes for which a script is refused. Each has a number that is never given to another.
#[derive(Clone, Copy, Debug)]
pub enum ScriptFault {
    /// A line that isn't a name with its colon followed by numbers or `all`, or whose words don't suit the direction
    /// of the channel.
    BadLine,
    /// A name that no external channel has.
    NoSuchChannel,
    /// A value that isn't below 2 to the width of the channel.
    TooWide,
    /// A second line of a channel.
    DoubleChannel,
    /// More values in all than a script may have.
    TooManyValues,
}

impl ScriptFault {
    /// The number of the cause, from 50 to 54.
    pub fn number(&self) -> u8
        ensures { result ≡ script_fault_number self.now }
    {
        match self {
            ScriptFault::BadLine => 50,
            ScriptFault::NoSuchChannel => 51,
            ScriptFault::TooWide => 52,
            ScriptFault::DoubleChannel => 53,
            ScriptFault::TooManyValues => 54,
        }
    }
}

/// Why no script was made of a text: it is refused at a line, counted from 1, or memory ran out.
#[derive(Debug, Drop, Error)]
pub enum ScriptError {
    #[error("the script is refused")]
    Refused { fault: ScriptFault, line: u32 },
    #[error("no memory")]
    NoMemory(AllocError),
}

impl From<AllocError> for ScriptError {
    ghost use Rattle.env_script.specs.declared.fault.ScriptError.TheVariants.{NoMemory};

    ghost from_gives = { λ e t. t ≡ NoMemory e };

    fn from(error: AllocError) -> ScriptError {
        ScriptError::NoMemory(error)
    }
}

impl<T: Drop> From<AllocFailed<T>> for ScriptError {
    ghost use Rattle.std.specs.Prelude.{alloc_error};
    ghost use Rattle.env_script.specs.declared.fault.ScriptError.TheVariants.{NoMemory};

    ghost from_gives = { λ e t. t ≡ NoMemory alloc_error };

    fn from(error: AllocFailed<T>) -> ScriptError {
        ScriptError::NoMemory(AllocError::from(error))
    }
}
