//! Why a rule file is refused.

ghost use Rattle.std.specs.Prelude.{◌≡◌};
ghost use Rattle.prs_file.specs.Faults.{net_fault_number};

use std::alloc::{AllocError, AllocFailed};
use thiserror::Error;

/// The causes for which a rule file is refused. Each has a number that is never reused for another cause.
#[derive(Clone, Copy, Debug)]
pub enum NetFault {
    /// A line that has no form allowed at its position, or isn't ended; or a file that ends too early.
    BadLine,
    /// A name that no node has.
    UnknownNode,
    /// A second rule of a node and a direction.
    DoubleRule,
    /// A rule for a node that the environment moves.
    DrivenWire,
    /// More nodes or literals than a file may have: 65,536 nodes and 4,194,304 literals, in version 2 65,537 and
    /// 8,454,144.
    TooMany,
    /// A version of the file that isn't known.
    BadVersion,
    /// A rule that comes after one that is later in the order of rules.
    OutOfOrder,
    /// A node or a channel with the name of an earlier one.
    DoubleName,
    /// A wire of a channel that is high at first.
    BadFirst,
}

impl NetFault {
    /// The number of the cause, from 40 to 48.
    pub fn number(&self) -> u8
        ensures { result ≡ net_fault_number self.now }
    {
        match self {
            NetFault::BadLine => 40,
            NetFault::UnknownNode => 41,
            NetFault::DoubleRule => 42,
            NetFault::DrivenWire => 43,
            NetFault::TooMany => 44,
            NetFault::BadVersion => 45,
            NetFault::OutOfOrder => 46,
            NetFault::DoubleName => 47,
            NetFault::BadFirst => 48,
        }
    }
}

/// Why no net was made from a rule file: it is refused at a line, counted from 1, or out of memory.
#[derive(Debug, Drop, Error)]
pub enum NetReadError {
    #[error("the rule file is refused")]
    Refused { fault: NetFault, line: u32 },
    #[error("no memory")]
    NoMemory(AllocError),
}

impl From<AllocError> for NetReadError {
    ghost use Rattle.prs_file.specs.declared.fault.NetReadError.TheVariants.{NoMemory};

    ghost from_gives = { λ e t. t ≡ NoMemory e };

    fn from(error: AllocError) -> NetReadError {
        NetReadError::NoMemory(error)
    }
}

impl<T: Drop> From<AllocFailed<T>> for NetReadError {
    ghost use Rattle.std.specs.Prelude.{alloc_error};
    ghost use Rattle.prs_file.specs.declared.fault.NetReadError.TheVariants.{NoMemory};

    ghost from_gives = { λ e t. t ≡ NoMemory alloc_error };

    fn from(error: AllocFailed<T>) -> NetReadError {
        NetReadError::NoMemory(AllocError::from(error))
    }
}
