//! Why a program text is refused, and where.

ghost use Rattle.std.specs.Prelude.{◌≡◌};
ghost use Rattle.chp_base.specs.Faults.{number_of};

use crate::span::Span;
use std::alloc::{AllocError, AllocFailed};
use thiserror::Error;

/// The causes for which a program text is refused. Each has a number that is never given to another.
#[derive(Clone, Copy, Debug)]
pub enum FaultCode {
    /// Bytes that are no token.
    BadToken,
    /// Tokens that are no program.
    Syntax,
    /// More than 256 brackets are open at once.
    TooDeep,
    /// The sign `#` of a probe.
    Probe,
    /// The sign `[|` of an arbitrated selection.
    Arbiter,
    /// A selection or guarded repetition with more than 16 arms.
    TooManyGuards,
    /// A declaration with the name of an earlier one.
    DoubleName,
    /// A name that isn't declared.
    Undeclared,
    /// A variable where a channel is wanted, or a channel where a variable is.
    WrongKind,
    /// A channel that is used at the environment's end.
    Direction,
    /// A width that isn't the one wanted at its place.
    Width,
    /// A number that doesn't fit the width of its place.
    ConstantTooWide,
    /// An expression without a width where one is wanted.
    UnknownWidth,
    /// Bits that the variable doesn't have.
    BadSlice,
    /// A declared width that isn't in 1 to 64.
    WidthRange,
    /// A variable that is written in one parallel branch and used in another.
    SharedVariable,
    /// A channel on which two parallel branches send.
    SharedSend,
    /// A channel on which two parallel branches receive.
    SharedReceive,
    /// A procedure that two parallel branches call.
    SharedProcedure,
    /// A procedure with the name of an earlier one.
    DoubleProcedure,
    /// A call of a procedure that isn't declared.
    UnknownProcedure,
    /// A procedure that no call names.
    UnusedProcedure,
    /// A call in the body of a procedure.
    NestedCall,
}

impl FaultCode {
    /// The number of the cause, from 10 to 37.
    pub fn number(&self) -> u8
        ensures { result ≡ number_of self.now }
    {
        match self {
            FaultCode::BadToken => 10,
            FaultCode::Syntax => 11,
            FaultCode::TooDeep => 12,
            FaultCode::Probe => 13,
            FaultCode::Arbiter => 14,
            FaultCode::TooManyGuards => 15,
            FaultCode::DoubleName => 20,
            FaultCode::Undeclared => 21,
            FaultCode::WrongKind => 22,
            FaultCode::Direction => 23,
            FaultCode::Width => 24,
            FaultCode::ConstantTooWide => 25,
            FaultCode::UnknownWidth => 26,
            FaultCode::BadSlice => 27,
            FaultCode::WidthRange => 28,
            FaultCode::SharedVariable => 30,
            FaultCode::SharedSend => 31,
            FaultCode::SharedReceive => 32,
            FaultCode::SharedProcedure => 33,
            FaultCode::DoubleProcedure => 34,
            FaultCode::UnknownProcedure => 35,
            FaultCode::UnusedProcedure => 36,
            FaultCode::NestedCall => 37,
        }
    }
}

/// A cause and its place. `other` is the second place where the cause has two (the codes of sharing), and equals
/// `at` where it has one.
#[derive(Clone, Copy, Debug)]
pub struct Fault {
    pub code: FaultCode,
    pub at: Span,
    pub other: Span,
}

/// Why no program was made of a text: it is refused, or memory ran out.
#[derive(Debug, Drop, Error)]
pub enum TextError {
    #[error("the program is refused")]
    Refused(Fault),
    #[error("no memory")]
    NoMemory(AllocError),
}

impl From<AllocError> for TextError {
    ghost use Rattle.chp_base.specs.declared.fault.TextError.TheVariants.{NoMemory};

    ghost from_gives = { λ e t. t ≡ NoMemory e };

    fn from(error: AllocError) -> TextError {
        TextError::NoMemory(error)
    }
}

impl<T: Drop> From<AllocFailed<T>> for TextError {
    ghost use Rattle.std.specs.Prelude.{alloc_error};
    ghost use Rattle.chp_base.specs.declared.fault.TextError.TheVariants.{NoMemory};

    ghost from_gives = { λ e t. t ≡ NoMemory alloc_error };

    fn from(error: AllocFailed<T>) -> TextError {
        TextError::NoMemory(AllocError::from(error))
    }
}
