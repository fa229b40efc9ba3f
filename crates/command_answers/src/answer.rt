//! What a command answers, and how a call ends with it.

ghost use Rattle.std.specs.Prelude.{◌≡◌};
ghost use Rattle.command_answers.specs.Answers.{status_with};
ghost use Rattle.command_answers.specs.Replies.{refusal_status, stop_status, end_status};

use crate::status::Status;
use chp_base::Fault;

/// How a command ends whose whole output was written.
#[derive(Clone, Copy)]
pub enum Ending {
    Done,
    /// The run that is reported ends in a hazard.
    Hazard,
    /// The reported run differs from the rounds that it is compared with: on a channel its history is no prefix of
    /// theirs, or its net's channels aren't the program's.
    Differs,
}

impl Ending {
    pub fn status(&self) -> Status
        ensures { result ≡ status_with self.now }
    {
        match self {
            Ending::Done => Status::Done,
            Ending::Hazard => Status::Hazard,
            Ending::Differs => Status::Differs,
        }
    }
}

/// The text that a command is to write, and how it ends then.
#[derive(Drop)]
pub struct Output {
    pub text: Vec<u8>,
    pub end: Ending,
}

/// Why a command refuses, with what is said of it.
#[derive(Clone, Copy)]
pub enum Refusal<'a> {
    /// A program text is refused.
    Text(Fault),
    /// The file of this name has more bytes than this limit.
    TooLong {
        name: &'a str,
        limit: usize,
    },
    /// The circuit of the program has so many nodes, which are more than it may have.
    TooManyNodes(u64),
    /// The program would have so many statements and expressions with its calls replaced, which are more than it may
    /// have.
    TooManyForms(u64),
    /// More values pass in the rounds than may be held.
    TooManyValues,
    /// A rule file, a script, a delay file or a wave file is refused at this line, for the cause of this number and
    /// name (`bad_net`, `bad_script`, `bad_delays`, `bad_wave` make it).
    BadFile {
        number: u8,
        cause: &'a str,
        line: u32,
    },
    /// The net has no reset node, and its power-up was asked for.
    NoReset,
    /// There is no order of this name.
    NoOrder(&'a str),
    /// The program has no channel inside of it of this name.
    NoChannel(&'a str),
    /// There is no device of this name.
    NoPeer(&'a str),
}

impl Refusal<'_> {
    pub fn status(&self) -> Status
        ensures { result ≡ refusal_status self.now }
    {
        match self {
            Refusal::Text(_) => Status::RefusedText,
            Refusal::TooLong { .. }
            | Refusal::TooManyNodes(_)
            | Refusal::TooManyForms(_)
            | Refusal::TooManyValues => Status::TooLarge,
            Refusal::BadFile { .. } | Refusal::NoReset => Status::BadFile,
            Refusal::NoOrder(_) => Status::NoOrder,
            Refusal::NoChannel(_) => Status::NoChannel,
            Refusal::NoPeer(_) => Status::NoPeer,
        }
    }
}

/// Why a command writes nothing.
#[derive(Clone, Copy)]
pub enum Stop<'a> {
    Refused(Refusal<'a>),
    /// The file of this name couldn't be read.
    Unread(&'a str),
    NoMemory,
}

impl Stop<'_> {
    pub fn status(&self) -> Status
        ensures { result ≡ stop_status self.now }
    {
        match self {
            Stop::Refused(refusal) => refusal.status(),
            Stop::Unread(_) => Status::Read,
            Stop::NoMemory => Status::NoMemory,
        }
    }
}

/// How a call ends.
#[derive(Clone, Copy)]
pub enum End<'a> {
    /// The whole output was written.
    Whole(Ending),
    /// Only a prefix of the output could be written.
    CutOff,
    /// The words are no command.
    Usage,
    Stopped(Stop<'a>),
}

impl End<'_> {
    pub fn status(&self) -> Status
        ensures { result ≡ end_status self.now }
    {
        match self {
            End::Whole(ending) => ending.status(),
            End::CutOff => Status::Write,
            End::Usage => Status::Usage,
            End::Stopped(stop) => stop.status(),
        }
    }
}
