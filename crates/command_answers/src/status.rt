//! How a command ends.

ghost use Rattle.std.specs.Prelude.{◌≡◌};
ghost use Rattle.command_answers.specs.Statuses.{status_number};

/// How a command ends. Each has the number with which the program ends.
#[derive(Clone, Copy, PartialEq, Eq)]
pub enum Status {
    /// The whole output was written.
    Done,
    /// The program text is refused.
    RefusedText,
    /// The words are no command.
    Usage,
    /// A file of the command couldn't be read.
    Read,
    /// The output couldn't be written whole.
    Write,
    /// The run that was made ends in a hazard, and its report was written whole.
    Hazard,
    /// Memory ran out.
    NoMemory,
    /// A file has more bytes than it may have, a circuit more nodes, a program with its calls replaced more statements
    /// and expressions, or some rounds pass more values.
    TooLarge,
    /// A rule file, a script, a delay file or a wave file isn't in its grammar or limits, a rule file can't be
    /// migrated, or it has no reset node and is to be run from power-up.
    BadFile,
    /// No handed-in order has the wanted name.
    NoOrder,
    /// The run differs from the rounds that it was compared with (no prefix of them, or other channels); its report was
    /// written whole.
    Differs,
    /// The program has no channel inside of it of the name that is to be buffered.
    NoChannel,
    /// No handed-in device has the wanted name.
    NoPeer,
}

impl Status {
    /// The number with which the program ends.
    pub fn number(&self) -> u8
        ensures { result ≡ status_number self.now }
    {
        match self {
            Status::Done => 0,
            Status::RefusedText => 1,
            Status::Usage => 2,
            Status::Read => 3,
            Status::Write => 4,
            Status::Hazard => 5,
            Status::NoMemory => 6,
            Status::TooLarge => 7,
            Status::BadFile => 8,
            Status::NoOrder => 9,
            Status::Differs => 10,
            Status::NoChannel => 16,
            Status::NoPeer => 17,
        }
    }
}
