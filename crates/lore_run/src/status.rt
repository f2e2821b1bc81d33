ghost use Rattle.std.specs.Prelude.{◌≡◌};
ghost use Rattle.lore_run.specs.Endings.{exit_status};

/// How a run ended.
#[derive(Clone, Copy, Debug, PartialEq, Eq)]
pub enum Status {
    /// The script was read to its end, and no statement was refused.
    Done,
    /// The script was read to its end, and at least one statement was refused.
    DoneRefused,
    /// Words were given on the command line, where there are none to give. Nothing was read or
    /// written.
    Usage,
    /// The source failed.
    ReadFault,
    /// The sink failed.
    WriteFault,
    /// A statement has more bytes than a chunk may have.
    StatementTooLong,
    /// Memory was refused.
    NoMemory,
    /// The script has more bytes than a script may have.
    ScriptTooLong,
}

/// What a run did.
#[derive(Clone, Copy, Debug, PartialEq, Eq)]
pub struct Outcome {
    pub status: Status,
    /// Statements whose reply was written, the one in which the sink failed among them.
    pub done: u64,
    /// The refused ones among these.
    pub refused: u64,
}

impl Status {
    /// The number that the program ends with.
    pub fn number(&self) -> u8
        ensures { result ≡ exit_status self.now }
    {
        match self {
            Status::Done => 0,
            Status::DoneRefused => 1,
            Status::Usage => 2,
            Status::ReadFault => 3,
            Status::WriteFault => 4,
            Status::StatementTooLong => 5,
            Status::NoMemory => 6,
            Status::ScriptTooLong => 7,
        }
    }
}
