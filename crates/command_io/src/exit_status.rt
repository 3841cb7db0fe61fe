// The exit status.
ghost use Rattle.std.specs.Prelude.{◌≡◌};

/// How a command ended.
#[derive(Clone, Copy, Debug, PartialEq, Eq)]
pub enum Status {
    /// The command did its work.
    Done,
    /// There is no plan, or what was to be tested does not hold.
    No,
    /// The budget of firings was spent without an answer.
    Undecided,
    /// The words are no command.
    Words,
    /// A text, a data file or a number in the rows of a source is faulty, or the schema names no source that is there.
    Text,
    /// A file or a source is missing or failed.
    Fault,
    /// A sink failed.
    Write,
    /// The next round would pass the cap on requests.
    Cap,
    /// Memory was refused.
    Memory,
}

impl Status {
    ghost use Rattle.command_io.specs.Status.{code_of};

    /// The exit status of the program, 0 to 8.
    pub fn code(self) -> u8
        ensures { result ≡ code_of self }
    {
        match self {
            Status::Done => 0,
            Status::No => 1,
            Status::Undecided => 2,
            Status::Words => 3,
            Status::Text => 4,
            Status::Fault => 5,
            Status::Write => 6,
            Status::Cap => 7,
            Status::Memory => 8,
        }
    }
}
