//! How a command ends.
ghost use Rattle.std.specs.Prelude.{◌≡◌};
ghost use Rattle.trace_ticks.specs.StatusNumbers.{status_number};

/// How a command ended.
#[derive(Clone, Copy, Debug, PartialEq, Eq)]
pub enum Status {
    /// It did its work: the program ended, or the trace did, or it was accepted.
    Done,
    /// The words aren't a command, the program has no bound and the budget is to be that, or the list of places is refused.
    Usage,
    /// The text is too long, or isn't accepted.
    Refused,
    /// The header or a row of the trace is none.
    Trace,
    /// A tick trapped.
    Trapped,
    /// A tick passed its budget.
    Over,
    /// The text or the trace couldn't be read.
    ReadFault,
    /// The report couldn't be written.
    WriteFault,
    /// There is no memory left. Nothing was written; of a program that is rewritten perhaps the front of a report.
    NoMemory,
    /// The jobs and replies of a run that is logged need more words than are kept.
    Full,
}

impl Status {
    /// The number that the program ends with.
    pub fn number(self) -> u8
        ensures { result ≡ status_number self }
    {
        match self {
            Status::Done => 0,
            Status::Usage => 2,
            Status::Refused => 3,
            Status::Trace => 4,
            Status::Trapped => 5,
            Status::Over => 6,
            Status::ReadFault => 7,
            Status::WriteFault => 8,
            Status::NoMemory => 9,
            Status::Full => 10,
        }
    }
}
