//! What words ask for.

/// The units that a tick may have where no word says how many.
pub const DEFAULT_BUDGET: u64 = 10_000_000;

/// The greatest number of an order of steps.
pub const MAX_ORDER: u64 = 4_294_967_295;

/// The most threads of the workload that `gen` makes, `main` apart.
pub const MAX_WORKLOAD: u64 = 255;

/// The most traces that `farm` runs a program over.
pub const MAX_TRACES: usize = 64;

/// Where threads run: on so many cores, 1 to 64, by a list of places or balanced.
#[derive(Clone, Copy, Debug, PartialEq, Eq)]
pub struct Placing<'a> {
    pub cores: u32,
    pub list: Option<&'a str>,
}

/// How many units a tick may have.
#[derive(Clone, Copy, Debug, PartialEq, Eq)]
pub enum Budget {
    /// So many, 1 to 2^62.
    Units { most: u64 },
    /// As many as the bound of the program.
    Bound,
}

/// How a program runs: where its threads do, and how many units a tick may have.
#[derive(Clone, Copy, Debug, PartialEq, Eq)]
pub struct Running<'a> {
    pub placing: Placing<'a>,
    pub budget: Budget,
}

/// What is done with a program.
#[derive(Clone, Copy, Debug, PartialEq, Eq)]
pub enum Command<'a> {
    /// It runs over the trace.
    Run { running: Running<'a> },
    /// It is judged and counted.
    Check,
    /// Its threads are listed, each with its core.
    Threads { placing: Placing<'a> },
    /// Its code is listed.
    Code,
    /// It runs over the trace by rewriting, in an order of steps that has a number. A tick may have so many units.
    Explain { budget: Budget, order: u32 },
    /// It runs over the trace, and a value change dump of the run is written.
    Wave { running: Running<'a> },
}

/// What words ask for.
#[derive(Debug, PartialEq, Eq, Drop)]
pub enum Request<'a> {
    /// A command on the text of this name. `fold`: its kernel has its constants folded before the command is done;
    /// never so where the command is [`Command::Check`] or [`Command::Wave`].
    Text {
        program: &'a str,
        command: Command<'a>,
        fold: bool,
    },
    /// The workload of so many threads runs, 1 to 255.
    Workload {
        threads: u32,
        running: Running<'a>,
    },
    /// The report is written that the value change dump of this name tells.
    Dump {
        dump: &'a str,
    },
    /// The program of this name runs over the trace, and the jobs and replies that its threads exchange are written.
    Log {
        program: &'a str,
        running: Running<'a>,
    },
    /// The log of this name is held to the program of the other name and the trace.
    Replay {
        program: &'a str,
        log: &'a str,
        budget: Budget,
    },
    /// The program of this name runs over each of the traces of these names, 1 to 64, in this order.
    Traces {
        program: &'a str,
        traces: Vec<&'a str>,
        budget: Budget,
    },
}
