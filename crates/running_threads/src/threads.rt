//! Threads, their texts and their children.

use forec_base::{Place, Trap};
use forec_kernel::{Expression, Statement, VarCopy};

/// A `while` in progress; `left` is how many turns are left, none where there is no bound.
#[derive(Clone, Copy)]
pub struct Turn<'k> {
    pub test: &'k Expression,
    pub bound: Option<u32>,
    pub left: Option<u32>,
    pub body: &'k Statement,
    pub place: Place,
}

/// What stands round a part of a running text: the rest of a sequence that follows it, the loop whose turn
/// it is, an abort in progress, or a weak abort in the last piece of its body.
#[derive(Clone, Copy)]
pub enum Frame<'k> {
    Rest { list: &'k [Statement] },
    Again { turn: Turn<'k> },
    Watch { weak: bool, test: &'k Expression },
    Last,
}

/// How a thread stands; gone means that it ended in an earlier tick.
#[derive(Clone, Copy, Debug, PartialEq, Eq)]
pub enum Status {
    Running,
    Paused,
    Ended,
    Gone,
    Trapped { place: Place, trap: Trap },
}

/// The innermost part of a running text.
#[cycle(threads)]
#[derive(Drop)]
pub enum Focus<'k> {
    Done,
    Run { statement: &'k Statement },
    Turning { turn: Turn<'k> },
    Resting,
    Fork { children: Box<Children<'k>> },
    Held { children: Box<Children<'k>> },
}

/// A thread: its running text is the focus inside the frames, the outermost frame first.
#[cycle(threads)]
#[derive(Drop)]
pub struct Thread<'k> {
    pub number: u32,
    pub frames: Vec<Frame<'k>>,
    pub focus: Focus<'k>,
    pub words: Vec<i32>,
    pub copies: Vec<VarCopy>,
    pub status: Status,
}

/// The branches of a fork, in order.
#[cycle(threads)]
#[derive(Drop)]
pub enum Children<'k> {
    Nobody,
    Child {
        first: Thread<'k>,
        rest: Box<Children<'k>>,
    },
}
