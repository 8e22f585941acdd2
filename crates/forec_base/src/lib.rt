//! What every part of the compiler stands on: places, policies, traps, 32-bit arithmetic, lists of
//! texts, and the outside world as traits with stores in memory.
#![tactic(auto)]

mod arithmetic;
mod labels;
mod limits;
mod memory;
mod named;
mod operators;
mod outside;

pub use arithmetic::{binary, unary};
pub use labels::{Labels, OutOfMemory};
pub use limits::{
    MAX_ARRAY_LENGTH, MAX_BUDGET, MAX_CORES, MAX_DEPTH, MAX_FUNCTIONS, MAX_GLOBALS, MAX_INPUTS,
    MAX_LEVEL, MAX_LINE_BYTES, MAX_NAME_BYTES, MAX_OUTPUTS, MAX_PARAMS, MAX_ROWS, MAX_TABLE_WORDS,
    MAX_TERMS, MAX_TEXT_BYTES, MAX_THREADS, MAX_TOKENS, MAX_TURNS, MAX_WORDS,
};
pub use memory::{MemSink, MemSource, MemTexts, NullSink, OpenGate, SureSource, SureTexts};
pub use named::NamedText;
pub use operators::{Binary, Unary};
pub use outside::{Failed, Gate, Point, Sink, Source, TextFault, Texts};

/// A line and a column of a text, both counted from 1, in bytes; ordered by line, then column.
#[derive(Clone, Copy, Debug, PartialEq, Eq, PartialOrd, Ord)]
pub struct Place {
    pub line: u32,
    pub column: u32,
}

/// Which copies of a shared variable take part when a `par` combines them.
#[derive(Clone, Copy, Debug, PartialEq, Eq)]
pub enum Policy {
    /// Every copy.
    All,
    /// The copies whose value differs from the parent's.
    New,
    /// The copies that were assigned.
    Mod,
}

/// Why a step stopped a thread for good.
#[derive(Clone, Copy, Debug, PartialEq, Eq)]
pub enum Trap {
    /// A zero divisor.
    Divide,
    /// An index outside its array.
    Index,
    /// A loop that passed its bound within one tick.
    Turns,
}
