//! The words of a command line, read with `clap` as one simple command: `COMMAND PROGRAM`, further words where the
//! command takes them, and options that stand anywhere.
#![tactic(auto)]

mod fault;
mod matching;
mod number;
mod reading;
mod request;
mod values;

pub use fault::WordsFault;
pub use reading::read_words;
pub use request::{
    Budget, Command, DEFAULT_BUDGET, MAX_ORDER, MAX_WORKLOAD, Placing, Request, Running,
};
