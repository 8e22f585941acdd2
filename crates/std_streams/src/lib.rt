//! The process's side of a command: standard input, standard output, files, and the stack that it has.
#![tactic(auto)]

mod files;
mod input;
mod output;
mod room;

pub use files::Files;
pub use input::Input;
pub use output::Output;
pub use room::{LEAST, ROOMS, has_room};
