//! The check of a program: its least fault, or that it has none. `program_walk` goes over the text, `rules` judge what asks for
//! the whole program, and `instances` count threads.
#![tactic(auto)]

mod check_fault;
mod checked;
mod front;
mod instances;
mod rules;
mod sizes;

pub use check_fault::CheckFault;
pub use checked::Checked;
pub use front::check;
