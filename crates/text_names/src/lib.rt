//! The variables of each program have names that a line can hold as they are.
#![tactic(auto)]

mod laws;

pub use laws::spelled_programs_have_names;
