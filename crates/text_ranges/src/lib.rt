//! The outputs of each program are whole numbers of 32 bits, if the rows' numbers are.
#![tactic(auto)]

mod laws;

pub use laws::spelled_programs_have_words;
