//! The places in the kernels of programs have lines and columns from 1.
#![tactic(auto)]

mod laws;

pub use laws::spelled_programs_have_places;
