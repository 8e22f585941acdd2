//! The kernel that a program's text means, and that it keeps the condition of kernels where the program
//! breaks no rule and passes no limit.
#![tactic(auto)]

mod laws;
mod limits;
mod names;

pub use laws::{
    each_accepted_program_has_a_kernel, threads_are_those_of_the_tree, uses_are_those_of_the_tree,
};
pub use limits::Quantity;
pub use names::{Slot, Stands, number_of, slot_stands, slots_of};
