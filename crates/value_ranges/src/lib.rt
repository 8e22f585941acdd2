//! The outputs of each tick are whole numbers of 32 bits, if the kernel's numbers and its rows' are.
#![tactic(auto)]

mod laws;

pub use laws::values_fit;
