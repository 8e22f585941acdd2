//! The code of a kernel.
//!
//! Expressions work on the stack, and a statement begins and ends with an empty one. A loop with a bound has
//! a counter, and a weak abort a flag, each numbered by how many stand round it. A pause is followed by the
//! instructions of its wake: from the outside in, the tests of the aborts round it, and the turns of the
//! loops anew.
#![tactic(auto)]

mod around;
mod expressions;
mod generator;
mod statements;
mod writing;

pub use generator::generate;
