//! Reads expressions from tokens.
#![tactic(auto)]

mod expression;
mod fault;
mod fixed;
mod law;
mod meaning;
mod nodes;
mod tokens;

pub use expression::{bracketed, indexed, passed, value, values};
pub use fault::Fault;
pub use fixed::{Fixed, is_fixed};
pub use law::reads_as_spelled;
pub use tokens::Tokens;
