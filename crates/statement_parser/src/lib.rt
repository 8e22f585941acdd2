//! Reads statements from tokens, and what a token stands for where a statement or an item may begin.
#![tactic(auto)]

mod meaning;
mod parts;
mod simple;
mod statement;

pub use meaning::{Declarator, Opening, opening_of, policy_of};
pub use parts::function_item;
pub use simple::maybe_length;
pub use statement::block;
