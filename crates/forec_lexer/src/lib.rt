//! From the bytes of a text to its tokens and names.
#![tactic(auto)]

mod bytes;
mod comments;
mod fault;
mod law;
mod marks;
mod names;
mod numbers;
mod pieces;
mod text;
mod words;

pub use fault::LexFault;
pub use law::one_lexing;
pub use text::{Lexed, end_place, lex};
