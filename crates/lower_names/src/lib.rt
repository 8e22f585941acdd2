//! What a statement sees on its way to the kernel: the names of a program, the locals in scope, where a call lands, and how many threads it adds.
#![tactic(auto)]

mod added;
mod context;
mod globals;
mod heads;
mod landing;
mod parts;
mod scope;
mod source;
mod state;
mod term;

pub use context::Context;
pub use globals::{Globals, KernelIndices, first_number, first_value, is_constant};
pub use heads::{AbortHead, ForHead, WhileHead};
pub use landing::innermost;
pub use parts::{both, boxed, boxed_term, count, sequence, sum};
pub use scope::Scope;
pub use source::Source;
pub use state::{Pending, State, Thread};
pub use term::{kernel_number, lower_boxed, lower_term, lower_terms, place_if, stands};
