//! How large the kernel of a program would be, counted on its text, without it being made.
#![tactic(auto)]

mod extents;
mod span;
mod tally;
mod widths;

pub use extents::program_terms;
pub use span::{Span, span_of};
pub use tally::add;
pub use widths::spans;
