//! From a program's text to its verdict: its kernel and what is counted of it, or the first cause for which it is refused.
#![tactic(auto)]

mod counts;
mod judging;
mod laws;
mod refusal;

pub use counts::Counts;
pub use judging::{Accepted, judge};
pub use laws::{
    each_accepted_text_has_names, each_accepted_text_has_words, each_accepted_text_is_formed,
    each_accepted_text_is_paced, each_text_has_a_verdict, one_verdict,
};
pub use refusal::{JudgeFault, Refusal};
pub use text_kernel::Quantity;
