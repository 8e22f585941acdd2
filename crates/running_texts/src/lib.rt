//! The parts of which ticks are made by rewriting: numbers under an allowance of units, what a kernel says of a thread,
//! and the copies of a branch that are combined.
#![tactic(auto)]

mod evaluation;
mod folds;
mod forks;
mod functions;
mod lookup;
mod meter;
mod operators;

pub use evaluation::{ThreadValues, evaluate, evaluate_all};
pub use folds::{Fold, begin_folds, fold_branch};
pub use forks::{copies_below, started_words, thread_uses, thread_words};
pub use functions::{clear_words, set_word, words_from};
pub use lookup::Lookup;
pub use meter::{Halt, pay, tested};
pub use operators::{copy_value, index_within};
