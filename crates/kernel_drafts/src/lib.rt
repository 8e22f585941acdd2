//! The kernel of a checked program as a draft: its parts one by one, and the most that its threads need.
#![tactic(auto)]

mod depths;
mod drafts;
mod elements;
mod expand;
mod functions;
mod globals;
mod marks;
mod measure;
mod pars;
mod reach;
mod shapes;
mod tables;

pub use drafts::{complete, draft};
pub use functions::{int_functions, lowered_functions};
pub use globals::{variable_total, variables};
pub use measure::{Draft, most, words_along};
pub use tables::{arrays, table_words};
