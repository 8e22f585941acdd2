//! Laws of folding: what a kernel with its constants folded keeps.
#![tactic(auto)]

mod laws;

pub use laws::{folding_keeps_form, folding_keeps_paced, folding_keeps_runs, folding_keeps_values};
