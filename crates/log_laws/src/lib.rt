//! Each run has a log, and that of each program that is accepted can be read back.
#![tactic(auto)]

mod laws;

pub use laws::{
    each_accepted_text_has_fitting_logs, each_accepted_text_has_places, each_run_has_a_log,
};
