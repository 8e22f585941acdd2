//! Mailboxes that the ports of several cores share.
#![tactic(auto)]

mod board;
mod dealing;
mod joining;
mod laws;
mod port;
mod seats;
mod splits;

pub use board::{GivesPorts, SlotBoard};
pub use laws::every_step_is_ruled;
pub use port::SlotPort;
