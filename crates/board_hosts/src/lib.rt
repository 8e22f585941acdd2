//! The hosts of a code's threads, one for each core that has threads, over mailboxes that they share.
#![tactic(auto)]

mod board;
mod hosts;

pub use board::board_of;
pub use hosts::{Hosts, hosts_of};
