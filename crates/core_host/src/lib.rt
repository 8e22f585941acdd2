//! The hosts of some cores: each runs its threads, tick by tick, by itself or beside other hosts.
#![tactic(auto)]

mod host;
mod tick;
mod worker;

pub use host::{Host, Served};
pub use worker::{Crew, Worker};
