//! Mailboxes between a parent and a child, through which a packet goes to and fro.
#![tactic(auto)]

mod both;
mod laws;
mod local;
pub mod make;
mod port;
pub mod rule;
pub mod steps;
pub mod view;
mod work;

pub use laws::mailboxes_are_ruled;
pub use local::LocalPort;
pub use port::Port;
pub use work::Work;
