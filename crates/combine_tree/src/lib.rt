//! What a parent and a branch hand to each other: packets, in memory that is made once; and how the copies
//! of branches are combined.
#![tactic(auto)]

mod joining;
mod laws;
mod packet;

pub use joining::{Joining, take_part};
pub use laws::joins_combine_as_defined;
pub use packet::{Packet, PacketKind};
