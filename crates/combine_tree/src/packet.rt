//! Packets.

ghost use Rattle.std.specs.Prelude.{◌≡◌, IfOk};
ghost use Rattle.combine_tree.specs.Plain.{plain_packet, blank_packet};

use forec_base::{OutOfMemory, Place, Trap};
use forec_kernel::VarCopy;
use std::alloc::Global;

/// What a packet is. A job is a `Start` or a `Wake`, a reply one of the last four.
#[derive(Clone, Copy, Debug, PartialEq, Eq)]
pub enum PacketKind {
    /// Nothing was written yet.
    Blank,
    /// The branch begins anew, with these arguments and values.
    Start,
    /// The branch goes on where it paused, with these values.
    Wake,
    /// The branch came to a pause.
    Paused,
    /// The branch came to its end.
    Ended,
    /// The branch trapped, at this place of the program's text. The copies count for nothing.
    Trapped { place: Place, trap: Trap },
    /// The branch's units passed its allowance. The copies and the units count for nothing.
    Over,
}

/// A job from a parent to a branch, or a branch's reply. Its vectors keep their lengths for good: one
/// argument for each parameter of the branch, and one copy for each variable that the branch uses.
#[derive(Drop)]
pub struct Packet {
    pub kind: PacketKind,
    /// The arguments of a `Start`.
    pub args: Vec<i32>,
    /// In the order of the branch's variables. In a job they are unmarked.
    pub copies: Vec<VarCopy>,
    /// The most units that the branch and all below it may count, in a job.
    pub allowance: u64,
    /// The units that the branch and all below it counted, in a reply.
    pub units: u64,
}

impl Packet {
    /// A blank packet of so many arguments and copies, all of them 0 and unmarked.
    ///
    /// # Errors
    ///
    /// Out of memory.
    pub fn new(alloc: Global, args: usize, copies: usize) -> Result<Packet, OutOfMemory>
        ensures { IfOk result (λ p. plain_packet p ≡ blank_packet args copies) }
    {
        let unset = VarCopy {
            value: 0,
            modified: false,
        };
        Ok(Packet {
            kind: PacketKind::Blank,
            args: vec![in alloc; 0; args]?,
            copies: vec![in alloc; unset; copies]?,
            allowance: 0,
            units: 0,
        })
    }
}
