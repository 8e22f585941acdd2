//! A packet in a register.
use combine_tree::PacketKind;
use forec_kernel::VarCopy;

/// A job or a reply that a register keeps.
#[derive(Clone, Copy)]
pub struct Kept<'r> {
    pub kind: PacketKind,
    /// The allowance of a job, the units of a reply.
    pub amount: u64,
    pub args: &'r [i32],
    pub copies: &'r [VarCopy],
}

/// A packet in a register. Its arguments and copies stand in the register's lists, from these places on.
#[derive(Clone, Copy)]
pub struct Entry {
    /// The allowance of a job, the units of a reply.
    pub amount: u64,
    /// How many packets of its mailbox came before it.
    pub number: u64,
    pub kind: PacketKind,
    pub mailbox: u32,
    pub args_from: u32,
    pub args: u32,
    pub copies_from: u32,
    pub copies: u32,
}

impl Entry {
    ghost use Rattle.std.specs.Prelude.{◌≡◌};
    ghost use Rattle.exchange_log.specs.Registers.{is_entry};

    /// Whether it is this packet of this mailbox.
    pub fn is(&self, k: u32, number: u64) -> bool
        ensures { result ≡ is_entry k number self.now }
    {
        self.mailbox == k && self.number == number
    }
}
