//! What packets mean.

ghost use Rattle.std.specs.Prelude.{ℕ, List};

/// What goes through mailboxes: packets, which jobs a parent may send, and which replies answer them.
pub trait Work: Drop {
    type Packet: Drop;

    /// A packet as plain data. No value of it is made.
    type Plain;

    /// The plain value of a packet.
    ghost plain: { Self.Packet → Self.Plain };

    /// Of the jobs of mailbox k, the last may be sent after the others.
    ghost asks: { Self → ℕ → List Self.Plain → Type 0 };

    /// What mailbox k gives back after these jobs answers the last of them.
    ghost answers: { Self → ℕ → List Self.Plain → Self.Plain → Type 0 };
}
