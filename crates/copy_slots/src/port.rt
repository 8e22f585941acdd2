//! Ports.

ghost use Rattle.std.specs.Prelude.{◌≡◌, ◌≢◌, ℕ, ◌++◌, ◌∷◌, []};
ghost use Rattle.copy_slots.specs.declared.view.PacketAt.TheVariants.{Fresh, Held, Out};
ghost use Rattle.copy_slots.specs.Ports.{PortState, ParentIs, ChildIs, sent};

use crate::work::Work;

/// The ends of mailboxes that a core has. A mailbox has one packet, which goes to and fro between its
/// parent's end and its child's end: as a blank one or a reply it is the parent's, as a job the child's.
///
/// Each call changes only what its equation on `state` says. No call waits or takes memory.
pub trait Port<W: Work> {
    ghost use Rattle.std.specs.Prelude.{◌≡◌, ◌≢◌, ℕ, ◌++◌, ◌∷◌, [], Some, None, true, false, IfSome, MatchOption, MatchBool, slice_get};
    ghost use Rattle.copy_slots.specs.declared.view.PacketAt.TheVariants.{Fresh, Held, Out};
    ghost use Rattle.copy_slots.specs.Ports.{PortState, ParentIs, ChildIs, sent, taken, turn, TookLast, after_first, after_offer, after_collect, after_take, after_answer, after_stop, after_check, in_plain};

    /// The ends with what went through them, and what the port saw of the stop word.
    ghost state: { Self → PortState W W.Plain };

    /// The blank packet of mailbox k, into the parent's hand.
    fn first(&mut self, k: u32) -> W::Packet
        requires { ParentIs (state self.old) k Fresh }
        ensures state { state self.new ≡ after_first k (state self.old) }
        ensures blank { slice_get (state self.old).blanks k ≡ Some (W.plain result) };

    /// Sends a job: the packet leaves the parent's hand, and it is the child's turn.
    fn offer(&mut self, k: u32, packet: W::Packet)
        requires held { ParentIs (state self.old) k Held }
        requires asks { W.asks (state self.old).work k (sent (state self.old) k ++ W.plain packet ∷ []) }
        ensures { state self.new ≡ after_offer k (W.plain packet) (state self.old) };

    /// Looks for the reply. None where it is still the child's turn.
    fn collect(&mut self, k: u32) -> Option<W::Packet>
        requires { ParentIs (state self.old) k Out }
        ensures state { state self.new ≡ after_collect k (in_plain W.plain result) (state self.old) }
        ensures reply { IfSome result (λ r. W.answers (state self.old).work k (sent (state self.old) k) (W.plain r)) }
        ensures turn { (state self.old).tells ≡ true → MatchOption result (turn (state self.old) k ≢ 0)
            (λ _. turn (state self.old) k ≡ 0) };

    /// Looks for a job. None where it is still the parent's turn.
    fn take(&mut self, k: u32) -> Option<W::Packet>
        requires { ChildIs (state self.old) k false }
        ensures state { state self.new ≡ after_take k (in_plain W.plain result) (state self.old) }
        ensures job { IfSome result (λ r. W.asks (state self.old).work k (taken (state self.new) k)) }
        ensures turn { (state self.old).tells ≡ true → MatchOption result (turn (state self.old) k ≡ 0)
            (λ _. TookLast (state self.old) (state self.new) k) };

    /// Sends a reply: the packet leaves the child's hand, and it is the parent's turn.
    fn answer(&mut self, k: u32, packet: W::Packet)
        requires held { ChildIs (state self.old) k true }
        requires answers { W.answers (state self.old).work k (taken (state self.old) k) (W.plain packet) }
        ensures { state self.new ≡ after_answer k (W.plain packet) (state self.old) };

    /// Stores the stop word, once for all ports.
    fn stop(&mut self)
        requires { (state self.old).root ≡ true }
        ensures { state self.new ≡ after_stop (state self.old) };

    /// Whether the stop word was stored.
    fn stopped(&mut self) -> bool
        ensures state { state self.new ≡ after_check result (state self.old) }
        ensures stored { (state self.old).root ≡ true → result ≡ true → (state self.old).stored ≡ true };
}
