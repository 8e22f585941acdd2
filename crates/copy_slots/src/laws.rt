//! What the rule of a table of mailboxes says.

ghost use Rattle.copy_slots.specs.Rule.{AreRuled};

use crate::work::Work;

/// Between any two steps a table of mailboxes meets its rule, and the rule gives each of these parts, all
/// by the words, the slots and the views of the seats: where a packet is and which of the lists in the two
/// views it ends, that replies answer jobs, and that each end stands in one seat.
pub fn mailboxes_are_ruled<W: Work>()
    ensures { AreRuled W.plain W.asks W.answers }
{}
