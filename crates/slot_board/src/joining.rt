//! The seats of two ports become those of one.
ghost use Rattle.std.specs.Prelude.{◌≡◌, length, Option, Some, None, List};
ghost use Rattle.slot_board.specs.Joined.{AreJoined, both_seats, or_else};

use crate::seats::EndSeats;
use copy_slots::Work;

/// An empty place gets what the other one has.
fn fill<T: Drop>(place: &mut Option<T>, other: &mut Option<T>)
    ensures { place.new ≡ or_else place.old other.old }
{
    if place.is_none() {
        *place = other.take();
    }
}

/// The ends of a mailbox that either has.
fn join_ends<W: Work>(mine: &mut EndSeats<W>, theirs: &mut EndSeats<W>)
    ensures { mine.new ≡ both_seats mine.old theirs.old }
{
    fill(&mut mine.parent, &mut theirs.parent);
    fill(&mut mine.child, &mut theirs.child);
}

/// The ends of each mailbox that either has.
pub(crate) fn join_seats<W: Work>(mine: &mut Vec<EndSeats<W>>, mut theirs: Vec<EndSeats<W>>)
    requires { length mine.old.items ≡ length theirs.items }
    ensures { AreJoined mine.old.items theirs.items mine.new.items }
{
    for k in 0..mine.len() {
        join_ends(&mut mine[k], &mut theirs[k]);
    }
}
