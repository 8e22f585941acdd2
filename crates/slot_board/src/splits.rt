//! How seats are split off, before the first call of a port, and joined.
ghost use Rattle.std.specs.Prelude.{◌≡◌, ℕ};
ghost use Rattle.copy_slots.specs.SeatEnds.{IsBoard};
ghost use Rattle.copy_slots.specs.Steps.{LooksAtStop};
ghost use Rattle.slot_board.specs.Splits.{HasBothFresh, PartsEnds, PartsWatch, CanMerge, MergesWatches};

use atomic_table::{Join, Split};
use copy_slots::Work;
use copy_slots::steps::{MailSeat, MailTable};
use copy_slots::view::View;
use std::marker::PhantomData;
use std::mem;

/// The two ends of a mailbox part.
pub struct Parts<W> {
    work: PhantomData<W>,
}

impl<W: Work> Split<View<W, W::Plain>> for Parts<W> {
    ghost use Rattle.slot_board.specs.Splits.{parent_part, child_part};

    ghost left = { parent_part };

    ghost right = { child_part };
}

/// A seat that has no end, and looks at the stop word.
pub struct Idles<W> {
    work: PhantomData<W>,
}

impl<W: Work> Split<View<W, W::Plain>> for Idles<W> {
    ghost use Rattle.slot_board.specs.Splits.{idle};

    ghost left = { λ v. v };

    ghost right = { idle };
}

/// Two seats that look at the stop word become one.
pub struct Merges<W> {
    work: PhantomData<W>,
}

impl<W: Work> Join<View<W, W::Plain>> for Merges<W> {
    ghost use Rattle.copy_slots.specs.Mail.{spent};
    ghost use Rattle.slot_board.specs.Splits.{joined_view};

    ghost both = { joined_view };

    ghost spent = { spent };
}

/// The child's end of a mailbox of which nothing was done, off the seat that has both ends.
pub(crate) fn part<W: Work>(top: &MailTable<W>, seat: &mut MailSeat<W>) -> MailSeat<W>
    requires board { (n : ℕ) × IsBoard top.now.table_id n }
    requires seat { HasBothFresh top.now seat.old }
    ensures { PartsEnds top.now seat.old seat.new result }
{
    top.split_seat::<Parts<W>>(seat)
}

/// A seat that looks at the stop word, off another one. For the root's core it has what the other had.
pub(crate) fn next_watch<W: Work>(
    top: &MailTable<W>,
    spare: &mut MailSeat<W>,
    is_root: bool,
) -> MailSeat<W>
    requires board { (n : ℕ) × IsBoard top.now.table_id n }
    requires spare { LooksAtStop top.now spare.old }
    ensures { PartsWatch top.now is_root spare.old spare.new result }
{
    let mut next = top.split_seat::<Idles<W>>(spare);
    if is_root {
        mem::swap(spare, &mut next);
    }
    next
}

/// What one seat at the stop word has, into another one.
pub(crate) fn merge<W: Work>(top: &MailTable<W>, seat: &mut MailSeat<W>, other: MailSeat<W>)
    requires board { (n : ℕ) × IsBoard top.now.table_id n }
    requires seats { CanMerge top.now seat.old other }
    ensures { MergesWatches top.now seat.old other seat.new }
{
    top.join_seat::<Merges<W>>(seat, other);
}
