//! How a table of mailboxes is made.
ghost use Rattle.std.specs.Prelude.{◌≡◌, ℕ, ◌+◌, ◌<◌, ◌^◌, [], length, replicate, Some, IfOk, false, map};
ghost use Rattle.copy_slots.specs.Mail.{plain_list};
ghost use Rattle.copy_slots.specs.declared.view.Role.TheVariants.{Keeper};
ghost use Rattle.copy_slots.specs.SeatEnds.{IsBoard, Watches};
ghost use Rattle.copy_slots.specs.Fresh.{AllFresh};
ghost use Rattle.copy_slots.specs.Steps.{CanDeal, CanDealAll, HandsOut, HandsOutAll, IsFreshSeat};

use crate::both::BothEnds;
use crate::rule::{Deals, MailRule, Setup};
use crate::steps::{MailSeat, MailTable};
use crate::view::View;
use crate::work::Work;
use atomic_table::{Refused, Table};
use forec_base::OutOfMemory;
use std::alloc::{AllocError, Global};
use std::snapshot::Snapshot;

/// A table of mailboxes.
pub type Board<W> = Table<
    Option<<W as Work>::Packet>,
    View<W, <W as Work>::Plain>,
    Setup<W>,
    MailRule<W>,
    Global,
>;

/// Each packet in a slot of its own.
fn in_slots<T: Drop>(alloc: Global, packets: Vec<T>) -> Result<Vec<Option<T>>, AllocError>
    ensures { IfOk result (λ v. v.items ≡ map Some packets.items) }
{
    packets
        .into_iter()
        .map(|packet| Some(packet))
        .collect(alloc)
}

fn zeros(alloc: Global, count: usize) -> Result<Vec<u64>, OutOfMemory>
    ensures { IfOk result (λ v. v.items ≡ replicate count 0) }
{
    Ok(vec![in alloc; 0; count]?)
}

/// The table, with the seat that has all ends and the root's mark.
pub fn new_table<W: Work>(
    alloc: Global,
    work: &W,
    blanks: Vec<W::Packet>,
) -> Result<(Board<W>, MailSeat<W>), OutOfMemory>
    requires { length blanks.items < 2 ^ 16 }
    ensures board { IfOk result (λ t. IsBoard t.0.shared.table_id (length blanks.items)) }
    ensures work { IfOk result (λ t. t.0.shared.key.work.value ≡ work.now) }
    ensures keeper { IfOk result (λ t. Watches t.0.shared.table_id work.now (plain_list W.plain blanks.items)
        (Keeper 0 false []) t.1) }
{
    let about = Setup {
        work: Snapshot::of(work),
        blanks: Snapshot::of(&blanks),
    };
    let words = zeros(alloc, blanks.len() + 1)?;
    let slots = in_slots(alloc, blanks)?;
    match Table::new(alloc, words.as_slice(), slots, &about) {
        Ok((board, keeper)) => Ok((board, keeper)),
        Err(Refused { slots: _ }) => Err(OutOfMemory),
    }
}

/// A seat with both ends of the keeper's next mailbox.
pub fn deal_one<W: Work>(top: &MailTable<W>, keeper: &mut MailSeat<W>, from: usize) -> MailSeat<W>
    requires board { (n : ℕ) × IsBoard top.now.table_id n }
    requires keeper { CanDeal top.now from keeper.old }
    ensures { HandsOut top.now from (from + 1) keeper.old keeper.new (λ bs. IsFreshSeat top.now bs from result) }
{
    top.split_seat::<Deals<W>>(keeper)
}

/// A seat with both ends of each mailbox.
pub(crate) fn deal_all<W: Work>(
    alloc: Global,
    top: &MailTable<W>,
    keeper: &mut MailSeat<W>,
    count: usize,
) -> Result<Vec<BothEnds<W>>, OutOfMemory>
    requires board { (n : ℕ) × IsBoard top.now.table_id n }
    requires keeper { CanDealAll top.now count keeper.old }
    ensures count { IfOk result (λ v. length v.items ≡ count) }
    ensures fresh { IfOk result (λ v. HandsOutAll top.now count keeper.old keeper.new
        (λ bs. AllFresh top.now.table_id top.now.key.work.value bs v.items)) }
{
    let mut seats = Vec::new(alloc);
    for from in 0..count {
        let seat = deal_one(top, keeper, from);
        seats.push(BothEnds { seat })?;
    }
    Ok(seats)
}
