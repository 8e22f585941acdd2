//! How the ends of all mailboxes are dealt to the cores.
ghost use Rattle.std.specs.Prelude.{◌≡◌, ℕ, ◌+◌, ◌<◌, ◌^◌, length, None, IfOk};
ghost use Rattle.copy_slots.specs.SeatEnds.{IsBoard};
ghost use Rattle.copy_slots.specs.Steps.{CanDeal, CanDealAll, HandsOut, HandsOutAll};
ghost use Rattle.slot_board.specs.Dealt.{AllNew, CanDealCores, DealsCores, IsCut, AreNewEnds, left_by_core, taken_by_core};
ghost use Rattle.slot_board.specs.Splits.{pick};

use crate::seats::{CoreSeats, EndSeats};
use crate::splits::{next_watch, part};
use copy_slots::Work;
use copy_slots::make::deal_one;
use copy_slots::steps::{MailSeat, MailTable};
use forec_base::OutOfMemory;
use std::alloc::Global;
use std::collections::VecDeque;

/// Both ends of the keeper's next mailbox, each in a seat of its own.
fn deal_mailbox<W: Work>(top: &MailTable<W>, keeper: &mut MailSeat<W>, from: usize) -> EndSeats<W>
    requires board { (n : ℕ) × IsBoard top.now.table_id n }
    requires keeper { CanDeal top.now from keeper.old }
    ensures { HandsOut top.now from (from + 1) keeper.old keeper.new
        (λ bs. AreNewEnds top.now.table_id top.now.key.work.value bs from result.parent result.child) }
{
    let mut parent = deal_one(top, keeper, from);
    let child = part(top, &mut parent);
    EndSeats {
        parent: Some(parent),
        child: Some(child),
    }
}

/// Both ends of each mailbox.
pub(crate) fn deal_mailboxes<W: Work>(
    alloc: Global,
    top: &MailTable<W>,
    keeper: &mut MailSeat<W>,
    count: usize,
) -> Result<Vec<EndSeats<W>>, OutOfMemory>
    requires board { (n : ℕ) × IsBoard top.now.table_id n }
    requires keeper { CanDealAll top.now count keeper.old }
    ensures count { IfOk result (λ v. length v.items ≡ count) }
    ensures fresh { IfOk result (λ v. HandsOutAll top.now count keeper.old keeper.new
        (λ bs. AllNew top.now.table_id top.now.key.work.value bs v.items)) }
{
    let mut all = Vec::new(alloc);
    for from in 0..count {
        let both = deal_mailbox(top, keeper, from);
        all.push(both)?;
    }
    Ok(all)
}

/// What is there, where it is wanted.
fn take_if<T>(place: &mut Option<T>, is_mine: bool) -> Option<T>
    ensures { (result ≡ pick is_mine place.old None) × (place.new ≡ pick is_mine None place.old) }
{
    if is_mine {
        return place.take();
    }
    None
}

/// A core's ends of the mailbox between these two cores.
fn take_ends<W: Work>(all: &mut EndSeats<W>, cores: (u32, u32), core: u32) -> EndSeats<W>
    ensures { (result ≡ taken_by_core core cores all.old) × (all.new ≡ left_by_core core cores all.old) }
{
    let parent = take_if(&mut all.parent, cores.0 == core);
    let child = take_if(&mut all.child, cores.1 == core);
    EndSeats { parent, child }
}

/// A core's ends of each mailbox.
fn cut_core<W: Work>(
    alloc: Global,
    all: &mut Vec<EndSeats<W>>,
    ends: &[(u32, u32)],
    core: u32,
) -> Result<Vec<EndSeats<W>>, OutOfMemory>
    requires { length all.old.items ≡ length ends.now }
    ensures { IfOk result (λ v. IsCut core ends.now all.old.items v.items all.new.items) }
{
    let mut mine = Vec::new(alloc);
    for k in 0..ends.len() {
        let seats = take_ends(&mut all[k], ends[k], core);
        mine.push(seats)?;
    }
    Ok(mine)
}

/// The seats of each core.
pub(crate) fn deal_cores<W: Work>(
    alloc: Global,
    top: &MailTable<W>,
    spare: &mut MailSeat<W>,
    all: &mut Vec<EndSeats<W>>,
    ends: &[(u32, u32)],
    cores: u32,
    root: u32,
) -> Result<VecDeque<CoreSeats<W>>, OutOfMemory>
    requires board { (length ends.now < 2 ^ 32) × IsBoard top.now.table_id (length ends.now) }
    requires seats { CanDealCores top.now ends.now spare.old all.old.items }
    ensures { IfOk result (λ v. DealsCores top.now ends.now root cores spare.old all.old.items v.items) }
{
    let mut hands = VecDeque::new(alloc);
    for core in 0..cores {
        let watch = next_watch(top, spare, core == root);
        let seats = cut_core(alloc, all, ends, core)?;
        hands.push_back(CoreSeats { watch, seats })?;
    }
    Ok(hands)
}
