//! What a host is made of.

ghost use Rattle.std.specs.Prelude.{◌≡◌, ◌<◌, ◌≤◌, ◌+◌, ◌++◌, ◌∷◌, [], ℕ, cond, IfOk, OnOk, Some, None, Option, length, slice_get, true};
ghost use Rattle.forec_base.specs.declared.limits.TheConstants.{MAX_THREADS};
ghost use Rattle.thread_code.specs.Plain.{plain_code};
ghost use Rattle.combine_tree.specs.declared.packet.Packet.{Packet as PlainPacketState};
ghost use Rattle.thread_rooms.specs.Room.{AreNeeds};
ghost use Rattle.core_seats.specs.Loads.{AreNewSeats, ArePlaced, AreOwn, IsNewSeat, contains_core};

use crate::seat::Seat;
use combine_tree::Packet;
use core_alloc::Placement;
use core_machine::Thread;
use forec_base::OutOfMemory;
use std::alloc::Global;
use thread_code::Code;
use thread_rooms::Needs;
use tick_jobs::Boxed;

/// The core of each thread, in order.
pub fn places_of(alloc: Global, placement: &Placement) -> Result<Vec<u32>, OutOfMemory>
    ensures same { IfOk result (λ places. places.items ≡ placement.now.places) }
    ensures placed { IfOk result (λ places. ArePlaced placement.now) }
{
    let mut places = Vec::new(alloc);
    for thread in 0..placement.threads() {
        places.push(placement.core(thread))?;
    }
    Ok(places)
}

/// Whether the core is one of these.
pub fn is_among(core: u32, cores: &[u32]) -> bool
    ensures { result ≡ contains_core core cores.now }
{
    for other in cores {
        if *other == core {
            return true;
        }
    }
    false
}

/// The seat of thread number `thread`, with the thread in it where its core is one of these.
fn seat_of(
    alloc: Global,
    code: &Code,
    needs: &Needs,
    thread: u32,
    is_here: bool,
) -> Result<Seat, OutOfMemory>
    requires thread { thread < length (plain_code code.now).threads }
    requires needs { AreNeeds (plain_code code.now) needs.now }
    ensures { IfOk result (λ s. IsNewSeat (plain_code code.now) thread is_here s) }
{
    if !is_here {
        return Ok(Seat {
            thread: None,
            job: None,
        });
    }
    let loaded = Thread::load_with(alloc, code, needs, thread)?;
    Ok(Seat {
        thread: Some(Boxed::new(alloc, loaded)?),
        job: None,
    })
}

/// A seat for each thread, in order.
pub fn seats_of(
    alloc: Global,
    code: &Code,
    needs: &Needs,
    places: &[u32],
    cores: &[u32],
) -> Result<Vec<Seat>, OutOfMemory>
    requires needs { AreNeeds (plain_code code.now) needs.now }
    requires count { length places.now ≡ length (plain_code code.now).threads }
    requires few { length places.now ≤ MAX_THREADS }
    ensures count { IfOk result (λ seats. length seats.items ≡ length places.now) }
    ensures each { IfOk result (λ seats. AreNewSeats (plain_code code.now) places.now cores.now seats.items) }
{
    let mut seats = Vec::new(alloc);
    for thread in 0..places.len() {
        let is_here = is_among(places[thread], cores);
        seats.push(seat_of(alloc, code, needs, thread as u32, is_here)?)?;
    }
    Ok(seats)
}

/// The mailbox goes to the end of the list, where it is to be there.
fn push_if(own: &mut Vec<u32>, mailbox: u32, is_here: bool) -> Result<(), OutOfMemory>
    ensures { OnOk result (own.new.items ≡ cond is_here (own.old.items ++ mailbox ∷ []) own.old.items) }
{
    if is_here {
        own.push(mailbox)?;
    }
    Ok(())
}

/// The mailboxes of the threads of these cores, in order.
pub fn own_mailboxes(alloc: Global, places: &[u32], cores: &[u32]) -> Result<Vec<u32>, OutOfMemory>
    requires some { 0 < length places.now }
    requires few { length places.now ≤ MAX_THREADS }
    ensures { IfOk result (λ own. AreOwn places.now cores.now own.items) }
{
    let mut own = Vec::new(alloc);
    for mailbox in 0..places.len() - 1 {
        let is_here = is_among(places[mailbox + 1], cores);
        push_if(&mut own, mailbox as u32, is_here)?;
    }
    Ok(own)
}

/// So many empty hands.
pub fn empty_hands(alloc: Global, count: usize) -> Result<Vec<Option<Boxed<Packet>>>, OutOfMemory>
    ensures count { IfOk result (λ hands. length hands.items ≡ count) }
    ensures each { IfOk result (λ hands. (k : ℕ) (h : Option PlainPacketState) → slice_get hands.items k ≡ Some h
        → h ≡ None) }
{
    let mut hands = Vec::new(alloc);
    for _ in 0..count {
        hands.push(None)?;
    }
    Ok(hands)
}
