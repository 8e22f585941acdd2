//! Packets of many mailboxes in the order in which they came, in memory that is made once.
ghost use Rattle.std.specs.Prelude.{◌≡◌, ◌<◌, ◌≤◌, ◌+◌, ◌^◌, [], length, vec_capacity, slice_get, Some, IfOk};
ghost use Rattle.exchange_log.specs.Registers.{cut};

use crate::entry::{Entry, Kept};
use crate::links::Links;
use combine_tree::PacketKind;
use forec_base::OutOfMemory;
use forec_kernel::VarCopy;
use std::alloc::Global;

/// Jobs or replies of mailboxes: all are counted, and some are kept.
#[derive(Drop)]
pub struct Register {
    pub entries: Vec<Entry>,
    pub args: Vec<i32>,
    pub copies: Vec<VarCopy>,
    /// For each mailbox the number of its packets, or 2^64 - 1 where there are more.
    pub counts: Vec<u64>,
    links: Links,
}

impl Register {
    ghost use Rattle.exchange_log.specs.Registers.{AreInside, AreNumbered, packets_in, note_of, count_in, KeepsPacket, KeepsRooms, CountsAlone, IsEmpty, IsEntryAt};
    ghost use Rattle.exchange_log.specs.Notes.{counts_one};

    /// An empty register for so many mailboxes, with room for so many entries, arguments and copies.
    ///
    /// # Errors
    ///
    /// Out of memory.
    pub fn new(
        alloc: Global,
        mailboxes: u32,
        entries: usize,
        args: usize,
        copies: usize,
    ) -> Result<Register, OutOfMemory>
        ensures empty { IfOk result (λ r. IsEmpty r mailboxes) }
        ensures entries_room { IfOk result (λ r. entries ≤ vec_capacity r.entries) }
        ensures args_room { IfOk result (λ r. args ≤ vec_capacity r.args) }
        ensures copies_room { IfOk result (λ r. copies ≤ vec_capacity r.copies) }
    {
        Ok(Register {
            entries: Vec::with_capacity(alloc, entries)?,
            args: Vec::with_capacity(alloc, args)?,
            copies: Vec::with_capacity(alloc, copies)?,
            counts: vec![in alloc; 0; mailboxes as usize]?,
            links: Links::new(alloc, mailboxes, entries)?,
        })
    }

    /// The number of the packets of mailbox k, or 2^64 - 1 where there are more.
    pub fn count(&self, k: u32) -> u64
        requires { k < length self.now.counts.items }
        ensures { slice_get self.now.counts.items k ≡ Some result }
    {
        self.counts[k as usize]
    }

    /// Counts a packet of mailbox k.
    pub fn add_one(&mut self, k: u32)
        requires { k < length self.old.counts.items }
        ensures counts { self.new.counts.items ≡ counts_one self.old k }
        ensures alone { CountsAlone self.old self.new }
    {
        let count = &mut self.counts[k as usize];
        *count = count.saturating_add(1);
    }

    /// Keeps a packet of mailbox k, which isn't counted yet.
    pub fn keep(&mut self, k: u32, kind: PacketKind, amount: u64, args: &[i32], copies: &[VarCopy])
        requires counted { k < length self.old.counts.items }
        requires entries { length self.old.entries.items < vec_capacity self.old.entries }
        requires args { length self.old.args.items + length args.now ≤ vec_capacity self.old.args }
        requires copies { length self.old.copies.items + length copies.now ≤ vec_capacity self.old.copies }
        requires few_args { length self.old.args.items + length args.now < 2 ^ 32 }
        requires few_copies { length self.old.copies.items + length copies.now < 2 ^ 32 }
        ensures adds { KeepsPacket self.old self.new k kind amount args.now copies.now }
        ensures counts { self.new.counts ≡ self.old.counts }
        ensures rooms { KeepsRooms self.old self.new }
    {
        let number = self.counts[k as usize];
        let entry = Entry {
            amount,
            number,
            kind,
            mailbox: k,
            args_from: self.args.len() as u32,
            args: args.len() as u32,
            copies_from: self.copies.len() as u32,
            copies: copies.len() as u32,
        };
        self.links.add(k);
        let Ok(()) = self.entries.push(entry) else {
            unreachable!()
        };
        let Ok(()) = self.args.extend_from_slice(args) else {
            unreachable!()
        };
        let Ok(()) = self.copies.extend_from_slice(copies) else {
            unreachable!()
        };
    }

    /// Where packet 0 of mailbox k should be.
    pub fn first(&self, k: u32) -> u32 {
        self.links.first(k)
    }

    /// The place of packet number `number`, from 0, of mailbox k. It should be `near`, and where it isn't, it is looked for from
    /// the first entry on.
    pub fn find(&self, k: u32, number: u64, near: u32) -> usize
        requires numbered { AreNumbered [] self.now.entries.items }
        requires there { number < count_in k self.now.entries.items }
        ensures { IsEntryAt self.now.entries.items k number result }
    {
        let near = near as usize;
        if near < self.entries.len() && self.entries[near].is(k, number) {
            return near;
        }
        for at in 0..self.entries.len() {
            if self.entries[at].is(k, number) {
                return at;
            }
        }
        unreachable!()
    }

    /// Packet number `number`, from 0, of mailbox k. It should be `near`, which becomes where the next one should be.
    pub fn get(&self, k: u32, number: u64, near: &mut u32) -> Kept<'_>
        requires inside { AreInside (length self.now.args.items) (length self.now.copies.items) self.now.entries.items }
        requires numbered { AreNumbered [] self.now.entries.items }
        requires there { number < count_in k self.now.entries.items }
        ensures { slice_get (packets_in self.now k) number
            ≡ Some (note_of result.kind result.amount result.args.now result.copies.now) }
    {
        let at = self.find(k, number, *near);
        *near = self.links.after(at);
        let entry = &self.entries[at];
        Kept {
            kind: entry.kind,
            amount: entry.amount,
            args: part(&self.args, entry.args_from, entry.args),
            copies: part(&self.copies, entry.copies_from, entry.copies),
        }
    }
}

/// So many of these from a place on.
fn part<T>(items: &[T], from: u32, count: u32) -> &[T]
    requires { from + count ≤ length items.now }
    ensures { result.now ≡ cut items.now from count }
{
    let from = from as usize;
    &items[from..from + count as usize]
}
