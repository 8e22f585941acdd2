//! The jobs and replies that went through mailboxes, as far as there is room.
ghost use Rattle.std.specs.Prelude.{◌≡◌, ◌<◌, ◌≤◌, ◌*◌, ◌^◌, length, take, vec_capacity, IfOk};

use crate::lines::{put_job, put_reply};
use crate::register::Register;
use combine_tree::Packet;
use forec_base::OutOfMemory;
use std::alloc::Global;

/// Where a job and its reply should be. It is a hint: whatever it says, the pair is found, and sooner where it is right.
#[derive(Clone, Copy)]
pub struct PairPlace {
    job: u32,
    reply: u32,
}

/// The jobs and replies of mailboxes, counted, and kept as far as there is room.
#[derive(Drop)]
pub struct Book {
    /// The words for which there is room.
    pub words: u64,
    /// The words that all jobs and replies so far need, or 2^64 - 1 where they need more.
    pub needed: u64,
    pub jobs: Register,
    pub replies: Register,
    ghost few: { words < 2 ^ 32 },
    ghost jobs_room: { words < 3 * vec_capacity jobs.entries },
    ghost job_args_room: { words ≤ vec_capacity jobs.args },
    ghost job_copies_room: { words ≤ vec_capacity jobs.copies },
    ghost replies_room: { words < 6 * vec_capacity replies.entries },
    ghost reply_copies_room: { words < 2 * vec_capacity replies.copies },
}

impl Book {
    ghost use Rattle.exchange_log.specs.Registers.{IsEmpty};
    ghost use Rattle.exchange_log.specs.Notes.{IsSmall, NotesJob, NotesReply};
    ghost use Rattle.exchange_log.specs.Told.{HasPair, HasPairRoom, TellsPair, IsPairWithin};

    /// An empty book with room for so many words, for so many mailboxes.
    ///
    /// # Errors
    ///
    /// Out of memory.
    pub fn new(alloc: Global, mailboxes: u32, words: usize) -> Result<Book, OutOfMemory>
        ensures words { IfOk result (λ b. b.words ≡ words) }
        ensures few { IfOk result (λ b. b.words < 2 ^ 32) }
        ensures needed { IfOk result (λ b. b.needed ≡ 0) }
        ensures jobs { IfOk result (λ b. IsEmpty b.jobs mailboxes) }
        ensures replies { IfOk result (λ b. IsEmpty b.replies mailboxes) }
    {
        if words > u32::MAX as usize {
            return Err(OutOfMemory);
        }
        Ok(Book {
            words: words as u64,
            needed: 0,
            jobs: Register::new(alloc, mailboxes, words / 3 + 1, words, words)?,
            replies: Register::new(alloc, mailboxes, words / 6 + 1, 0, words / 2 + 1)?,
        })
    }

    /// Counts a job of mailbox k, and keeps it where there is room.
    pub fn note_job(&mut self, k: u32, packet: &Packet)
        requires counted { k < length self.old.jobs.counts.items }
        requires small { self.old.needed ≤ self.old.words → IsSmall self.old }
        ensures { NotesJob self.old self.new k packet.now }
    {
        self.needed = self
            .needed
            .saturating_add(3)
            .saturating_add(packet.args.len() as u64)
            .saturating_add(packet.copies.len() as u64);
        if self.needed <= self.words {
            let amount = packet.allowance;
            self.jobs
                .keep(k, packet.kind, amount, &packet.args, &packet.copies);
        }
        self.jobs.add_one(k);
    }

    /// Counts a reply of mailbox k, and keeps it where there is room, but for its arguments, which count for nothing.
    pub fn note_reply(&mut self, k: u32, packet: &Packet)
        requires counted { k < length self.old.replies.counts.items }
        requires small { self.old.needed ≤ self.old.words → IsSmall self.old }
        ensures { NotesReply self.old self.new k packet.now }
    {
        self.needed = self
            .needed
            .saturating_add(6)
            .saturating_add(packet.copies.len() as u64)
            .saturating_add(packet.copies.len() as u64);
        if self.needed <= self.words {
            let amount = packet.units;
            self.replies
                .keep(k, packet.kind, amount, &[], &packet.copies);
        }
        self.replies.add_one(k);
    }

    /// Where pair 0 of mailbox k should be.
    pub fn first_pair(&self, k: u32) -> PairPlace {
        PairPlace {
            job: self.jobs.first(k),
            reply: self.replies.first(k),
        }
    }

    /// Writes the two lines of job number j of mailbox k and of its reply to the front of a buffer, and says how many bytes they
    /// have. They should be `near`, which becomes where the next pair should be.
    pub fn put_pair(&self, k: u32, j: u64, near: &mut PairPlace, buffer: &mut [u8]) -> usize
        requires there { HasPair self.now k j }
        requires room { HasPairRoom self.now k j (length buffer.old) }
        ensures lines { TellsPair self.now k j (take result buffer.new) }
        ensures within { IsPairWithin self.now k j result }
        ensures same_length { length buffer.new ≡ length buffer.old }
    {
        let job = self.jobs.get(k, j, &mut near.job);
        let reply = self.replies.get(k, j, &mut near.reply);
        let end = put_job(buffer, 0, job.kind, job.amount, job.args, job.copies);
        put_reply(buffer, end, reply.kind, reply.amount, reply.copies)
    }
}
