//! The part of a log that one thread has, as it is gone through.

ghost use Rattle.std.specs.Prelude.{◌≡◌, ◌<◌, ◌≤◌, ◌↔◌, [], true, ℕ, Some, List, IfOk, length, slice_get};
ghost use Rattle.forec_base.specs.declared.limits.TheConstants.{MAX_BUDGET};
ghost use Rattle.forec_kernel.specs.Engine.{Job, Reply, Written};
ghost use Rattle.forec_kernel.specs.Packed.{IsJob, IsReply};
ghost use Rattle.forec_kernel.specs.Shapes.{PlainShape, plain_shape};
ghost use Rattle.combine_tree.specs.Plain.{plain_packet};
ghost use Rattle.combine_tree.specs.declared.packet.PacketKind.TheVariants as kind;
ghost use Rattle.thread_code.specs.Plain.{plain_code};
ghost use Rattle.core_machine.specs.Forks.{branch_at, jobs_at};
ghost use Rattle.exchange_meaning.specs.Logged.{Logged, ExchangeLog};
ghost use Rattle.log_text.specs.declared.log.Log.{Log as ReadLog};
ghost use Rattle.log_text.specs.ReadLogs.{HasPairs, HasThread};
ghost use Rattle.exchange_replay.specs.Walks.{IsAtOwnFork};
ghost use Rattle.exchange_replay.specs.Tracks.{IsBeforePairs, IsBeforeReply, ReadsNext, PassesJob, PassesReply};

use crate::same::{is_same_job, is_same_reply};
use combine_tree::Packet;
use core_machine::Thread;
use forec_base::OutOfMemory;
use forec_kernel::Shape;
use log_text::{Cursor, Log};
use std::alloc::Global;
use thread_code::Code;

/// The part of a log that one thread has: where its reader stands, and memory for a job and a reply.
#[derive(Drop)]
pub struct Track {
    pub(crate) cursor: Cursor,
    /// What the log has: a job, and then its reply.
    pub(crate) logged: Packet,
    /// The job that the thread's parent wrote for it; of the thread that is replayed, its own reply.
    pub(crate) written: Packet,
}

impl Track {
    /// The part of thread number `thread`, from its first pair on.
    ///
    /// # Errors
    ///
    /// Out of memory.
    pub fn new(alloc: Global, shape: &Shape, log: &Log, thread: u32) -> Result<Track, OutOfMemory>
        requires thread { HasThread log.now thread }
        requires shape { thread < length (plain_shape shape.now).threads }
        ensures before { IfOk result (λ x. (pairs : ExchangeLog) → HasPairs (plain_shape shape.now) log.now pairs
            → IsBeforePairs (plain_shape shape.now) thread log.now x (pairs thread)) }
        ensures blank { IfOk result (λ x. x.written.kind ≡ kind.Blank) }
    {
        let own = &shape.threads[thread as usize];
        let args = own.params as usize;
        let copies = own.uses.len();
        Ok(Track {
            cursor: log.start(thread),
            logged: Packet::new(alloc, args, copies)?,
            written: Packet::new(alloc, args, copies)?,
        })
    }

    /// Reads the next pair's job; false where no pair is left.
    pub fn reads_job(&mut self, log: &Log) -> bool
        ensures next { (s : PlainShape) (t : ℕ) (left : List Logged) → IsBeforePairs s t log.now self.old left
            → ReadsNext s t log.now self.old self.new result left }
        ensures small { result ≡ true → self.new.logged.allowance ≤ MAX_BUDGET }
    {
        log.next_job(&mut self.cursor, &mut self.logged)
    }

    /// Whether the job that was written is that of the next pair. Where it is, the pair's reply is read.
    pub fn passes_job(&mut self, log: &Log) -> bool
        requires { (s : PlainShape) × (t : ℕ) × (left : List Logged) × IsBeforePairs s t log.now self.old left }
        ensures { (s : PlainShape) (t : ℕ) (left : List Logged) (job : Job) → IsBeforePairs s t log.now self.old left
            → IsJob (plain_packet self.old.written) job → PassesJob s t log.now self.new result job left }
    {
        if !self.reads_job(log) || !is_same_job(&self.logged, &self.written) {
            return false;
        }
        log.next_reply(&mut self.cursor, &mut self.logged);
        true
    }

    /// Whether the job that the thread writes for its k-th branch, whose track this is, is that of the next pair. Where it is,
    /// the pair's reply is read.
    pub fn passes_branch(&mut self, thread: &Thread, code: &Code, log: &Log, k: usize) -> bool
        requires fork { IsAtOwnFork (plain_code code.now) thread.now }
        requires branch { k < length thread.now.branches.numbers }
        requires before { (left : List Logged)
            × IsBeforePairs (plain_code code.now).shape (branch_at thread.now k) log.now self.old left }
        ensures { (w : Written) (left : List Logged) → slice_get (jobs_at (plain_code code.now) thread.now) k ≡ Some w
            → IsBeforePairs (plain_code code.now).shape w.branch log.now self.old left
            → PassesJob (plain_code code.now).shape w.branch log.now self.new result w.job left }
    {
        thread.job(code, k, &mut self.written);
        self.passes_job(log)
    }

    /// Whether the reply that was written is that of the pair whose job was read.
    pub fn passes_reply(&mut self, log: &Log) -> bool
        requires { (s : PlainShape) × (t : ℕ) × (r : Reply) × (left : List Logged)
            × IsBeforeReply s t log.now self.old r left }
        ensures { (s : PlainShape) (t : ℕ) (r q : Reply) (left : List Logged)
            → IsBeforeReply s t log.now self.old r left → IsReply (plain_packet self.old.written) q
            → PassesReply s t log.now self.old self.new result r q left }
    {
        log.next_reply(&mut self.cursor, &mut self.logged);
        is_same_reply(&self.logged, &self.written)
    }

    /// Whether no pair is left.
    pub fn is_used(&self) -> bool
        ensures { (s : PlainShape) (t : ℕ) (l : ReadLog) (left : List Logged) → IsBeforePairs s t l self.now left
            → (result ≡ true) ↔ (left ≡ []) }
    {
        self.cursor.left == 0
    }
}
