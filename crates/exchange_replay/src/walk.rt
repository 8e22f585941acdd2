//! One thread at work, with the logged replies of its branches.

ghost use Rattle.std.specs.Prelude.{◌≡◌, ◌<◌, ◌≢◌, ◌↔◌, ◌+◌, true, false, [], None, Some, List, ℕ, Option, IfOk, length, slice_get};
ghost use Rattle.forec_kernel.specs.Engine.{Answered, Job, Reply, Written};
ghost use Rattle.forec_kernel.specs.Shapes.{plain_shape};
ghost use Rattle.thread_code.specs.Plain.{PlainCode, plain_code};
ghost use Rattle.thread_code.specs.Valid.{FineShape, IsValidCode};
ghost use Rattle.core_machine.specs.Threads.{Loaded, CanRun, HasJoined, HasReply, HasSettled, IsResting, StandsFor};
ghost use Rattle.core_machine.specs.Forks.{branch_at, jobs_at};
ghost use Rattle.exchange_meaning.specs.Logged.{ExchangeLog, Logged, HasBranch};
ghost use Rattle.exchange_meaning.specs.Telling.{IsAll};
ghost use Rattle.log_text.specs.declared.log.Log.{Log as ReadLog};
ghost use Rattle.log_text.specs.ReadLogs.{HasPairs, IsLogFor};
ghost use Rattle.exchange_replay.specs.declared.track.Track.{Track as TrackState};
ghost use Rattle.exchange_replay.specs.Tracks.{HavePassed, BranchTrack, SaysUsed};
ghost use Rattle.exchange_replay.specs.Walks.{WalksJob, WalksOn, HasBegunWalk, IsAtOwnFork, SomePassed, PassesBranch, PassesFork};
ghost use Rattle.exchange_replay.specs.Walks.{HaveLoggedReplies, GivesReplies, JoinsLogged};

use crate::track::Track;
use combine_tree::Packet;
use core_machine::{Event, Thread};
use forec_base::OutOfMemory;
use forec_kernel::Shape;
use log_text::Log;
use std::alloc::Global;
use thread_code::Code;

/// A thread, and the parts of the log that its branches have.
#[derive(Drop)]
pub struct Walk {
    pub(crate) thread: Thread,
    /// For each thread of the code, its part of the log where it is a branch of the thread.
    pub(crate) branches: Vec<Option<Track>>,
}

/// The part of thread number `thread`, where it is a branch of thread number `parent`.
fn branch_track(
    alloc: Global,
    shape: &Shape,
    log: &Log,
    parent: u32,
    thread: u32,
) -> Result<Option<Track>, OutOfMemory>
    requires fine { FineShape (plain_shape shape.now) }
    requires log { IsLogFor (plain_shape shape.now) log.now }
    requires thread { thread < length (plain_shape shape.now).threads }
    ensures { IfOk result (λ x. BranchTrack (plain_shape shape.now) log.now parent thread x) }
{
    match shape.threads[thread as usize].parent {
        Some(number) if number == parent => Ok(Some(Track::new(alloc, shape, log, thread)?)),
        _ => Ok(None),
    }
}

/// Whether no pair of a thread is left, where it is a branch.
fn is_used_up(branch: &Option<Track>) -> bool
    ensures none { branch.now ≡ None → result ≡ true }
    ensures some { (x : TrackState) → branch.now ≡ Some x → SaysUsed x result }
{
    match branch {
        Some(track) => track.is_used(),
        None => true,
    }
}

/// The reply that the track of a branch has read.
fn logged_reply(branches: &[Option<Track>], branch: u32) -> &Packet
    requires { (x : TrackState) × slice_get branches.now branch ≡ Some (Some x) }
    ensures { (x : TrackState) → slice_get branches.now branch ≡ Some (Some x) → result.now ≡ x.logged }
{
    let Some(track) = &branches[branch as usize] else {
        unreachable!()
    };
    &track.logged
}

impl Walk {
    /// Thread number `t` of the code, before its first job.
    ///
    /// # Errors
    ///
    /// Out of memory.
    pub fn new(alloc: Global, code: &Code, log: &Log, t: u32) -> Result<Walk, OutOfMemory>
        requires thread { t < length (plain_code code.now).threads }
        requires log { IsLogFor (plain_code code.now).shape log.now }
        ensures loaded { IfOk result (λ w. Loaded (plain_code code.now) w.thread) }
        ensures number { IfOk result (λ w. w.thread.number ≡ t) }
        ensures resting { IfOk result (λ w. IsResting w.thread) }
        ensures stands { IfOk result (λ w. StandsFor (plain_code code.now) w.thread []) }
        ensures passed { IfOk result (λ w. (pairs : ExchangeLog) → HasPairs (plain_code code.now).shape log.now pairs
            → HavePassed (plain_code code.now).shape log.now pairs t w.branches.items []) }
    {
        let shape = code.shape();
        let mut branches = Vec::new(alloc);
        for thread in 0..shape.threads.len() {
            branches.push(branch_track(alloc, shape, log, t, thread as u32)?)?;
        }
        Ok(Walk {
            thread: Thread::load(alloc, code, t)?,
            branches,
        })
    }

    /// Whether the job that the thread writes for its k-th branch is that branch's next one in the log.
    fn passes_branch(&mut self, code: &Code, log: &Log, k: usize, branch: u32) -> bool
        requires fork { IsAtOwnFork (plain_code code.now) self.old.thread }
        requires branch { slice_get self.old.thread.branches.numbers k ≡ Some branch }
        requires passed { SomePassed (plain_code code.now) log.now self.old }
        ensures thread { self.new.thread ≡ self.old.thread }
        ensures others { (b : ℕ) → b ≢ branch
            → slice_get self.new.branches.items b ≡ slice_get self.old.branches.items b }
        ensures passes { (pairs : ExchangeLog) (told : List Answered) (w : Written)
            → slice_get (jobs_at (plain_code code.now) self.old.thread) k ≡ Some w
            → HavePassed (plain_code code.now).shape log.now pairs self.old.thread.number self.old.branches.items told
            → PassesBranch (plain_code code.now) log.now pairs self.new result w told }
    {
        let Some(track) = &mut self.branches[branch as usize] else {
            unreachable!()
        };
        track.passes_branch(&self.thread, code, log, k)
    }

    /// Whether each branch of the thread's fork is written its next job in the log. Where it is, its reply is read.
    fn passes_fork(&mut self, code: &Code, log: &Log) -> bool
        requires fork { IsAtOwnFork (plain_code code.now) self.old.thread }
        requires passed { SomePassed (plain_code code.now) log.now self.old }
        ensures thread { self.new.thread ≡ self.old.thread }
        ensures passes { (pairs : ExchangeLog) (told : List Answered)
            → HavePassed (plain_code code.now).shape log.now pairs self.old.thread.number self.old.branches.items told
            → PassesFork (plain_code code.now) log.now pairs self.new result told }
    {
        let mut k = 0;
        while let Some(branch) = self.thread.active(code, k) {
            if !self.passes_branch(code, log, k, branch) {
                return false;
            }
            k += 1;
        }
        true
    }

    /// Settles the replies that were read.
    fn settle(&mut self, code: &Code)
        requires loaded { Loaded (plain_code code.now) self.old.thread }
        requires order { HasSettled self.old.thread 0 }
        requires replies { (rs : List Reply)
            × HaveLoggedReplies (plain_code code.now) self.old self.old.thread.branches.numbers rs }
        ensures loaded { Loaded (plain_code code.now) self.new.thread }
        ensures number { self.new.thread.number ≡ self.old.thread.number }
        ensures branches { self.new.thread.branches.numbers ≡ self.old.thread.branches.numbers }
        ensures tracks { self.new.branches ≡ self.old.branches }
        ensures order { HasJoined self.new.thread 0 }
        ensures stands { GivesReplies (plain_code code.now) self.old self.new }
    {
        let mut k = 0;
        while let Some(branch) = self.thread.active(code, k) {
            let packet = logged_reply(&self.branches, branch);
            self.thread.settle(code, k, packet);
            k += 1;
        }
    }

    /// Joins the branches, whose replies are settled.
    fn join(&mut self, code: &Code)
        requires loaded { Loaded (plain_code code.now) self.old.thread }
        requires some { 0 < length self.old.thread.branches.numbers }
        requires order { HasJoined self.old.thread 0 }
        requires replies { (rs : List Reply)
            × HaveLoggedReplies (plain_code code.now) self.old self.old.thread.branches.numbers rs }
        ensures loaded { Loaded (plain_code code.now) self.new.thread }
        ensures number { self.new.thread.number ≡ self.old.thread.number }
        ensures tracks { self.new.branches ≡ self.old.branches }
        ensures running { CanRun self.new.thread }
        ensures stands { JoinsLogged (plain_code code.now) self.old self.new }
    {
        let mut k = 0;
        while let Some(branch) = self.thread.active(code, k) {
            let packet = logged_reply(&self.branches, branch);
            self.thread.joined(code, k, packet);
            k += 1;
        }
    }

    /// Runs a job that was begun until the thread has its reply; false where it writes a job for a branch that isn't the
    /// branch's next one in the log.
    pub fn finish(&mut self, code: &Code, log: &Log) -> bool
        requires valid { IsValidCode (plain_code code.now) }
        requires loaded { Loaded (plain_code code.now) self.old.thread }
        requires running { CanRun self.old.thread }
        requires begun { HasBegunWalk (plain_code code.now) log.now self.old }
        ensures loaded { Loaded (plain_code code.now) self.new.thread }
        ensures number { self.new.thread.number ≡ self.old.thread.number }
        ensures reply { result ≡ true → HasReply self.new.thread }
        ensures walks { (pairs : ExchangeLog) (jobs : List Job) (job : Job)
            → WalksJob (plain_code code.now) log.now pairs self.old jobs job
            → WalksOn (plain_code code.now) log.now pairs self.old self.new jobs job result }
    {
        // For the proof alone, which counts the forks down.
        let mut forks: u128 = 0;
        while let Event::Fork = self.thread.run(code) {
            if !self.passes_fork(code, log) {
                return false;
            }
            self.settle(code);
            self.join(code);
            forks += 1;
        }
        true
    }

    /// Whether no pair of a branch is left.
    pub fn is_used(&self) -> bool
        ensures { (c : PlainCode) (l : ReadLog) (pairs : ExchangeLog) (t : ℕ) (told : List Answered)
            → HavePassed c.shape l pairs t self.now.branches.items told → (result ≡ true) ↔ IsAll c.shape pairs t told }
    {
        for branch in &self.branches {
            if !is_used_up(branch) {
                return false;
            }
        }
        true
    }
}
