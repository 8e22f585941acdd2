//! Mailboxes are served in rounds, and thread 0 works beside others that are served.
ghost use Rattle.std.specs.Prelude.{◌≡◌, ◌≤◌, ◌<◌, [], ℕ, suc, List, Some, length, true, false};
ghost use Rattle.forec_base.specs.declared.limits.TheConstants.{MAX_BUDGET};
ghost use Rattle.forec_kernel.specs.Engine.{Job, Answered};
ghost use Rattle.forec_kernel.specs.Packed.{HasRoom, IsJob};
ghost use Rattle.thread_code.specs.Valid.{of_shape};
ghost use Rattle.combine_tree.specs.Plain.{plain_packet};
ghost use Rattle.core_machine.specs.declared.thread.Thread.{Thread as PlainThread};
ghost use Rattle.core_machine.specs.Threads.{Loaded, CanBegin, CanRun, HasReply};
ghost use Rattle.core_machine.specs.Replies.{RepliesByKind};
ghost use Rattle.core_seats.specs.Changes.{Grown};
ghost use Rattle.core_seats.specs.Ending.{HasRepliedTo};
ghost use Rattle.core_seats.specs.Keeping.{code_in, IsSeated, Sits, HasPacket, AtFork};
ghost use Rattle.core_seats.specs.OnJob.{IsOnJob};
ghost use Rattle.tick_jobs.specs.Branches.{IsBranchOf};
ghost use Rattle.core_seats.specs.Resting.{RootRests};
ghost use Rattle.core_seats.specs.Rounds.{AllIdle, CanServe, IsIdleAt, IsSameRound, SomeWorked};
ghost use Rattle.core_seats.specs.Serving.{AllMissed, KeepsOthers, KeepsServing};
ghost use Rattle.core_seats.specs.Waiting.{HasChild, HasTold, IsForked, RestsOrWaits, IsVacant, IsGathering, HasReplies};

use crate::round::{Round, index_at};
use crate::scheduler::Scheduler;
use crate::work::ForecWork;
use combine_tree::Packet;
use copy_slots::Port;
use core_machine::{Event, Thread};
use forec_base::Gate;
use std::sync::Wait;

/// What is served where nobody else runs it.
pub trait Serve {
    ghost use Rattle.std.specs.Prelude.{◌≡◌};
    ghost use Rattle.core_seats.specs.Kept.{ServedHosts};

    /// What no serving changes, as far as it is known.
    ghost kept: { Self → ServedHosts };

    /// Does something, if there is anything to do, and hints to those to whom it sent. Returns whether there was something to do.
    fn serve<R: Wait>(&mut self, rt: &R) -> bool
        ensures { kept self.new ≡ kept self.old };

    /// Returns whether there is nobody to serve.
    fn is_empty(&self) -> bool;
}

impl<'c, P: Port<ForecWork> + Drop> Scheduler<'c, P> {
    /// Serves the mailbox at this place of the round, with the branches of its thread that are here, and hints to those to whom they sent.
    /// Returns whether there was something to do.
    fn serve_at<R: Wait, G: Gate>(
        &mut self,
        rt: &R,
        gate: &G,
        place: usize,
        round: &mut Round<'c>,
    ) -> bool
        requires seated { IsSeated self.old }
        requires round { CanServe self.old round.old }
        requires place { place < length round.old.own.items }
        ensures keeps { KeepsServing self.old self.new }
        ensures round { IsSameRound round.old round.new }
        ensures worked { result ≡ true → SomeWorked round.old.own.items self.old self.new }
        ensures missed { result ≡ false → AllMissed self.old self.new }
        ensures idle { result ≡ false → IsIdleAt round.old.own.items place self.old self.new }
    {
        let mailbox = round.own[place];
        if !self.serve_down(rt, gate, mailbox, round) {
            return false;
        }
        self.hint(rt, mailbox, round);
        true
    }

    /// Serves a mailbox, if it is one of the round. Returns whether there was something to do.
    fn serve_named<R: Wait, G: Gate>(
        &mut self,
        rt: &R,
        gate: &G,
        mailbox: u32,
        round: &mut Round<'c>,
    ) -> bool
        requires seated { IsSeated self.old }
        requires round { CanServe self.old round.old }
        ensures keeps { KeepsServing self.old self.new }
        ensures round { IsSameRound round.old round.new }
        ensures worked { result ≡ true → SomeWorked round.old.own.items self.old self.new }
        ensures missed { result ≡ false → AllMissed self.old self.new }
    {
        match round.own.binary_search(&mailbox) {
            Ok(place) => self.serve_at(rt, gate, place, round),
            Err(_) => false,
        }
    }

    /// Serves the mailboxes that hints name, until there is no hint. Returns whether there was something to do.
    fn serve_hinted<R: Wait, G: Gate>(&mut self, rt: &R, gate: &G, round: &mut Round<'c>) -> bool
        requires seated { IsSeated self.old }
        requires round { CanServe self.old round.old }
        ensures keeps { KeepsServing self.old self.new }
        ensures round { IsSameRound round.old round.new }
        ensures worked { result ≡ true → SomeWorked round.old.own.items self.old self.new }
        ensures missed { result ≡ false → AllMissed self.old self.new }
    {
        let mut found = false;
        for _ in rt.forever() {
            let Some(mailbox) = round.hint(rt) else {
                return found;
            };
            found |= self.serve_named(rt, gate, mailbox, round);
        }
        unreachable!()
    }

    /// Serves each mailbox of the round once, upwards and downwards in turn: upwards a thread comes before its branches, which it
    /// gives jobs; downwards it comes after them, when they have replied. Returns whether there was something to do.
    fn sweep<R: Wait, G: Gate>(&mut self, rt: &R, gate: &G, round: &mut Round<'c>) -> bool
        requires seated { IsSeated self.old }
        requires round { CanServe self.old round.old }
        ensures keeps { KeepsServing self.old self.new }
        ensures round { IsSameRound round.old round.new }
        ensures worked { result ≡ true → SomeWorked round.old.own.items self.old self.new }
        ensures idle { result ≡ false → AllIdle round.old.own.items self.old self.new }
    {
        let count = round.own.len();
        let up = round.up;
        let mut found = false;
        for k in 0..count {
            found |= self.serve_at(rt, gate, index_at(k, count, up), round);
        }
        round.up = !up;
        found
    }

    /// Serves the mailboxes that hints name, and then each mailbox of the round once. Returns whether there was something to do.
    pub fn serve_sweep<R: Wait, G: Gate>(&mut self, rt: &R, gate: &G, round: &mut Round<'c>) -> bool
        requires seated { IsSeated self.old }
        requires round { CanServe self.old round.old }
        ensures keeps { KeepsServing self.old self.new }
        ensures round { IsSameRound round.old round.new }
        ensures worked { result ≡ true → SomeWorked round.old.own.items self.old self.new }
        ensures idle { result ≡ false → AllIdle round.old.own.items self.old self.new }
    {
        let hinted = self.serve_hinted(rt, gate, round);
        let swept = self.sweep(rt, gate, round);
        hinted || swept
    }

    /// Waits until all branches of the thread's fork have replied, and serves meanwhile. It gathers only after a sweep, since each
    /// time it begins at the first branch. It never sleeps where there are others to serve.
    fn await_replies<R: Wait, O: Serve, G: Gate>(
        &mut self,
        rt: &R,
        gate: &G,
        round: &mut Round<'c>,
        others: &mut O,
        thread: &Thread,
    )
        requires seated { IsSeated self.old }
        requires round { CanServe self.old round.old }
        requires root { thread.now.number ≡ 0 }
        requires gathering { (pairs : List Answered) × IsGathering self.old thread.now pairs }
        ensures keeps { KeepsOthers self.old self.new }
        ensures round { IsSameRound round.old round.new }
        ensures all { (pairs : List Answered) → IsGathering self.old thread.now pairs
            → HasReplies self.new thread.now pairs }
        ensures others { O.kept others.new ≡ O.kept others.old }
    {
        for _ in rt.forever() {
            let mine = self.serve_sweep(rt, gate, round);
            let theirs = others.serve(rt);
            if self.gather_replies(thread) {
                round.rise();
                return;
            }
            round.rest(rt, mine || theirs, others.is_empty());
        }
        unreachable!()
    }

    /// Serves the thread's fork, and waits until all branches have replied.
    fn await_fork<R: Wait, O: Serve, G: Gate>(
        &mut self,
        rt: &R,
        gate: &G,
        round: &mut Round<'c>,
        others: &mut O,
        thread: &Thread,
    )
        requires seated { IsSeated self.old }
        requires round { CanServe self.old round.old }
        requires root { thread.now.number ≡ 0 }
        requires fork { AtFork self.old thread.now }
        requires forked { IsForked (code_in self.old) thread.now }
        requires told { (pairs : List Answered) × HasTold self.old thread.now.number pairs [] }
        ensures keeps { KeepsOthers self.old self.new }
        ensures round { IsSameRound round.old round.new }
        ensures all { (pairs : List Answered) → HasTold self.old thread.now.number pairs []
            → HasReplies self.new thread.now pairs }
        ensures others { O.kept others.new ≡ O.kept others.old }
    {
        if !self.serve_fork(rt, gate, thread, round) {
            self.await_replies(rt, gate, round, others, thread);
        }
    }

    /// Runs thread 0, which has begun a job, until it has its reply.
    fn finish_beside<R: Wait, O: Serve, G: Gate>(
        &mut self,
        rt: &R,
        gate: &G,
        round: &mut Round<'c>,
        others: &mut O,
        thread: &mut Thread,
    )
        requires seated { IsSeated self.old }
        requires round { CanServe self.old round.old }
        requires root { thread.old.number ≡ 0 }
        requires loaded { Loaded (code_in self.old) thread.old }
        requires running { CanRun thread.old }
        requires begun { (jobs : List Job) × (job : Job) × IsOnJob self.old thread.old jobs job }
        ensures keeps { KeepsOthers self.old self.new }
        ensures round { IsSameRound round.old round.new }
        ensures root { thread.new.number ≡ 0 }
        ensures loaded { Loaded (code_in self.old) thread.new }
        ensures reply { HasReply thread.new }
        ensures done { (jobs : List Job) (job : Job) → IsOnJob self.old thread.old jobs job
            → IsOnJob self.new thread.new jobs job }
        ensures others { O.kept others.new ≡ O.kept others.old }
    {
        for _ in rt.forever() {
            let Event::Fork = thread.run(self.code) else {
                return;
            };
            self.await_fork(rt, gate, round, others, thread);
            self.settle(thread);
            self.join(thread);
        }
        unreachable!()
    }

    /// Has thread 0 do the job in this packet, and serves these mailboxes and the others while it waits for its branches.
    /// The packet is then its reply.
    pub fn work_beside<R: Wait, O: Serve, G: Gate>(
        &mut self,
        rt: &R,
        gate: &G,
        round: &mut Round<'c>,
        others: &mut O,
        packet: &mut Packet,
    )
        requires seated { IsSeated self.old }
        requires round { CanServe self.old round.old }
        requires root { RootRests self.old }
        requires packets { (k : ℕ) → k < length self.old.mail.ends → IsBranchOf (code_in self.old).shape 0 k
            → HasPacket self.old k }
        requires job { (t : PlainThread) → Sits self.old 0 t → CanBegin t packet.old.kind }
        requires is { (job : Job) × IsJob (plain_packet packet.old) job }
        requires room { HasRoom (of_shape (code_in self.old).shape) 0 (plain_packet packet.old) }
        requires small { packet.old.allowance ≤ MAX_BUDGET }
        ensures seated { IsSeated self.new }
        ensures code { self.new.code ≡ self.old.code }
        ensures places { self.new.places ≡ self.old.places }
        ensures keeper { self.new.mail.root ≡ self.old.mail.root }
        ensures round { IsSameRound round.old round.new }
        ensures here { (k : ℕ) → HasChild self.old.mail k → HasChild self.new.mail k }
        ensures was_here { (k : ℕ) → HasChild self.new.mail k → HasChild self.old.mail k }
        ensures between { (k : ℕ) → RestsOrWaits self.old k → RestsOrWaits self.new k }
        ensures vacant { (k : ℕ) → IsVacant self.old (suc k) → IsVacant self.new (suc k) }
        ensures root { RootRests self.new }
        ensures packets { (k : ℕ) → k < length self.new.mail.ends → IsBranchOf (code_in self.old).shape 0 k
            → HasPacket self.new k }
        ensures grown { Grown self.old.mail self.new.mail }
        ensures room { HasRoom (of_shape (code_in self.old).shape) 0 (plain_packet packet.new) }
        ensures kind { (t : PlainThread) → Sits self.new 0 t → RepliesByKind t packet.new.kind }
        ensures replied { HasRepliedTo self.old self.new (plain_packet packet.old) (plain_packet packet.new) }
        ensures others { O.kept others.new ≡ O.kept others.old }
    {
        let Some(mut seated) = self.seats[0].thread.take() else {
            unreachable!()
        };
        let thread: &mut Thread = &mut seated;
        thread.begin(self.code, packet);
        self.finish_beside(rt, gate, round, others, thread);
        thread.reply(self.code, packet);
        self.seats[0].thread = Some(seated);
    }
}
