//! A thread is served with those below it.
ghost use Rattle.std.specs.Prelude.{◌≡◌, ◌<◌, [], ℕ, suc, List, length, true, false};
ghost use Rattle.forec_kernel.specs.Engine.{Answered};
ghost use Rattle.core_machine.specs.Threads.{CanRun, HasReply};
ghost use Rattle.core_seats.specs.Calling.{HasCalled, HasServedFork};
ghost use Rattle.core_seats.specs.Changes.{HasProgressed};
ghost use Rattle.core_seats.specs.Descending.{Descends, IsRunning, KeepsRound};
ghost use Rattle.core_seats.specs.Keeping.{code_in, IsSeated, HasPacket, AtFork, CanSend, Quiet};
ghost use Rattle.tick_jobs.specs.Branches.{IsBranchOf};
ghost use Rattle.core_seats.specs.Serving.{Touches, OnlyLooks, HasMissed};
ghost use Rattle.core_seats.specs.Waiting.{HasTold, IsForked, IsWorking, IsWaiting, RestsOrWaits, CanDescend};

use crate::active::Active;
use crate::round::Round;
use crate::scheduler::Scheduler;
use crate::work::ForecWork;
use copy_slots::Port;
use core_machine::{Event, Thread};
use forec_base::Gate;
use std::sync::Wait;

impl<'c, P: Port<ForecWork> + Drop> Scheduler<'c, P> {
    /// Serves the branches of the thread's fork that are here, one after the other.
    #[cycle(serve_down)]
    pub(crate) fn serve_branches<R: Wait, G: Gate>(
        &mut self,
        rt: &R,
        gate: &G,
        thread: &Thread,
        round: &mut Round<'c>,
    )
        requires seated { IsSeated self.old }
        requires forked { IsForked (code_in self.old) thread.now }
        requires above { CanDescend self.old thread.now.number }
        ensures descends { Descends thread.now.number thread.now.number self.old self.new }
        ensures round { KeepsRound round.old round.new }
    {
        let mut k = 0;
        while let Some(branch) = thread.active(self.code, k) {
            self.serve_here(rt, gate, branch - 1, round);
            k += 1;
        }
    }

    /// Serves a mailbox whose thread is here.
    #[cycle(serve_down)]
    fn serve_here<R: Wait, G: Gate>(
        &mut self,
        rt: &R,
        gate: &G,
        mailbox: u32,
        round: &mut Round<'c>,
    )
        requires inside { mailbox < length self.old.mail.ends }
        requires seated { IsSeated self.old }
        requires above { CanDescend self.old mailbox }
        ensures descends { Descends mailbox mailbox self.old self.new }
        ensures round { KeepsRound round.old round.new }
    {
        if self.seats[mailbox as usize + 1].thread.is_some() {
            let _ = self.serve_down(rt, gate, mailbox, round);
        }
    }

    /// Tells the k-th branch of the thread's fork its job, and serves it if it is here. Returns whether its reply is in hand.
    #[cycle(serve_down)]
    #[inline(always)]
    fn call<R: Wait, G: Gate>(
        &mut self,
        rt: &R,
        gate: &G,
        thread: &Thread,
        k: usize,
        mailbox: u32,
        round: &mut Round<'c>,
    ) -> bool
        requires seated { IsSeated self.old }
        requires job { CanSend self.old thread.now k mailbox }
        requires has { HasPacket self.old mailbox }
        requires mine { IsBranchOf (code_in self.old).shape thread.now.number mailbox }
        requires above { CanDescend self.old mailbox }
        ensures called { HasCalled self.old self.new thread.now k mailbox result }
        ensures round { KeepsRound round.old round.new }
    {
        self.send(thread, k, mailbox);
        self.serve_here(rt, gate, mailbox, round);
        self.collect(mailbox)
    }

    /// Tells the branches of the thread's fork their jobs. Where they are `here` each is served before the next one is told its job, until one
    /// has to wait. Returns whether all have replied.
    #[cycle(serve_down)]
    fn call_branches<R: Wait, G: Gate>(
        &mut self,
        rt: &R,
        gate: &G,
        thread: &Thread,
        here: bool,
        round: &mut Round<'c>,
    ) -> bool
        requires seated { IsSeated self.old }
        requires fork { AtFork self.old thread.now }
        requires forked { IsForked (code_in self.old) thread.now }
        requires told { (pairs : List Answered) × HasTold self.old thread.now.number pairs [] }
        requires above { CanDescend self.old thread.now.number }
        ensures served { HasServedFork self.old self.new thread.now result }
        ensures round { KeepsRound round.old round.new }
    {
        let mut replied = here;
        let mut k = 0;
        while let Some(branch) = thread.active(self.code, k) {
            if replied {
                replied = self.call(rt, gate, thread, k, branch - 1, round);
            } else {
                self.send(thread, k, branch - 1);
            }
            k += 1;
        }
        replied
    }

    /// Tells the branches of the thread's fork their jobs, and serves those that are here. Returns whether all have replied; the replies
    /// are then in hand.
    #[cycle(serve_down)]
    pub(crate) fn serve_fork<R: Wait, G: Gate>(
        &mut self,
        rt: &R,
        gate: &G,
        thread: &Thread,
        round: &mut Round<'c>,
    ) -> bool
        requires seated { IsSeated self.old }
        requires fork { AtFork self.old thread.now }
        requires forked { IsForked (code_in self.old) thread.now }
        requires told { (pairs : List Answered) × HasTold self.old thread.now.number pairs [] }
        requires above { CanDescend self.old thread.now.number }
        ensures served { HasServedFork self.old self.new thread.now result }
        ensures round { KeepsRound round.old round.new }
    {
        let here = self.are_here(thread, round);
        let replied = self.call_branches(rt, gate, thread, here, round);
        self.hint_fork(rt, thread, round);
        if replied {
            return true;
        }
        self.serve_branches(rt, gate, thread, round);
        self.gather_replies(thread)
    }

    /// Runs a thread until it has its reply, or waits for branches of other cores. Returns whether it has its reply.
    #[cycle(serve_down)]
    fn run_down<R: Wait, G: Gate>(
        &mut self,
        rt: &R,
        gate: &G,
        thread: &mut Thread,
        round: &mut Round<'c>,
    ) -> bool
        requires seated { IsSeated self.old }
        requires working { IsWorking self.old thread.old }
        requires running { CanRun thread.old }
        requires above { CanDescend self.old thread.old.number }
        ensures number { thread.new.number ≡ thread.old.number }
        ensures descends { (m : ℕ) → thread.old.number ≡ suc m → Descends m (suc m) self.old self.new }
        ensures working { result ≡ true → IsWorking self.new thread.new }
        ensures reply { result ≡ true → HasReply thread.new }
        ensures waiting { result ≡ false → IsWaiting self.new thread.new }
        ensures sent { result ≡ false → (m : ℕ) → thread.old.number ≡ suc m
            → HasProgressed (code_in self.old).shape self.old.mail self.new.mail m }
        ensures round { KeepsRound round.old round.new }
    {
        for _ in rt.forever() {
            let Event::Fork = thread.run(self.code) else {
                return true;
            };
            if !self.serve_fork(rt, gate, thread, round) {
                return false;
            }
            self.settle(thread);
            self.join(thread);
        }
        unreachable!()
    }

    /// Runs a thread until it has answered its job, or waits for branches of other cores.
    #[cycle(serve_down)]
    fn advance_down<R: Wait, G: Gate>(
        &mut self,
        rt: &R,
        gate: &G,
        mut active: Active,
        round: &mut Round<'c>,
    )
        requires seated { IsSeated self.old }
        requires running { IsRunning self.old active }
        requires above { CanDescend self.old (suc active.mailbox) }
        ensures descends { Descends active.mailbox (suc active.mailbox) self.old self.new }
        ensures between { RestsOrWaits self.new active.mailbox }
        ensures worked { HasProgressed (code_in self.old).shape self.old.mail self.new.mail active.mailbox }
        ensures round { KeepsRound round.old round.new }
    {
        let thread: &mut Thread = &mut active.thread;
        if self.run_down(rt, gate, thread, round) {
            self.finish_job(gate, active);
        } else {
            self.hold(active);
        }
    }

    /// Takes one job of this mailbox, or goes on with its thread where that waits at a fork and its branches have all replied. The
    /// thread runs until it has answered, or waits for branches of other cores; its branches here run with it. Returns whether it did.
    #[cycle(serve_down)]
    pub(crate) fn serve_down<R: Wait, G: Gate>(
        &mut self,
        rt: &R,
        gate: &G,
        mailbox: u32,
        round: &mut Round<'c>,
    ) -> bool
        requires inside { mailbox < length self.old.mail.ends }
        requires seated { IsSeated self.old }
        requires between { RestsOrWaits self.old mailbox }
        requires above { CanDescend self.old (suc mailbox) }
        ensures descends { Descends mailbox mailbox self.old self.new }
        ensures worked { result ≡ true → HasProgressed (code_in self.old).shape self.old.mail self.new.mail mailbox }
        ensures touches { result ≡ false → Touches mailbox self.old self.new }
        ensures nothing { result ≡ false → HasMissed mailbox self.old self.new }
        ensures quiet { self.old.mail.tells ≡ true → Quiet self.old mailbox → OnlyLooks mailbox self.old self.new }
        ensures round { KeepsRound round.old round.new }
    {
        match self.take_up(gate, mailbox) {
            Some(active) => {
                round.set_out();
                self.advance_down(rt, gate, active, round);
                true
            }
            None => false,
        }
    }
}
