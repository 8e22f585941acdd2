//! Threads at work, one after the other.
ghost use Rattle.std.specs.Prelude.{◌≡◌, ◌≢◌, ◌≤◌, ◌<◌, ◌+◌, ◌-◌, suc, List, Some, None, length, slice_get, true, false};
ghost use Rattle.forec_base.specs.declared.limits.TheConstants.{MAX_BUDGET, MAX_THREADS};
ghost use Rattle.forec_kernel.specs.Engine.{Job, Reply, Written, Answered};
ghost use Rattle.forec_kernel.specs.Packed.{HasRoom, IsJob};
ghost use Rattle.thread_code.specs.Valid.{of_shape};
ghost use Rattle.combine_tree.specs.declared.packet.Packet.{Packet as PacketState};
ghost use Rattle.combine_tree.specs.Plain.{plain_packet};
ghost use Rattle.copy_slots.specs.declared.view.PacketAt.TheVariants.{Held};
ghost use Rattle.copy_slots.specs.Ports.{sent, got, turn, ParentIs};
ghost use Rattle.core_machine.specs.Threads.{Loaded, CanBegin, CanRun, HasReply, HasSettled, HasJoined};
ghost use Rattle.core_machine.specs.Forks.{jobs_at};
ghost use Rattle.core_machine.specs.declared.thread.Thread.{Thread as PlainThread};
ghost use Rattle.core_machine.specs.Replies.{RepliesByKind};
ghost use Rattle.core_seats.specs.Changes.{Grown};
ghost use Rattle.core_seats.specs.ChildrenRun.{PostsMore};
ghost use Rattle.core_seats.specs.Keeping.{SchedulerState, code_in, IsSeated, IsFitted, Sits, QuietAbove, HasPacket, LacksPacket, CanSend, IsCalled, IsBack, KeepsBelow, AtFork, HaveHeard, SettlesReplies, JoinsReplies};
ghost use Rattle.core_seats.specs.Moving.{ChangesPacket, HasSent, HasGot, HasLooked};

use crate::seat::Seat;
use crate::work::ForecWork;
use combine_tree::Packet;
use copy_slots::Port;
use core_machine::{Event, Thread};
use forec_base::{Gate, Point};
use std::marker::Model;
use thread_code::Code;
use tick_jobs::Boxed;

/// The threads of a host in their seats, with the ends of their mailboxes, and what runs them.
#[derive(Drop)]
pub struct Scheduler<'c, P: Port<ForecWork> + Drop> {
    pub code: &'c Code,
    /// The core of each thread.
    pub places: Vec<u32>,
    pub port: P,
    pub seats: Vec<Seat>,
    /// At k, the packet of mailbox k, in its parent's hand.
    pub hands: Vec<Option<Boxed<Packet>>>,
}

impl<'c, P: Port<ForecWork> + Drop> Model for Scheduler<'c, P> {
    ghost use Rattle.core_seats.specs.Keeping.{SchedulerState};

    ghost Value = { SchedulerState };

    ghost view = { λ d. record { code = d.code.now; places = d.places.items; mail = P.state d.port; seats = d.seats.items; hands = d.hands.items } };
}

impl<'c, P: Port<ForecWork> + Drop> Scheduler<'c, P> {
    ghost use Rattle.core_seats.specs.Ending.{HasRepliedTo};
    ghost use Rattle.core_seats.specs.Following.{HasFollowed, StaysInJob};
    ghost use Rattle.core_seats.specs.Resting.{RootRests};

    /// The packet of a mailbox, out of its parent's hand or its slot.
    fn packet(&mut self, mailbox: u32) -> Boxed<Packet>
        requires inside { mailbox < length self.old.mail.ends }
        requires seated { IsSeated self.old }
        requires has { HasPacket self.old mailbox }
        ensures moves { ChangesPacket mailbox self.old self.new }
        ensures held { ParentIs self.new.mail mailbox Held }
        ensures empty { slice_get self.new.hands mailbox ≡ Some None }
        ensures room { HasRoom (of_shape (code_in self.old).shape) (suc mailbox) (plain_packet result) }
        ensures sent { sent self.new.mail mailbox ≡ sent self.old.mail mailbox }
        ensures got { got self.new.mail mailbox ≡ got self.old.mail mailbox }
    {
        match self.hands[mailbox as usize].take() {
            Some(packet) => packet,
            None => self.port.first(mailbox),
        }
    }

    /// Sends its job to the k-th branch of the thread's fork.
    #[inline(always)]
    pub(crate) fn send(&mut self, thread: &Thread, k: usize, mailbox: u32)
        requires seated { IsSeated self.old }
        requires job { CanSend self.old thread.now k mailbox }
        requires has { HasPacket self.old mailbox }
        ensures moves { ChangesPacket mailbox self.old self.new }
        ensures lacks { LacksPacket self.new mailbox }
        ensures sent { (w : Written) → slice_get (jobs_at (code_in self.old) thread.now) k ≡ Some w
            → HasSent self.old self.new mailbox w.job }
    {
        let mut packet = self.packet(mailbox);
        thread.job(self.code, k, &mut packet);
        self.port.offer(mailbox, packet);
    }

    /// Looks for the reply of a branch that was told a job. Returns whether it is there.
    #[inline(always)]
    pub(crate) fn collect(&mut self, mailbox: u32) -> bool
        requires inside { mailbox < length self.old.mail.ends }
        requires seated { IsSeated self.old }
        requires lacks { LacksPacket self.old mailbox }
        ensures moves { ChangesPacket mailbox self.old self.new }
        ensures there { result ≡ true → HasGot self.old self.new mailbox }
        ensures awaited { result ≡ false → HasLooked self.old self.new mailbox }
        ensures turn { self.old.mail.tells ≡ true → result ≡ false → turn self.old.mail mailbox ≢ 0 }
    {
        match self.port.collect(mailbox) {
            Some(packet) => {
                self.hands[mailbox as usize] = Some(packet);
                true
            }
            None => false,
        }
    }

    /// Takes the job of a branch that was called, does it, and answers.
    #[cycle(finish)]
    fn run_child<G: Gate>(&mut self, gate: &G, mailbox: u32)
        requires inside { mailbox < length self.old.mail.ends }
        requires fitted { IsFitted self.old }
        requires called { IsCalled self.old mailbox }
        requires above { QuietAbove self.old (suc mailbox) }
        ensures back { IsBack self.new mailbox }
        ensures above { QuietAbove self.new (suc mailbox) }
        ensures leaves { KeepsBelow (suc mailbox) mailbox self.old self.new }
    {
        let number = mailbox + 1;
        let core = self.places[number as usize];
        let Some(mut packet) = self.port.take(mailbox) else {
            unreachable!()
        };
        gate.pass(core, number, Point::Begun);
        let Some(mut seated) = self.seats[number as usize].thread.take() else {
            unreachable!()
        };
        let thread: &mut Thread = &mut seated;
        thread.begin(self.code, &packet);
        self.finish(gate, thread);
        thread.reply(self.code, &mut packet);
        self.seats[number as usize] = Seat {
            thread: Some(seated),
            job: None,
        };
        self.port.answer(mailbox, packet);
        gate.pass(core, number, Point::Answered);
    }

    /// Has the branches of the thread's fork do their jobs, one after the other.
    #[cycle(finish)]
    fn run_children<G: Gate>(&mut self, gate: &G, thread: &Thread)
        requires fitted { IsFitted self.old }
        requires fork { AtFork self.old thread.now }
        requires above { QuietAbove self.old thread.now.number }
        ensures above { QuietAbove self.new thread.now.number }
        ensures leaves { KeepsBelow thread.now.number thread.now.number self.old self.new }
        ensures heard { (rs : List Reply) × HaveHeard self.new thread.now.branches.numbers rs
            × PostsMore self.old self.new thread.now rs }
    {
        let mut k = 0;
        while let Some(branch) = thread.active(self.code, k) {
            let mailbox = branch - 1;
            self.send(thread, k, mailbox);
            self.run_child(gate, mailbox);
            if !self.collect(mailbox) {
                unreachable!()
            }
            k += 1;
        }
    }

    /// The reply of a branch, in its parent's hand.
    #[inline(always)]
    fn reply_of(&self, branch: u32) -> &Packet
        requires some { 0 < branch }
        requires there { (p : PacketState) × slice_get self.now.hands (branch - 1) ≡ Some (Some p) }
        ensures { (p : PacketState) → slice_get self.now.hands (branch - 1) ≡ Some (Some p) → result.now ≡ p }
    {
        let Some(packet) = &self.hands[branch as usize - 1] else {
            unreachable!()
        };
        packet
    }

    /// Settles the replies of the thread's branches.
    #[inline(always)]
    pub(crate) fn settle(&self, thread: &mut Thread)
        requires loaded { Loaded (code_in self.now) thread.old }
        requires fork { HasSettled thread.old 0 }
        requires few { length thread.old.branches.numbers ≤ MAX_THREADS }
        requires heard { (rs : List Reply) × HaveHeard self.now thread.old.branches.numbers rs }
        ensures loaded { Loaded (code_in self.now) thread.new }
        ensures number { thread.new.number ≡ thread.old.number }
        ensures branches { thread.new.branches.numbers ≡ thread.old.branches.numbers }
        ensures order { HasJoined thread.new 0 }
        ensures stands { SettlesReplies self.now thread.old thread.new }
    {
        let mut k = 0;
        while let Some(branch) = thread.active(self.code, k) {
            let packet = self.reply_of(branch);
            thread.settle(self.code, k, packet);
            k += 1;
        }
    }

    /// Joins the thread's branches.
    pub(crate) fn join(&self, thread: &mut Thread)
        requires loaded { Loaded (code_in self.now) thread.old }
        requires some { 0 < length thread.old.branches.numbers }
        requires few { length thread.old.branches.numbers ≤ MAX_THREADS }
        requires order { HasJoined thread.old 0 }
        requires heard { (rs : List Reply) × HaveHeard self.now thread.old.branches.numbers rs }
        ensures loaded { Loaded (code_in self.now) thread.new }
        ensures number { thread.new.number ≡ thread.old.number }
        ensures running { CanRun thread.new }
        ensures stands { JoinsReplies self.now thread.old thread.new }
    {
        let mut k = 0;
        while let Some(branch) = thread.active(self.code, k) {
            let packet = self.reply_of(branch);
            thread.joined(self.code, k, packet);
            k += 1;
        }
    }

    /// Runs a thread that has begun a job until it has its reply.
    #[cycle(finish)]
    pub fn finish<G: Gate>(&mut self, gate: &G, thread: &mut Thread)
        requires fitted { IsFitted self.old }
        requires loaded { Loaded (code_in self.old) thread.old }
        requires running { CanRun thread.old }
        requires begun { HasFollowed self.old thread.old }
        requires above { QuietAbove self.old thread.old.number }
        ensures loaded { Loaded (code_in self.old) thread.new }
        ensures number { thread.new.number ≡ thread.old.number }
        ensures reply { HasReply thread.new }
        ensures above { QuietAbove self.new thread.old.number }
        ensures leaves { KeepsBelow thread.old.number thread.old.number self.old self.new }
        ensures done { StaysInJob self.old thread.old self.new thread.new }
    {
        // For the proof alone, which counts the forks down.
        let mut forks: u128 = 0;
        while let Event::Fork = thread.run(self.code) {
            self.run_children(gate, thread);
            self.settle(thread);
            self.join(thread);
            forks += 1;
        }
    }

    /// Has thread 0, with all threads below it, do the job in this packet. The packet is then its reply.
    pub fn work<G: Gate>(&mut self, gate: &G, packet: &mut Packet)
        requires fitted { IsFitted self.old }
        requires quiet { QuietAbove self.old 0 }
        requires root { RootRests self.old }
        requires job { (t : PlainThread) → Sits self.old 0 t → CanBegin t packet.old.kind }
        requires is { (job : Job) × IsJob (plain_packet packet.old) job }
        requires room { HasRoom (of_shape (code_in self.old).shape) 0 (plain_packet packet.old) }
        requires small { packet.old.allowance ≤ MAX_BUDGET }
        ensures fitted { IsFitted self.new }
        ensures code { self.new.code ≡ self.old.code }
        ensures places { self.new.places ≡ self.old.places }
        ensures keeper { self.new.mail.root ≡ self.old.mail.root }
        ensures quiet { QuietAbove self.new 0 }
        ensures root { RootRests self.new }
        ensures grown { Grown self.old.mail self.new.mail }
        ensures room { HasRoom (of_shape (code_in self.old).shape) 0 (plain_packet packet.new) }
        ensures kind { (t : PlainThread) → Sits self.new 0 t → RepliesByKind t packet.new.kind }
        ensures replied { HasRepliedTo self.old self.new (plain_packet packet.old) (plain_packet packet.new) }
    {
        let Some(mut seated) = self.seats[0].thread.take() else {
            unreachable!()
        };
        let thread: &mut Thread = &mut seated;
        thread.begin(self.code, packet);
        self.finish(gate, thread);
        thread.reply(self.code, packet);
        self.seats[0].thread = Some(seated);
    }
}
