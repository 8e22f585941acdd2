//! Mailboxes are served.
ghost use Rattle.std.specs.Prelude.{◌≡◌, ◌≢◌, ◌≤◌, ◌<◌, [], ℕ, suc, List, Some, None, IfSome, length, slice_get, slice_set, true, false};
ghost use Rattle.forec_kernel.specs.Engine.{Answered};
ghost use Rattle.thread_code.specs.Plain.{plain_code};
ghost use Rattle.combine_tree.specs.declared.packet.Packet.{Packet as PlainPacketState};
ghost use Rattle.combine_tree.specs.Plain.{plain_packet};
ghost use Rattle.copy_slots.specs.Ports.{taken, answered, turn, after_take, after_answer, after_stop, after_check, in_plain, ChildIs};
ghost use Rattle.core_seats.specs.Asking.{Asks, Replies};
ghost use Rattle.core_seats.specs.Changes.{HasWorked, Awaits, GainsOne};
ghost use Rattle.core_seats.specs.Descending.{IsRunning, IsHeld, HasFinished};
ghost use Rattle.core_seats.specs.Keeping.{code_in, IsSeated, LacksPacket, AtFork, Quiet};
ghost use Rattle.core_seats.specs.Moving.{ChangesPacket, HasGot, HasLooked};
ghost use Rattle.core_seats.specs.Waiting.{HasTold, TellsAll, IsGathering, HasReplies, IsAtRest, WaitsAt, RestsOrWaits};
ghost use Rattle.core_seats.specs.Rounds.{AllIdle, WorkedAt};
ghost use Rattle.core_seats.specs.Serving.{ChangesBranches, Touches, OnlyLooks, HasMissed, AllMissed, KeepsServing};

use crate::active::Active;
use crate::scheduler::Scheduler;
use crate::seat::Seat;
use crate::work::ForecWork;
use combine_tree::Packet;
use copy_slots::Port;
use core_machine::{Event, Thread};
use forec_base::{Gate, Point};
use tick_jobs::Boxed;

impl<'c, P: Port<ForecWork> + Drop> Scheduler<'c, P> {
    /// Takes what a seat holds, which is then empty.
    #[inline(always)]
    fn take_thread(&mut self, number: u32) -> Seat
        requires { number < length self.old.seats }
        ensures seat { slice_get self.old.seats number ≡ Some result }
        ensures rest { self.new ≡ record self.old {
          seats = slice_set self.old.seats number
              (record { thread = None; job = None });
        } }
    {
        let seat = &mut self.seats[number as usize];
        Seat {
            thread: seat.thread.take(),
            job: seat.job.take(),
        }
    }

    /// Puts a thread back into its seat.
    #[inline(always)]
    fn put_thread(&mut self, number: u32, seat: Seat)
        requires { number < length self.old.seats }
        ensures { self.new ≡ record self.old { seats = slice_set self.old.seats number seat } }
    {
        self.seats[number as usize] = seat;
    }

    /// Puts a thread that has no job in its hand back into its seat. It writes the two parts of the seat in place.
    #[inline(always)]
    fn seat_thread(&mut self, number: u32, thread: Boxed<Thread>)
        requires { number < length self.old.seats }
        ensures { self.new ≡ record self.old {
          seats = slice_set self.old.seats number
              (record { thread = Some thread; job = None });
        } }
    {
        let seat = &mut self.seats[number as usize];
        seat.thread = Some(thread);
        seat.job = None;
    }

    /// Looks for a job.
    fn take(&mut self, mailbox: u32) -> Option<Boxed<Packet>>
        requires { ChildIs self.old.mail mailbox false }
        ensures state { self.new ≡ record self.old {
          mail = after_take mailbox
              (in_plain plain_packet result) self.old.mail;
        } }
        ensures job { IfSome result (λ r. Asks (plain_code self.old.mail.work.code.value) mailbox
            (taken self.new.mail mailbox)) }
        ensures turn { self.old.mail.tells ≡ true → IfSome result (λ r. turn self.old.mail mailbox ≢ 0) }
    {
        self.port.take(mailbox)
    }

    /// Sends the reply of a thread.
    fn answer(&mut self, mailbox: u32, packet: Boxed<Packet>)
        requires held { ChildIs self.old.mail mailbox true }
        requires replies { Replies (plain_code self.old.mail.work.code.value) mailbox (taken self.old.mail mailbox)
            (plain_packet packet) }
        ensures { self.new ≡ record self.old { mail = after_answer mailbox (plain_packet packet) self.old.mail } }
    {
        self.port.answer(mailbox, packet);
    }

    /// Stores the stop word.
    pub fn stop(&mut self)
        requires { self.old.mail.root ≡ true }
        ensures { self.new ≡ record self.old { mail = after_stop self.old.mail } }
    {
        self.port.stop();
    }

    /// Loads the stop word: whether it was stored.
    pub fn stopped(&mut self) -> bool
        ensures { self.new ≡ record self.old { mail = after_check result self.old.mail } }
    {
        self.port.stopped()
    }

    /// Sends the branches of the thread's fork their jobs.
    pub(crate) fn send_jobs(&mut self, thread: &Thread)
        requires seated { IsSeated self.old }
        requires fork { AtFork self.old thread.now }
        requires told { (pairs : List Answered) × HasTold self.old thread.now.number pairs [] }
        ensures moves { ChangesBranches thread.now.number self.old self.new }
        ensures told { TellsAll self.old self.new thread.now }
    {
        let mut k = 0;
        while let Some(branch) = thread.active(self.code, k) {
            self.send(thread, k, branch - 1);
            k += 1;
        }
    }

    /// Whether the reply of a branch is in hand, now or before.
    fn has_reply(&mut self, mailbox: u32) -> bool
        requires inside { mailbox < length self.old.mail.ends }
        requires seated { IsSeated self.old }
        requires lacks { slice_get self.old.hands mailbox ≡ Some None → LacksPacket self.old mailbox }
        ensures moves { ChangesPacket mailbox self.old self.new }
        ensures before { (p : PlainPacketState) → slice_get self.old.hands mailbox ≡ Some (Some p) → (result
            ≡ true) × (self.new ≡ self.old) }
        ensures there { result ≡ true → slice_get self.old.hands mailbox ≡ Some None
            → HasGot self.old self.new mailbox }
        ensures awaited { result ≡ false → HasLooked self.old self.new mailbox }
    {
        if self.hands[mailbox as usize].is_some() {
            return true;
        }
        self.collect(mailbox)
    }

    /// Looks for the replies of the branches of the thread's fork, in their order. Whether all are in hand.
    pub(crate) fn gather_replies(&mut self, thread: &Thread) -> bool
        requires seated { IsSeated self.old }
        requires gathering { (pairs : List Answered) × IsGathering self.old thread.now pairs }
        ensures moves { ChangesBranches thread.now.number self.old self.new }
        ensures gathering { result ≡ false → (pairs : List Answered) → IsGathering self.old thread.now pairs
            → IsGathering self.new thread.now pairs }
        ensures all { result ≡ true → (pairs : List Answered) → IsGathering self.old thread.now pairs
            → HasReplies self.new thread.now pairs }
        ensures missing { result ≡ false → (k : ℕ) → thread.now.number ≡ suc k
            → Awaits (code_in self.old).shape self.old.mail self.new.mail k }
    {
        let mut k = 0;
        while let Some(branch) = thread.active(self.code, k) {
            if !self.has_reply(branch - 1) {
                return false;
            }
            k += 1;
        }
        true
    }

    /// Puts a thread that waits at a fork into its seat, with the packet of its job.
    pub(crate) fn hold(&mut self, active: Active)
        requires seated { IsSeated self.old }
        requires held { IsHeld self.old active }
        ensures touches { Touches active.mailbox self.old self.new }
        ensures between { RestsOrWaits self.new active.mailbox }
        ensures mail { self.new.mail ≡ self.old.mail }
    {
        let Active {
            mailbox,
            thread,
            packet,
        } = active;
        self.put_thread(
            mailbox + 1,
            Seat {
                thread: Some(thread),
                job: Some(packet),
            },
        );
    }

    /// Sends the reply of a thread that has it, and puts the thread into its seat.
    pub(crate) fn finish_job<G: Gate>(&mut self, gate: &G, active: Active)
        requires seated { IsSeated self.old }
        requires finished { HasFinished self.old active }
        ensures touches { Touches active.mailbox self.old self.new }
        ensures between { RestsOrWaits self.new active.mailbox }
        ensures replied { GainsOne (answered self.old.mail active.mailbox) (answered self.new.mail active.mailbox) }
    {
        let Active {
            mailbox,
            thread,
            mut packet,
        } = active;
        let number = mailbox + 1;
        thread.reply(self.code, &mut packet);
        self.seat_thread(number, thread);
        self.answer(mailbox, packet);
        gate.pass(self.places[number as usize], number, Point::Answered);
    }

    /// Takes the job of a thread that rests, which begins it.
    fn take_job<G: Gate>(&mut self, gate: &G, mailbox: u32) -> Option<Active>
        requires inside { mailbox < length self.old.mail.ends }
        requires seated { IsSeated self.old }
        requires rests { IsAtRest self.old mailbox }
        ensures touches { Touches mailbox self.old self.new }
        ensures running { IfSome result (λ r. (r.mailbox ≡ mailbox) × IsRunning self.new r) }
        ensures answered { answered self.new.mail mailbox ≡ answered self.old.mail mailbox }
        ensures between { result ≡ None → RestsOrWaits self.new mailbox }
        ensures nothing { result ≡ None → HasMissed mailbox self.old self.new }
        ensures looks { result ≡ None → OnlyLooks mailbox self.old self.new }
        ensures turn { self.old.mail.tells ≡ true → IfSome result (λ r. turn self.old.mail mailbox ≢ 0) }
    {
        let number = mailbox + 1;
        let packet = self.take(mailbox)?;
        gate.pass(self.places[number as usize], number, Point::Begun);
        let Seat { thread, .. } = self.take_thread(number);
        let Some(mut thread) = thread else {
            unreachable!()
        };
        let begun: &mut Thread = &mut thread;
        begun.begin(self.code, &packet);
        Some(Active {
            mailbox,
            thread,
            packet,
        })
    }

    /// Takes a thread that waits at a fork out of its seat, where its branches have all replied, and joins them.
    fn take_replies(&mut self, mailbox: u32) -> Option<Active>
        requires inside { mailbox < length self.old.mail.ends }
        requires seated { IsSeated self.old }
        requires waits { WaitsAt self.old mailbox }
        ensures touches { Touches mailbox self.old self.new }
        ensures running { IfSome result (λ r. (r.mailbox ≡ mailbox) × IsRunning self.new r) }
        ensures answered { answered self.new.mail mailbox ≡ answered self.old.mail mailbox }
        ensures between { result ≡ None → RestsOrWaits self.new mailbox }
        ensures nothing { result ≡ None → HasMissed mailbox self.old self.new }
    {
        let number = mailbox + 1;
        let Seat { thread, job } = self.take_thread(number);
        let Some(mut thread) = thread else {
            unreachable!()
        };
        let Some(packet) = job else { unreachable!() };
        let waiting: &mut Thread = &mut thread;
        if !self.gather_replies(waiting) {
            self.hold(Active {
                mailbox,
                thread,
                packet,
            });
            return None;
        }
        self.settle(waiting);
        self.join(waiting);
        Some(Active {
            mailbox,
            thread,
            packet,
        })
    }

    /// Takes the job of a thread that rests, or the replies for one that waits at a fork. The thread can then run.
    pub(crate) fn take_up<G: Gate>(&mut self, gate: &G, mailbox: u32) -> Option<Active>
        requires inside { mailbox < length self.old.mail.ends }
        requires seated { IsSeated self.old }
        requires between { RestsOrWaits self.old mailbox }
        ensures touches { Touches mailbox self.old self.new }
        ensures running { IfSome result (λ r. (r.mailbox ≡ mailbox) × IsRunning self.new r) }
        ensures answered { answered self.new.mail mailbox ≡ answered self.old.mail mailbox }
        ensures between { result ≡ None → RestsOrWaits self.new mailbox }
        ensures nothing { result ≡ None → HasMissed mailbox self.old self.new }
        ensures quiet { self.old.mail.tells ≡ true → Quiet self.old mailbox → OnlyLooks mailbox self.old self.new }
        ensures missed { self.old.mail.tells ≡ true → Quiet self.old mailbox → result ≡ None }
    {
        if self.seats[mailbox as usize + 1].job.is_some() {
            self.take_replies(mailbox)
        } else {
            self.take_job(gate, mailbox)
        }
    }

    /// Runs a thread to its next event. Where that is a fork, its branches are told their jobs, and else
    /// the thread has answered its own.
    fn advance<G: Gate>(&mut self, gate: &G, mut active: Active)
        requires seated { IsSeated self.old }
        requires running { IsRunning self.old active }
        ensures touches { Touches active.mailbox self.old self.new }
        ensures between { RestsOrWaits self.new active.mailbox }
        ensures worked { HasWorked (code_in self.old).shape self.old.mail self.new.mail active.mailbox }
    {
        let thread: &mut Thread = &mut active.thread;
        if let Event::Fork = thread.run(self.code) {
            self.send_jobs(thread);
            self.hold(active);
        } else {
            self.finish_job(gate, active);
        }
    }

    /// Takes one job of this mailbox, or goes on with its thread where that waits at a fork and its branches
    /// have all replied, and runs the thread to its next event. Returns whether it did.
    pub(crate) fn serve<G: Gate>(&mut self, gate: &G, mailbox: u32) -> bool
        requires inside { mailbox < length self.old.mail.ends }
        requires seated { IsSeated self.old }
        requires between { RestsOrWaits self.old mailbox }
        ensures touches { Touches mailbox self.old self.new }
        ensures between { RestsOrWaits self.new mailbox }
        ensures worked { result ≡ true → HasWorked (code_in self.old).shape self.old.mail self.new.mail mailbox }
        ensures nothing { result ≡ false → HasMissed mailbox self.old self.new }
        ensures quiet { self.old.mail.tells ≡ true → Quiet self.old mailbox → OnlyLooks mailbox self.old self.new }
    {
        match self.take_up(gate, mailbox) {
            Some(active) => {
                self.advance(gate, active);
                true
            }
            None => false,
        }
    }

    /// Serves the first of these mailboxes where there is something to do, and answers its place.
    fn serve_first<G: Gate>(&mut self, gate: &G, mailboxes: &[u32]) -> Option<usize>
        requires seated { IsSeated self.old }
        requires each { (i k : ℕ) → slice_get mailboxes.now i ≡ Some k → (k < length self.old.mail.ends)
            × RestsOrWaits self.old k }
        ensures keeps { KeepsServing self.old self.new }
        ensures place { IfSome result (λ i. i < length mailboxes.now) }
        ensures worked { IfSome result (λ i. WorkedAt mailboxes.now i self.old self.new) }
        ensures missed { result ≡ None → AllMissed self.old self.new }
        ensures idle { result ≡ None → AllIdle mailboxes.now self.old self.new }
    {
        for i in 0..mailboxes.len() {
            if self.serve(gate, mailboxes[i]) {
                return Some(i);
            }
        }
        None
    }

    /// Serves the first of these mailboxes where there is something to do, from one of them on and round, and
    /// answers its place.
    pub fn serve_round<G: Gate>(
        &mut self,
        gate: &G,
        mailboxes: &[u32],
        first: usize,
    ) -> Option<usize>
        requires seated { IsSeated self.old }
        requires first { first ≤ length mailboxes.now }
        requires each { (i k : ℕ) → slice_get mailboxes.now i ≡ Some k → (k < length self.old.mail.ends)
            × RestsOrWaits self.old k }
        ensures keeps { KeepsServing self.old self.new }
        ensures place { IfSome result (λ i. i < length mailboxes.now) }
        ensures worked { IfSome result (λ i. WorkedAt mailboxes.now i self.old self.new) }
        ensures idle { result ≡ None → AllIdle mailboxes.now self.old self.new }
    {
        let (before, after) = mailboxes.split_at(first);
        if let Some(i) = self.serve_first(gate, after) {
            return Some(first + i);
        }
        self.serve_first(gate, before)
    }
}
