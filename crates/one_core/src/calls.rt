//! The threads of a code at work on one core: a thread that forks calls its branches one after the other.
ghost use Rattle.std.specs.Prelude.{◌≡◌, ◌≤◌, ◌<◌, ◌+◌, List, Some, length, map, slice_get};
ghost use Rattle.forec_base.specs.declared.limits.TheConstants.{MAX_BUDGET, MAX_THREADS};
ghost use Rattle.forec_kernel.specs.Engine.{Job, Reply};
ghost use Rattle.forec_kernel.specs.Packed.{HasRoom, IsJob};
ghost use Rattle.thread_code.specs.Valid.{of_shape};
ghost use Rattle.combine_tree.specs.Plain.{plain_packet};
ghost use Rattle.core_machine.specs.Threads.{Loaded, CanBegin, CanRun, HasReply, HasSettled, HasJoined};
ghost use Rattle.core_machine.specs.Forks.{jobs_at};
ghost use Rattle.core_machine.specs.declared.thread.Thread.{Thread as PlainThread};
ghost use Rattle.core_machine.specs.Replies.{RepliesByKind};
ghost use Rattle.one_core.specs.Seats.{seated_code, HasAllSeats, HoldsThread, KeepsSeatsBelow};
ghost use Rattle.tick_jobs.specs.Told.{Book};
ghost use Rattle.one_core.specs.Resting.{HasBegun, StaysAtWork, AllRestAfter, RootHasRepliedTo};
ghost use Rattle.one_core.specs.Called.{IsLoadedFork, CanTell, CanCall, BranchHasReplied, SettlesReply, HasSettledReplies, BranchesHaveReplies, JoinsBranchReplies};

use combine_tree::Packet;
use core_machine::{Event, Thread};
use forec_base::{Gate, Point};
use std::marker::Model;
use thread_code::Code;
use tick_jobs::Boxed;

/// The threads of a code, all on one core, each in its seat but while it is at work.
#[derive(Drop)]
pub struct Calls<'c> {
    pub code: &'c Code,
    /// The number of the core, which passes the gate.
    pub core: u32,
    pub seats: Vec<Option<Boxed<Thread>>>,
}

impl<'c> Model for Calls<'c> {
    ghost use Rattle.one_core.specs.Seats.{Seated};

    ghost Value = { Seated };

    ghost view = { λ d. record { code = d.code.now; threads = d.seats.items } };
}

impl<'c> Calls<'c> {
    /// Gives the k-th branch of the thread's fork its job, runs it until it has its reply, and settles that.
    #[inline(always)]
    #[cycle(finish)]
    fn call_branch<G: Gate>(&mut self, gate: &G, thread: &mut Thread, k: usize, branch: u32)
        requires fitted { HasAllSeats self.old }
        requires loaded { Loaded (seated_code self.old) thread.old }
        requires fork { HasSettled thread.old k }
        requires branch { slice_get thread.old.branches.numbers k ≡ Some branch }
        requires job { (book : Book) × CanCall self.old thread.old k branch book }
        ensures leaves { KeepsSeatsBelow branch self.old self.new }
        ensures called { BranchHasReplied self.old self.new thread.old k branch }
        ensures loaded { Loaded (seated_code self.old) thread.new }
        ensures number { thread.new.number ≡ thread.old.number }
        ensures branches { thread.new.branches.numbers ≡ thread.old.branches.numbers }
        ensures order { HasSettled thread.new (k + 1) }
        ensures jobs { jobs_at (seated_code self.old) thread.new ≡ jobs_at (seated_code self.old) thread.old }
        ensures stands { SettlesReply self.old self.new branch thread.old k thread.new }
    {
        let Some(mut seated) = self.seats[branch as usize].take() else {
            unreachable!()
        };
        let called: &mut Thread = &mut seated;
        thread.call_branch(self.code, k, called);
        gate.pass(self.core, branch, Point::Begun);
        self.finish(gate, called);
        thread.settle_call(self.code, k, called);
        self.seats[branch as usize] = Some(seated);
        gate.pass(self.core, branch, Point::Answered);
    }

    /// Has the branches of the thread's fork do their jobs, one after the other, and settles each one's reply.
    #[cycle(finish)]
    fn call_branches<G: Gate>(&mut self, gate: &G, thread: &mut Thread)
        requires fitted { HasAllSeats self.old }
        requires fork { IsLoadedFork (seated_code self.old) thread.old }
        requires jobs { (book : Book) × CanTell self.old thread.old book }
        ensures called { HasSettledReplies self.old self.new thread.old thread.new
            (length thread.old.branches.numbers) }
        ensures loaded { Loaded (seated_code self.new) thread.new }
        ensures number { thread.new.number ≡ thread.old.number }
        ensures branches { thread.new.branches.numbers ≡ thread.old.branches.numbers }
        ensures order { HasJoined thread.new 0 }
    {
        let mut k = 0;
        while let Some(branch) = thread.active(self.code, k) {
            self.call_branch(gate, thread, k, branch);
            k += 1;
        }
    }

    /// Joins the thread's branches.
    fn join(&self, thread: &mut Thread)
        requires loaded { Loaded (seated_code self.now) thread.old }
        requires some { 0 < length thread.old.branches.numbers }
        requires few { length thread.old.branches.numbers ≤ MAX_THREADS }
        requires order { HasJoined thread.old 0 }
        requires heard { (rs : List Reply) × BranchesHaveReplies self.now thread.old.branches.numbers rs }
        ensures loaded { Loaded (seated_code self.now) thread.new }
        ensures number { thread.new.number ≡ thread.old.number }
        ensures running { CanRun thread.new }
        ensures stands { JoinsBranchReplies self.now thread.old thread.new }
    {
        let mut k = 0;
        while let Some(branch) = thread.active(self.code, k) {
            let Some(called) = &self.seats[branch as usize] else {
                unreachable!()
            };
            thread.join_call(self.code, k, called);
            k += 1;
        }
    }

    /// Serves the forks of a thread that has come to the first one of its job, until it has its reply.
    // Apart from `finish`, so that a thread that comes to no fork costs no call.
    #[inline(never)]
    #[cycle(finish)]
    fn serve_forks<G: Gate>(&mut self, gate: &G, thread: &mut Thread)
        requires fitted { HasAllSeats self.old }
        requires loaded { Loaded (seated_code self.old) thread.old }
        requires fork { HasSettled thread.old 0 }
        requires branches { thread.old.branches.numbers
            ≡ map (λ w. w.branch) (jobs_at (seated_code self.old) thread.old) }
        requires begun { HasBegun self.old thread.old }
        ensures loaded { Loaded (seated_code self.old) thread.new }
        ensures number { thread.new.number ≡ thread.old.number }
        ensures reply { HasReply thread.new }
        ensures leaves { KeepsSeatsBelow thread.old.number self.old self.new }
        ensures done { StaysAtWork self.old thread.old self.new thread.new }
    {
        // For the proof alone, which counts the forks down.
        let mut forks: u128 = 0;
        loop {
            self.call_branches(gate, thread);
            self.join(thread);
            forks += 1;
            let Event::Fork = thread.run(self.code) else {
                return;
            };
        }
    }

    /// Runs a thread that has begun a job until it has its reply.
    #[inline(always)]
    #[cycle(finish)]
    pub fn finish<G: Gate>(&mut self, gate: &G, thread: &mut Thread)
        requires fitted { HasAllSeats self.old }
        requires loaded { Loaded (seated_code self.old) thread.old }
        requires running { CanRun thread.old }
        requires begun { HasBegun self.old thread.old }
        ensures loaded { Loaded (seated_code self.old) thread.new }
        ensures number { thread.new.number ≡ thread.old.number }
        ensures reply { HasReply thread.new }
        ensures leaves { KeepsSeatsBelow thread.old.number self.old self.new }
        ensures done { StaysAtWork self.old thread.old self.new thread.new }
    {
        if let Event::Fork = thread.run(self.code) {
            self.serve_forks(gate, thread);
        }
    }

    /// Has thread 0, with all threads below it, do the job in this packet. The packet is then its reply.
    pub fn work<G: Gate>(&mut self, gate: &G, packet: &mut Packet)
        requires fitted { HasAllSeats self.old }
        requires worked { (jobs : List Job) × AllRestAfter self.old jobs }
        requires job { (t : PlainThread) → HoldsThread self.old 0 t → CanBegin t packet.old.kind }
        requires is { (job : Job) × IsJob (plain_packet packet.old) job }
        requires room { HasRoom (of_shape (seated_code self.old).shape) 0 (plain_packet packet.old) }
        requires small { packet.old.allowance ≤ MAX_BUDGET }
        ensures fitted { HasAllSeats self.new }
        ensures code { self.new.code ≡ self.old.code }
        ensures room { HasRoom (of_shape (seated_code self.old).shape) 0 (plain_packet packet.new) }
        ensures kind { (t : PlainThread) → HoldsThread self.new 0 t → RepliesByKind t packet.new.kind }
        ensures replied { RootHasRepliedTo self.old self.new (plain_packet packet.old) (plain_packet packet.new) }
    {
        let Some(mut seated) = self.seats[0].take() else {
            unreachable!()
        };
        let thread: &mut Thread = &mut seated;
        thread.begin(self.code, packet);
        self.finish(gate, thread);
        thread.reply(self.code, packet);
        self.seats[0] = Some(seated);
    }
}
