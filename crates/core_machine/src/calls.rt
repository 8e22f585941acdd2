//! A thread calls the branches of its fork by itself, with no packet between: what `job`, `begin`, `reply`, `settle`
//! and `joined` do with packets.

ghost use Rattle.std.specs.Prelude.{◌≡◌, ◌+◌, ◌<◌, ◌++◌, ◌∷◌, [], List, Some, length, slice_get};
ghost use Rattle.forec_kernel.specs.Engine.{Exchange, Reply, Written};
ghost use Rattle.thread_code.specs.Plain.{plain_code};
ghost use Rattle.thread_code.specs.Valid.{IsValidCode};
ghost use Rattle.core_machine.specs.Branches.{AddsReply};
ghost use Rattle.core_machine.specs.Threads.{Loaded, StandsFor, CanRun, IsResting, HasReply, HasPaused, HasSettled, IsAtFork, HasJoined};
ghost use Rattle.core_machine.specs.Forks.{branch_at, jobs_at, with_replies};
ghost use Rattle.core_machine.specs.Direct.{CanTake, IsNewFork, StartsBranch, WakesBranch, RepliesBy};

use crate::branches::{Branches, Verdict};
use crate::thread::{Phase, Thread};
use thread_code::{Code, CodeParts};
use thread_steps::block_run::block_at;

impl Branches {
    /// Takes note of the next branch's reply, which the branch holds.
    #[inline(always)]
    fn settle_with(&mut self, branch: &Thread)
        requires { length self.old.ended < length self.old.numbers }
        ensures { AddsReply self.old (RepliesBy branch.now) self.new }
    {
        if branch.units > branch.allowance {
            self.note(false);
            self.judge(Verdict::Over);
            return;
        }
        // Nearly all replies are so; asked for first, they need no dispatch.
        if let Phase::Paused = branch.phase {
            self.note(false);
            self.count(branch.units);
            return;
        }
        match branch.phase {
            Phase::Ended => {
                self.note(true);
                self.count(branch.units);
            }
            Phase::Trapped { place, trap } => {
                self.note(false);
                self.count(branch.units);
                self.judge_trap(place, trap);
            }
            _ => {
                self.note(false);
                self.judge(Verdict::Over);
            }
        }
    }
}

impl Thread {
    /// Gives the k-th branch that runs in this tick its job, with no packet between: what `job` writes is what `begin` reads.
    #[inline(always)]
    pub fn call_branch(&self, code: &Code, k: usize, branch: &mut Thread)
        requires loaded { Loaded (plain_code code.now) self.now }
        requires fork { IsAtFork self.now }
        requires index { k < length self.now.branches.numbers }
        requires branch { Loaded (plain_code code.now) branch.old }
        requires number { branch.old.number ≡ branch_at self.now k }
        requires resting { IsResting branch.old }
        requires job { (w : Written) → slice_get (jobs_at (plain_code code.now) self.now) k ≡ Some w
            → CanTake branch.old w.job }
        ensures loaded { Loaded (plain_code code.now) branch.new }
        ensures running { CanRun branch.new }
        ensures number { branch.new.number ≡ branch.old.number }
        ensures stands { (w : Written) (xs : List Exchange) → slice_get (jobs_at (plain_code code.now) self.now) k
            ≡ Some w
            → StandsFor (plain_code code.now) branch.old xs → StandsFor (plain_code code.now) branch.new (xs
            ++ record { job = w.job; replies = [] } ∷ []) }
    {
        let parts = code.parts();
        if self.fork_here(parts).again {
            self.wake_branch(parts, k, branch);
        } else {
            self.start_branch(parts, k, branch);
        }
    }

    /// The k-th branch of a new fork begins, with its arguments and the present copies.
    fn start_branch(&self, code: &CodeParts, k: usize, branch: &mut Thread)
        requires valid { IsValidCode (plain_code code.now) }
        requires loaded { Loaded (plain_code code.now) self.now }
        requires fork { IsAtFork self.now }
        requires fresh { IsNewFork (plain_code code.now) self.now }
        requires index { k < length self.now.branches.numbers }
        requires branch { Loaded (plain_code code.now) branch.old }
        requires number { branch.old.number ≡ branch_at self.now k }
        ensures { StartsBranch (plain_code code.now) self.now k branch.old branch.new }
    {
        let number = self.branches.at(k);
        let block = block_at(code, branch.number, None);
        let count = self.own.pars().arguments_from(Some(number));
        branch.stack.restart_from(
            &self.stack,
            count as usize,
            block.params,
            block.words,
            block.counters,
        );
        branch.own.restart_from(&self.own, number);
        branch.phase = Phase::Running { folding: false };
        branch.function = None;
        branch.at = 0;
        branch.units = 0;
        branch.allowance = self.allowance - self.units;
    }

    /// The k-th branch of a held fork goes on where it paused, with the present copies.
    fn wake_branch(&self, _code: &CodeParts, k: usize, branch: &mut Thread)
        requires loaded { Loaded (plain_code _code.now) self.now }
        requires fork { IsAtFork self.now }
        requires index { k < length self.now.branches.numbers }
        requires branch { Loaded (plain_code _code.now) branch.old }
        requires number { branch.old.number ≡ branch_at self.now k }
        requires paused { HasPaused branch.old }
        ensures { WakesBranch (plain_code _code.now) self.now k branch.old branch.new }
    {
        branch.own.receive_from(&self.own, self.branches.at(k));
        branch.phase = Phase::Running { folding: false };
        branch.units = 0;
        branch.allowance = self.allowance - self.units;
    }

    /// Takes note of the reply that the k-th branch holds, k from 0 upwards, as `settle` does of a packet.
    #[inline(always)]
    pub fn settle_call(&mut self, _code: &Code, _k: usize, branch: &Thread)
        requires loaded { Loaded (plain_code _code.now) self.old }
        requires order { HasSettled self.old _k }
        requires branch { _k < length self.old.branches.numbers }
        requires reply { HasReply branch.now }
        ensures loaded { Loaded (plain_code _code.now) self.new }
        ensures number { self.new.number ≡ self.old.number }
        ensures branches { self.new.branches.numbers ≡ self.old.branches.numbers }
        ensures order { HasSettled self.new (_k + 1) }
        ensures jobs { jobs_at (plain_code _code.now) self.new ≡ jobs_at (plain_code _code.now) self.old }
        ensures stands { (xs : List Exchange) (rs : List Reply) (r : Reply) → length rs ≡ _k → RepliesBy branch.now r
            → StandsFor (plain_code _code.now) self.old (with_replies xs rs)
            → StandsFor (plain_code _code.now) self.new (with_replies xs (rs ++ r ∷ [])) }
    {
        self.branches.settle_with(branch);
    }

    /// Joins the k-th branch, k from 0 upwards, when all have been settled, as `joined` does: with the branch's own copies.
    #[inline(always)]
    pub fn join_call(&mut self, code: &Code, k: usize, branch: &Thread)
        requires loaded { Loaded (plain_code code.now) self.old }
        requires order { HasJoined self.old k }
        requires index { k < length self.old.branches.numbers }
        requires branch { Loaded (plain_code code.now) branch.now }
        requires number { branch.now.number ≡ branch_at self.old k }
        requires reply { HasReply branch.now }
        ensures loaded { Loaded (plain_code code.now) self.new }
        ensures number { self.new.number ≡ self.old.number }
        ensures branches { self.new.branches.numbers ≡ self.old.branches.numbers }
        ensures order { k + 1 < length self.old.branches.numbers → HasJoined self.new (k + 1) }
        ensures running { k + 1 ≡ length self.old.branches.numbers → CanRun self.new }
        ensures stands { (xs : List Exchange) (rs : List Reply) (r : Reply) → length rs
            ≡ length self.old.branches.numbers → slice_get rs k ≡ Some r
            → RepliesBy branch.now r → StandsFor (plain_code code.now) self.old (with_replies xs rs)
            → StandsFor (plain_code code.now) self.new (with_replies xs rs) }
    {
        self.join(code, k, branch.own.copies());
    }
}
