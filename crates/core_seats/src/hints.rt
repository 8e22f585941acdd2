//! Hints to those to whom a thread sent.
ghost use Rattle.std.specs.Prelude.{◌≡◌};
ghost use Rattle.core_bells.specs.Ropes.{IsSameRope};
ghost use Rattle.core_seats.specs.Hung.{KeepsRope};

use crate::round::Round;
use crate::scheduler::Scheduler;
use crate::work::ForecWork;
use copy_slots::Port;
use core_bells::Rope;
use core_machine::Thread;
use forec_base::MAX_THREADS;
use std::sync::Wait;
use thread_code::Code;

/// The thread that forks the one whose mailbox this is.
fn parent_of(code: &Code, mailbox: u32) -> Option<u32> {
    code.shape().threads.get(mailbox as usize + 1)?.parent
}

/// Hints to the cores of the branches that got jobs at the thread's fork.
pub(crate) fn hint_branches<R: Wait>(rt: &R, code: &Code, thread: &Thread, rope: &mut Rope<'_>)
    ensures { IsSameRope rope.old rope.new }
{
    for k in 0..MAX_THREADS as usize {
        let Some(branch) = thread.active(code, k) else {
            return;
        };
        rope.hint(rt, branch, branch.saturating_sub(1));
    }
}

impl<'c, P: Port<ForecWork> + Drop> Scheduler<'c, P> {
    /// Whether a thread is in its seat.
    fn is_seated(&self, thread: u32) -> bool {
        match self.seats.get(thread as usize) {
            Some(seat) => seat.thread.is_some(),
            None => false,
        }
    }

    /// Whether all branches of the thread's fork are here, or there is no other core to hint to.
    pub(crate) fn are_here(&self, thread: &Thread, round: &Round<'c>) -> bool {
        if round.rope.is_none() {
            return true;
        }
        for k in 0..MAX_THREADS as usize {
            let Some(branch) = thread.active(self.code, k) else {
                return true;
            };
            if !self.is_seated(branch) {
                return false;
            }
        }
        true
    }

    /// Hints to the cores of the branches that were told jobs at the thread's fork. The next sweep goes upwards, to them.
    pub(crate) fn hint_fork<R: Wait>(&self, rt: &R, thread: &Thread, round: &mut Round<'c>)
        ensures own { round.new.own ≡ round.old.own }
        ensures next { round.new.next ≡ round.old.next }
        ensures rope { KeepsRope round.old.rope round.new.rope }
    {
        round.up = true;
        if let Some(rope) = &mut round.rope {
            hint_branches(rt, self.code, thread, rope);
        }
    }

    /// Hints to the parent of a thread that was served, where it has answered. Where it waits at a fork its branches were hinted to
    /// when they were told their jobs.
    pub(crate) fn hint<R: Wait>(&self, rt: &R, mailbox: u32, round: &mut Round<'c>)
        ensures own { round.new.own ≡ round.old.own }
        ensures next { round.new.next ≡ round.old.next }
        ensures rope { KeepsRope round.old.rope round.new.rope }
    {
        let Some(rope) = &mut round.rope else { return };
        let Some(seat) = self.seats.get(mailbox as usize + 1) else {
            return;
        };
        if seat.job.is_some() {
            return;
        }
        if let Some(parent) = parent_of(self.code, mailbox) {
            rope.hint(rt, parent, mailbox);
        }
    }
}
