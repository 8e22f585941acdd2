//! All threads of a code on one core.

ghost use Rattle.std.specs.Prelude.{◌≡◌, List, length, true, IfOk};
ghost use Rattle.core_alloc.specs.Places.{is_on_one_core};
ghost use Rattle.forec_kernel.specs.Engine.{Job};
ghost use Rattle.thread_code.specs.Plain.{plain_code};
ghost use Rattle.tick_jobs.specs.Ticks.{CanTick, RanNone, RunsTick};

use crate::calls::Calls;
use crate::load::seats_of;
use combine_tree::Packet;
use core_alloc::Placement;
use forec_base::{Gate, OutOfMemory};
use forec_kernel::Outcome;
use std::alloc::Global;
use std::marker::Model;
use thread_code::Code;
use tick_jobs::{write_job, write_outcome};

/// All threads of a code on one core, in memory that is made once.
///
/// A thread at a fork calls its branches, one after the other, so that nothing goes through a mailbox.
#[derive(Drop)]
pub struct OneCore<'c> {
    calls: Calls<'c>,
    /// The packet of thread 0: in a tick its job, between ticks its reply.
    root: Packet,
    live: bool,
}

impl<'c> Model for OneCore<'c> {
    ghost use Rattle.one_core.specs.Single.{Single, single, IsSingle};

    ghost Value = { Single };

    ghost view = { λ o. single o.calls o.root o.live };

    ghost invariant = { λ o. IsSingle (single o.calls o.root o.live) };
}

impl<'c> OneCore<'c> {
    ghost use Rattle.one_core.specs.Single.{single_code, single_ticking, HasRootJobs};
    ghost use Rattle.one_core.specs.Told.{HaveTalked};

    /// All threads of a code on one core, the one that the placement has for each of them. No tick was run.
    ///
    /// # Errors
    ///
    /// Out of memory.
    pub fn load(
        alloc: Global,
        code: &'c Code,
        placement: &Placement,
    ) -> Result<OneCore<'c>, OutOfMemory>
        requires placed { length placement.now.places ≡ length (plain_code code.now).threads }
        requires one { is_on_one_core placement.now.places ≡ true }
        ensures code { IfOk result (λ o. single_code o ≡ plain_code code.now) }
        ensures none { IfOk result (λ o. RanNone (single_ticking o)) }
    {
        let variables = code.shape().variables.len();
        let seats = seats_of(alloc, code, placement.threads())?;
        let root = Packet::new(alloc, 0, variables)?;
        let calls = Calls {
            code,
            core: placement.core(0),
            seats,
        };
        Ok(OneCore {
            calls,
            root,
            live: true,
        })
    }

    /// Runs one tick: the inputs get the values of the row, in order of declaration. Where the tick pauses or ends the
    /// outputs are written, in order of declaration; else they stay as they were. It takes no memory.
    ///
    /// The outcome and the outputs are those of a reply that the code's thread 0 gives to the jobs of the ticks so far; where the
    /// code stands for a kernel they are the kernel's.
    pub fn tick<G: Gate>(
        &mut self,
        row: &[i32],
        budget: u64,
        gate: &G,
        outputs: &mut [i32],
    ) -> Outcome
        requires can { CanTick (single_ticking self.old) row.now budget outputs.old }
        ensures runs { RunsTick (single_ticking self.old) (single_ticking self.new) row.now budget
            result outputs.old outputs.new }
    {
        let OneCore { calls, root, live } = self;
        let code = calls.code;
        write_job(root, code.shape(), row, budget);
        calls.work(gate, root);
        let outcome = write_outcome(root, code.shape(), outputs);
        *live = matches!(outcome, Outcome::Paused);
        outcome
    }
    /// A law: thread 0 does by itself the jobs of the ticks so far, and each other thread those that it was told, where their
    /// branches are told exactly the jobs that they give, and give these replies.
    pub fn talks(&self)
        ensures { (jobs : List Job) → HasRootJobs self.now jobs → HaveTalked (single_code self.now) jobs }
    {
        let _ = &self.calls;
    }
}
