//! Ticks of a host, by itself or beside others that are served.
ghost use Rattle.std.specs.Prelude.{◌≡◌, ◌<◌, ℕ, length, true, false};
ghost use Rattle.copy_slots.specs.Ports.{sent, taken, ChildIs};
ghost use Rattle.tick_jobs.specs.Ticks.{CanTick, RunsTick};
ghost use Rattle.core_host.specs.Hosted.{is_here, IsSameHost, IsWhole};
ghost use Rattle.core_host.specs.Runs.{ticking};

use crate::host::Host;
use copy_slots::Port;
use core_seats::{ForecWork, Serve};
use forec_base::Gate;
use forec_kernel::Outcome;
use std::sync::Wait;
use tick_jobs::{write_job, write_outcome};

impl<'c, P: Port<ForecWork> + Drop> Host<'c, P> {
    /// Runs one tick, by itself: the inputs get the values of the row, in order of declaration. Where the tick
    /// pauses or ends the outputs are written, in order of declaration; else they stay as they were. It takes
    /// no memory, and through each mailbox go exactly the tick's jobs and replies, however it ends.
    pub fn alone<G: Gate>(
        &mut self,
        row: &[i32],
        budget: u64,
        gate: &G,
        outputs: &mut [i32],
    ) -> Outcome
        requires whole { IsWhole self.old }
        requires can { CanTick (ticking self.old) row.now budget outputs.old }
        ensures runs { RunsTick (ticking self.old) (ticking self.new) row.now budget result outputs.old outputs.new }
        ensures same { IsSameHost self.old self.new }
        ensures rope { self.new.rope ≡ self.old.rope }
        ensures whole { IsWhole self.new }
        ensures rest { (k : ℕ) → k < length self.new.mail.ends → ChildIs self.new.mail k false }
        ensures taken { (k : ℕ) → k < length self.new.mail.ends → taken self.new.mail k ≡ sent self.new.mail k }
    {
        let Host {
            scheduler,
            root,
            live,
            ..
        } = self;
        let code = scheduler.code;
        write_job(root, code.shape(), row, budget);
        scheduler.work(gate, root);
        let outcome = write_outcome(root, code.shape(), outputs);
        *live = matches!(outcome, Outcome::Paused);
        outcome
    }

    /// Runs one tick beside hosts that other OS threads run: the inputs get the values of the row, in order of declaration. Where the
    /// tick pauses or ends the outputs are written, in order of declaration; else they stay as they were. While thread 0
    /// waits for its branches, the threads of this host are served, and the `others`, which no OS thread runs: a slice of hosts
    /// ([`Crew`](crate::worker::Crew)), or whatever else can be served. It takes no memory.
    ///
    /// A host with a rope hints to the cores to which it sends, and looks first where it is hinted to. After some time in
    /// which there was nothing to do its core sleeps until it is woken, but never where there are `others`. What is hinted, and
    /// that a sleeping core is woken, no clause says.
    ///
    /// Through the mailboxes of thread 0's branches go exactly the tick's jobs and replies, however the tick ends.
    pub fn tick<R: Wait, O: Serve, G: Gate>(
        &mut self,
        rt: &R,
        row: &[i32],
        budget: u64,
        others: &mut O,
        gate: &G,
        outputs: &mut [i32],
    ) -> Outcome
        requires here { is_here self.old 0 ≡ true }
        requires can { CanTick (ticking self.old) row.now budget outputs.old }
        ensures runs { RunsTick (ticking self.old) (ticking self.new) row.now budget result outputs.old outputs.new }
        ensures same { IsSameHost self.old self.new }
        ensures others { O.kept others.new ≡ O.kept others.old }
    {
        let Host {
            scheduler,
            round,
            root,
            live,
            ..
        } = self;
        let code = scheduler.code;
        write_job(root, code.shape(), row, budget);
        scheduler.work_beside(rt, gate, round, others, root);
        let outcome = write_outcome(root, code.shape(), outputs);
        *live = matches!(outcome, Outcome::Paused);
        outcome
    }
}
