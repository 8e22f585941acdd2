//! A replay of thread 0, tick by tick.

ghost use Rattle.std.specs.Prelude.{◌≡◌, ◌∷◌, ◌++◌, [], ℕ, ℤ, List, true, length, IfOk};
ghost use Rattle.forec_kernel.specs.Composed.{TickInput};
ghost use Rattle.forec_kernel.specs.declared.shape.Outcome.{Outcome as PlainOutcome};
ghost use Rattle.thread_code.specs.Plain.{PlainCode, plain_code};
ghost use Rattle.exchange_meaning.specs.Logged.{ExchangeLog};
ghost use Rattle.log_text.specs.ReadLogs.{HasPairs, IsLogFor};
ghost use Rattle.exchange_replay.specs.declared.replayer.Step.TheVariants as step;
ghost use Rattle.exchange_replay.specs.Rooted.{HasReplayed, IsReplayerOf, CanReplay, HasTickedAs, CannotTick, UsesAll, tick_input, goes_on_after, KeepsOutputs};

use crate::walk::Walk;
use combine_tree::Packet;
use forec_base::OutOfMemory;
use forec_kernel::Outcome;
use log_text::Log;
use std::alloc::Global;
use thread_code::Code;
use tick_jobs::{write_job, write_outcome};

/// What a tick comes to.
#[derive(Clone, Copy, Debug, PartialEq, Eq)]
pub enum Step {
    /// Thread 0 wrote what the log has, and this is how the tick ended.
    Done { outcome: Outcome },
    /// It wrote a job for a branch that isn't the branch's next one in the log.
    Differs,
}

/// A replay of thread 0: it is given the jobs of the ticks, and at each fork the logged replies to the next jobs of its
/// branches. Its memory is made once.
#[derive(Drop)]
pub struct Replayer {
    pub(crate) walk: Walk,
    /// The packet of thread 0: in a tick its job, between ticks its reply.
    pub(crate) root: Packet,
    pub(crate) live: bool,
}

impl Replayer {
    /// A replay of the code's thread 0, before the first tick.
    ///
    /// # Errors
    ///
    /// Out of memory.
    pub fn new(alloc: Global, code: &Code, log: &Log) -> Result<Replayer, OutOfMemory>
        requires log { IsLogFor (plain_code code.now).shape log.now }
        ensures none { IfOk result (λ r. (pairs : ExchangeLog) → HasPairs (plain_code code.now).shape log.now pairs
            → HasReplayed (plain_code code.now) log.now pairs r []) }
        ensures live { IfOk result (λ r. r.live ≡ true) }
    {
        let variables = code.shape().variables.len();
        Ok(Replayer {
            walk: Walk::new(alloc, code, log, 0)?,
            root: Packet::new(alloc, 0, variables)?,
            live: true,
        })
    }

    /// Replays one tick: the inputs get the values of the row, in order of declaration. Where the tick pauses or ends the
    /// outputs are written, in order of declaration; else they stay as they were. It takes no memory.
    pub fn tick(
        &mut self,
        code: &Code,
        log: &Log,
        row: &[i32],
        budget: u64,
        outputs: &mut [i32],
    ) -> Step
        requires can { CanReplay (plain_code code.now) log.now self.old row.now budget outputs.old }
        ensures done { (pairs : ExchangeLog) (turns : List TickInput) (o : PlainOutcome) → result ≡ step.Done o
            → HasReplayed (plain_code code.now) log.now pairs self.old turns
            → HasTickedAs (plain_code code.now) log.now pairs self.new turns (tick_input row.now budget) o outputs.new }
        ensures differs { (pairs : ExchangeLog) (turns : List TickInput) → result ≡ step.Differs
            → HasReplayed (plain_code code.now) log.now pairs self.old turns
            → CannotTick (plain_code code.now) pairs turns (tick_input row.now budget) }
        ensures live { self.new.live ≡ goes_on_after result }
        ensures stay { KeepsOutputs result → outputs.new ≡ outputs.old }
    {
        let shape = code.shape();
        write_job(&mut self.root, shape, row, budget);
        self.walk.thread.begin(code, &self.root);
        self.live = false;
        if !self.walk.finish(code, log) {
            return Step::Differs;
        }
        self.walk.thread.reply(code, &mut self.root);
        let outcome = write_outcome(&self.root, shape, outputs);
        self.live = matches!(outcome, Outcome::Paused);
        Step::Done { outcome }
    }

    /// Whether no job of a branch of thread 0 is left.
    pub fn used(&self, _log: &Log) -> bool
        ensures { (c : PlainCode) (pairs : ExchangeLog) (turns : List TickInput)
            → UsesAll c _log.now pairs self.now turns result }
    {
        self.walk.is_used()
    }

    /// Whether a further tick can come: each one so far was done, and has paused.
    pub fn live(&self) -> bool
        ensures { result ≡ self.now.live }
    {
        self.live
    }
}
