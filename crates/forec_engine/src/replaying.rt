//! A log that is held to the run of a program over the trace.
ghost use Rattle.std.specs.Prelude.{◌≡◌, ◌≤◌, Some};
ghost use Rattle.forec_base.specs.Outside.{Fell};
ghost use Rattle.forec_base.specs.declared.limits.TheConstants.{MAX_BUDGET};
ghost use Rattle.forec_kernel.specs.Shapes.{plain_kernel};
ghost use Rattle.forec_engine.specs.Budgets.{budget_for, IsSmallBudget};
ghost use Rattle.forec_engine.specs.Replaying.{ReplaysKernel, ReplaysNamed};

use crate::answering::{budget_units, refuse, say_boundless};
use crate::programs::accepted_named;
use command_words::Budget;
use forec_base::{Sink, Source, TextFault, Texts};
use forec_kernel::Kernel;
use log_runs::{MAX_LOG_BYTES, replay_log};
use std::alloc::Global;
use text_verdict::Refusal;
use trace_ticks::Status;

/// What is replayed: the name of the log, and how many units a tick may have.
#[derive(Clone, Copy)]
pub struct Replayed<'a> {
    pub log: &'a str,
    pub budget: Budget,
}

/// Reads the log, and holds it to a kernel's run with so many units a tick.
fn read_and_replay<T: Texts, S: Source, K: Sink>(
    alloc: Global,
    kernel: &Kernel,
    replayed: Replayed<'_>,
    units: u64,
    texts: &mut T,
    trace: &mut S,
    out: &mut K,
) -> Status
    requires may { T.may texts.old replayed.log.now }
    requires units { budget_for (plain_kernel kernel.now) replayed.budget ≡ Some units }
    requires small { units ≤ MAX_BUDGET }
    ensures { ReplaysKernel S.left S.faults S.down K.held K.faults K.down (T.content texts.old)
        replayed.entry.log.now replayed.entry.budget (Fell (T.faults texts.old) (T.faults texts.new) (T.down
        texts.new)) (plain_kernel kernel.now) trace.old trace.new out.old out.new result }
{
    match texts.read(alloc, replayed.log, MAX_LOG_BYTES) {
        Ok(text) => replay_log(alloc, kernel, text, units, trace, out),
        Err(TextFault::Failed) => Status::ReadFault,
        Err(TextFault::OutOfMemory) => Status::NoMemory,
        Err(TextFault::Long) => refuse(alloc, Refusal::Long, out),
    }
}

/// Holds the log to a kernel's run, where the budget isn't a bound that there isn't.
fn replay_kernel<T: Texts, S: Source, K: Sink>(
    alloc: Global,
    kernel: &Kernel,
    replayed: Replayed<'_>,
    texts: &mut T,
    trace: &mut S,
    out: &mut K,
) -> Status
    requires may { T.may texts.old replayed.log.now }
    requires small { IsSmallBudget replayed.budget }
    ensures { ReplaysKernel S.left S.faults S.down K.held K.faults K.down (T.content texts.old)
        replayed.entry.log.now replayed.entry.budget (Fell (T.faults texts.old) (T.faults texts.new) (T.down
        texts.new)) (plain_kernel kernel.now) trace.old trace.new out.old out.new result }
{
    match budget_units(alloc, kernel, replayed.budget) {
        Ok(Some(units)) => { read_and_replay(alloc, kernel, replayed, units, texts, trace, out) }
        Ok(None) => say_boundless(out),
        Err(_) => Status::NoMemory,
    }
}

/// Holds the log to the program of a name. The log is read once the program is accepted.
pub fn replay_named<T: Texts, S: Source, K: Sink>(
    alloc: Global,
    deepest: u64,
    name: &str,
    replayed: Replayed<'_>,
    texts: &mut T,
    trace: &mut S,
    out: &mut K,
) -> Status
    requires program { T.may texts.old name.now }
    requires may { T.may texts.old replayed.log.now }
    requires small { IsSmallBudget replayed.budget }
    ensures { ReplaysNamed S.left S.faults S.down K.held K.faults K.down (T.content texts.old)
        replayed.entry.log.now replayed.entry.budget (Fell (T.faults texts.old) (T.faults texts.new) (T.down
        texts.new)) name.now trace.old trace.new out.old out.new result }
{
    match accepted_named(alloc, deepest, name, texts, out) {
        Ok(accepted) => replay_kernel(alloc, &accepted.kernel, replayed, texts, trace, out),
        Err(end) => end,
    }
}
