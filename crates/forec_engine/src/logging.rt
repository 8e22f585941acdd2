//! The log of what the threads of a program exchange in a run over the trace.
ghost use Rattle.std.specs.Prelude.{◌≡◌, ◌≤◌, Some};
ghost use Rattle.forec_base.specs.Outside.{Fell};
ghost use Rattle.forec_base.specs.declared.limits.TheConstants.{MAX_BUDGET};
ghost use Rattle.forec_kernel.specs.Shapes.{plain_kernel};
ghost use Rattle.command_words.specs.Requests.{plain_running};
ghost use Rattle.forec_engine.specs.Budgets.{budget_for};
ghost use Rattle.forec_engine.specs.Commands.{IsRunnable};
ghost use Rattle.forec_engine.specs.Logging.{LogsKernel, LogsNamed};

use crate::answering::{budget_units, misplace, say_boundless};
use crate::programs::accepted_named;
use command_words::Running;
use forec_base::{Gate, Sink, Source, Texts};
use forec_kernel::Kernel;
use log_runs::log_trace;
use std::sync::Wait;
use std::thread::Threads;
use thread_places::place;
use trace_ticks::{Setting, Status};

/// Places the threads, and runs with so many units a tick. Then the log is written.
fn place_and_log<S: Source, K: Sink, G: Gate + Sync, R: Threads + Wait + Sync>(
    setting: &Setting<'_, G, R>,
    kernel: &Kernel,
    running: Running<'_>,
    units: u64,
    trace: &mut S,
    out: &mut K,
) -> Status
    requires runs { IsRunnable (plain_running running) }
    requires units { budget_for (plain_kernel kernel.now) (plain_running running).budget ≡ Some units }
    requires small { units ≤ MAX_BUDGET }
    ensures { LogsKernel S.left S.faults S.down K.held K.faults K.down (plain_running running.entry) (plain_kernel
        kernel.now) trace.old trace.new out.old out.new result }
{
    let alloc = setting.alloc;
    match place(alloc, kernel, running.placing) {
        Ok(placement) => log_trace(setting, kernel, &placement, units, trace, out),
        Err(why) => misplace(alloc, why, out),
    }
}

/// Logs a kernel, where the budget isn't a bound that there isn't, nor the list of places refused.
fn log_kernel<S: Source, K: Sink, G: Gate + Sync, R: Threads + Wait + Sync>(
    setting: &Setting<'_, G, R>,
    kernel: &Kernel,
    running: Running<'_>,
    trace: &mut S,
    out: &mut K,
) -> Status
    requires { IsRunnable (plain_running running) }
    ensures { LogsKernel S.left S.faults S.down K.held K.faults K.down (plain_running running.entry) (plain_kernel
        kernel.now) trace.old trace.new out.old out.new result }
{
    match budget_units(setting.alloc, kernel, running.budget) {
        Ok(Some(units)) => place_and_log(setting, kernel, running, units, trace, out),
        Ok(None) => say_boundless(out),
        Err(_) => Status::NoMemory,
    }
}

/// Logs the program of a name. Nothing is printed while it runs.
pub fn log_named<T: Texts, S: Source, K: Sink, G: Gate + Sync, R: Threads + Wait + Sync>(
    setting: &Setting<'_, G, R>,
    deepest: u64,
    name: &str,
    running: Running<'_>,
    texts: &mut T,
    trace: &mut S,
    out: &mut K,
) -> Status
    requires may { T.may texts.old name.now }
    requires ranges { IsRunnable (plain_running running) }
    ensures { LogsNamed S.left S.faults S.down K.held K.faults K.down (plain_running running.entry) (T.content
        texts.old) name.now (Fell (T.faults texts.old) (T.faults texts.new) (T.down texts.new)) trace.old trace.new
        out.old out.new result }
{
    match accepted_named(setting.alloc, deepest, name, texts, out) {
        Ok(accepted) => log_kernel(setting, &accepted.kernel, running, trace, out),
        Err(end) => end,
    }
}
