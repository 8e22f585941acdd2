//! What is done with a text that was judged.
ghost use Rattle.std.specs.Prelude.{◌≡◌, ◌≢◌, ◌≤◌, ⊤, length, Some, IfOk, IfSome};
ghost use Rattle.forec_base.specs.declared.limits.TheConstants.{MAX_BUDGET};
ghost use Rattle.forec_kernel.specs.Shapes.{plain_kernel};
ghost use Rattle.command_words.specs.Requests.{Explain, plain_placing, plain_running, plain_command};
ghost use Rattle.core_alloc.specs.declared.fault.PlaceFault.TheVariants as fault;
ghost use Rattle.forec_engine.specs.Answers.{AnswersAccepted};
ghost use Rattle.forec_engine.specs.Budgets.{budget_for, boundless, IsSmallBudget};
ghost use Rattle.forec_engine.specs.Commands.{refused, counts_report, threads_listed, ThreadsReport, IsListing, IsPlaceable, IsRunnable, IsInRange};
ghost use Rattle.forec_engine.specs.Ends.{run_with};
ghost use Rattle.forec_engine.specs.Placing.{misplaced, workload_report, IsMisplaced, IsRefusedRun};
ghost use Rattle.trace_ticks.specs.Prints.{Prints, PrintsReport};

use crate::lines::{put_counts, put_misplaced, put_refusal};
use crate::room::has_room;
use code_gen::generate;
use command_words::{Budget, Command, Placing, Running};
use core_alloc::{PlaceFault, Placement};
use forec_base::{Gate, OutOfMemory, Sink, Source};
use forec_kernel::Kernel;
use std::alloc::Global;
use std::sync::Wait;
use std::thread::Threads;
use text_verdict::{Accepted, Counts, Refusal};
use thread_code::listing;
use thread_places::{place, thread_list};
use tick_bounds::tick_bound;
use trace_runs::{host_trace, host_workload, rewrite_trace};
use trace_ticks::{Setting, Status, Telling, Waiting, say};

/// Says why a text is refused.
pub fn refuse<K: Sink>(alloc: Global, why: Refusal, out: &mut K) -> Status
    ensures { PrintsReport K.held K.faults K.down (refused why) ⊥ out.old out.new result }
{
    let Ok(mut waiting) = Waiting::plain(alloc) else {
        return Status::NoMemory;
    };
    put_refusal(&mut waiting, why);
    waiting.finish(out, Status::Refused)
}

/// Says why a list of places is refused.
fn say_misplaced<K: Sink>(alloc: Global, why: PlaceFault, out: &mut K) -> Status
    ensures { PrintsReport K.held K.faults K.down (misplaced why) ⊤ out.old out.new result }
{
    let Ok(mut waiting) = Waiting::plain(alloc) else {
        return Status::NoMemory;
    };
    put_misplaced(&mut waiting, why);
    waiting.finish(out, Status::Usage)
}

/// Says why a list of places is refused, where memory wasn't wanting.
pub fn misplace<K: Sink>(alloc: Global, why: PlaceFault, out: &mut K) -> Status
    ensures { Prints K.held K.faults K.down ⊤ (λ r. (why ≢ fault.OutOfMemory)
        × (r ≡ misplaced why)) (why ≢ fault.OutOfMemory) ⊥ ⊥
        out.old out.new result }
{
    match why {
        PlaceFault::OutOfMemory => Status::NoMemory,
        _ => say_misplaced(alloc, why, out),
    }
}

/// How many units a budget is for a kernel. None where it is the bound of a kernel that has none.
pub fn budget_units(
    alloc: Global,
    kernel: &Kernel,
    budget: Budget,
) -> Result<Option<u64>, OutOfMemory>
    requires { IsSmallBudget budget }
    ensures units { IfOk result (λ units. units ≡ budget_for (plain_kernel kernel.now) budget) }
    ensures small { IfOk result (λ units. IfSome units (λ most. most ≤ MAX_BUDGET)) }
{
    match budget {
        Budget::Units { most } => Ok(Some(most)),
        Budget::Bound => tick_bound(alloc, kernel),
    }
}

/// Says that a kernel has no bound.
pub fn say_boundless<K: Sink>(out: &mut K) -> Status
    ensures { PrintsReport K.held K.faults K.down boundless ⊤ out.old out.new result }
{
    say(out, b"bound none\n", Status::Usage)
}

/// Places the threads, and runs with so many units a tick. What is told of the run is written.
fn place_and_start<S: Source, K: Sink, G: Gate + Sync, R: Threads + Wait + Sync>(
    setting: &Setting<'_, G, R>,
    accepted: &Accepted,
    telling: Telling,
    running: Running<'_>,
    units: u64,
    trace: &mut S,
    out: &mut K,
) -> Status
    requires runs { IsRunnable (plain_running running) }
    requires units { budget_for (plain_kernel accepted.now.kernel) (plain_running running).budget ≡ Some units }
    requires small { units ≤ MAX_BUDGET }
    ensures { AnswersAccepted S.left S.faults S.down K.held K.faults K.down
        (run_with telling (plain_running running.entry))
        accepted.now.counts
        (plain_kernel accepted.now.kernel) trace.old trace.new out.old out.new result }
{
    let alloc = setting.alloc;
    let kernel = &accepted.kernel;
    match place(alloc, kernel, running.placing) {
        Ok(placement) => host_trace(setting, kernel, &placement, telling, units, trace, out),
        Err(why) => misplace(alloc, why, out),
    }
}

/// Runs, where the budget isn't a bound that there isn't, nor the list of places refused. What is told of the run is
/// written.
fn start<S: Source, K: Sink, G: Gate + Sync, R: Threads + Wait + Sync>(
    setting: &Setting<'_, G, R>,
    accepted: &Accepted,
    telling: Telling,
    running: Running<'_>,
    trace: &mut S,
    out: &mut K,
) -> Status
    requires { IsRunnable (plain_running running) }
    ensures { AnswersAccepted S.left S.faults S.down K.held K.faults K.down
        (run_with telling (plain_running running.entry))
        accepted.now.counts
        (plain_kernel accepted.now.kernel) trace.old trace.new out.old out.new result }
{
    match budget_units(setting.alloc, &accepted.kernel, running.budget) {
        Ok(Some(units)) => {
            place_and_start(setting, accepted, telling, running, units, trace, out)
        }
        Ok(None) => say_boundless(out),
        Err(_) => Status::NoMemory,
    }
}

/// Runs by rewriting, where the budget isn't a bound that there isn't.
fn explain<S: Source, K: Sink, G: Gate + Sync, R: Threads + Wait + Sync>(
    setting: &Setting<'_, G, R>,
    accepted: &Accepted,
    budget: Budget,
    order: u32,
    trace: &mut S,
    out: &mut K,
) -> Status
    requires { IsSmallBudget budget }
    ensures { AnswersAccepted S.left S.faults S.down K.held K.faults K.down (Explain budget order) accepted.now.counts
        (plain_kernel accepted.now.kernel) trace.old trace.new out.old out.new result }
{
    let kernel = &accepted.kernel;
    match budget_units(setting.alloc, kernel, budget) {
        Ok(Some(units)) => rewrite_trace(
            setting,
            kernel,
            order,
            Telling::Report,
            units,
            trace,
            out,
        ),
        Ok(None) => say_boundless(out),
        Err(_) => Status::NoMemory,
    }
}

/// Tells what is counted of a text that is accepted.
fn tell<K: Sink>(alloc: Global, counts: Counts, out: &mut K) -> Status
    ensures { PrintsReport K.held K.faults K.down (counts_report counts) ⊥ out.old out.new result }
{
    let Ok(mut waiting) = Waiting::plain(alloc) else {
        return Status::NoMemory;
    };
    put_counts(&mut waiting, counts);
    waiting.finish(out, Status::Done)
}

/// Lists the threads of a kernel, which are placed so.
fn list_placed<K: Sink>(
    alloc: Global,
    kernel: &Kernel,
    placement: &Placement,
    out: &mut K,
) -> Status
    requires { length placement.now.places ≡ length (plain_kernel kernel.now).threads }
    ensures { PrintsReport K.held K.faults K.down (threads_listed (plain_kernel kernel.now) placement.now.places)
        ⊥ out.old out.new result }
{
    let Ok(text) = thread_list(alloc, kernel, placement) else {
        return Status::NoMemory;
    };
    say(out, &text, Status::Done)
}

/// Places the threads of a kernel, and lists them.
fn list_threads<K: Sink>(
    alloc: Global,
    kernel: &Kernel,
    placing: Placing<'_>,
    out: &mut K,
) -> Status
    requires { IsPlaceable (plain_placing placing) }
    ensures { Prints K.held K.faults K.down ⊤ (ThreadsReport (plain_kernel kernel.now) (plain_placing placing.entry))
        (IsMisplaced (plain_kernel kernel.now) (plain_placing placing.entry)) ⊥ ⊥ out.old out.new result }
{
    match place(alloc, kernel, placing) {
        Ok(placement) => list_placed(alloc, kernel, &placement, out),
        Err(why) => misplace(alloc, why, out),
    }
}

/// Lists a code that stands for a kernel.
fn list<K: Sink>(alloc: Global, kernel: &Kernel, out: &mut K) -> Status
    ensures { Prints K.held K.faults K.down ⊤ (IsListing (plain_kernel kernel.now)) ⊥ ⊥ ⊥ out.old out.new result }
{
    let Ok(code) = generate(alloc, kernel) else {
        return Status::NoMemory;
    };
    if !has_room(code.parts()) {
        return Status::NoMemory;
    }
    let Ok(text) = listing(alloc, &code) else {
        return Status::NoMemory;
    };
    // Its clause tells that the code is valid.
    let _ = code.shape();
    say(out, text.as_bytes(), Status::Done)
}

/// Does what a command asks of a text that is accepted.
pub fn answer<S: Source, K: Sink, G: Gate + Sync, R: Threads + Wait + Sync>(
    setting: &Setting<'_, G, R>,
    command: Command<'_>,
    accepted: &Accepted,
    trace: &mut S,
    out: &mut K,
) -> Status
    requires { IsInRange (plain_command command) }
    ensures { AnswersAccepted S.left S.faults S.down K.held K.faults K.down (plain_command command.entry)
        accepted.now.counts
        (plain_kernel accepted.now.kernel) trace.old trace.new out.old out.new result }
{
    let alloc = setting.alloc;
    let kernel = &accepted.kernel;
    match command {
        Command::Run { running } => {
            start(setting, accepted, Telling::Report, running, trace, out)
        }
        Command::Wave { running } => {
            start(setting, accepted, Telling::Wave, running, trace, out)
        }
        Command::Check => tell(alloc, accepted.counts, out),
        Command::Threads { placing } => list_threads(alloc, kernel, placing, out),
        Command::Explain { budget, order } => {
            explain(setting, accepted, budget, order, trace, out)
        }
        Command::Code => list(alloc, kernel, out),
    }
}

/// Places the threads of a workload of so many, whose kernel this is, and runs it with so many units a tick.
fn place_workload<K: Sink, G: Gate + Sync, R: Threads + Wait + Sync>(
    setting: &Setting<'_, G, R>,
    threads: u32,
    running: Running<'_>,
    units: u64,
    kernel: &Kernel,
    out: &mut K,
) -> Status
    requires runs { IsRunnable (plain_running running) }
    requires units { budget_for (plain_kernel kernel.now) (plain_running running).budget ≡ Some units }
    requires small { units ≤ MAX_BUDGET }
    ensures { PrintsReport K.held K.faults K.down (workload_report threads (plain_running running.entry) (plain_kernel
        kernel.now))
        (IsRefusedRun (plain_kernel kernel.now) (plain_running running.entry)) out.old out.new result }
{
    let alloc = setting.alloc;
    match place(alloc, kernel, running.placing) {
        Ok(placement) => host_workload(setting, kernel, &placement, threads, units, out),
        Err(why) => misplace(alloc, why, out),
    }
}

/// Runs the workload of so many threads, whose kernel this is, where the budget isn't a bound that there isn't, nor the
/// list of places refused.
pub fn answer_workload<K: Sink, G: Gate + Sync, R: Threads + Wait + Sync>(
    setting: &Setting<'_, G, R>,
    threads: u32,
    running: Running<'_>,
    kernel: &Kernel,
    out: &mut K,
) -> Status
    requires { IsRunnable (plain_running running) }
    ensures { PrintsReport K.held K.faults K.down (workload_report threads (plain_running running.entry) (plain_kernel
        kernel.now))
        (IsRefusedRun (plain_kernel kernel.now) (plain_running running.entry)) out.old out.new result }
{
    match budget_units(setting.alloc, kernel, running.budget) {
        Ok(Some(units)) => place_workload(setting, threads, running, units, kernel, out),
        Ok(None) => say_boundless(out),
        Err(_) => Status::NoMemory,
    }
}
