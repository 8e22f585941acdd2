//! One program over many traces.
ghost use Rattle.std.specs.Prelude.{◌≡◌, ◌≤◌, ◌≢◌, ⊤, List, map, length, All, IfSome};
ghost use Rattle.forec_base.specs.Outside.{Fell};
ghost use Rattle.forec_base.specs.declared.limits.TheConstants.{MAX_BUDGET};
ghost use Rattle.forec_kernel.specs.Shapes.{plain_kernel};
ghost use Rattle.trace_farm.specs.Farm.{plain_report, with_number};
ghost use Rattle.trace_ticks.specs.Prints.{Prints, PrintsReport};
ghost use Rattle.trace_ticks.specs.Report.{Report};
ghost use Rattle.forec_engine.specs.Budgets.{IsSmallBudget, IsBoundless};
ghost use Rattle.forec_engine.specs.Ends.{AcceptedSo};
ghost use Rattle.forec_engine.specs.Farms.{TellsTexts, TellsFarm};
ghost use Rattle.forec_engine.specs.Farming.{told_all, AreRun, Unread, IsFarmReport, IsKernelFarm, IsNamedFarm, whole_report, reports_of};

use crate::answering::{budget_units, say_boundless};
use crate::farm_reports::{whole_status, write_groups};
use crate::farm_traces::{FARM_ROWS, Traces, TracesFault, read_traces};
use crate::programs::accepted_named;
use code_gen::generate;
use command_words::Budget;
use forec_base::{Gate, Sink, Texts};
use forec_kernel::Kernel;
use std::alloc::Global;
use std::sync::Wait;
use std::thread::Threads;
use trace_farm::{FarmReport, farm};
use trace_ticks::{Setting, Status};

/// What a farm is over: the names of the traces, and how many units a tick may have.
#[derive(Clone, Copy)]
pub struct Farmed<'a> {
    pub traces: &'a [&'a str],
    pub budget: Budget,
}

/// Prints what is told of the traces of these names, and gives the status of the whole. Nothing is printed where memory
/// runs out.
fn print_reports<K: Sink>(
    rt: &(impl Threads + Sync),
    alloc: Global,
    names: &[&str],
    reports: &[FarmReport],
    long: &[bool],
    out: &mut K,
) -> Status
    requires reports { length reports.now ≡ length names.now }
    requires long { length long.now ≡ length reports.now }
    ensures { (rs : List Report) → told_all long.now (map plain_report reports.now) ≡ map with_number rs → AreRun rs
        → PrintsReport K.held K.faults K.down (whole_report (map (λ n. n.now) names.now) rs) ⊥ out.old out.new result }
{
    let Ok(status) = whole_status(rt, alloc, reports, long) else {
        return Status::NoMemory;
    };
    match write_groups(out, names, reports, long) {
        Ok(()) => status,
        Err(_) => Status::WriteFault,
    }
}

/// Runs a kernel over traces of these names, with so many units a tick, and prints what is reported of each.
fn run_traces<K: Sink, G: Gate + Sync, R: Threads + Wait + Sync>(
    setting: &Setting<'_, G, R>,
    kernel: &Kernel,
    names: &[&str],
    units: u64,
    traces: &Traces,
    out: &mut K,
) -> Status
    requires small { units ≤ MAX_BUDGET }
    requires long { length traces.now.long.items ≡ length names.now }
    requires bytes { length traces.now.bytes.items ≡ length names.now }
    ensures { PrintsReport K.held K.faults K.down (whole_report (map (λ n. n.now) names.now) (reports_of (plain_kernel
        kernel.now) units traces.now.long.items (map (λ v. v.items) traces.now.bytes.items)))
        ⊥ out.old out.new result }
{
    let alloc = setting.alloc;
    let Ok(code) = generate(alloc, kernel) else {
        return Status::NoMemory;
    };
    // Its clause tells that the kernel is well formed.
    let _ = kernel.shape();
    let Ok(reports) = farm(
        setting.rt,
        alloc,
        &code,
        &traces.bytes,
        FARM_ROWS,
        units,
        setting.gate,
    ) else {
        return Status::NoMemory;
    };
    print_reports(setting.rt, alloc, names, &reports, &traces.long, out)
}

/// Reads the traces of these names, and runs a kernel over them with so many units a tick.
fn read_and_run<T: Texts, K: Sink, G: Gate + Sync, R: Threads + Wait + Sync>(
    setting: &Setting<'_, G, R>,
    kernel: &Kernel,
    names: &[&str],
    units: u64,
    texts: &mut T,
    out: &mut K,
) -> Status
    requires may { All (λ n. T.may texts.old n.now) names.now }
    requires small { units ≤ MAX_BUDGET }
    ensures prints { Prints K.held K.faults K.down (TellsTexts (T.content texts.old) (map (λ n. n.now) names.now))
        (IsFarmReport (T.content texts.old) (map (λ n. n.now) names.now) (plain_kernel kernel.now) units) ⊥
        (Unread T.faults T.down K.held texts.old texts.new out.old out.new) ⊥ out.old out.new result }
    ensures later { T.faults texts.old ≤ T.faults texts.new }
{
    match read_traces(setting.alloc, names, texts) {
        Ok(traces) => run_traces(setting, kernel, names, units, &traces, out),
        Err(TracesFault::Unread) => Status::ReadFault,
        Err(TracesFault::OutOfMemory) => Status::NoMemory,
    }
}

/// Runs a kernel over the traces, where the budget isn't a bound that there isn't.
fn farm_kernel<T: Texts, K: Sink, G: Gate + Sync, R: Threads + Wait + Sync>(
    setting: &Setting<'_, G, R>,
    kernel: &Kernel,
    farmed: Farmed<'_>,
    texts: &mut T,
    out: &mut K,
) -> Status
    requires may { All (λ n. T.may texts.old n.now) farmed.traces.now }
    requires small { IsSmallBudget farmed.budget }
    ensures { Prints K.held K.faults K.down (TellsTexts (T.content texts.old) (map (λ n. n.now)
        farmed.entry.traces.now))
        (IsKernelFarm (T.content texts.old) (map (λ n. n.now) farmed.entry.traces.now) farmed.entry.budget (plain_kernel
        kernel.now)) (IsBoundless (plain_kernel kernel.now) farmed.entry.budget)
        (Unread T.faults T.down K.held texts.old texts.new out.old out.new) ⊥ out.old out.new result }
{
    match budget_units(setting.alloc, kernel, farmed.budget) {
        Ok(Some(units)) => read_and_run(setting, kernel, farmed.traces, units, texts, out),
        Ok(None) => say_boundless(out),
        Err(_) => Status::NoMemory,
    }
}

/// Runs the program of a name over the traces. All texts are read, and all traces run, before anything is printed.
pub fn farm_named<T: Texts, K: Sink, G: Gate + Sync, R: Threads + Wait + Sync>(
    setting: &Setting<'_, G, R>,
    deepest: u64,
    name: &str,
    farmed: Farmed<'_>,
    texts: &mut T,
    out: &mut K,
) -> Status
    requires program { T.may texts.old name.now }
    requires may { All (λ n. T.may texts.old n.now) farmed.traces.now }
    requires small { IsSmallBudget farmed.budget }
    ensures { Prints K.held K.faults K.down (TellsFarm (T.content texts.old) name.now (map (λ n. n.now)
        farmed.entry.traces.now))
        (IsNamedFarm (T.content texts.old) name.now (map (λ n. n.now) farmed.entry.traces.now) farmed.entry.budget)
        (IfSome (T.content texts.old name.now) (AcceptedSo (λ k. IsBoundless k farmed.entry.budget)))
        (Unread T.faults T.down K.held texts.old texts.new out.old out.new) ⊥ out.old out.new result }
{
    match accepted_named(setting.alloc, deepest, name, texts, out) {
        Ok(accepted) => farm_kernel(setting, &accepted.kernel, farmed, texts, out),
        Err(end) => end,
    }
}
