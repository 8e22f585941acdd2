//! Many traces at once, by halves.

ghost use Rattle.std.specs.Prelude.{◌≡◌, ◌≤◌, ◌++◌, IfOk, IsOkAnd};
ghost use Rattle.std.specs.Thread.{IsSync};
ghost use Rattle.forec_base.specs.declared.limits.TheConstants.{MAX_BUDGET, MAX_ROWS};
ghost use Rattle.thread_code.specs.Plain.{plain_code};
ghost use Rattle.trace_farm.specs.Farm.{IsPlacedFor, AreReportsFor};

use crate::farm_report::FarmReport;
use crate::farming::Plan;
use crate::width::runs_beside;
use forec_base::{Gate, OutOfMemory};
use std::alloc::Global;
use std::sync::Wait;
use std::thread::{Threads, join};
use thread_code::Code;

/// The reports of the traces, one after the other.
fn one_by_one<G: Gate, R: Wait>(
    rt: &R,
    code: &Code,
    plan: &Plan,
    traces: &[Vec<u8>],
    gate: &G,
) -> Result<Vec<FarmReport>, OutOfMemory>
    requires { IsPlacedFor (plain_code code.now) plan.now.placement }
    ensures { IfOk result (λ rs. AreReportsFor (plain_code code.now) plan.now.rows plan.now.budget traces.now
        rs.items) }
{
    let mut reports = Vec::new(plan.alloc);
    for trace in traces {
        reports.push(plan.report(rt, code, gate, trace)?)?;
    }
    Ok(reports)
}

/// The reports of two parts, in order.
fn both(
    front: Result<Vec<FarmReport>, OutOfMemory>,
    back: Result<Vec<FarmReport>, OutOfMemory>,
) -> Result<Vec<FarmReport>, OutOfMemory>
    ensures { IfOk result (λ rs. IsOkAnd front (λ fs. IsOkAnd back (λ bs. rs.items ≡ fs.items ++ bs.items))) }
{
    let mut reports = front?;
    let mut more = back?;
    reports.append(&mut more)?;
    Ok(reports)
}

/// The reports of the traces, in order, where so many may be run beside each other.
fn by_halves<G: Gate + Sync, R: Threads + Wait + Sync>(
    rt: &R,
    code: &Code,
    plan: &Plan,
    traces: &[Vec<u8>],
    gate: &G,
    beside: u64,
) -> Result<Vec<FarmReport>, OutOfMemory>
    requires { IsPlacedFor (plain_code code.now) plan.now.placement }
    ensures { IfOk result (λ rs. AreReportsFor (plain_code code.now) plan.now.rows plan.now.budget traces.now
        rs.items) }
{
    if traces.len() < 2 || beside < 2 {
        return one_by_one(rt, code, plan, traces, gate);
    }
    let (front, back) = traces.split_at(traces.len() / 2);
    let half = beside / 2;
    let (first, second) = join(
        rt,
        || -> Result<Vec<FarmReport>, OutOfMemory>
            requires { IsSync R.row × IsSync G.row × IsPlacedFor (plain_code code.now) plan.now.placement }
            ensures { IfOk result (λ rs. AreReportsFor (plain_code code.entry.now) plan.entry.now.rows
                plan.entry.now.budget front.entry.now rs.items) }
        { by_halves(rt, code, plan, front, gate, half) },
        || -> Result<Vec<FarmReport>, OutOfMemory>
            requires { IsSync R.row × IsSync G.row × IsPlacedFor (plain_code code.now) plan.now.placement }
            ensures { IfOk result (λ rs. AreReportsFor (plain_code code.entry.now) plan.entry.now.rows
                plan.entry.now.budget back.entry.now rs.items) }
        { by_halves(rt, code, plan, back, gate, half) },
    );
    both(first, second)
}

/// Runs a code over each of the traces, of which at most `rows` rows each, with at most `budget` units a tick. There is
/// one report a trace, in the order of the traces: what a run over that trace writes, and the number of its status.
///
/// Where threads are to be had, traces are run beside each other, each by a host of its own that has all threads of the
/// code; where hosts take much memory fewer are, down to one after the other. The cores pass the gate.
///
/// # Errors
///
/// Out of memory, also where the code, the traces, the reports and one run would take more than there is to be; nothing
/// was run then.
pub fn farm<G: Gate + Sync, R: Threads + Wait + Sync>(
    rt: &R,
    alloc: Global,
    code: &Code,
    traces: &[Vec<u8>],
    rows: u64,
    budget: u64,
    gate: &G,
) -> Result<Vec<FarmReport>, OutOfMemory>
    requires rows { rows ≤ MAX_ROWS }
    requires small { budget ≤ MAX_BUDGET }
    ensures { IfOk result (λ rs. AreReportsFor (plain_code code.now) rows budget traces.now rs.items) }
{
    let plan = Plan::new(alloc, code, rows, budget)?;
    match runs_beside(code.parts(), plan.lists_bytes(traces)) {
        Some(beside) => by_halves(rt, code, &plan, traces, gate, beside),
        None => Err(OutOfMemory),
    }
}
