//! Runs with the threads placed on cores: by hosts, or on one core alone.

ghost use Rattle.forec_base.specs.declared.limits.TheConstants.{MAX_BUDGET};
ghost use Rattle.std.specs.Prelude.{◌≡◌, ◌≤◌, length, true, IfOk, OnErr};
ghost use Rattle.forec_kernel.specs.Shapes.{plain_kernel};
ghost use Rattle.thread_code.specs.Plain.{plain_code};
ghost use Rattle.core_alloc.specs.Places.{is_on_one_core};
ghost use Rattle.board_hosts.specs.Boards.{ArePorts};
ghost use Rattle.core_bells.specs.Ropes.{new_ropes};
ghost use Rattle.trace_ticks.specs.Following.{DidForEach};
ghost use Rattle.trace_ticks.specs.KernelNames.{run_format};
ghost use Rattle.trace_ticks.specs.Led.{RunsRows};
ghost use Rattle.trace_ticks.specs.Prints.{PrintsReport};
ghost use Rattle.trace_ticks.specs.Workload.{ticked_report};

use board_hosts::{Hosts, board_of, hosts_of};
use code_gen::generate;
use core_alloc::Placement;
use core_bells::{Bells, GivesRopes};
use core_seats::ForecWork;
use forec_base::{Gate, MAX_ROWS, OutOfMemory, Sink, Source};
use forec_kernel::Kernel;
use one_core::OneCore;
use slot_board::{GivesPorts, SlotBoard};
use std::sync::Wait;
use std::thread::Threads;
use thread_code::Code;
use trace_tickers::{OnOneCore, lead_hosts};
use trace_ticks::{
    Company, Lead, Nobody, Session, Setting, Status, Telling, TraceRun, WorkloadRun,
};

/// Leads by the hosts of a code, over a board and bells that gave out nothing yet.
///
/// # Errors
///
/// Out of memory. Then nothing was done.
fn lead_over<'b, 'c, J: Lead, G: Gate + Sync, R: Threads + Wait + Sync>(
    setting: &Setting<'_, G, R>,
    code: &'c Code,
    placement: &Placement,
    board: &'b mut SlotBoard<ForecWork>,
    bells: &'c mut Bells,
    job: &mut J,
) -> Result<Status, OutOfMemory>
    requires whole { ⟦<SlotBoard<ForecWork> as GivesPorts<ForecWork>>⟧.is_whole board.old }
    requires ports { ArePorts code.now placement.now (⟦<SlotBoard<ForecWork> as GivesPorts<ForecWork>>⟧.ports
        board.old) }
    requires bells { ⟦<Bells as GivesRopes>⟧.is_whole bells.old }
    requires ropes { ⟦<Bells as GivesRopes>⟧.ropes bells.old ≡ new_ropes code.now placement.now placement.now.cores }
    requires can { J.can job.old (plain_code code.now).shape }
    ensures ok { IfOk result (DidForEach (plain_code code.now) (J.did job.old job.new)) }
    ensures err { OnErr result (job.new ≡ job.old) }
{
    let Hosts { root, others } = hosts_of(setting.alloc, code, placement, board, bells)?;
    lead_hosts(setting, root, others, job)
}

/// Makes all that the hosts of several cores share, and leads by them.
///
/// # Errors
///
/// Out of memory. Then nothing was done.
fn lead_on_cores<J: Lead, G: Gate + Sync, R: Threads + Wait + Sync>(
    setting: &Setting<'_, G, R>,
    code: &Code,
    placement: &Placement,
    job: &mut J,
) -> Result<Status, OutOfMemory>
    requires placed { length placement.now.places ≡ length (plain_code code.now).threads }
    requires can { J.can job.old (plain_code code.now).shape }
    ensures ok { IfOk result (DidForEach (plain_code code.now) (J.did job.old job.new)) }
    ensures err { OnErr result (job.new ≡ job.old) }
{
    let mut board = board_of(setting.alloc, code, placement)?;
    let mut bells = Bells::new(setting.alloc, code, placement)?;
    lead_over(setting, code, placement, &mut board, &mut bells, job)
}

/// Leads by all threads of a code on one core, with nobody beside. The placement says on which.
///
/// # Errors
///
/// Out of memory. Then nothing was done.
fn lead_alone<J: Lead, G: Gate, R: Wait>(
    setting: &Setting<'_, G, R>,
    code: &Code,
    placement: &Placement,
    job: &mut J,
) -> Result<Status, OutOfMemory>
    requires placed { length placement.now.places ≡ length (plain_code code.now).threads }
    requires one { is_on_one_core placement.now.places ≡ true }
    requires can { J.can job.old (plain_code code.now).shape }
    ensures ok { IfOk result (DidForEach (plain_code code.now) (J.did job.old job.new)) }
    ensures err { OnErr result (job.new ≡ job.old) }
{
    let core = OneCore::load(setting.alloc, code, placement)?;
    let mut one = OnOneCore { core };
    let mut company = Company {
        rt: setting.rt,
        gate: setting.gate,
        others: &mut Nobody,
    };
    Ok(job.lead(&mut company, &mut one))
}

/// Makes a code of a kernel, and leads by its threads: all on one core where they have the same one, else by hosts.
///
/// # Errors
///
/// Out of memory. Then nothing was done.
fn lead_placed<J: Lead, G: Gate + Sync, R: Threads + Wait + Sync>(
    setting: &Setting<'_, G, R>,
    kernel: &Kernel,
    placement: &Placement,
    job: &mut J,
) -> Result<Status, OutOfMemory>
    requires placed { length placement.now.places ≡ length (plain_kernel kernel.now).threads }
    requires can { J.can job.old (plain_kernel kernel.now).shape }
    ensures ok { IfOk result (J.did job.old job.new (plain_kernel kernel.now)) }
    ensures err { OnErr result (job.new ≡ job.old) }
{
    let code = generate(setting.alloc, kernel)?;
    // Their clauses tell that the kernel is well formed, and the code valid.
    let _ = kernel.shape();
    let _ = code.shape();
    if placement.has_one_core() {
        return lead_alone(setting, &code, placement, job);
    }
    lead_on_cores(setting, &code, placement, job)
}

/// Runs a kernel over a trace, with the threads placed so, and writes what is told of it. A tick may have so many units.
pub fn host_trace<S: Source, K: Sink, G: Gate + Sync, R: Threads + Wait + Sync>(
    setting: &Setting<'_, G, R>,
    kernel: &Kernel,
    placement: &Placement,
    telling: Telling,
    budget: u64,
    trace: &mut S,
    out: &mut K,
) -> Status
    requires placed { length placement.now.places ≡ length (plain_kernel kernel.now).threads }
    requires small { budget ≤ MAX_BUDGET }
    ensures { RunsRows S.left S.faults S.down K.held K.faults K.down MAX_ROWS
        (run_format telling (plain_kernel kernel.now)) (plain_kernel kernel.now) budget ⊥ trace.old trace.new out.old
        out.new result }
{
    let alloc = setting.alloc;
    let Ok(mut session) = Session::new(alloc, kernel.shape(), telling, budget, MAX_ROWS) else {
        return Status::NoMemory;
    };
    let mut job = TraceRun {
        alloc,
        session: &mut session,
        trace,
        out,
    };
    match lead_placed(setting, kernel, placement, &mut job) {
        Ok(status) => status,
        Err(_) => Status::NoMemory,
    }
}

/// Runs a workload of so many threads, with the threads of its kernel placed so. A tick may have so many units.
pub fn host_workload<K: Sink, G: Gate + Sync, R: Threads + Wait + Sync>(
    setting: &Setting<'_, G, R>,
    kernel: &Kernel,
    placement: &Placement,
    threads: u32,
    budget: u64,
    out: &mut K,
) -> Status
    requires placed { length placement.now.places ≡ length (plain_kernel kernel.now).threads }
    requires small { budget ≤ MAX_BUDGET }
    ensures { PrintsReport K.held K.faults K.down (ticked_report threads (plain_kernel kernel.now) budget)
        ⊥ out.old out.new result }
{
    let Ok(mut session) = Session::new(
        setting.alloc,
        kernel.shape(),
        Telling::Report,
        budget,
        MAX_ROWS,
    ) else {
        return Status::NoMemory;
    };
    let mut job = WorkloadRun {
        threads,
        session: &mut session,
        out,
    };
    match lead_placed(setting, kernel, placement, &mut job) {
        Ok(status) => status,
        Err(_) => Status::NoMemory,
    }
}
