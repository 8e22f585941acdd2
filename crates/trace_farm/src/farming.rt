//! What the runs of a code over traces have in common, and one of them.

ghost use Rattle.std.specs.Prelude.{◌≡◌, ◌≤◌, length, IfOk};
ghost use Rattle.forec_base.specs.declared.limits.TheConstants.{MAX_BUDGET, MAX_ROWS};
ghost use Rattle.forec_kernel.specs.Shapes.{PlainKernel};
ghost use Rattle.forec_kernel.specs.WellFormed.{WellFormed};
ghost use Rattle.thread_code.specs.Alone.{Stands};
ghost use Rattle.thread_code.specs.Plain.{plain_code};
ghost use Rattle.trace_farm.specs.Farm.{IsFreshHost, IsPlacedFor, IsReportOf};

use crate::farm_report::FarmReport;
use crate::report_sink::ReportSink;
use crate::slice_source::SliceSource;
use copy_slots::LocalPort;
use core_alloc::{Placement, balance};
use core_host::Host;
use core_seats::{ForecWork, local_port};
use forec_base::{Gate, OutOfMemory};
use std::alloc::Global;
use std::sync::Wait;
use thread_code::Code;
use trace_tickers::Alone;
use trace_ticks::{Company, Nobody, Session, Telling, run};

/// The lines after those of the ticks take so many bytes at most.
const LAST_LINES: usize = 128;

/// What the runs of a code over traces have in common: the allocator, its threads on one core, the most rows of a trace
/// that are run, the most units of a tick, and how many bytes the line of a tick takes at most.
#[derive(Drop)]
pub struct Plan {
    pub alloc: Global,
    pub placement: Placement,
    pub rows: u64,
    pub budget: u64,
    pub line: usize,
    ghost one: { placement.cores ≡ 1 },
    ghost few: { rows ≤ MAX_ROWS },
    ghost small: { budget ≤ MAX_BUDGET },
}

/// All threads of a code on one core.
///
/// # Errors
///
/// Out of memory.
fn on_one_core(alloc: Global, code: &Code) -> Result<Placement, OutOfMemory>
    ensures placed { IfOk result (IsPlacedFor (plain_code code.now)) }
    ensures one { IfOk result (λ p. p.cores ≡ 1) }
{
    // Its clause tells that the code is valid, so that there are few threads.
    let _ = code.shape();
    let weights = vec![in alloc; 0u64; code.parts().threads.len()]?;
    balance(alloc, &weights, 1)
}

/// The bytes that the report of a trace takes at most, where the line of a tick takes so many: each row but the last
/// ends with byte 10, and so does the header.
fn report_room(trace: &[u8], rows: u64, line: usize) -> usize {
    let ends = trace.iter().filter(|byte| **byte == 10).count();
    let rows = usize::try_from(rows).unwrap_or(usize::MAX);
    let ticks = ends.saturating_add(1).min(rows);
    ticks.saturating_mul(line).saturating_add(LAST_LINES)
}

/// A host with all threads of a code, which has run nothing.
///
/// # Errors
///
/// Out of memory.
fn fresh_host<'c>(
    alloc: Global,
    code: &'c Code,
    placement: &Placement,
) -> Result<Host<'c, LocalPort<ForecWork>>, OutOfMemory>
    requires placed { IsPlacedFor (plain_code code.now) placement.now }
    requires one { placement.now.cores ≡ 1 }
    ensures { IfOk result (IsFreshHost code.now) }
{
    let port = local_port(alloc, code)?;
    Host::load(alloc, code, placement, &[0], port)
}

impl Plan {
    /// The runs of a code, of a trace at most so many rows, with at most so many units a tick.
    ///
    /// # Errors
    ///
    /// Out of memory.
    pub fn new(alloc: Global, code: &Code, rows: u64, budget: u64) -> Result<Plan, OutOfMemory>
        requires few { rows ≤ MAX_ROWS }
        requires small { budget ≤ MAX_BUDGET }
        ensures placed { IfOk result (λ p. IsPlacedFor (plain_code code.now) p.placement) }
        ensures rows { IfOk result (λ p. p.rows ≡ rows) }
        ensures budget { IfOk result (λ p. p.budget ≡ budget) }
    {
        let placement = on_one_core(alloc, code)?;
        let session = Session::new(alloc, code.shape(), Telling::Report, budget, rows)?;
        Ok(Plan {
            alloc,
            placement,
            rows,
            budget,
            line: session.waiting.line.len(),
        })
    }

    /// The bytes that the traces and their reports take at most.
    pub fn lists_bytes(&self, traces: &[Vec<u8>]) -> u64 {
        let mut all = 0u64;
        for trace in traces {
            let room = report_room(trace, self.rows, self.line);
            all = all
                .saturating_add(trace.len() as u64)
                .saturating_add(room as u64);
        }
        all
    }

    /// Runs the code over a trace, by a host of its own.
    ///
    /// # Errors
    ///
    /// Out of memory.
    pub fn report<G: Gate, R: Wait>(
        &self,
        rt: &R,
        code: &Code,
        gate: &G,
        trace: &[u8],
    ) -> Result<FarmReport, OutOfMemory>
        requires { IsPlacedFor (plain_code code.now) self.now.placement }
        ensures { (k : PlainKernel) → WellFormed k → Stands (plain_code code.now) k
            → IfOk result (IsReportOf self.now.rows k self.now.budget trace.now) }
    {
        let alloc = self.alloc;
        let room = report_room(trace, self.rows, self.line);
        let mut out = ReportSink::new(alloc, room)?;
        let mut session = Session::new(
            alloc,
            code.shape(),
            Telling::Report,
            self.budget,
            self.rows,
        )?;
        let host = fresh_host(alloc, code, &self.placement)?;
        let mut ticker = Alone { host };
        let mut source = SliceSource::new(trace);
        let mut company = Company {
            rt,
            gate,
            others: &mut Nobody,
        };
        let status = run(
            alloc,
            &mut company,
            &mut ticker,
            &mut session,
            &mut source,
            &mut out,
        );
        out.bytes.shrink_to_fit();
        FarmReport::of(out.bytes, status)
    }
}
