//! Runs by rewriting.

ghost use Rattle.std.specs.Prelude.{◌≤◌, ⊤};
ghost use Rattle.forec_base.specs.declared.limits.TheConstants.{MAX_BUDGET};
ghost use Rattle.forec_kernel.specs.Shapes.{plain_kernel};
ghost use Rattle.trace_ticks.specs.KernelNames.{run_format};
ghost use Rattle.trace_ticks.specs.Led.{RunsRows};

use forec_base::{Gate, MAX_ROWS, Sink, Source};
use forec_kernel::Kernel;
use std::sync::Wait;
use trace_tickers::Rewriter;
use trace_ticks::{Company, Nobody, Session, Setting, Status, Telling, run};

/// Runs a kernel over a trace by rewriting its texts, each tick in the order of steps with this number, and writes what
/// is told of it. A tick may have so many units.
pub fn rewrite_trace<S: Source, K: Sink, G: Gate, R: Wait>(
    setting: &Setting<'_, G, R>,
    kernel: &Kernel,
    order: u32,
    telling: Telling,
    budget: u64,
    trace: &mut S,
    out: &mut K,
) -> Status
    requires { budget ≤ MAX_BUDGET }
    ensures { RunsRows S.left S.faults S.down K.held K.faults K.down MAX_ROWS
        (run_format telling (plain_kernel kernel.now)) (plain_kernel kernel.now) budget ⊤ trace.old trace.new out.old
        out.new result }
{
    let alloc = setting.alloc;
    let Ok(mut session) = Session::new(alloc, kernel.shape(), telling, budget, MAX_ROWS) else {
        return Status::NoMemory;
    };
    let Ok(mut rewriter) = Rewriter::new(alloc, kernel, order) else {
        return Status::NoMemory;
    };
    let mut company = Company {
        rt: setting.rt,
        gate: setting.gate,
        others: &mut Nobody,
    };
    run(alloc, &mut company, &mut rewriter, &mut session, trace, out)
}
