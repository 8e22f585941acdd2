//! The loop over the rows of a trace.
ghost use Rattle.std.specs.Prelude.{◌≡◌, ◌≢◌, ◌≤◌, ◌++◌, true, false, List, ℕ, OnOk, OnErr, IfSome, [], length};
ghost use Rattle.std.specs.Io.KnownBytes.{Appends, IsAtEnd};
ghost use Rattle.forec_base.specs.Outside.{Fell};
ghost use Rattle.forec_kernel.specs.Shapes.{PlainKernel};
ghost use Rattle.trace_rows.specs.Calls.{IfTold, Faults};
ghost use Rattle.trace_rows.specs.Reader.{HasLine};
ghost use Rattle.trace_rows.specs.SourceReads.{ReadsBytes};
ghost use Rattle.whole_writes.specs.Calls.{AppendsFront};
ghost use Rattle.trace_ticks.specs.Ends.{IsOwn};
ghost use Rattle.trace_ticks.specs.Led.{RunsRows};
ghost use Rattle.trace_ticks.specs.Report.{status_after, trace_turns};
ghost use Rattle.trace_ticks.specs.Progress.{Led, GoesOnFrom, IsWholeReport, IsReportFront, report_rest};
ghost use Rattle.trace_ticks.specs.Sessions.{IsSessionOf, AreRowsOf};
ghost use Rattle.trace_ticks.specs.Ticking.{Starts};
ghost use Rattle.trace_ticks.specs.WaitingRoom.{HasTickRoom};

use crate::session::Session;
use crate::setting::Company;
use crate::status::Status;
use crate::ticker::Ticker;
use crate::waiting::Waiting;
use core_seats::Serve;
use forec_base::{Failed, Gate, Sink, Source};
use forec_kernel::Outcome;
use std::alloc::Global;
use std::sync::Wait;
use trace_rows::{Next, RowFault, Rows};

/// Writes the lines that wait, where a read of the trace comes next, or the lines of a further tick don't fit. At an
/// `Err` a front of them is written.
pub fn send_due<K: Sink>(rows: &Rows, waiting: &mut Waiting, out: &mut K) -> Result<(), Failed>
    ensures ok { OnOk result ((sent : List ℕ) × Appends (K.held out.old) (K.held out.new) sent
        × (waiting.old.bytes.items ≡ sent ++ waiting.new.bytes.items)) }
    ensures all { OnOk result ((HasLine rows.now.held → ⊥) → waiting.new.bytes.items ≡ []) }
    ensures fits { OnOk result (HasTickRoom waiting.new) }
    ensures format { waiting.new.format ≡ waiting.old.format }
    ensures err { OnErr result (AppendsFront (K.held out.old) (K.held out.new) waiting.old.bytes.items) }
    ensures cause { Faults (K.faults out.old) (K.faults out.new) (K.down out.new) result }
{
    if rows.has_line() && waiting.has_room() {
        return Ok(());
    }
    waiting.flush(out)
}

/// The status of a run whose last tick went so.
pub fn last_status(outcome: Outcome) -> Status
    ensures { result ≡ status_after outcome }
{
    match outcome {
        Outcome::Paused | Outcome::Ended => Status::Done,
        Outcome::Trapped { .. } => Status::Trapped,
        Outcome::Over => Status::Over,
    }
}

/// Runs a program over the rows that are left, up to where it stops. The last lines wait then, unless a stream
/// failed: `Session::waiting` has them. No read of the trace is made while the line of a tick waits.
fn run_rows<S: Source, K: Sink, T: Ticker, O: Serve, G: Gate, R: Wait>(
    company: &mut Company<'_, O, G, R>,
    ticker: &mut T,
    session: &mut Session,
    rows: &mut Rows,
    trace: &mut S,
    out: &mut K,
) -> Status
    requires session { IsSessionOf (T.shape ticker.old) session.old }
    requires going { T.live ticker.old }
    requires rows { AreRowsOf session.old rows.old }
    requires ended { rows.old.ended ≡ true → IsAtEnd (S.left trace.old) }
    ensures own { IsOwn result → (k : PlainKernel) → Starts (T.shape ticker.old) (T.follows ticker.old) k
        → IfSome (S.left trace.old)
        (IsWholeReport session.old.waiting.format k session.old.budget rows.old (T.follows ticker.new k)
        (K.held out.old) (K.held out.new) session.new.waiting.bytes.items result) }
    ensures read { result ≡ Status.ReadFault → Fell (S.faults trace.old) (S.faults trace.new) (S.down trace.new) }
    ensures wanted { result ≡ Status.ReadFault → (k : PlainKernel)
        → Starts (T.shape ticker.old) (T.follows ticker.old) k
        → (bytes : List ℕ) × Appends (K.held out.old) (K.held out.new) bytes
        × IfTold (S.left trace.old) (S.left trace.new)
        (Led session.old.waiting.format k session.old.budget rows.old bytes) }
    ensures write { result ≡ Status.WriteFault → Fell (K.faults out.old) (K.faults out.new) (K.down out.new) }
    ensures front { result ≡ Status.WriteFault → (k : PlainKernel)
        → Starts (T.shape ticker.old) (T.follows ticker.old) k
        → IfSome (S.left trace.old)
        (λ x. AppendsFront (K.held out.old) (K.held out.new)
        (report_rest session.old.waiting.format k session.old.budget rows.old x).bytes) }
    ensures ready { result ≡ Status.NoMemory → T.ready ticker.old ≡ false }
    ensures memory { result ≡ Status.NoMemory → (k : PlainKernel) → Starts (T.shape ticker.old) (T.follows ticker.old) k
        → IfSome (S.left trace.old)
        (IsReportFront session.old.waiting.format k session.old.budget rows.old (K.held out.old) (K.held out.new)
        session.new.waiting.bytes.items) }
    ensures trace { (k : PlainKernel) → Starts (T.shape ticker.old) (T.follows ticker.old) k
        → (given : List ℕ)
        × ReadsBytes S.left S.faults S.down (GoesOnFrom session.old.waiting.format k session.old.budget rows.old)
        trace.old given trace.new }
    ensures later { K.faults out.old ≤ K.faults out.new }
    ensures usage { result ≢ Status.Usage }
{
    let budget = session.budget;
    let mut row = 1;
    'ticks: loop {
        if let Err(_) = send_due(rows, &mut session.waiting, out) {
            return Status::WriteFault;
        }
        match rows.next(trace, &mut session.image.inputs) {
            Ok(Next::Row) => {}
            Ok(Next::End) => {
                session.waiting.put_rows(row - 1);
                return Status::Done;
            }
            Err(fault) => match fault {
                RowFault::ReadFault => return Status::ReadFault,
                _ => {
                    session.waiting.put_row(row, fault);
                    return Status::Trace;
                }
            },
        }
        let image = &mut session.image;
        let Ok(outcome) = ticker.tick(company, &image.inputs, budget, &mut image.outputs) else {
            return Status::NoMemory;
        };
        session
            .waiting
            .put_outcome(row, outcome, &session.image.outputs, budget);
        match outcome {
            Outcome::Paused => row += 1,
            _ => return last_status(outcome),
        }
    }
}

/// Reads the header, and runs a program over the rows. Nothing was run before.
///
/// What is said of the report holds for each kernel that the ticker runs. Where the status is the report's own, the
/// ticker has run the ticks of the trace, and no others.
pub fn run<S: Source, K: Sink, T: Ticker, O: Serve, G: Gate, R: Wait>(
    alloc: Global,
    company: &mut Company<'_, O, G, R>,
    ticker: &mut T,
    session: &mut Session,
    trace: &mut S,
    out: &mut K,
) -> Status
    requires session { IsSessionOf (T.shape ticker.old) session.old }
    requires going { T.live ticker.old }
    ensures runs { (k : PlainKernel) → Starts (T.shape ticker.old) (T.follows ticker.old) k
        → RunsRows S.left S.faults S.down K.held K.faults K.down session.old.limit session.old.waiting.format k
        session.old.budget
        (T.ready ticker.old ≡ false)
        trace.old trace.new out.old out.new result }
    ensures ran { IsOwn result → (k : PlainKernel) → Starts (T.shape ticker.old) (T.follows ticker.old) k
        → IfSome (S.left trace.old) (λ x. T.follows ticker.new k (trace_turns session.old.limit k session.old.budget
        x)) }
{
    match Rows::start(alloc, trace, &session.inputs, session.limit) {
        Ok(mut rows) => match run_rows(company, ticker, session, &mut rows, trace, out) {
            Status::ReadFault => Status::ReadFault,
            Status::WriteFault => Status::WriteFault,
            Status::NoMemory => match session.waiting.flush(out) {
                Ok(()) => Status::NoMemory,
                Err(_) => Status::WriteFault,
            },
            status => session.waiting.finish(out, status),
        },
        Err(fault) => match fault {
            RowFault::OutOfMemory => Status::NoMemory,
            RowFault::ReadFault => Status::ReadFault,
            _ => {
                session.waiting.put_row(0, fault);
                session.waiting.finish(out, Status::Trace)
            }
        },
    }
}
