//! Replays of a log over a trace.

ghost use Rattle.std.specs.Prelude.{◌≡◌, ◌≢◌, ◌≤◌, ◌++◌, ℕ, List, [], codes, true, IfSome, Ok, Some, None};
ghost use Rattle.std.specs.Io.KnownBytes.{Appends, IsAtEnd};
ghost use Rattle.forec_base.specs.Outside.{Fell};
ghost use Rattle.forec_base.specs.declared.limits.TheConstants.{MAX_BUDGET, MAX_ROWS};
ghost use Rattle.forec_kernel.specs.Shapes.{PlainKernel, plain_kernel};
ghost use Rattle.forec_kernel.specs.WellFormed.{WellFormed};
ghost use Rattle.thread_code.specs.Alone.{CodeAlone, Stands};
ghost use Rattle.thread_code.specs.Plain.{plain_code};
ghost use Rattle.exchange_meaning.specs.Logged.{ExchangeLog};
ghost use Rattle.exchange_meaning.specs.Replays.{AllAgree};
ghost use Rattle.log_text.specs.ReadLogs.{IsLogFor, IsReadFrom, HasPairs};
ghost use Rattle.exchange_replay.specs.Rooted.{HasReplayed};
ghost use Rattle.trace_rows.specs.Calls.{IfTold};
ghost use Rattle.trace_rows.specs.SourceReads.{ReadsBytes};
ghost use Rattle.trace_ticks.specs.Ends.{IsOwn, Wanted};
ghost use Rattle.trace_ticks.specs.Prints.{PrintsReport};
ghost use Rattle.trace_ticks.specs.Progress.{Led, report_rest, turns_rest};
ghost use Rattle.trace_ticks.specs.Report.{trace_report, trace_turns};
ghost use Rattle.trace_ticks.specs.Sessions.{AreRowsOf, IsSessionOf};
ghost use Rattle.trace_ticks.specs.WaitingRoom.{HasRoomFor, GainsBytes};
ghost use Rattle.log_runs.specs.ReplayRuns.{ReplaysRows, FailsLastIn, difference_line, differing, no_log};
ghost use Rattle.log_runs.specs.RootWalks.{IsHeldTo, WalkedTo, EndsBy, ComesRun, GivenRuns, MayRead, MayReadFrom};
ghost use Rattle.log_runs.specs.declared.replaying.Walked.TheVariants as walked;

use code_gen::generate;
use exchange_replay::{Replay, Replayer, Step, replay_thread};
use forec_base::{MAX_ROWS, OutOfMemory, Sink, Source};
use forec_kernel::{Kernel, Outcome};
use log_text::{Log, LogFault};
use std::alloc::Global;
use thread_code::Code;
use trace_rows::{Next, RowFault, Rows};
use trace_ticks::{Session, Status, Telling, Waiting, last_status, send_due};

/// The most bytes of a log that is replayed.
pub const MAX_LOG_BYTES: usize = 134_217_728;

/// Where a log isn't what a thread does: the thread, and its job or its tick, from 1.
#[derive(Clone, Copy)]
struct Difference {
    thread: u32,
    number: u64,
}

/// How far thread 0 was replayed over a trace.
#[derive(Clone, Copy)]
enum Walked {
    /// To the end of the run, which had so many ticks and ended so. The last lines of its report wait.
    Whole { ticks: u64, end: Status },
    /// To the tick of this number, which differs.
    Differs { tick: u64 },
    /// To where a stream failed.
    Failed { end: Status },
}

/// The first difference of the threads but thread 0, from the last one to the first.
///
/// # Errors
///
/// Out of memory.
fn first_difference(
    alloc: Global,
    code: &Code,
    log: &Log,
) -> Result<Option<Difference>, OutOfMemory>
    requires { IsLogFor (plain_code code.now).shape log.now }
    ensures none { result ≡ Ok None → (pairs : ExchangeLog) → HasPairs (plain_code code.now).shape log.now pairs
        → AllAgree (CodeAlone (plain_code code.now)) (plain_code code.now).shape pairs }
    ensures some { (t number : ℕ) → result ≡ Ok (Some (record { thread = t; number = number })) → (pairs : ExchangeLog)
        → HasPairs (plain_code code.now).shape log.now pairs → FailsLastIn (plain_code code.now) pairs t number }
{
    let mut thread = (code.shape().threads.len() - 1) as u32;
    while thread > 0 {
        match replay_thread(alloc, code, log, thread)? {
            Replay::Same => thread -= 1,
            Replay::Differs { job } => {
                return Ok(Some(Difference {
                    thread,
                    number: job,
                }));
            }
        }
    }
    Ok(None)
}

/// Adds the line of a difference.
fn put_difference(waiting: &mut Waiting, at: Difference)
    requires { HasRoomFor waiting.old 64 }
    ensures { GainsBytes waiting.old waiting.new (difference_line at.thread at.number) }
{
    waiting.put(b"replay differs ");
    waiting.put_number(u64::from(at.thread));
    waiting.put(b" ");
    waiting.put_number(at.number);
    waiting.put(b"\n");
}

/// Writes what waits, and then the line of a difference.
fn say_difference<K: Sink>(waiting: &mut Waiting, at: Difference, out: &mut K) -> Status
    ensures says { PrintsReport K.held K.faults K.down (differing waiting.old.bytes.items at.thread at.number)
        (Status.Refused ≡ Status.Usage)
        out.old out.new result }
    ensures memory { result ≢ Status.NoMemory }
{
    if let Err(_) = waiting.flush(out) {
        return Status::WriteFault;
    }
    put_difference(waiting, at);
    waiting.finish(out, Status::Refused)
}

/// Writes what waits, and then that the log is the run's, which ended so.
fn say_same<K: Sink>(waiting: &mut Waiting, end: Status, out: &mut K) -> Status
    requires { IsOwn end }
    ensures says { PrintsReport K.held K.faults K.down
        (record { bytes = waiting.old.bytes.items ++ codes "replay ok\n"; status = end })
        (end ≡ Status.Usage)
        out.old out.new result }
    ensures memory { result ≢ Status.NoMemory }
{
    if let Err(_) = waiting.flush(out) {
        return Status::WriteFault;
    }
    waiting.put(b"replay ok\n");
    waiting.finish(out, end)
}

/// Says which line of a text is the first that with those before it begins no log.
fn say_no_log<K: Sink>(alloc: Global, line: u64, out: &mut K) -> Status
    ensures { PrintsReport K.held K.faults K.down (no_log line) (Status.Refused ≡ Status.Usage) out.old out.new result }
{
    let Ok(mut waiting) = Waiting::plain(alloc) else {
        return Status::NoMemory;
    };
    waiting.put(b"refused log ");
    waiting.put_number(line);
    waiting.put(b"\n");
    waiting.finish(out, Status::Refused)
}

/// Replays thread 0 over the rows that are left. No read of the trace is made while the line of a tick waits.
fn replay_rows<S: Source, K: Sink>(
    replayer: &mut Replayer,
    code: &Code,
    log: &Log,
    session: &mut Session,
    rows: &mut Rows,
    trace: &mut S,
    out: &mut K,
) -> Walked
    requires session { IsSessionOf (plain_code code.now).shape session.old }
    requires log { IsLogFor (plain_code code.now).shape log.now }
    requires fresh { (pairs : ExchangeLog) → HasPairs (plain_code code.now).shape log.now pairs
        → HasReplayed (plain_code code.now) log.now pairs replayer.old [] }
    requires live { replayer.old.live ≡ true }
    requires rows { AreRowsOf session.old rows.old }
    requires ended { rows.old.ended ≡ true → IsAtEnd (S.left trace.old) }
    ensures went { (k : PlainKernel) (pairs : ExchangeLog) → IsHeldTo (plain_code code.now) log.now k pairs
        → IfSome (S.left trace.old) (λ x. WalkedTo (plain_code code.now) pairs session.old.waiting.format k
        session.old.budget (HasReplayed (plain_code code.now) log.now pairs replayer.new) (K.held out.old)
        (K.held out.new) session.new.waiting.bytes.items (turns_rest k session.old.budget rows.old x)
        (report_rest session.old.waiting.format k session.old.budget rows.old x) result) }
    ensures ends { EndsBy (Fell (S.faults trace.old) (S.faults trace.new) (S.down trace.new))
        (Fell (K.faults out.old) (K.faults out.new) (K.down out.new)) ⊥ result }
    ensures wanted { result ≡ walked.Failed Status.ReadFault → (k : PlainKernel) (pairs : ExchangeLog)
        → IsHeldTo (plain_code code.now) log.now k pairs
        → (bytes : List ℕ) × Appends (K.held out.old) (K.held out.new) bytes
        × IfTold (S.left trace.old) (S.left trace.new)
        (Led session.old.waiting.format k session.old.budget rows.old bytes) }
    ensures comes { result ≡ walked.Failed Status.ReadFault → (k : PlainKernel) (pairs : ExchangeLog)
        → IsHeldTo (plain_code code.now) log.now k pairs
        → IfTold (S.left trace.old) (S.left trace.new)
        (ComesRun (plain_code code.now) pairs k session.old.budget rows.old) }
    ensures trace { (k : PlainKernel) (pairs : ExchangeLog) → IsHeldTo (plain_code code.now) log.now k pairs
        → (given : List ℕ) × ReadsBytes S.left S.faults S.down (MayReadFrom (plain_code code.now) pairs
        session.old.waiting.format k session.old.budget rows.old) trace.old given trace.new }
    ensures later { K.faults out.old ≤ K.faults out.new }
{
    let budget = session.budget;
    let mut row = 1;
    'ticks: loop {
        if let Err(_) = send_due(rows, &mut session.waiting, out) {
            return Walked::Failed {
                end: Status::WriteFault,
            };
        }
        match rows.next(trace, &mut session.image.inputs) {
            Ok(Next::Row) => {}
            Ok(Next::End) => {
                session.waiting.put_rows(row - 1);
                return Walked::Whole {
                    ticks: row - 1,
                    end: Status::Done,
                };
            }
            Err(fault) => match fault {
                RowFault::ReadFault => {
                    return Walked::Failed {
                        end: Status::ReadFault,
                    };
                }
                _ => {
                    session.waiting.put_row(row, fault);
                    return Walked::Whole {
                        ticks: row - 1,
                        end: Status::Trace,
                    };
                }
            },
        }
        let image = &mut session.image;
        let step = replayer.tick(code, log, &image.inputs, budget, &mut image.outputs);
        let Step::Done { outcome } = step else {
            return Walked::Differs { tick: row };
        };
        session
            .waiting
            .put_outcome(row, outcome, &session.image.outputs, budget);
        match outcome {
            Outcome::Paused => row += 1,
            _ => {
                return Walked::Whole {
                    ticks: row,
                    end: last_status(outcome),
                };
            }
        }
    }
}

/// Reads the header, and replays thread 0 over the rows.
fn replay_root<S: Source, K: Sink>(
    alloc: Global,
    replayer: &mut Replayer,
    code: &Code,
    log: &Log,
    session: &mut Session,
    trace: &mut S,
    out: &mut K,
) -> Walked
    requires session { IsSessionOf (plain_code code.now).shape session.old }
    requires log { IsLogFor (plain_code code.now).shape log.now }
    requires fresh { (pairs : ExchangeLog) → HasPairs (plain_code code.now).shape log.now pairs
        → HasReplayed (plain_code code.now) log.now pairs replayer.old [] }
    requires live { replayer.old.live ≡ true }
    ensures went { (k : PlainKernel) (pairs : ExchangeLog) → IsHeldTo (plain_code code.now) log.now k pairs
        → IfSome (S.left trace.old) (λ x. WalkedTo (plain_code code.now) pairs session.old.waiting.format k
        session.old.budget (HasReplayed (plain_code code.now) log.now pairs replayer.new) (K.held out.old)
        (K.held out.new) session.new.waiting.bytes.items (trace_turns session.old.limit k session.old.budget x)
        (trace_report session.old.limit session.old.waiting.format k session.old.budget x) result) }
    ensures ends { EndsBy (Fell (S.faults trace.old) (S.faults trace.new) (S.down trace.new))
        (Fell (K.faults out.old) (K.faults out.new) (K.down out.new)) (out.new ≡ out.old) result }
    ensures wanted { result ≡ walked.Failed Status.ReadFault → (k : PlainKernel) (pairs : ExchangeLog)
        → IsHeldTo (plain_code code.now) log.now k pairs
        → Wanted session.old.limit session.old.waiting.format k session.old.budget (S.left trace.old)
        (S.left trace.new) (K.held out.old) (K.held out.new) }
    ensures given { result ≡ walked.Failed Status.ReadFault → (k : PlainKernel) (pairs : ExchangeLog)
        → IsHeldTo (plain_code code.now) log.now k pairs
        → IfTold (S.left trace.old) (S.left trace.new)
        (GivenRuns (plain_code code.now) pairs session.old.limit k session.old.budget) }
    ensures trace { (k : PlainKernel) (pairs : ExchangeLog) → IsHeldTo (plain_code code.now) log.now k pairs
        → (given : List ℕ) × ReadsBytes S.left S.faults S.down (MayRead (plain_code code.now) pairs session.old.limit
        session.old.waiting.format k session.old.budget) trace.old given trace.new }
    ensures later { K.faults out.old ≤ K.faults out.new }
{
    match Rows::start(alloc, trace, &session.inputs, session.limit) {
        Ok(mut rows) => replay_rows(replayer, code, log, session, &mut rows, trace, out),
        Err(fault) => match fault {
            RowFault::OutOfMemory => Walked::Failed {
                end: Status::NoMemory,
            },
            RowFault::ReadFault => Walked::Failed {
                end: Status::ReadFault,
            },
            _ => {
                session.waiting.put_row(0, fault);
                Walked::Whole {
                    ticks: 0,
                    end: Status::Trace,
                }
            }
        },
    }
}

/// Replays thread 0 of a code over a trace, where each other thread does what the log has, and says whether the log is the
/// run's.
fn replay_trace<S: Source, K: Sink>(
    alloc: Global,
    code: &Code,
    log: &Log,
    budget: u64,
    trace: &mut S,
    out: &mut K,
) -> Status
    requires log { IsLogFor (plain_code code.now).shape log.now }
    requires small { budget ≤ MAX_BUDGET }
    requires agree { (pairs : ExchangeLog) → HasPairs (plain_code code.now).shape log.now pairs
        → AllAgree (CodeAlone (plain_code code.now)) (plain_code code.now).shape pairs }
    ensures { (text : List ℕ) (k : PlainKernel) → IsReadFrom (plain_code code.now).shape text log.now → WellFormed k
        → Stands (plain_code code.now) k → ReplaysRows S.left S.faults S.down K.held K.faults K.down MAX_ROWS k budget
        text trace.old trace.new out.old out.new result }
{
    let Ok(mut session) = Session::new(alloc, code.shape(), Telling::Report, budget, MAX_ROWS)
    else {
        return Status::NoMemory;
    };
    let Ok(mut replayer) = Replayer::new(alloc, code, log) else {
        return Status::NoMemory;
    };
    let walked = replay_root(alloc, &mut replayer, code, log, &mut session, trace, out);
    match walked {
        Walked::Failed { end } => end,
        Walked::Differs { tick } => {
            let at = Difference {
                thread: 0,
                number: tick,
            };
            say_difference(&mut session.waiting, at, out)
        }
        Walked::Whole { ticks, end } => {
            let all_used = replayer.used(log);
            if all_used {
                return say_same(&mut session.waiting, end, out);
            }
            let number = ticks + 1;
            let at = Difference { thread: 0, number };
            say_difference(&mut session.waiting, at, out)
        }
    }
}

/// Holds a log to the threads of a code, one by one, and then to its run over a trace.
fn replay_code<S: Source, K: Sink>(
    alloc: Global,
    code: &Code,
    log: &Log,
    budget: u64,
    trace: &mut S,
    out: &mut K,
) -> Status
    requires log { IsLogFor (plain_code code.now).shape log.now }
    requires small { budget ≤ MAX_BUDGET }
    ensures { (text : List ℕ) (k : PlainKernel) → IsReadFrom (plain_code code.now).shape text log.now → WellFormed k
        → Stands (plain_code code.now) k → ReplaysRows S.left S.faults S.down K.held K.faults K.down MAX_ROWS k budget
        text trace.old trace.new out.old out.new result }
{
    match first_difference(alloc, code, log) {
        Ok(None) => replay_trace(alloc, code, log, budget, trace, out),
        Ok(Some(at)) => {
            let Ok(mut waiting) = Waiting::plain(alloc) else {
                return Status::NoMemory;
            };
            say_difference(&mut waiting, at, out)
        }
        Err(_) => Status::NoMemory,
    }
}

/// Holds a text, which should be the log of a kernel's run over a trace, to that run: each thread but thread 0 is replayed
/// by itself, from the last one to the first, and then thread 0 over the trace. The report of the run is written as it
/// goes, and then whether the text is its log, or where it first isn't. A tick may have so many units.
pub fn replay_log<S: Source, K: Sink>(
    alloc: Global,
    kernel: &Kernel,
    text: Vec<u8>,
    budget: u64,
    trace: &mut S,
    out: &mut K,
) -> Status
    requires small { budget ≤ MAX_BUDGET }
    ensures { ReplaysRows S.left S.faults S.down K.held K.faults K.down MAX_ROWS (plain_kernel kernel.now) budget
        text.items trace.old trace.new out.old out.new result }
{
    let Ok(code) = generate(alloc, kernel) else {
        return Status::NoMemory;
    };
    // Its clause tells that the kernel is well formed.
    let _ = kernel.shape();
    match Log::read(alloc, text, code.shape()) {
        Ok(log) => replay_code(alloc, &code, &log, budget, trace, out),
        Err(LogFault::Bad { line }) => say_no_log(alloc, line, out),
        Err(LogFault::OutOfMemory) => Status::NoMemory,
    }
}
