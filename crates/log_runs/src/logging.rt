//! Runs over a trace whose log is told once they have ended.

ghost use Rattle.std.specs.Prelude.{◌≡◌, ◌≤◌, length, ⊤};
ghost use Rattle.forec_base.specs.declared.limits.TheConstants.{MAX_BUDGET, MAX_ROWS};
ghost use Rattle.forec_kernel.specs.Shapes.{plain_kernel};
ghost use Rattle.thread_code.specs.Alone.{Stands};
ghost use Rattle.thread_code.specs.Plain.{plain_code};
ghost use Rattle.core_host.specs.Hosted.{code_of};
ghost use Rattle.exchange_log.specs.Posted.{log_in};
ghost use Rattle.trace_ticks.specs.Ends.{IsOwn};
ghost use Rattle.trace_ticks.specs.Prints.{Prints};
ghost use Rattle.log_writing.specs.Logging.{LogsItsTicks};
ghost use Rattle.log_runs.specs.RunLogs.{IsLogReport, LogsRows};

use crate::quiet::Quiet;
use crate::ticker::Logging;
use code_gen::generate;
use core_alloc::Placement;
use exchange_log::{log_room, posts_make_the_log};
use forec_base::{Gate, MAX_ROWS, Sink, Source};
use forec_kernel::Kernel;
use log_writing::{Room, write_log};
use std::alloc::Global;
use std::sync::Wait;
use thread_code::Code;
use trace_ticks::{Company, Nobody, Session, Setting, Status, Telling, run, say};

/// How many words of what threads exchange are kept: a job needs 3 and one for each argument and copy, a reply 6 and two
/// for each copy.
pub const LOG_WORDS: usize = 4_194_304;

/// A law: what went through the host's mailboxes is, for each kernel for which its code stands, the log of the ticks that it
/// has run.
fn logs_its_ticks(ticker: &Logging<'_>)
    ensures { LogsItsTicks ticker.now }
{
    ticker.host.posts();
    posts_make_the_log();
}

/// Writes what was kept, with the status of the run; or says that it is too much.
fn tell_log<K: Sink>(alloc: Global, ticker: &Logging<'_>, end: Status, out: &mut K) -> Status
    requires { IsOwn end }
    ensures { Prints K.held K.faults K.down ⊤ (IsLogReport (code_of ticker.now).shape (log_in
        ticker.now.mail) end) (end ≡ Status.Usage) ⊥ ⊥ out.old out.new result }
{
    ticker.host.posts();
    posts_make_the_log();
    let port = ticker.host.port();
    if port.needed() > LOG_WORDS as u64 {
        return say(out, b"log full\n", Status::Full);
    }
    if port.needed() > port.words() {
        return Status::NoMemory;
    }
    let shape = ticker.code.shape();
    let Ok(mut room) = Room::new(alloc, log_room(shape)) else {
        return Status::NoMemory;
    };
    match write_log(port, shape.threads.len() as u32, &mut room, out) {
        Ok(()) => end,
        Err(_) => Status::WriteFault,
    }
}

/// Runs a code that stands for a kernel over a trace, with the threads placed so, and tells the log.
fn log_code<S: Source, K: Sink, G: Gate, R: Wait>(
    setting: &Setting<'_, G, R>,
    kernel: &Kernel,
    code: &Code,
    placement: &Placement,
    budget: u64,
    trace: &mut S,
    out: &mut K,
) -> Status
    requires stands { Stands (plain_code code.now) (plain_kernel kernel.now) }
    requires placed { length placement.now.places ≡ length (plain_code code.now).threads }
    requires small { budget ≤ MAX_BUDGET }
    ensures { LogsRows S.left S.faults S.down K.held K.faults K.down MAX_ROWS (plain_kernel kernel.now) budget
        trace.old trace.new out.old out.new result }
{
    let alloc = setting.alloc;
    // Its clause tells that the kernel is well formed.
    let _ = kernel.shape();
    let Ok(mut ticker) = Logging::new(alloc, code, placement, LOG_WORDS) else {
        return Status::NoMemory;
    };
    let Ok(mut session) = Session::new(alloc, code.shape(), Telling::Report, budget, MAX_ROWS)
    else {
        return Status::NoMemory;
    };
    let mut company = Company {
        rt: setting.rt,
        gate: setting.gate,
        others: &mut Nobody,
    };
    let mut quiet = Quiet;
    match run(
        alloc,
        &mut company,
        &mut ticker,
        &mut session,
        trace,
        &mut quiet,
    ) {
        Status::ReadFault => Status::ReadFault,
        Status::WriteFault | Status::NoMemory => Status::NoMemory,
        end => {
            logs_its_ticks(&ticker);
            tell_log(alloc, &ticker, end, out)
        }
    }
}

/// Runs a kernel over a trace, by one host that has all threads and on which they are placed so, and once the run has
/// ended writes the jobs and replies that its threads have exchanged, with the status of the run. Where they need more
/// than [`LOG_WORDS`] words, that is said instead. A tick may have so many units.
pub fn log_trace<S: Source, K: Sink, G: Gate, R: Wait>(
    setting: &Setting<'_, G, R>,
    kernel: &Kernel,
    placement: &Placement,
    budget: u64,
    trace: &mut S,
    out: &mut K,
) -> Status
    requires placed { length placement.now.places ≡ length (plain_kernel kernel.now).threads }
    requires small { budget ≤ MAX_BUDGET }
    ensures { LogsRows S.left S.faults S.down K.held K.faults K.down MAX_ROWS (plain_kernel kernel.now) budget
        trace.old trace.new out.old out.new result }
{
    let Ok(code) = generate(setting.alloc, kernel) else {
        return Status::NoMemory;
    };
    // Their clauses tell that the kernel is well formed, and the code valid.
    let _ = kernel.shape();
    let _ = code.shape();
    log_code(setting, kernel, &code, placement, budget, trace, out)
}
