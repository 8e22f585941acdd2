//! The top call.
ghost use Rattle.std.specs.Prelude.{◌≡◌, ◌≤◌, ◌⊎◌, ⊤, List, ℕ, map, string_bytes};
ghost use Rattle.forec_base.specs.Outside.{Fell, Rose};
ghost use Rattle.command_words.specs.Requests.{plain_running, plain_command};
ghost use Rattle.workload.specs.Text.{workload_text};
ghost use Rattle.whole_writes.specs.Calls.{AppendsFront};
ghost use Rattle.forec_engine.specs.Answers.{AnswersNamed, AnswersWords};
ghost use Rattle.forec_engine.specs.Commands.{IsReport, WorkloadReport, IsKnown, IsInRange, IsRunnable};
ghost use Rattle.trace_ticks.specs.Ends.{IsOwn, Given};
ghost use Rattle.forec_engine.specs.Ends.{WantedByWords, ReadForWords, AcceptedSo, IsMisuse, NameThis, NameText, AskForRewriting};
ghost use Rattle.forec_engine.specs.Placing.{IsRefusedRun};
ghost use Rattle.trace_ticks.specs.Prints.{Prints};
ghost use Rattle.trace_ticks.specs.Report.{Report};

use crate::answering::{answer_workload, refuse};
use crate::dumps::tell_named;
use crate::farming::{Farmed, farm_named};
use crate::folding::answer_folded;
use crate::logging::log_named;
use crate::programs::{accepted_named, accepted_text};
use crate::replaying::{Replayed, replay_named};
use command_words::{Command, Request, Running, WordsFault, read_words};
use forec_base::{Gate, MAX_DEPTH, MAX_TEXT_BYTES, Sink, Source, Texts};
use std::alloc::Global;
use std::sync::Wait;
use std::thread::Threads;
use text_verdict::Refusal;
use trace_ticks::{Setting, Status, say};
use workload::workload_text;

const USAGE: &[u8] =
    b"usage: forec run|check|threads|code|explain|gen|wave|unwave|log|replay|farm PROGRAM [MORE...] [--cores N] [--place LIST] [--budget B] [--order N] [--fold]\n";

/// A command, and whether the constants of the kernel are folded before it is done.
#[derive(Clone, Copy)]
struct Task<'a> {
    command: Command<'a>,
    fold: bool,
}

/// Does what is asked of the program of a name.
fn run_named<T: Texts, S: Source, K: Sink, G: Gate + Sync, R: Threads + Wait + Sync>(
    setting: &Setting<'_, G, R>,
    deepest: u64,
    name: &str,
    task: Task<'_>,
    texts: &mut T,
    trace: &mut S,
    out: &mut K,
) -> Status
    requires may { T.may texts.old name.now }
    requires ranges { IsInRange (plain_command task.command) }
    ensures { AnswersNamed S.left S.faults S.down K.held K.faults K.down (plain_command task.entry.command)
        task.entry.fold (T.content texts.old) name.now
        (Fell (T.faults texts.old) (T.faults texts.new) (T.down texts.new)) trace.old trace.new out.old out.new result }
{
    match accepted_named(setting.alloc, deepest, name, texts, out) {
        Ok(accepted) => answer_folded(setting, task.command, task.fold, accepted, trace, out),
        Err(end) => end,
    }
}

/// Runs the workload of so many threads.
fn run_workload_text<K: Sink, G: Gate + Sync, R: Threads + Wait + Sync>(
    setting: &Setting<'_, G, R>,
    deepest: u64,
    threads: u32,
    running: Running<'_>,
    out: &mut K,
) -> Status
    requires few { threads ≤ 255 }
    requires ranges { IsRunnable (plain_running running) }
    ensures { Prints K.held K.faults K.down ⊤ (WorkloadReport threads (plain_running running.entry))
        (AcceptedSo (λ k. IsRefusedRun k (plain_running running.entry)) (workload_text threads)) ⊥ ⊥ out.old out.new
        result }
{
    let alloc = setting.alloc;
    let Ok(text) = workload_text(alloc, threads) else {
        return Status::NoMemory;
    };
    if text.len() > MAX_TEXT_BYTES {
        return refuse(alloc, Refusal::Long, out);
    }
    match accepted_text(alloc, deepest, &text, out) {
        Ok(accepted) => answer_workload(setting, threads, running, &accepted.kernel, out),
        Err(end) => end,
    }
}

/// Does what the words ask, as [`forec`] does, where no more than `deepest` statements nest in a thread of the program
/// with all functions in place that it calls as statements. Of a deeper one the status is that of no memory.
///
/// How deep a program is, is counted on its text, and nothing that deep is made: a caller with little stack asks for
/// as much as fits in it.
pub fn forec_within<T: Texts, S: Source, K: Sink, G: Gate + Sync, R: Threads + Wait + Sync>(
    setting: &Setting<'_, G, R>,
    deepest: u64,
    words: &[String],
    texts: &mut T,
    trace: &mut S,
    out: &mut K,
) -> Status
    // The texts that the words name may be asked for.
    requires may { (name : List ℕ) → NameThis (map string_bytes words.now) name → T.may texts.old name }
    ensures { AnswersWords T.content T.faults T.down S.left S.faults S.down K.held K.faults K.down
        (map string_bytes words.now) texts.old texts.new trace.old trace.new out.old out.new result }
{
    match read_words(setting.alloc, words) {
        Ok(
            Request::Text {
                program,
                command,
                fold,
            },
        ) => {
            let task = Task { command, fold };
            run_named(setting, deepest, program, task, texts, trace, out)
        }
        Ok(Request::Workload { threads, running }) => {
            run_workload_text(setting, deepest, threads, running, out)
        }
        Ok(
            Request::Traces {
                program,
                traces,
                budget,
            },
        ) => {
            let farmed = Farmed {
                traces: &traces,
                budget,
            };
            farm_named(setting, deepest, program, farmed, texts, out)
        }
        Ok(Request::Log { program, running }) => {
            log_named(setting, deepest, program, running, texts, trace, out)
        }
        Ok(
            Request::Replay {
                program,
                log,
                budget,
            },
        ) => {
            let replayed = Replayed { log, budget };
            replay_named(setting.alloc, deepest, program, replayed, texts, trace, out)
        }
        Ok(Request::Dump { dump }) => tell_named(setting.alloc, dump, texts, out),
        Err(WordsFault::Usage) => say(out, USAGE, Status::Usage),
        Err(WordsFault::OutOfMemory) => Status::NoMemory,
    }
}

/// Does what the words ask, and gives the status. The report goes to `out`.
///
/// `run P` runs the program whose text `texts` has under the name `P`, a tick for each row of `trace`, of which each
/// may have `--budget B` units, or 10,000,000; with `--budget bound` as many as the program's bound. `wave P` runs it
/// so too, and writes a value change dump of the run in place of its report; `unwave D` prints the report that the dump
/// of the name `D` tells. `log P` runs it so too, and once it has ended writes the jobs and replies that its threads
/// have exchanged, thread by thread, or `log full` where they need more than 4,194,304 words. `replay P L` holds such a
/// log, which `texts` has under the name `L`, to the program and the trace: it prints what `run P` does, and then
/// whether the log is that of the run, or where it first isn't. `check P` counts the program's thread instances, inputs
/// and outputs, `threads P` lists its threads with their cores and weights and the bound of a tick, and `code P` its
/// code. `gen N` runs a workload of `N` threads and `main` for 1,000 ticks, and prints the sum of the outputs.
/// `explain P` prints what `run P` does, made by rewriting the kernel's texts in the order of steps `--order N`; it alone may
/// run out of memory between ticks. `run`, `wave`, `log`, `replay` and `explain` read the trace, and `gen` reads no
/// text. `farm P T1 ..` runs the program over traces that `texts` has under these names, of which at most 1,000 rows
/// each, beside each other, and prints of each what `run P` would, with its name and the number of its status; the
/// status is the one with the greatest number.
///
/// `run`, `wave`, `log`, `threads` and `gen` place the threads on `--cores N` cores, or on one: by the list
/// `--place L`, or balanced. What `run`, `wave`, `log` and `gen` print doesn't depend on it. With `--fold`, of `run`, `threads`,
/// `code` and `explain`, the command is done with the kernel whose constants are folded. Where the budget is the bound
/// and the program has none, the line is `bound none`. All other words give the usage line.
pub fn forec<T: Texts, S: Source, K: Sink, G: Gate + Sync, R: Threads + Wait + Sync>(
    rt: &R,
    alloc: Global,
    words: &[String],
    texts: &mut T,
    trace: &mut S,
    out: &mut K,
    gate: &G,
) -> Status
    // The texts that the words name may be asked for.
    requires may { (name : List ℕ) → NameThis (map string_bytes words.now) name → T.may texts.old name }

    // Where the text and the trace are known, what is printed is a report of the words, and the status is the
    // report's.
    ensures own { IsOwn result → IsKnown (map string_bytes words.now) (T.content texts.old) (S.left trace.old)
        → (r : Report)
        × IsReport (map string_bytes words.now) (T.content texts.old) (S.left trace.old) r
        × Given r result (K.held out.old) (K.held out.new) }

    // A store or a trace that was wanted failed. What was printed is what the rows that had come whole print.
    ensures read { result ≡ Status.ReadFault →
        (Fell (T.faults texts.old) (T.faults texts.new) (T.down texts.new) × (K.held out.new ≡ K.held out.old))
        ⊎ (Fell (S.faults trace.old) (S.faults trace.new) (S.down trace.new)
        × WantedByWords (map string_bytes words.now) (T.content texts.old) (S.left trace.old) (S.left trace.new)
        (K.held out.old) (K.held out.new)) }

    // The sink failed. What was printed is a prefix of a report of the words.
    ensures write { result ≡ Status.WriteFault → Fell (K.faults out.old) (K.faults out.new) (K.down out.new)
        × (IsKnown (map string_bytes words.now) (T.content texts.old) (S.left trace.old) → (r : Report)
        × IsReport (map string_bytes words.now) (T.content texts.old) (S.left trace.old) r
        × AppendsFront (K.held out.old) (K.held out.new) r.bytes) }

    // No text is read but those that the words name.
    ensures texts { (texts.new ≡ texts.old) ⊎ NameText (map string_bytes words.now) }

    // The trace is read by `run`, `wave`, `log`, `replay` and `explain` alone, for a text that is accepted, where neither
    // the budget nor the list of places is refused, and no read is asked for once a line that stops the program has
    // come whole. By `replay` it is read for a log of the program's threads alone, with which each but thread 0 agrees,
    // and no read is asked for once a tick differs.
    ensures trace { (trace.new ≡ trace.old)
        ⊎ ReadForWords S.left S.faults S.down (map string_bytes words.now) (T.content texts.old) trace.old trace.new }

    // Where memory ran out, nothing was printed. Of a program that is rewritten a prefix of a report may be.
    ensures memory { result ≡ Status.NoMemory → (K.held out.new ≡ K.held out.old)
        ⊎ (AskForRewriting (map string_bytes words.now)
        × (IsKnown (map string_bytes words.now) (T.content texts.old) (S.left trace.old) → (r : Report)
        × IsReport (map string_bytes words.now) (T.content texts.old) (S.left trace.old) r
        × AppendsFront (K.held out.old) (K.held out.new) r.bytes)) }

    // This status comes only where the words ask for nothing, the budget is a bound that there isn't, or the list of
    // places is refused.
    ensures usage { result ≡ Status.Usage → IsMisuse (map string_bytes words.now) (T.content texts.old) }

    // Where no count of faults rises, the report is given whole, or memory ran out.
    ensures complete { (Rose (T.faults texts.old) (T.faults texts.new) → ⊥)
        → (Rose (S.faults trace.old) (S.faults trace.new) → ⊥)
        → (Rose (K.faults out.old) (K.faults out.new) → ⊥) → IsOwn result ⊎ (result ≡ Status.NoMemory) }
{
    let setting = Setting { rt, alloc, gate };
    forec_within(&setting, MAX_DEPTH, words, texts, trace, out)
}
