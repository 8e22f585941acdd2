//! The kernel that a command is done with.
ghost use Rattle.std.specs.Prelude.{◌≡◌, IfOk};
ghost use Rattle.forec_kernel.specs.Shapes.{plain_kernel};
ghost use Rattle.command_words.specs.Requests.{plain_command};
ghost use Rattle.forec_engine.specs.Answers.{AnswersAccepted};
ghost use Rattle.forec_engine.specs.Commands.{IsInRange};
ghost use Rattle.forec_engine.specs.Folds.{kernel_for};

use crate::answering::answer;
use command_words::Command;
use forec_base::{Gate, OutOfMemory, Sink, Source};
use kernel_fold::fold;
use std::alloc::Global;
use std::sync::Wait;
use std::thread::Threads;
use text_verdict::Accepted;
use trace_ticks::{Setting, Status};

/// A text that is accepted, whose kernel has its constants folded where that is asked for.
fn as_asked(alloc: Global, accepted: Accepted, is_folded: bool) -> Result<Accepted, OutOfMemory>
    ensures counts { IfOk result (λ a. a.counts ≡ accepted.counts) }
    ensures kernel { IfOk result (λ a. plain_kernel a.kernel
        ≡ kernel_for is_folded (plain_kernel accepted.kernel)) }
{
    if !is_folded {
        return Ok(accepted);
    }
    let kernel = fold(alloc, &accepted.kernel)?;
    Ok(Accepted {
        counts: accepted.counts,
        kernel,
    })
}

/// Does what a command asks of a text that is accepted, with the constants of its kernel folded where that is asked
/// for.
pub fn answer_folded<S: Source, K: Sink, G: Gate + Sync, R: Threads + Wait + Sync>(
    setting: &Setting<'_, G, R>,
    command: Command<'_>,
    is_folded: bool,
    accepted: Accepted,
    trace: &mut S,
    out: &mut K,
) -> Status
    requires { IsInRange (plain_command command) }
    ensures { AnswersAccepted S.left S.faults S.down K.held K.faults K.down (plain_command command.entry)
        accepted.counts
        (kernel_for is_folded (plain_kernel accepted.kernel)) trace.old trace.new out.old out.new result }
{
    match as_asked(setting.alloc, accepted, is_folded) {
        Ok(asked) => answer(setting, command, &asked, trace, out),
        Err(_) => Status::NoMemory,
    }
}
