//! The children of a fork that starts.

ghost use Rattle.std.specs.Prelude.{◌≡◌, ◌<◌, ◌+◌, ℕ, ℤ, IfOk, map, length};
ghost use Rattle.forec_kernel.specs.Shapes.{plain_kernel};
ghost use Rattle.forec_kernel.specs.Plain.{branch};
ghost use Rattle.forec_kernel.specs.Texts.{text_of, body_of};
ghost use Rattle.forec_kernel.specs.Steps.{started};
ghost use Rattle.running_threads.specs.Views.{threads, plugged, focused};

use forec_kernel::{KernelParts, Launch, VarCopy};
use running_texts::{copies_below, started_words, thread_uses};
use running_threads::{Children, Focus, Frame, Status, Thread, start};
use std::alloc::{AllocError, Global};

/// The body of a thread at its start, inside some frames.
pub fn start_body<'k>(
    kernel: &'k KernelParts,
    thread: u32,
    frames: &mut Vec<Frame<'k>>,
) -> Result<Focus<'k>, AllocError>
    ensures { IfOk result (λ x. plugged frames.new.items (focused x)
        ≡ plugged frames.old.items (text_of (body_of (plain_kernel kernel.now) thread))) }
{
    let bodies = kernel.threads.as_slice();
    if (thread as usize) < bodies.len() {
        start(frames, &bodies[thread as usize])
    } else {
        Ok(Focus::Done)
    }
}

/// The children of a fork at its start, with the copies that they take from the parent.
pub(crate) fn start_children<'k>(
    alloc: Global,
    kernel: &'k KernelParts,
    uses: &[u32],
    copies: &[VarCopy],
    branches: &[Launch],
    arguments: &[Vec<i32>],
) -> Result<Children<'k>, AllocError>
    ensures { IfOk result (λ x. threads x ≡
        started (record { kernel = plain_kernel kernel.now; uses = uses.now }) copies.now (map branch branches.now)
        (map (λ v. v.items) arguments.now)) }
{
    let mut at = branches.len().min(arguments.len());
    let mut rest = Children::Nobody;
    while at > 0 {
        at -= 1;
        let number = branches[at].thread;
        let mut frames = Vec::new(alloc);
        let focus = start_body(kernel, number, &mut frames)?;
        let words = started_words(alloc, kernel, number, &arguments[at])?;
        let copies = copies_below(alloc, uses, copies, thread_uses(kernel, number))?;
        let first = Thread {
            number,
            frames,
            focus,
            words,
            copies,
            status: Status::Running,
        };
        let others = Box::new(alloc, rest)?;
        rest = Children::Child {
            first,
            rest: others,
        };
    }
    Ok(rest)
}
