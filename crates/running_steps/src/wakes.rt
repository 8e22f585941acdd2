//! Waking: a thread of the state before, as it begins a tick.

ghost use Rattle.std.specs.Prelude.{◌≡◌, ◌<◌, ◌+◌, ℕ, ℤ, List, ◌++◌, IfOk, Some};
ghost use Rattle.forec_kernel.specs.Shapes.{plain_kernel};
ghost use Rattle.forec_kernel.specs.Steps.{woken, woken_children};
ghost use Rattle.running_texts.specs.Metered.{IsMetered};
ghost use Rattle.forec_kernel.specs.Texts.{child_of};
ghost use Rattle.running_threads.specs.Views.{threads, focused, plugged, plain_running_thread, plain_status};
ghost use Rattle.running_steps.specs.Waking.{IsReached, fate_in_thread, waking_kind, WokenTo, awake, woken_going, AreWoken};

use crate::statements::number_of;
use forec_kernel::{KernelParts, VarCopy};
use running_texts::{Halt, ThreadValues, copies_below, tested, thread_uses};
use running_threads::{
    Children, Focus, Frame, Status, Thread, Turn, duplicate_focus, duplicate_thread, ran,
};
use std::alloc::{AllocError, Global};

/// How far waking goes into a text: to its focus, to the last piece of a weak abort, or out of a strong
/// abort.
#[derive(Clone, Copy)]
pub(crate) enum Reach {
    Focus,
    Last,
    Out,
}

/// A loop gets its turns again.
fn refilled<'k>(turn: &Turn<'k>) -> Turn<'k>
    ensures { result ≡ record turn.now { left = turn.now.bound } }
{
    Turn {
        test: turn.test,
        bound: turn.bound,
        left: turn.bound,
        body: turn.body,
        place: turn.place,
    }
}

fn push_all<'k>(after: &mut Vec<Frame<'k>>, frames: &[Frame<'k>]) -> Result<(), AllocError>
    ensures { IfOk result (λ _. after.new.items ≡ after.old.items ++ frames.now) }
{
    for frame in frames {
        after.push(*frame)?;
    }
    Ok(())
}

/// The frames that a text has when it wakes, and how far waking goes.
fn wake_frames<'k>(
    alloc: Global,
    kernel: &'k KernelParts,
    values: &ThreadValues<'_>,
    frames: &[Frame<'k>],
    after: &mut Vec<Frame<'k>>,
    left: &mut u64,
) -> Result<Reach, Halt>
    ensures { IsReached (fate_in_thread kernel.now values.now frames.now) after.old.items after.new.items left.old
        left.new result }
{
    match frames {
        [] => Ok(Reach::Focus),
        [first, rest @ ..] => match first {
            Frame::Watch { weak, test } => {
                let part = number_of(alloc, kernel, values, test, left);
                match tested(part, left) {
                    Ok(n) => {
                        if n == 0 {
                            after.push(*first)?;
                            return wake_frames(alloc, kernel, values, rest, after, left);
                        }
                        if *weak {
                            after.push(Frame::Last)?;
                            return wake_frames(alloc, kernel, values, rest, after, left);
                        }
                        Ok(Reach::Out)
                    }
                    Err(halt) => Err(halt),
                }
            }
            Frame::Last => {
                push_all(after, frames)?;
                Ok(Reach::Last)
            }
            Frame::Rest { .. } => {
                after.push(*first)?;
                wake_frames(alloc, kernel, values, rest, after, left)
            }
            Frame::Again { turn } => {
                let turn = refilled(turn);
                after.push(Frame::Again { turn })?;
                wake_frames(alloc, kernel, values, rest, after, left)
            }
        },
    }
}

/// A thread with another text, other copies and another status.
fn with_text<'k>(
    alloc: Global,
    t: &Thread<'k>,
    frames: Vec<Frame<'k>>,
    focus: Focus<'k>,
    copies: Vec<VarCopy>,
) -> Result<Thread<'k>, AllocError>
    ensures { IfOk result (λ x. plain_running_thread x ≡ awake (plain_running_thread t.now)
        (plugged frames.entry.items (focused focus.entry)) copies.items) }
{
    let words = Vec::from_slice(alloc, &t.words)?;
    Ok(Thread {
        number: t.number,
        frames,
        focus,
        words,
        copies,
        status: Status::Running,
    })
}

/// A thread whose waking traps: its text stays.
fn trapped_at<'k>(
    alloc: Global,
    t: &Thread<'k>,
    copies: Vec<VarCopy>,
    status: Status,
) -> Result<Thread<'k>, AllocError>
    ensures { IfOk result (λ x. plain_running_thread x ≡ record (plain_running_thread t.now)
        { copies = copies.items; status = plain_status status }) }
{
    let mut stays = duplicate_thread(alloc, t)?;
    stays.copies = copies;
    stays.status = status;
    Ok(stays)
}

/// A thread that wakes with these copies.
#[cycle(waking)]
pub fn wake_thread<'k>(
    alloc: Global,
    kernel: &'k KernelParts,
    uses: &[u32],
    t: &Thread<'k>,
    copies: Vec<VarCopy>,
    left: &mut u64,
) -> Result<Thread<'k>, Halt>
    ensures { WokenTo left.old left.new result (woken_going (plain_kernel kernel.now) uses.now
        (plain_running_thread t.now) copies.items) }
{
    let mut frames = Vec::new(alloc);
    let values = ThreadValues {
        words: &t.words,
        uses,
        copies: &copies,
    };
    match wake_frames(alloc, kernel, &values, &t.frames, &mut frames, left) {
        Ok(Reach::Focus) => match wake_focus(alloc, kernel, uses, &copies, &t.focus, left) {
            Ok(focus) => Ok(with_text(alloc, t, frames, focus, copies)?),
            Err(halt) => Err(halt),
        },
        Ok(Reach::Last) => {
            let focus = duplicate_focus(alloc, &t.focus)?;
            Ok(with_text(alloc, t, frames, focus, copies)?)
        }
        Ok(Reach::Out) => Ok(with_text(alloc, t, frames, Focus::Done, copies)?),
        Err(Halt::Trapped { place, trap }) => {
            Ok(trapped_at(alloc, t, copies, Status::Trapped { place, trap })?)
        }
        Err(Halt::Over) => Err(Halt::Over),
        Err(Halt::OutOfMemory) => Err(Halt::OutOfMemory),
    }
}

/// A focus that wakes: a pause is over, and the branches of a fork wake.
#[cycle(waking)]
fn wake_focus<'k>(
    alloc: Global,
    kernel: &'k KernelParts,
    uses: &[u32],
    copies: &[VarCopy],
    focus: &Focus<'k>,
    left: &mut u64,
) -> Result<Focus<'k>, Halt>
    ensures { (words : List ℤ) → IsMetered waking_kind left.old left.new result
        (woken (plain_kernel kernel.now) uses.now words copies.now (focused focus.now)) }
{
    match focus {
        Focus::Resting => Ok(Focus::Done),
        Focus::Held { children } => {
            match wake_children(alloc, kernel, uses, copies, children, left) {
                Ok(children) => {
                    let children = Box::new(alloc, children)?;
                    Ok(Focus::Fork { children })
                }
                Err(halt) => Err(halt),
            }
        }
        _ => Ok(duplicate_focus(alloc, focus)?),
    }
}

/// Each child that has not ended gets the parent's present values, unmarked, and wakes.
#[cycle(waking)]
fn wake_children<'k>(
    alloc: Global,
    kernel: &'k KernelParts,
    uses: &[u32],
    copies: &[VarCopy],
    children: &Children<'k>,
    left: &mut u64,
) -> Result<Children<'k>, Halt>
    ensures { AreWoken left.old left.new result (woken_children (plain_kernel kernel.now) uses.now copies.now
        (threads children.now)) }
{
    match children {
        Children::Nobody => Ok(Children::Nobody),
        Children::Child { first, rest } => {
            if !ran(first.status) {
                return match wake_children(alloc, kernel, uses, copies, rest, left) {
                    Ok(others) => Ok(child_before(alloc, duplicate_thread(alloc, first)?, others)?),
                    Err(halt) => Err(halt),
                };
            }
            let own = thread_uses(kernel, first.number);
            let below = copies_below(alloc, uses, copies, own)?;
            match wake_thread(alloc, kernel, own, first, below, left) {
                Ok(first) => match wake_children(alloc, kernel, uses, copies, rest, left) {
                    Ok(others) => Ok(child_before(alloc, first, others)?),
                    Err(halt) => Err(halt),
                },
                Err(halt) => Err(halt),
            }
        }
    }
}

/// A child in front of others.
fn child_before<'k>(
    alloc: Global,
    first: Thread<'k>,
    rest: Children<'k>,
) -> Result<Children<'k>, AllocError>
    ensures { IfOk result (λ x. threads x ≡ child_of (plain_running_thread first.entry) (threads rest.entry)) }
{
    let rest = Box::new(alloc, rest)?;
    Ok(Children::Child { first, rest })
}
