//! One step of a thread, in place, along a path that picks the child at each fork.

ghost use Rattle.std.specs.Prelude.{◌≡◌, ◌<◌, ◌+◌, ℕ, ℤ, IfOk, List, Err, true, false};
ghost use Rattle.forec_kernel.specs.Shapes.{plain_kernel};
ghost use Rattle.forec_kernel.specs.Texts as plain;
ghost use Rattle.forec_kernel.specs.Steps.{Finished, Halts, child_place, path_below, text_move, child_move, thread_move};
ghost use Rattle.running_threads.specs.Views.{threads, focused, plain_status, plain_running_thread};
ghost use Rattle.running_steps.specs.Moving.{FocusMoved, leads, rested, AreStepped, IsChildStep, IsThread, after_move};
ghost use Rattle.running_steps.specs.Moving.{place_or_first, first_is_here, place_behind, running_below};
ghost use Rattle.running_steps.specs.Taking.{origin_of, after_focus, TakesStep};
ghost use Rattle.running_steps.specs.declared.moving.Step.TheVariants.{Sets, Puts};

use crate::joins::join_step;
use crate::moving::{Step, set_copy};
use crate::statements::{loop_step, statement_step};
use forec_kernel::{KernelParts, Spot, VarCopy};
use running_texts::{Halt, ThreadValues, clear_words, set_word, thread_uses};
use running_threads::{
    Children, Focus, Status, Thread, all_done, go_on, leave_last, resume, retire, runs, runs_there,
    some_run,
};
use std::alloc::{AllocError, Global};
use std::mem;

/// Whether the focus is a fork one of whose children is running.
fn runs_below(focus: &Focus<'_>) -> bool
    ensures { result ≡ running_below (focused focus.now) }
{
    match focus {
        Focus::Fork { children } => some_run(children),
        _ => false,
    }
}

/// One step of a focus none of whose children is running.
fn focus_step<'k>(
    alloc: Global,
    kernel: &'k KernelParts,
    values: &ThreadValues<'_>,
    focus: &Focus<'k>,
    left: &mut u64,
) -> Result<Step<'k>, Halt>
    requires { running_below (focused focus.now) ≡ false }
    ensures { FocusMoved kernel.now values.now (focused focus.now) left.old left.new result }
{
    match focus {
        Focus::Done => Ok(Step::Finishes),
        Focus::Run { statement } => statement_step(alloc, kernel, values, statement, left),
        Focus::Turning { turn } => loop_step(alloc, kernel, values, *turn, left),
        Focus::Resting => Ok(Step::Halts),
        Focus::Held { .. } => Ok(Step::Halts),
        Focus::Fork { children } => join_step(alloc, kernel, values, children, left),
    }
}

/// A thread whose focus has nothing left to do: what follows it, or the thread's end.
fn finish(t: &mut Thread<'_>) -> Result<(), AllocError>
    ensures { IfOk result (λ _. plain_running_thread t.new ≡ after_focus t.old Finished) }
{
    match resume(&mut t.frames)? {
        Some(focus) => t.focus = focus,
        None => t.status = Status::Ended,
    }
    Ok(())
}

/// A thread whose focus halts: it leaves the last piece of a weak abort, or the thread is paused.
fn halt(t: &mut Thread<'_>)
    ensures { plain_running_thread t.new ≡ after_focus t.old Halts }
{
    if leave_last(&mut t.frames) {
        t.focus = Focus::Done;
    } else {
        t.status = Status::Paused;
    }
}

/// What is left of a fork whose copies are combined.
fn rest(focus: &mut Focus<'_>)
    ensures { focused focus.new ≡ rested (focused focus.old) }
{
    match mem::replace(focus, Focus::Done) {
        Focus::Fork { mut children } => {
            if !all_done(&children) {
                retire(&mut children);
                *focus = Focus::Held { children };
            }
        }
        other => *focus = other,
    }
}

/// A number goes marked to a copy.
fn put(uses: &[u32], t: &mut Thread<'_>, variable: usize, value: i32)
    ensures { (u : ℕ) → plain_running_thread t.new
        ≡ after_focus t.old (leads (origin_of uses.now t.old) (Puts variable value) u) }
{
    let copy = VarCopy {
        value,
        modified: true,
    };
    set_copy(uses, &mut t.copies, variable, copy);
    t.focus = Focus::Done;
}

/// A number goes to a word, or marked to a copy.
fn set(uses: &[u32], t: &mut Thread<'_>, to: Spot, value: i32)
    ensures { (u : ℕ)
        → plain_running_thread t.new ≡ after_focus t.old (leads (origin_of uses.now t.old) (Sets to value) u) }
{
    match to {
        Spot::Local { slot } => {
            set_word(&mut t.words, slot as usize, value);
            t.focus = Focus::Done;
        }
        Spot::Variable { variable } => put(uses, t, variable as usize, value),
    }
}

/// A thread whose focus stops: it traps, or the step isn't taken.
fn stop(t: &mut Thread<'_>, halt: Halt) -> Result<(), Halt>
    ensures { (uses : List ℕ) → TakesStep uses t.old t.new (Err halt) result }
{
    match halt {
        Halt::Trapped { place, trap } => {
            t.status = Status::Trapped { place, trap };
            Ok(())
        }
        Halt::Over => Err(Halt::Over),
        Halt::OutOfMemory => Err(Halt::OutOfMemory),
    }
}

/// A thread after a step of its focus.
fn after_step<'k>(
    alloc: Global,
    uses: &[u32],
    t: &mut Thread<'k>,
    step: Result<Step<'k>, Halt>,
) -> Result<(), Halt>
    ensures { TakesStep uses.now t.old t.new step.entry result }
{
    match step {
        Ok(Step::Finishes) => Ok(finish(t)?),
        Ok(Step::Halts) => {
            halt(t);
            Ok(())
        }
        Ok(Step::Sets { to, value }) => {
            set(uses, t, to, value);
            Ok(())
        }
        Ok(Step::SetsAt { slot, value }) => {
            set_word(&mut t.words, slot, value);
            t.focus = Focus::Done;
            Ok(())
        }
        Ok(Step::Puts { variable, value }) => {
            put(uses, t, variable, value);
            Ok(())
        }
        Ok(Step::Clears { slot, length }) => {
            clear_words(&mut t.words, slot, length);
            t.focus = Focus::Done;
            Ok(())
        }
        Ok(Step::Joins { copies }) => {
            t.copies = copies;
            rest(&mut t.focus);
            Ok(())
        }
        Ok(Step::Becomes { next }) => {
            t.focus = go_on(alloc, &mut t.frames, next)?;
            Ok(())
        }
        Err(halt) => stop(t, halt),
    }
}

fn here(at: Option<u32>, children: &Children<'_>) -> bool
    ensures { result ≡ first_is_here at (threads children.now) }
{
    match at {
        Some(i) => i == 0,
        None => match children {
            Children::Nobody => false,
            Children::Child { first, .. } => runs(first.status),
        },
    }
}

fn behind(at: Option<u32>) -> Option<u32>
    ensures { result ≡ place_behind at }
{
    match at {
        Some(i) => Some(i.saturating_sub(1)),
        None => None,
    }
}

/// The child that a path picks; none for the leftmost running one.
fn picked(path: &[u32], children: &Children<'_>) -> Option<u32>
    ensures { place_or_first result (threads children.now) ≡ child_place path.now (threads children.now) }
{
    match path {
        [] => None,
        [first, ..] => {
            if runs_there(*first, children) {
                Some(*first)
            } else {
                None
            }
        }
    }
}

/// The path on from the child that it picks.
fn path_on<'a>(path: &'a [u32], children: &Children<'_>) -> &'a [u32]
    ensures { result.now ≡ path_below path.now (threads children.now) }
{
    match path {
        [] => &[],
        [first, rest @ ..] => {
            if runs_there(*first, children) {
                rest
            } else {
                &[]
            }
        }
    }
}

/// One step of a thread, in place.
#[cycle(stepping)]
pub fn thread_step<'k>(
    alloc: Global,
    kernel: &'k KernelParts,
    path: &[u32],
    t: &mut Thread<'k>,
    left: &mut u64,
) -> Result<(), Halt>
    ensures { IsThread left.old left.new (plain_running_thread t.new) result
        (after_move (plain_running_thread t.old)
        (thread_move (plain_kernel kernel.now) path.now (plain_running_thread t.old))) }
{
    if runs_below(&t.focus) {
        return fork_step(alloc, kernel, path, &mut t.focus, left);
    }
    let uses = thread_uses(kernel, t.number);
    let values = ThreadValues {
        words: &t.words,
        uses,
        copies: &t.copies,
    };
    let step = focus_step(alloc, kernel, &values, &t.focus, left);
    after_step(alloc, uses, t, step)
}

/// A step of one of the running children of a fork.
#[cycle(stepping)]
fn fork_step<'k>(
    alloc: Global,
    kernel: &'k KernelParts,
    path: &[u32],
    focus: &mut Focus<'k>,
    left: &mut u64,
) -> Result<(), Halt>
    requires { running_below (focused focus.old) ≡ true }
    ensures { (uses : List ℕ) (w : List ℤ) (c : List VarCopy)
        → IsChildStep left.old left.new w c (focused focus.new) result
        (text_move (plain_kernel kernel.now) path.now uses w c (focused focus.old)) }
{
    match focus {
        Focus::Fork { children } => {
            let at = picked(path, children);
            let below = path_on(path, children);
            child_step(alloc, kernel, below, at, children, left)
        }
        _ => Ok(()),
    }
}

/// A step of the child at a place, or of the leftmost running one.
#[cycle(stepping)]
fn child_step<'k>(
    alloc: Global,
    kernel: &'k KernelParts,
    path: &[u32],
    at: Option<u32>,
    children: &mut Children<'k>,
    left: &mut u64,
) -> Result<(), Halt>
    ensures { AreStepped left.old left.new (threads children.new) result
        (child_move (plain_kernel kernel.now) path.now (place_or_first at (threads children.old))
        (threads children.old)) }
{
    if here(at, children) {
        return match children {
            Children::Nobody => Ok(()),
            Children::Child { first, .. } => thread_step(alloc, kernel, path, first, left),
        };
    }
    match children {
        Children::Nobody => Ok(()),
        Children::Child { rest, .. } => { child_step(alloc, kernel, path, behind(at), rest, left) }
    }
}
