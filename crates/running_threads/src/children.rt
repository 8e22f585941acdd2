//! What is asked of the branches of a fork, and threads like others.

ghost use Rattle.std.specs.Prelude.{◌≡◌, IfOk};
ghost use Rattle.forec_kernel.specs.Texts.{is_running, is_active, is_over, some_running, all_over, runs_at, first_trap, trap_of, ended_is_gone, ended_are_gone};
ghost use Rattle.running_threads.specs.Views.{threads, plain_status, focused, plain_running_thread};
ghost use Rattle.running_threads.specs.Moves.{first_is_gone};

use crate::threads::{Children, Focus, Status, Thread};
use forec_base::{Place, Trap};
use std::alloc::{AllocError, Global};

/// Whether a thread that stands so can step.
pub fn runs(status: Status) -> bool
    ensures { result ≡ is_running (plain_status status) }
{
    matches!(status, Status::Running)
}

/// Whether a thread that stands so has not ended in an earlier tick.
pub fn ran(status: Status) -> bool
    ensures { result ≡ is_active (plain_status status) }
{
    !matches!(status, Status::Gone)
}

fn is_done(status: Status) -> bool
    ensures { result ≡ is_over (plain_status status) }
{
    matches!(status, Status::Ended | Status::Gone)
}

/// Whether one of the children can step.
pub fn some_run(children: &Children<'_>) -> bool
    ensures { result ≡ some_running (threads children.now) }
{
    match children {
        Children::Nobody => false,
        Children::Child { first, rest } => runs(first.status) || some_run(rest),
    }
}

/// Whether each child has ended, in this tick or before.
pub fn all_done(children: &Children<'_>) -> bool
    ensures { result ≡ all_over (threads children.now) }
{
    match children {
        Children::Nobody => true,
        Children::Child { first, rest } => is_done(first.status) && all_done(rest),
    }
}

/// Whether the child at a place is running.
pub fn runs_there(at: u32, children: &Children<'_>) -> bool
    ensures { result ≡ runs_at at (threads children.now) }
{
    match children {
        Children::Nobody => false,
        Children::Child { first, rest } => {
            if at == 0 {
                runs(first.status)
            } else {
                runs_there(at - 1, rest)
            }
        }
    }
}

fn trap_in(status: Status) -> Option<(Place, Trap)>
    ensures { result ≡ trap_of (plain_status status) }
{
    match status {
        Status::Trapped { place, trap } => Some((place, trap)),
        _ => None,
    }
}

/// The trap of the leftmost trapped child.
pub fn leftmost_trap(children: &Children<'_>) -> Option<(Place, Trap)>
    ensures { result ≡ first_trap (threads children.now) }
{
    match children {
        Children::Nobody => None,
        Children::Child { first, rest } => match trap_in(first.status) {
            Some(found) => Some(found),
            None => leftmost_trap(rest),
        },
    }
}

fn gone_if_ended(status: Status) -> Status
    ensures { plain_status result ≡ ended_is_gone (plain_status status) }
{
    match status {
        Status::Ended => Status::Gone,
        other => other,
    }
}

/// The first child, if it ended, is gone.
fn retire_first(children: &mut Children<'_>)
    ensures { threads children.new ≡ first_is_gone (threads children.old) }
{
    if let Children::Child { first, .. } = children {
        first.status = gone_if_ended(first.status);
    }
}

/// Makes each child that ended gone.
pub fn retire(children: &mut Children<'_>)
    ensures { threads children.new ≡ ended_are_gone (threads children.old) }
{
    match children {
        Children::Nobody => {}
        Children::Child { rest, .. } => {
            retire(rest);
            retire_first(children);
        }
    }
}

/// A focus like another.
#[cycle(copying)]
pub fn duplicate_focus<'k>(alloc: Global, from: &Focus<'k>) -> Result<Focus<'k>, AllocError>
    ensures { IfOk result (λ x. focused x ≡ focused from.now) }
{
    match from {
        Focus::Done => Ok(Focus::Done),
        Focus::Run { statement } => Ok(Focus::Run { statement }),
        Focus::Turning { turn } => Ok(Focus::Turning { turn: *turn }),
        Focus::Resting => Ok(Focus::Resting),
        Focus::Fork { children } => {
            let children = Box::new(alloc, duplicate_children(alloc, children)?)?;
            Ok(Focus::Fork { children })
        }
        Focus::Held { children } => {
            let children = Box::new(alloc, duplicate_children(alloc, children)?)?;
            Ok(Focus::Held { children })
        }
    }
}

/// A thread like another.
#[cycle(copying)]
pub fn duplicate_thread<'k>(alloc: Global, from: &Thread<'k>) -> Result<Thread<'k>, AllocError>
    ensures { IfOk result (λ x. plain_running_thread x ≡ plain_running_thread from.now) }
{
    let focus = duplicate_focus(alloc, &from.focus)?;
    let frames = Vec::from_slice(alloc, &from.frames)?;
    let words = Vec::from_slice(alloc, &from.words)?;
    let copies = Vec::from_slice(alloc, &from.copies)?;
    Ok(Thread {
        number: from.number,
        frames,
        focus,
        words,
        copies,
        status: from.status,
    })
}

#[cycle(copying)]
fn duplicate_children<'k>(alloc: Global, from: &Children<'k>) -> Result<Children<'k>, AllocError>
    ensures { IfOk result (λ x. threads x ≡ threads from.now) }
{
    match from {
        Children::Nobody => Ok(Children::Nobody),
        Children::Child { first, rest } => {
            let first = duplicate_thread(alloc, first)?;
            let rest = Box::new(alloc, duplicate_children(alloc, rest)?)?;
            Ok(Children::Child { first, rest })
        }
    }
}
