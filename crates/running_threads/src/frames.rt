//! The frames of a thread's text: statements at their start, and what follows a focus.

ghost use Rattle.std.specs.Prelude.{◌≡◌, ℤ, List, IfOk, IfSome, IfNone, cond, take, true, false};
ghost use Rattle.forec_kernel.specs.declared.shape.VarCopy.{VarCopy};
ghost use Rattle.forec_kernel.specs.Plain.{stmt, stmts};
ghost use Rattle.forec_kernel.specs.Texts as plain;
ghost use Rattle.forec_kernel.specs.Texts.{text_of, texts_of};
ghost use Rattle.forec_kernel.specs.Steps.{Moves, Halts};
ghost use Rattle.running_threads.specs.Views.{plugged, focused, framed};
ghost use Rattle.running_threads.specs.Moves.{framed_move, LeavesLast, HasNoLast, Resumes, next_text};

use crate::threads::{Children, Focus, Frame, Turn};
use forec_kernel::{Expression, Statement};
use std::alloc::{AllocError, Global};

/// A frame for the statements that follow the first of a sequence, if there are any.
fn push_rest<'k>(frames: &mut Vec<Frame<'k>>, rest: &'k [Statement]) -> Result<(), AllocError>
    ensures { IfOk result (λ _. (R : plain.RunningText) → plugged frames.new.items R
        ≡ plugged frames.old.items (plain.then_list R (stmts rest.now))) }
{
    if rest.is_empty() {
        return Ok(());
    }
    frames.push(Frame::Rest { list: rest })?;
    Ok(())
}

/// A statement at its start, inside some frames; a sequence is its first statement, with a frame for the
/// others.
pub fn start<'k>(frames: &mut Vec<Frame<'k>>, s: &'k Statement) -> Result<Focus<'k>, AllocError>
    ensures { IfOk result (λ x. plugged frames.new.items (focused x)
        ≡ plugged frames.old.items (text_of (stmt s.now))) }
{
    match s {
        Statement::Nop => Ok(Focus::Done),
        Statement::Sequence { list } => {
            let list = list.as_slice();
            if list.is_empty() {
                return Ok(Focus::Done);
            }
            push_rest(frames, &list[1..])?;
            start(frames, &list[0])
        }
        _ => Ok(Focus::Run { statement: s }),
    }
}

/// Statements at their start, inside some frames.
pub fn start_list<'k>(
    frames: &mut Vec<Frame<'k>>,
    list: &'k [Statement],
) -> Result<Focus<'k>, AllocError>
    ensures { IfOk result (λ x. plugged frames.new.items (focused x)
        ≡ plugged frames.old.items (texts_of (stmts list.now))) }
{
    if list.is_empty() {
        return Ok(Focus::Done);
    }
    push_rest(frames, &list[1..])?;
    start(frames, &list[0])
}

/// Leaves the innermost frame of a text that has nothing left to do: what comes after it, none where there
/// is no frame.
pub fn resume<'k>(frames: &mut Vec<Frame<'k>>) -> Result<Option<Focus<'k>>, AllocError>
    ensures { IfOk result (Resumes frames.old.items frames.new.items) }
{
    match frames.pop() {
        None => Ok(None),
        Some(Frame::Rest { list }) => Ok(Some(start_list(frames, list)?)),
        Some(Frame::Again { turn }) => Ok(Some(Focus::Turning { turn })),
        Some(Frame::Watch { .. }) => Ok(Some(Focus::Done)),
        Some(Frame::Last) => Ok(Some(Focus::Done)),
    }
}

fn is_last(frame: &Frame<'_>) -> bool
    ensures { (w : List ℤ) (c : List VarCopy) → framed_move frame.now w c Halts
        ≡ cond result (Moves plain.Done w c 0) Halts }
{
    matches!(frame, Frame::Last)
}

/// Where the innermost last piece of a weak abort stands.
fn innermost_last(frames: &[Frame<'_>]) -> Option<usize>
    ensures some { IfSome result (λ i. LeavesLast frames.now (take i frames.now)) }
    ensures none { IfNone result (HasNoLast frames.now) }
{
    let mut at = frames.len();
    while at > 0 {
        at -= 1;
        if is_last(&frames[at]) {
            return Some(at);
        }
    }
    None
}

/// Leaves the innermost last piece of a weak abort where a text halts: whether there is one.
pub fn leave_last(frames: &mut Vec<Frame<'_>>) -> bool
    ensures left { result ≡ true → LeavesLast frames.old.items frames.new.items }
    ensures none { result ≡ false → HasNoLast frames.old.items }
    ensures same { result ≡ false → frames.new ≡ frames.old }
{
    match innermost_last(frames) {
        Some(at) => {
            frames.truncate(at);
            true
        }
        None => false,
    }
}

/// What takes the place of a focus after a step.
#[derive(Drop)]
pub enum NextText<'k> {
    /// Nothing is left of it.
    Done,
    /// A pause that was reached.
    Rests,
    /// A statement at its start.
    Does {
        statement: &'k Statement,
    },
    /// Statements at their start.
    DoesAll {
        list: &'k [Statement],
    },
    /// A loop before its test.
    Turns {
        turn: Turn<'k>,
    },
    /// The body of a loop, and then the loop.
    Enters {
        turn: Turn<'k>,
    },
    /// The body of an abort, in progress.
    Watches {
        weak: bool,
        test: &'k Expression,
        body: &'k Statement,
    },
    /// The body of a weak abort, in its last piece.
    Lasts {
        body: &'k Statement,
    },
    /// The branches of a `par` at their start.
    Forks {
        children: Children<'k>,
    },
}

/// A statement at its start inside one more frame.
fn start_in<'k>(
    frames: &mut Vec<Frame<'k>>,
    frame: Frame<'k>,
    body: &'k Statement,
) -> Result<Focus<'k>, AllocError>
    ensures { IfOk result (λ x. plugged frames.new.items (focused x)
        ≡ plugged frames.old.items (framed frame.entry (text_of (stmt body.now)))) }
{
    frames.push(frame)?;
    start(frames, body)
}

/// The focus after a step, with the frames that it comes to stand in.
pub fn go_on<'k>(
    alloc: Global,
    frames: &mut Vec<Frame<'k>>,
    next: NextText<'k>,
) -> Result<Focus<'k>, AllocError>
    ensures { IfOk result (λ x. plugged frames.new.items (focused x)
        ≡ plugged frames.old.items (next_text next.entry)) }
{
    match next {
        NextText::Done => Ok(Focus::Done),
        NextText::Rests => Ok(Focus::Resting),
        NextText::Does { statement } => start(frames, statement),
        NextText::DoesAll { list } => start_list(frames, list),
        NextText::Turns { turn } => Ok(Focus::Turning { turn }),
        NextText::Enters { turn } => start_in(frames, Frame::Again { turn }, turn.body),
        NextText::Watches { weak, test, body } => start_in(
            frames,
            Frame::Watch { weak, test },
            body,
        ),
        NextText::Lasts { body } => start_in(frames, Frame::Last, body),
        NextText::Forks { children } => {
            let children = Box::new(alloc, children)?;
            Ok(Focus::Fork { children })
        }
    }
}
