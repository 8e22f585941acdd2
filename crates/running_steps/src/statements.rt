//! One step of a statement, and of a loop in progress.

ghost use Rattle.std.specs.Prelude.{◌≡◌, ◌<◌, ◌+◌, ℕ, ℤ, map, Some, None, IfOk, IfErr};
ghost use Rattle.forec_kernel.specs.Shapes.{PlainKernel, plain_kernel};
ghost use Rattle.forec_kernel.specs.Plain.{expr, exprs, stmt, branch};
ghost use Rattle.forec_kernel.specs.Terms as terms;
ghost use Rattle.forec_kernel.specs.Texts as plain;
ghost use Rattle.forec_kernel.specs.Values.{vals, setting, index_in, cleared};
ghost use Rattle.forec_kernel.specs.Steps.{Moves, arguments, entered_abort, assigned, assigned_at, shared_at};
ghost use Rattle.running_texts.specs.Metered.{IsMetered, value_kind, values_kind, sight_of};
ghost use Rattle.running_threads.specs.Views.{plain_loop};
ghost use Rattle.running_steps.specs.Moving.{IsMoved, IsMoveAfter, LoopMoved, StatementMoved, Origin, lists, value_in};

use crate::forks::start_children;
use crate::moving::Step;
use forec_base::{Place, Trap};
use forec_kernel::{Expression, KernelParts, Launch, Spot, Statement};
use running_texts::{Halt, ThreadValues, evaluate, evaluate_all, index_within, pay, tested};
use running_threads::{NextText, Turn};
use std::alloc::Global;

/// The value of an expression in a thread.
pub(crate) fn number_of(
    alloc: Global,
    kernel: &KernelParts,
    values: &ThreadValues<'_>,
    e: &Expression,
    left: &mut u64,
) -> Result<i32, Halt>
    ensures { IsMetered value_kind left.old left.new result (value_in kernel.now values.now (expr e.now)) }
{
    let deep = kernel.functions.as_slice().len();
    evaluate(alloc, kernel, deep, values, e, left)
}

fn numbers_of(
    alloc: Global,
    kernel: &KernelParts,
    values: &ThreadValues<'_>,
    list: &[Expression],
    left: &mut u64,
) -> Result<Vec<i32>, Halt>
    ensures { IsMetered values_kind left.old left.new result
        (vals (setting (plain_kernel kernel.now)) (sight_of values.now) (exprs list.now)) }
{
    let deep = kernel.functions.as_slice().len();
    evaluate_all(alloc, kernel, deep, values, list, left)
}

/// The arguments of all branches, in order.
fn arguments_of(
    alloc: Global,
    kernel: &KernelParts,
    values: &ThreadValues<'_>,
    branches: &[Launch],
    left: &mut u64,
) -> Result<Vec<Vec<i32>>, Halt>
    ensures { IsMetered lists left.old left.new result
        (arguments (setting (plain_kernel kernel.now)) (sight_of values.now) (map branch branches.now)) }
{
    let mut all = Vec::new(alloc);
    for launch in branches {
        match numbers_of(alloc, kernel, values, &launch.args, left) {
            Ok(list) => {
                if all.push(list).is_err() {
                    return Err(Halt::OutOfMemory);
                }
            }
            Err(halt) => return Err(halt),
        }
    }
    Ok(all)
}

/// A loop with so many turns left.
fn with_left<'k>(turn: Turn<'k>, left: u32) -> Turn<'k>
    ensures { plain_loop result ≡ record (plain_loop turn.entry) { left = Some left } }
{
    Turn {
        test: turn.test,
        bound: turn.bound,
        left: Some(left),
        body: turn.body,
        place: turn.place,
    }
}

pub(crate) fn loop_step<'k>(
    alloc: Global,
    kernel: &'k KernelParts,
    values: &ThreadValues<'_>,
    turn: Turn<'k>,
    left: &mut u64,
) -> Result<Step<'k>, Halt>
    ensures { LoopMoved kernel.now values.now (plain_loop turn.entry) left.old left.new result }
{
    let test = number_of(alloc, kernel, values, turn.test, left);
    match tested(test, left) {
        Ok(n) => {
            if n == 0 {
                return Ok(Step::Becomes {
                    next: NextText::Done,
                });
            }
            match turn.left {
                None => Ok(Step::Becomes {
                    next: NextText::Enters { turn },
                }),
                Some(turns) => {
                    if turns == 0 {
                        return Err(Halt::Trapped {
                            place: turn.place,
                            trap: Trap::Turns,
                        });
                    }
                    let turn = with_left(turn, turns - 1);
                    Ok(Step::Becomes {
                        next: NextText::Enters { turn },
                    })
                }
            }
        }
        Err(halt) => Err(halt),
    }
}

/// An abort that is tested at its start, after the evaluation of its test.
fn after_enter<'k>(
    weak: bool,
    test: &'k Expression,
    body: &'k Statement,
    part: Result<i32, Halt>,
    left: &mut u64,
) -> Result<Step<'k>, Halt>
    ensures { IsMoveAfter part left.old left.new result
        (λ s n. Moves (entered_abort weak (expr test.now) (stmt body.now) n) s.words s.copies 1) }
{
    match tested(part, left) {
        Ok(n) => {
            if n == 0 {
                return Ok(Step::Becomes {
                    next: NextText::Watches { weak, test, body },
                });
            }
            if weak {
                return Ok(Step::Becomes {
                    next: NextText::Lasts { body },
                });
            }
            Ok(Step::Becomes {
                next: NextText::Done,
            })
        }
        Err(halt) => Err(halt),
    }
}

fn par_step<'k>(
    alloc: Global,
    kernel: &'k KernelParts,
    values: &ThreadValues<'_>,
    branches: &[Launch],
    left: &mut u64,
) -> Result<Step<'k>, Halt>
    ensures { StatementMoved kernel.now values.now (terms.Par (map branch branches.now)) left.old left.new result }
{
    match arguments_of(alloc, kernel, values, branches, left) {
        Ok(arguments) => match pay(1, left) {
            Ok(()) => {
                let children = start_children(
                    alloc,
                    kernel,
                    values.uses,
                    values.copies,
                    branches,
                    &arguments,
                )?;
                Ok(Step::Becomes {
                    next: NextText::Forks { children },
                })
            }
            Err(halt) => Err(halt),
        },
        Err(halt) => Err(halt),
    }
}

/// A number goes to a word or a copy, for one unit.
fn after_assign<'k>(to: Spot, part: Result<i32, Halt>, left: &mut u64) -> Result<Step<'k>, Halt>
    ensures { (k : PlainKernel) → IsMoveAfter part left.old left.new result
        (λ s n. assigned (record { kernel = k; uses = s.uses }) s.words s.copies to n) }
{
    let n = tested(part, left)?;
    Ok(Step::Sets { to, value: n })
}

/// Where an element stands in an array of so many, or the trap of its index.
fn element(length: u32, index: i32, place: Place) -> Result<usize, Halt>
    ensures ok { IfOk result (λ at. index_in length index ≡ Some at) }
    ensures err { IfErr result (λ h. (h ≡ Halt.Trapped place Trap.Index) × (index_in length index ≡ None)) }
{
    match index_within(length as usize, index) {
        Some(at) => Ok(at),
        None => Err(Halt::Trapped {
            place,
            trap: Trap::Index,
        }),
    }
}

fn after_assign_at<'k>(
    slot: u32,
    length: u32,
    index: i32,
    place: Place,
    part: Result<i32, Halt>,
    left: &mut u64,
) -> Result<Step<'k>, Halt>
    ensures { IsMoveAfter part left.old left.new result
        (λ s x. assigned_at s.words s.copies slot (index_in length index) x place) }
{
    let n = tested(part, left)?;
    let at = element(length, index, place)?;
    Ok(Step::SetsAt {
        slot: slot as usize + at,
        value: n,
    })
}

fn after_put_at<'k>(
    variable: u32,
    length: u32,
    index: i32,
    place: Place,
    part: Result<i32, Halt>,
    left: &mut u64,
) -> Result<Step<'k>, Halt>
    ensures { (k : PlainKernel) → IsMoveAfter part left.old left.new result
        (λ s x. shared_at (record { kernel = k; uses = s.uses }) s.words s.copies variable
        (index_in length index) x place) }
{
    let n = tested(part, left)?;
    let at = element(length, index, place)?;
    Ok(Step::Puts {
        variable: variable as usize + at,
        value: n,
    })
}

fn clear_step<'k>(slot: u32, length: u32, left: &mut u64) -> Result<Step<'k>, Halt>
    ensures { (s : Origin) → IsMoved s left.old left.new result
        (Moves plain.Done (cleared s.words slot length) s.copies length) }
{
    match pay(u64::from(length), left) {
        Ok(()) => Ok(Step::Clears { slot, length }),
        Err(halt) => Err(halt),
    }
}

fn if_step<'k>(
    alloc: Global,
    kernel: &'k KernelParts,
    values: &ThreadValues<'_>,
    test: &Expression,
    yes: &'k Statement,
    no: &'k Statement,
    left: &mut u64,
) -> Result<Step<'k>, Halt>
    ensures { StatementMoved kernel.now values.now (terms.If (expr test.now) (stmt yes.now) (stmt no.now))
        left.old left.new result }
{
    let test = number_of(alloc, kernel, values, test, left);
    match tested(test, left) {
        Ok(n) => {
            if n == 0 {
                return Ok(Step::Becomes {
                    next: NextText::Does { statement: no },
                });
            }
            Ok(Step::Becomes {
                next: NextText::Does { statement: yes },
            })
        }
        Err(halt) => Err(halt),
    }
}

/// A step of a statement other than a sequence's parts.
pub(crate) fn statement_step<'k>(
    alloc: Global,
    kernel: &'k KernelParts,
    values: &ThreadValues<'_>,
    s: &'k Statement,
    left: &mut u64,
) -> Result<Step<'k>, Halt>
    ensures { StatementMoved kernel.now values.now (stmt s.now) left.old left.new result }
{
    match s {
        Statement::Nop | Statement::Return { .. } => Ok(Step::Finishes),
        Statement::Set { to, value } => {
            let part = number_of(alloc, kernel, values, value, left);
            after_assign(*to, part, left)
        }
        Statement::SetAt {
            slot,
            length,
            index,
            value,
            place,
        } => match number_of(alloc, kernel, values, index, left) {
            Ok(at) => {
                let part = number_of(alloc, kernel, values, value, left);
                after_assign_at(*slot, *length, at, *place, part, left)
            }
            Err(halt) => Err(halt),
        },
        Statement::PutAt {
            variable,
            length,
            index,
            value,
            place,
        } => match number_of(alloc, kernel, values, index, left) {
            Ok(at) => {
                let part = number_of(alloc, kernel, values, value, left);
                after_put_at(*variable, *length, at, *place, part, left)
            }
            Err(halt) => Err(halt),
        },
        Statement::Clear { slot, length } => clear_step(*slot, *length, left),
        Statement::Sequence { list } => Ok(Step::Becomes {
            next: NextText::DoesAll { list },
        }),
        Statement::If { test, yes, no } => if_step(alloc, kernel, values, test, yes, no, left),
        Statement::While {
            test,
            bound,
            body,
            place,
        } => Ok(Step::Becomes {
            next: NextText::Turns {
                turn: Turn {
                    test,
                    bound: *bound,
                    left: *bound,
                    body,
                    place: *place,
                },
            },
        }),
        Statement::Pause => match pay(1, left) {
            Ok(()) => Ok(Step::Becomes {
                next: NextText::Rests,
            }),
            Err(halt) => Err(halt),
        },
        Statement::Par { branches } => par_step(alloc, kernel, values, branches, left),
        Statement::Enter {
            weak,
            immediate,
            test,
            body,
        } => {
            if *immediate {
                let part = number_of(alloc, kernel, values, test, left);
                return after_enter(*weak, test, body, part, left);
            }
            Ok(Step::Becomes {
                next: NextText::Watches {
                    weak: *weak,
                    test,
                    body,
                },
            })
        }
    }
}
