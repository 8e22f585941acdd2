//! The instructions of a statement, after those that stand already.

ghost use Rattle.std.specs.Prelude.{◌≡◌, ◌+◌, [], ◌∷◌, ◌++◌, length, map, OnOk, IfOk};
ghost use Rattle.forec_kernel.specs.Plain.{expr, exprs, stmt, stmts, branch};
ghost use Rattle.forec_kernel.specs.Shapes.{plain_thread};
ghost use Rattle.forec_kernel.specs.Terms.{SetAt, PutAt, While, Par, Enter};
ghost use Rattle.code_gen.specs.Statements.{loops, weaks, checks, prologue, wait_code, pause_code, fork_code, set_code, entry_code, par_number, arguments_code};
ghost use Rattle.code_gen.specs.Arounds.{plain_around, optional_instruction};
ghost use Rattle.code_gen.specs.StatementCode.{assignment_code, code_within, codes_within, loop_within};

use crate::around::{Around, Surroundings};
use crate::expressions::{emit_expression, emit_expressions};
use crate::writing::{address, put};
use forec_base::{OutOfMemory, Place};
use forec_kernel::{Expression, Launch, Spot, Statement, ThreadShape};
use thread_code::Instruction;

fn setting(to: Spot) -> Instruction
    ensures { result ≡ set_code to }
{
    match to {
        Spot::Local { slot } => Instruction::Store { slot },
        Spot::Variable { variable } => Instruction::Put { variable },
    }
}

fn put_perhaps(
    steps: &mut Vec<Instruction>,
    instruction: Option<Instruction>,
) -> Result<(), OutOfMemory>
    ensures { OnOk result (steps.new.items ≡ steps.old.items ++ optional_instruction instruction) }
{
    match instruction {
        Some(instruction) => put(steps, instruction),
        None => Ok(()),
    }
}

/// Before a pause: out of the innermost weak abort whose flag is set.
fn emit_checks(
    steps: &mut Vec<Instruction>,
    around: &Around<'_>,
    flags: u32,
) -> Result<(), OutOfMemory>
    requires { flags ≡ weaks (plain_around around.now) }
    ensures { OnOk result (steps.new.items ≡ steps.old.items ++ checks (plain_around around.now)) }
{
    match around {
        Around::Outside => Ok(()),
        Around::InLoop { bound: _, outer } => emit_checks(steps, outer, flags),
        Around::InAbort {
            weak,
            test: _,
            exit,
            outer,
        } => {
            if *weak {
                let check = Instruction::Flagged {
                    flag: flags - 1,
                    to: *exit,
                };
                put(steps, check)?;
                emit_checks(steps, outer, flags - 1)
            } else {
                emit_checks(steps, outer, flags)
            }
        }
    }
}

/// At a wake, from the outside in: the tests of the aborts, and the turns of the loops anew.
fn emit_prologue(
    steps: &mut Vec<Instruction>,
    around: &Around<'_>,
    counters: u32,
    flags: u32,
) -> Result<(), OutOfMemory>
    requires counters { counters ≡ loops (plain_around around.now) }
    requires flags { flags ≡ weaks (plain_around around.now) }
    ensures { OnOk result (steps.new.items ≡ steps.old.items
        ++ prologue (length steps.old.items) (plain_around around.now)) }
{
    match around {
        Around::Outside => Ok(()),
        Around::InLoop { bound, outer } => {
            emit_prologue(steps, outer, counters - 1, flags)?;
            let refill = Instruction::Fill {
                counter: counters - 1,
                turns: *bound,
            };
            put(steps, refill)
        }
        Around::InAbort {
            weak,
            test,
            exit,
            outer,
        } => {
            if *weak {
                emit_prologue(steps, outer, counters, flags - 1)?;
                emit_expression(steps, test)?;
                put(steps, Instruction::Keep { flag: flags - 1 })
            } else {
                emit_prologue(steps, outer, counters, flags)?;
                emit_expression(steps, test)?;
                put(steps, Instruction::NonZero { to: *exit })
            }
        }
    }
}

/// Out of a weak abort whose flag is set, else a pause, and what is done at its wakes. The result is the
/// address at which a wake goes on.
fn emit_wait(
    steps: &mut Vec<Instruction>,
    surroundings: &Surroundings<'_>,
) -> Result<u32, OutOfMemory>
    ensures code { OnOk result (steps.new.items ≡ steps.old.items
        ++ wait_code (length steps.old.items) (plain_around surroundings.now.around.now)) }
    ensures at { IfOk result (λ w. w ≡ length steps.old.items + length
        (checks (plain_around surroundings.now.around.now)) + 1) }
{
    emit_checks(steps, surroundings.around, surroundings.flags)?;
    let wake = address(steps)? + 1;
    put(steps, Instruction::Pause { to: wake })?;
    emit_prologue(
        steps,
        surroundings.around,
        surroundings.counters,
        surroundings.flags,
    )?;
    Ok(wake)
}

fn emit_pause(
    steps: &mut Vec<Instruction>,
    surroundings: &Surroundings<'_>,
) -> Result<(), OutOfMemory>
    ensures { OnOk result (steps.new.items ≡ steps.old.items
        ++ pause_code (length steps.old.items) (plain_around surroundings.now.around.now)) }
{
    put(steps, Instruction::Unit { count: 1 })?;
    emit_wait(steps, surroundings)?;
    Ok(())
}

/// A fork whose arguments are on the stack. Where a branch has not ended the thread pauses, and at its
/// wakes the branches are woken. The pause stands a second time after that, since a fork leads onward.
fn emit_fork(
    steps: &mut Vec<Instruction>,
    par: u32,
    surroundings: &Surroundings<'_>,
) -> Result<(), OutOfMemory>
    ensures { OnOk result (steps.new.items ≡ steps.old.items
        ++ fork_code par (length steps.old.items) (plain_around surroundings.now.around.now)) }
{
    let fork = address(steps)?;
    put(steps, Instruction::Fork { par, to: fork + 2 })?;
    let first = steps.len();
    put(steps, Instruction::Jump { to: 0 })?;
    let wake = emit_wait(steps, surroundings)?;
    let again = address(steps)?;
    put(steps, Instruction::Again { par, to: again + 2 })?;
    let second = steps.len();
    put(steps, Instruction::Jump { to: 0 })?;
    emit_checks(steps, surroundings.around, surroundings.flags)?;
    put(steps, Instruction::Pause { to: wake })?;
    let end = address(steps)?;
    steps[first] = Instruction::Jump { to: end };
    steps[second] = Instruction::Jump { to: end };
    Ok(())
}

/// The number of a par, which its branches have.
fn number_of(threads: &[ThreadShape], branches: &[Launch]) -> u32
    ensures { result ≡ par_number (map plain_thread threads.now) (map branch branches.now) }
{
    let Some(launch) = branches.first() else {
        return 0;
    };
    let first = launch.thread as usize;
    if first < threads.len() {
        threads[first].par.unwrap_or(0)
    } else {
        0
    }
}

fn emit_arguments(steps: &mut Vec<Instruction>, branches: &[Launch]) -> Result<(), OutOfMemory>
    ensures { OnOk result (steps.new.items ≡ steps.old.items
        ++ arguments_code (length steps.old.items) (map branch branches.now)) }
{
    for launch in branches {
        emit_expressions(steps, &launch.args)?;
    }
    Ok(())
}

fn emit_par(
    steps: &mut Vec<Instruction>,
    branches: &[Launch],
    surroundings: &Surroundings<'_>,
) -> Result<(), OutOfMemory>
    ensures { OnOk result (steps.new.items ≡ steps.old.items
        ++ code_within surroundings.now (length steps.old.items) (Par (map branch branches.now))) }
{
    emit_arguments(steps, branches)?;
    let par = number_of(surroundings.threads, branches);
    emit_fork(steps, par, surroundings)
}

fn emit_set_at(
    steps: &mut Vec<Instruction>,
    slot: u32,
    size: u32,
    index: &Expression,
    value: &Expression,
    place: Place,
) -> Result<(), OutOfMemory>
    ensures { OnOk result (steps.new.items ≡ steps.old.items
        ++ assignment_code (length steps.old.items) (SetAt slot size (expr index.now) (expr value.now) place)) }
{
    emit_expression(steps, index)?;
    emit_expression(steps, value)?;
    put(
        steps,
        Instruction::StoreAt {
            slot,
            length: size,
            place,
        },
    )
}

fn emit_put_at(
    steps: &mut Vec<Instruction>,
    first: u32,
    count: u32,
    index: &Expression,
    value: &Expression,
    place: Place,
) -> Result<(), OutOfMemory>
    ensures { OnOk result (steps.new.items ≡ steps.old.items
        ++ assignment_code (length steps.old.items) (PutAt first count (expr index.now) (expr value.now) place)) }
{
    emit_expression(steps, index)?;
    emit_expression(steps, value)?;
    put(
        steps,
        Instruction::PutAt {
            variable: first,
            length: count,
            place,
        },
    )
}

/// The start of an abort, whose body has so many instructions. The result is the address after it.
fn emit_entry(
    steps: &mut Vec<Instruction>,
    weak: bool,
    immediate: bool,
    test: &Expression,
    flag: u32,
    body: u32,
) -> Result<u32, OutOfMemory>
    ensures { IfOk result (λ exit. steps.new.items ≡ steps.old.items
        ++ entry_code weak immediate flag exit (length steps.old.items) (expr test.now)) }
{
    if immediate {
        emit_expression(steps, test)?;
    }
    let last = address(steps)?;
    let start = if immediate || weak { last + 1 } else { last };
    let exit = start.checked_add(body).ok_or(OutOfMemory)?;
    if immediate {
        let guard = if weak {
            Instruction::Keep { flag }
        } else {
            Instruction::NonZero { to: exit }
        };
        put(steps, guard)?;
    } else if weak {
        put(steps, Instruction::Flag { flag, value: false })?;
    }
    Ok(exit)
}

/// The instructions of a body, as they are written, and the sizes of the bodies of the aborts that come: the next one
/// last.
#[derive(Drop)]
pub struct Emitter {
    pub steps: Vec<Instruction>,
    pub sizes: Vec<u32>,
}

impl Emitter {
    /// A loop from its test on.
    #[cycle(statement)]
    fn emit_loop(
        &mut self,
        body: &Statement,
        test: &Expression,
        turn: Option<Instruction>,
        surroundings: &Surroundings<'_>,
    ) -> Result<(), OutOfMemory>
        ensures { OnOk result (self.new.steps.items ≡ self.old.steps.items
            ++ loop_within surroundings.now (length self.old.steps.items) (expr test.now) (optional_instruction turn)
            (stmt body.now)) }
    {
        let head = address(&self.steps)?;
        emit_expression(&mut self.steps, test)?;
        let skip = self.steps.len();
        put(&mut self.steps, Instruction::Zero { to: 0 })?;
        put_perhaps(&mut self.steps, turn)?;
        self.emit_statement(body, surroundings)?;
        put(&mut self.steps, Instruction::Jump { to: head })?;
        let end = address(&self.steps)?;
        self.steps[skip] = Instruction::Zero { to: end };
        Ok(())
    }

    /// A loop with its bound, if it has one.
    #[cycle(statement)]
    fn emit_while(
        &mut self,
        body: &Statement,
        test: &Expression,
        bound: Option<u32>,
        place: Place,
        surroundings: &Surroundings<'_>,
    ) -> Result<(), OutOfMemory>
        ensures { OnOk result (self.new.steps.items ≡ self.old.steps.items
            ++ code_within surroundings.now (length self.old.steps.items)
            (While (expr test.now) bound (stmt body.now) place)) }
    {
        let Some(turns) = bound else {
            return self.emit_loop(body, test, None, surroundings);
        };
        let counter = surroundings.counters;
        let more = counter.checked_add(1).ok_or(OutOfMemory)?;
        put(&mut self.steps, Instruction::Fill { counter, turns })?;
        let inner = Around::InLoop {
            bound: turns,
            outer: surroundings.around,
        };
        let inside = Surroundings {
            around: &inner,
            counters: more,
            flags: surroundings.flags,
            threads: surroundings.threads,
        };
        let turn = Instruction::Turn { counter, place };
        self.emit_loop(body, test, Some(turn), &inside)
    }

    /// An abort. How long its body is was counted beforehand, and is compared with what was written.
    #[cycle(statement)]
    fn emit_abort(
        &mut self,
        body: &Statement,
        weak: bool,
        immediate: bool,
        test: &Expression,
        surroundings: &Surroundings<'_>,
    ) -> Result<(), OutOfMemory>
        ensures { OnOk result (self.new.steps.items ≡ self.old.steps.items
            ++ code_within surroundings.now (length self.old.steps.items)
            (Enter weak immediate (expr test.now) (stmt body.now))) }
    {
        let size = self.sizes.pop().ok_or(OutOfMemory)?;
        let flags = surroundings.flags;
        let exit = emit_entry(&mut self.steps, weak, immediate, test, flags, size)?;
        let more = flags.checked_add(weak as u32).ok_or(OutOfMemory)?;
        let inner = Around::InAbort {
            weak,
            test,
            exit,
            outer: surroundings.around,
        };
        let inside = Surroundings {
            around: &inner,
            counters: surroundings.counters,
            flags: more,
            threads: surroundings.threads,
        };
        self.emit_statement(body, &inside)?;
        let end = address(&self.steps)?;
        if end == exit {
            Ok(())
        } else {
            Err(OutOfMemory)
        }
    }

    /// Writes a statement's code.
    #[cycle(statement)]
    pub fn emit_statement(
        &mut self,
        statement: &Statement,
        surroundings: &Surroundings<'_>,
    ) -> Result<(), OutOfMemory>
        ensures { OnOk result (self.new.steps.items ≡ self.old.steps.items
            ++ code_within surroundings.now (length self.old.steps.items) (stmt statement.now)) }
    {
        match statement {
            Statement::Nop => Ok(()),
            Statement::Set { to, value } => {
                emit_expression(&mut self.steps, value)?;
                put(&mut self.steps, setting(*to))
            }
            Statement::SetAt {
                slot,
                length,
                index,
                value,
                place,
            } => emit_set_at(&mut self.steps, *slot, *length, index, value, *place),
            Statement::PutAt {
                variable,
                length,
                index,
                value,
                place,
            } => emit_put_at(&mut self.steps, *variable, *length, index, value, *place),
            Statement::Clear { slot, length } => {
                let clear = Instruction::Clear {
                    slot: *slot,
                    length: *length,
                };
                put(&mut self.steps, clear)
            }
            Statement::Sequence { list } => self.emit_list(list, surroundings),
            Statement::If { test, yes, no } => {
                emit_expression(&mut self.steps, test)?;
                let skip = self.steps.len();
                put(&mut self.steps, Instruction::Zero { to: 0 })?;
                self.emit_statement(yes, surroundings)?;
                let leave = self.steps.len();
                put(&mut self.steps, Instruction::Jump { to: 0 })?;
                let other = address(&self.steps)?;
                self.emit_statement(no, surroundings)?;
                let end = address(&self.steps)?;
                self.steps[skip] = Instruction::Zero { to: other };
                self.steps[leave] = Instruction::Jump { to: end };
                Ok(())
            }
            Statement::While {
                test,
                bound,
                body,
                place,
            } => self.emit_while(body, test, *bound, *place, surroundings),
            Statement::Pause => emit_pause(&mut self.steps, surroundings),
            Statement::Par { branches } => emit_par(&mut self.steps, branches, surroundings),
            Statement::Enter {
                weak,
                immediate,
                test,
                body,
            } => self.emit_abort(body, *weak, *immediate, test, surroundings),
            Statement::Return { value } => {
                emit_expression(&mut self.steps, value)?;
                put(&mut self.steps, Instruction::Return)
            }
        }
    }

    #[cycle(statement)]
    fn emit_list(
        &mut self,
        list: &[Statement],
        surroundings: &Surroundings<'_>,
    ) -> Result<(), OutOfMemory>
        ensures { OnOk result (self.new.steps.items ≡ self.old.steps.items
            ++ codes_within surroundings.now (length self.old.steps.items) (stmts list.now)) }
    {
        for statement in list {
            self.emit_statement(statement, surroundings)?;
        }
        Ok(())
    }
}
