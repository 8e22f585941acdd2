//! The instructions of an expression, after those that stand already.

ghost use Rattle.std.specs.Prelude.{◌≡◌, ◌+◌, [], ◌∷◌, ◌++◌, length, OnOk, IfOk};
ghost use Rattle.forec_kernel.specs.Plain.{expr, exprs};
ghost use Rattle.forec_kernel.specs.Terms.{LocalAt, SharedAt};
ghost use Rattle.thread_code.specs.declared.instruction.Instruction.TheVariants.{Truth, Jump, Quiet};
ghost use Rattle.code_gen.specs.Expressions.{expression_code, expressions_code};

use crate::writing::{address, put};
use forec_base::{OutOfMemory, Place};
use forec_kernel::Expression;
use thread_code::Instruction;

/// Writes an expression's code. It leaves the expression's number on the stack.
#[cycle(expression)]
pub fn emit_expression(
    steps: &mut Vec<Instruction>,
    expression: &Expression,
) -> Result<(), OutOfMemory>
    ensures { OnOk result (steps.new.items ≡ steps.old.items
        ++ expression_code (length steps.old.items) (expr expression.now)) }
{
    match expression {
        Expression::Number { value } => put(steps, Instruction::Push { value: *value }),
        Expression::Local { slot } => put(steps, Instruction::Load { slot: *slot }),
        Expression::LocalAt {
            slot,
            length,
            index,
            place,
        } => emit_local_at(steps, *slot, *length, index, *place),
        Expression::Variable { variable } => put(
            steps,
            Instruction::Get {
                variable: *variable,
            },
        ),
        Expression::SharedAt {
            variable,
            length,
            index,
            place,
        } => emit_shared_at(steps, *variable, *length, index, *place),
        Expression::TableAt {
            table,
            index,
            place,
        } => {
            emit_expression(steps, index)?;
            let element = Instruction::Table {
                table: *table,
                place: *place,
            };
            put(steps, element)
        }
        Expression::Unary { op, of } => {
            emit_expression(steps, of)?;
            put(steps, Instruction::Unary { op: *op })
        }
        Expression::Binary {
            op,
            left,
            right,
            place,
        } => {
            emit_expression(steps, left)?;
            emit_expression(steps, right)?;
            let operator = Instruction::Binary {
                op: *op,
                place: *place,
            };
            put(steps, operator)
        }
        Expression::And { left, right } => {
            emit_expression(steps, left)?;
            let test = steps.len();
            put(steps, Instruction::Zero { to: 0 })?;
            emit_expression(steps, right)?;
            let to = end_sides(steps, 0)?;
            steps[test] = Instruction::Zero { to };
            Ok(())
        }
        Expression::Or { left, right } => {
            emit_expression(steps, left)?;
            let test = steps.len();
            put(steps, Instruction::NonZero { to: 0 })?;
            emit_expression(steps, right)?;
            let to = end_sides(steps, 1)?;
            steps[test] = Instruction::NonZero { to };
            Ok(())
        }
        Expression::Choose { test, yes, no } => {
            emit_expression(steps, test)?;
            let skip = steps.len();
            put(steps, Instruction::Zero { to: 0 })?;
            emit_expression(steps, yes)?;
            let leave = steps.len();
            put(steps, Instruction::Jump { to: 0 })?;
            let other = address(steps)?;
            emit_expression(steps, no)?;
            let end = address(steps)?;
            steps[skip] = Instruction::Zero { to: other };
            steps[leave] = Instruction::Jump { to: end };
            Ok(())
        }
        Expression::Call { function, args } => {
            emit_expressions(steps, args)?;
            put(
                steps,
                Instruction::Call {
                    function: *function,
                },
            )
        }
    }
}

#[cycle(expression)]
fn emit_local_at(
    steps: &mut Vec<Instruction>,
    slot: u32,
    size: u32,
    index: &Expression,
    place: Place,
) -> Result<(), OutOfMemory>
    ensures { OnOk result (steps.new.items
        ≡ steps.old.items ++ expression_code (length steps.old.items) (LocalAt slot size (expr index.now) place)) }
{
    emit_expression(steps, index)?;
    put(
        steps,
        Instruction::LoadAt {
            slot,
            length: size,
            place,
        },
    )
}

#[cycle(expression)]
fn emit_shared_at(
    steps: &mut Vec<Instruction>,
    first: u32,
    count: u32,
    index: &Expression,
    place: Place,
) -> Result<(), OutOfMemory>
    ensures { OnOk result (steps.new.items
        ≡ steps.old.items ++ expression_code (length steps.old.items) (SharedAt first count (expr index.now) place)) }
{
    emit_expression(steps, index)?;
    put(
        steps,
        Instruction::GetAt {
            variable: first,
            length: count,
            place,
        },
    )
}

/// Behind the sides of an `and` or an `or`: the right side becomes 0 or 1. The result is the address that
/// skips it, where the number of a side that was skipped is pushed.
fn end_sides(steps: &mut Vec<Instruction>, skipped: i32) -> Result<u32, OutOfMemory>
    ensures code { OnOk result (steps.new.items ≡ steps.old.items
        ++ (Truth ∷ Jump (length steps.old.items + 1 + 1 + 1) ∷ Quiet skipped ∷ [])) }
    ensures at { IfOk result (λ to. to ≡ length steps.old.items + 1 + 1) }
{
    let end = address(steps)?;
    put(steps, Instruction::Truth)?;
    put(steps, Instruction::Jump { to: end + 3 })?;
    put(steps, Instruction::Quiet { value: skipped })?;
    Ok(end + 2)
}

/// Writes the code of several expressions, one after the other.
#[cycle(expression)]
pub fn emit_expressions(
    steps: &mut Vec<Instruction>,
    expressions: &[Expression],
) -> Result<(), OutOfMemory>
    ensures { OnOk result (steps.new.items ≡ steps.old.items
        ++ expressions_code (length steps.old.items) (exprs expressions.now)) }
{
    for expression in expressions {
        emit_expression(steps, expression)?;
    }
    Ok(())
}
