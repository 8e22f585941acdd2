//! The int functions that bodies of the kernel call.
#![tactic(auto)]

ghost use Rattle.std.specs.Prelude.{◌≡◌, ◌++◌, map, OnOk};
ghost use Rattle.forec_kernel.specs.Plain as kernel;
ghost use Rattle.forec_kernel.specs.WellFormed as of;

use forec_base::OutOfMemory;
use forec_kernel::{Expression, Launch, Statement};

/// Adds the calls in an expression to a list, in order.
#[cycle(expression_calls)]
fn expression_calls(calls: &mut Vec<u32>, e: &Expression) -> Result<(), OutOfMemory>
    ensures { OnOk result (calls.new.items ≡ calls.old.items ++ of.calls_of (kernel.expr e.now)) }
{
    match e {
        Expression::Number { .. } => Ok(()),
        Expression::Local { .. } => Ok(()),
        Expression::Variable { .. } => Ok(()),
        Expression::LocalAt { index, .. } => {
            expression_calls(calls, index)?;
            Ok(())
        }
        Expression::SharedAt { index, .. } => {
            expression_calls(calls, index)?;
            Ok(())
        }
        Expression::TableAt { index, .. } => {
            expression_calls(calls, index)?;
            Ok(())
        }
        Expression::Unary { of, .. } => {
            expression_calls(calls, of)?;
            Ok(())
        }
        Expression::Binary { left, right, .. } => {
            expression_calls(calls, left)?;
            expression_calls(calls, right)?;
            Ok(())
        }
        Expression::And { left, right } => {
            expression_calls(calls, left)?;
            expression_calls(calls, right)?;
            Ok(())
        }
        Expression::Or { left, right } => {
            expression_calls(calls, left)?;
            expression_calls(calls, right)?;
            Ok(())
        }
        Expression::Choose { test, yes, no } => {
            expression_calls(calls, test)?;
            expression_calls(calls, yes)?;
            expression_calls(calls, no)?;
            Ok(())
        }
        Expression::Call { function, args } => {
            calls.push(*function)?;
            all_calls(calls, args.as_slice())?;
            Ok(())
        }
    }
}

#[cycle(expression_calls)]
fn all_calls(calls: &mut Vec<u32>, list: &[Expression]) -> Result<(), OutOfMemory>
    ensures { OnOk result (calls.new.items ≡ calls.old.items ++ of.calls_in (kernel.exprs list.now)) }
{
    for e in list {
        expression_calls(calls, e)?;
    }
    Ok(())
}

fn launch_calls(calls: &mut Vec<u32>, launches: &[Launch]) -> Result<(), OutOfMemory>
    ensures { OnOk result (calls.new.items ≡ calls.old.items ++ of.branch_calls (map kernel.branch launches.now)) }
{
    for launch in launches {
        all_calls(calls, launch.args.as_slice())?;
    }
    Ok(())
}

/// Adds the calls in a statement to a list, in order: an int function stands there as often as it is called.
///
/// # Errors
///
/// Out of memory.
#[cycle(statement_calls)]
pub fn statement_calls(calls: &mut Vec<u32>, s: &Statement) -> Result<(), OutOfMemory>
    ensures { OnOk result (calls.new.items ≡ calls.old.items ++ of.stmt_calls (kernel.stmt s.now)) }
{
    match s {
        Statement::Nop => Ok(()),
        Statement::Clear { .. } => Ok(()),
        Statement::Pause => Ok(()),
        Statement::Set { value, .. } => {
            expression_calls(calls, value)?;
            Ok(())
        }
        Statement::Return { value } => {
            expression_calls(calls, value)?;
            Ok(())
        }
        Statement::SetAt { index, value, .. } => {
            expression_calls(calls, index)?;
            expression_calls(calls, value)?;
            Ok(())
        }
        Statement::PutAt { index, value, .. } => {
            expression_calls(calls, index)?;
            expression_calls(calls, value)?;
            Ok(())
        }
        Statement::Sequence { list } => {
            list_calls(calls, list.as_slice())?;
            Ok(())
        }
        Statement::If { test, yes, no } => {
            expression_calls(calls, test)?;
            statement_calls(calls, yes)?;
            statement_calls(calls, no)?;
            Ok(())
        }
        Statement::While { test, body, .. } => {
            expression_calls(calls, test)?;
            statement_calls(calls, body)?;
            Ok(())
        }
        Statement::Enter { test, body, .. } => {
            expression_calls(calls, test)?;
            statement_calls(calls, body)?;
            Ok(())
        }
        Statement::Par { branches } => {
            launch_calls(calls, branches.as_slice())?;
            Ok(())
        }
    }
}

#[cycle(statement_calls)]
fn list_calls(calls: &mut Vec<u32>, list: &[Statement]) -> Result<(), OutOfMemory>
    ensures { OnOk result (calls.new.items ≡ calls.old.items ++ of.stmts_calls (kernel.stmts list.now)) }
{
    for s in list {
        statement_calls(calls, s)?;
    }
    Ok(())
}
