//! The bounds of expressions and statements.

ghost use Rattle.std.specs.Prelude.{◌≡◌, ◌+◌, map};
ghost use Rattle.forec_kernel.specs.Shapes.{plain_kernel};
ghost use Rattle.forec_kernel.specs.Plain.{expr, exprs, branch, stmt, stmts};
ghost use Rattle.tick_bounds.specs.Bound.{expr_bound, exprs_bound, loop_bound, stmt_bound, stmts_bound};
ghost use Rattle.tick_bounds.specs.Bound as plain;
ghost use Rattle.tick_bounds.specs.Capped.{capped, known_at, by_tables};

use crate::capped::{plus, times};
use crate::pars::{bodies_bound, join_bound};
use crate::scope::{Scope, function_bound};
use forec_kernel::{Expression, Launch, Statement};

#[cycle(expression_bound)]
fn expression_bound(functions: &[Option<u64>], e: &Expression) -> u64
    ensures { result ≡ capped (expr_bound (known_at functions.now) (expr e.now)) }
{
    match e {
        Expression::Number { .. } | Expression::Local { .. } | Expression::Variable { .. } => 1,
        Expression::LocalAt { index, .. }
        | Expression::SharedAt { index, .. }
        | Expression::TableAt { index, .. } => plus(1, expression_bound(functions, index)),
        Expression::Unary { of, .. } => plus(1, expression_bound(functions, of)),
        Expression::Binary { left, right, .. }
        | Expression::And { left, right }
        | Expression::Or { left, right } => plus(
            plus(1, expression_bound(functions, left)),
            expression_bound(functions, right),
        ),
        Expression::Choose { test, yes, no } => plus(
            plus(1, expression_bound(functions, test)),
            expression_bound(functions, yes).max(expression_bound(functions, no)),
        ),
        Expression::Call { function, args } => plus(
            plus(1, arguments_bound(functions, args.as_slice())),
            function_bound(functions, *function),
        ),
    }
}

#[cycle(expression_bound)]
fn arguments_bound(functions: &[Option<u64>], args: &[Expression]) -> u64
    ensures { result ≡ capped (exprs_bound (known_at functions.now) (exprs args.now)) }
{
    let mut sum = 0;
    for e in args {
        sum = plus(sum, expression_bound(functions, e));
    }
    sum
}

/// The arguments of all branches.
fn launches_bound(functions: &[Option<u64>], branches: &[Launch]) -> u64
    ensures { result ≡ capped (plain.args_bound (known_at functions.now) (map branch branches.now)) }
{
    let mut sum = 0;
    for launch in branches {
        sum = plus(sum, arguments_bound(functions, launch.args.as_slice()));
    }
    sum
}

/// A loop's turns, each with its test: the test after the last one is counted as a turn.
fn turns_bound(bound: Option<u32>, turn: u64) -> u64
    ensures { result ≡ capped (loop_bound bound turn) }
{
    match bound {
        None => times(2, turn),
        Some(turns) => times(u64::from(turns) + 1, turn),
    }
}

/// The bound of a statement of a thread or an int function.
#[cycle(statement_bound)]
pub fn statement_bound(scope: &Scope<'_>, s: &Statement) -> u64
    ensures { result ≡ capped (stmt_bound (plain_kernel scope.now.kernel.now)
        (by_tables scope.now.functions.now scope.now.threads.now) scope.now.uses.now (stmt s.now)) }
{
    match s {
        Statement::Nop => 0,
        Statement::Pause => 1,
        Statement::Clear { length, .. } => u64::from(*length),
        Statement::Set { value, .. } => plus(expression_bound(scope.functions, value), 1),
        Statement::Return { value } => expression_bound(scope.functions, value),
        Statement::SetAt { index, value, .. } | Statement::PutAt { index, value, .. } => plus(
            plus(
                expression_bound(scope.functions, index),
                expression_bound(scope.functions, value),
            ),
            1,
        ),
        Statement::Sequence { list } => list_bound(scope, list.as_slice()),
        Statement::If { test, yes, no } => plus(
            plus(expression_bound(scope.functions, test), 1),
            statement_bound(scope, yes).max(statement_bound(scope, no)),
        ),
        Statement::While {
            test,
            bound,
            body,
            ..
        } => {
            let turn = plus(
                plus(expression_bound(scope.functions, test), 1),
                statement_bound(scope, body),
            );
            turns_bound(*bound, turn)
        }
        Statement::Enter { test, body, .. } => {
            let tests = times(2, plus(expression_bound(scope.functions, test), 1));
            plus(tests, statement_bound(scope, body))
        }
        Statement::Par { branches } => {
            let starts = plus(launches_bound(scope.functions, branches.as_slice()), 1);
            let bodies = bodies_bound(scope.threads, branches.as_slice());
            plus(plus(starts, bodies), join_bound(scope, branches.as_slice()))
        }
    }
}

#[cycle(statement_bound)]
fn list_bound(scope: &Scope<'_>, list: &[Statement]) -> u64
    ensures { result ≡ capped (stmts_bound (plain_kernel scope.now.kernel.now)
        (by_tables scope.now.functions.now scope.now.threads.now) scope.now.uses.now (stmts list.now)) }
{
    let mut sum = 0;
    for s in list {
        sum = plus(sum, statement_bound(scope, s));
    }
    sum
}
