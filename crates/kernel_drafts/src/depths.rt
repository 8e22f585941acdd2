//! How many statements and expressions nest, up to the greatest `u64`.

ghost use Rattle.std.specs.Prelude.{◌≡◌, ◌+◌, ◌-◌, ◌^◌, min, map};
ghost use Rattle.forec_kernel.specs.Plain as kernel;
ghost use Rattle.forec_kernel.specs.WellFormed as of;

use forec_kernel::{Expression, Launch, Statement};
use text_sizes::add;

/// The depth of an expression.
#[cycle(expression_depth)]
fn expression_depth(e: &Expression) -> u64
    ensures { result ≡ min (of.expr_depth (kernel.expr e.now)) (2 ^ 64 - 1) }
{
    match e {
        Expression::Number { .. } => 1,
        Expression::Local { .. } => 1,
        Expression::Variable { .. } => 1,
        Expression::LocalAt { index, .. } => add(1, expression_depth(index)),
        Expression::SharedAt { index, .. } => add(1, expression_depth(index)),
        Expression::TableAt { index, .. } => add(1, expression_depth(index)),
        Expression::Unary { of, .. } => add(1, expression_depth(of)),
        Expression::Binary { left, right, .. } => {
            let left = expression_depth(left);
            add(1, left.max(expression_depth(right)))
        }
        Expression::And { left, right } => {
            let left = expression_depth(left);
            add(1, left.max(expression_depth(right)))
        }
        Expression::Or { left, right } => {
            let left = expression_depth(left);
            add(1, left.max(expression_depth(right)))
        }
        Expression::Choose { test, yes, no } => {
            let test = expression_depth(test);
            let yes = expression_depth(yes);
            add(1, test.max(yes.max(expression_depth(no))))
        }
        Expression::Call { args, .. } => add(1, all_depths(args.as_slice())),
    }
}

/// The greatest depth of expressions.
#[cycle(expression_depth)]
fn all_depths(list: &[Expression]) -> u64
    ensures { result ≡ min (of.exprs_depth (kernel.exprs list.now)) (2 ^ 64 - 1) }
{
    let mut most = 0;
    for e in list {
        most = most.max(expression_depth(e));
    }
    most
}

fn launches_depth(launches: &[Launch]) -> u64
    ensures { result ≡ min (of.branches_depth (map kernel.branch launches.now)) (2 ^ 64 - 1) }
{
    let mut most = 0;
    for launch in launches {
        most = most.max(all_depths(launch.args.as_slice()));
    }
    most
}

/// The depth of a statement.
#[cycle(statement_depth)]
pub fn statement_depth(s: &Statement) -> u64
    ensures { result ≡ min (of.stmt_depth (kernel.stmt s.now)) (2 ^ 64 - 1) }
{
    match s {
        Statement::Nop => 1,
        Statement::Clear { .. } => 1,
        Statement::Pause => 1,
        Statement::Set { value, .. } => add(1, expression_depth(value)),
        Statement::Return { value } => add(1, expression_depth(value)),
        Statement::SetAt { index, value, .. } => {
            let index = expression_depth(index);
            add(1, index.max(expression_depth(value)))
        }
        Statement::PutAt { index, value, .. } => {
            let index = expression_depth(index);
            add(1, index.max(expression_depth(value)))
        }
        Statement::Sequence { list } => add(1, list_depth(list.as_slice())),
        Statement::If { test, yes, no } => {
            let test = expression_depth(test);
            let yes = statement_depth(yes);
            add(1, test.max(yes.max(statement_depth(no))))
        }
        Statement::While { test, body, .. } => {
            let test = expression_depth(test);
            add(1, test.max(statement_depth(body)))
        }
        Statement::Enter { test, body, .. } => {
            let test = expression_depth(test);
            add(1, test.max(statement_depth(body)))
        }
        Statement::Par { branches } => add(1, launches_depth(branches.as_slice())),
    }
}

#[cycle(statement_depth)]
fn list_depth(list: &[Statement]) -> u64
    ensures { result ≡ min (of.stmts_depth (kernel.stmts list.now)) (2 ^ 64 - 1) }
{
    let mut most = 0;
    for s in list {
        most = most.max(statement_depth(s));
    }
    most
}
