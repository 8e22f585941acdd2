//! A loop over one local by numbers alone: its start, test and step.

ghost use Rattle.std.specs.Prelude.{◌≡◌, map};
ghost use Rattle.forec_tree.specs.Plain as plain;
ghost use Rattle.forec_tree.specs.Turns as form;
ghost use Rattle.forec_tree.specs.Plain.{perhaps_of};
ghost use Rattle.loop_check.specs.Forms.{start_pair, test_from, step_from};

use crate::parts::{LoopStep, Start, Test};
use forec_base::{Binary, Unary, unary};
use forec_tree::{Expr, ExprKind, Local, Stmt, StmtKind, Target};

fn signed_number(e: &Expr) -> Option<i32>
    ensures { result ≡ form.signed_number (plain.term e.now) }
{
    match &e.what {
        ExprKind::Number { value } => Some(*value),
        ExprKind::Unary {
            op: Unary::Minus,
            of,
        } => negated(of),
        _ => None,
    }
}

fn negated(e: &Expr) -> Option<i32>
    ensures { result ≡ form.negated (plain.term e.now) }
{
    match &e.what {
        ExprKind::Number { value } => Some(unary(Unary::Minus, *value)),
        _ => None,
    }
}

fn plain_target(target: &Target) -> Option<u32>
    ensures { result ≡ form.plain_target (plain.written_target target.now) }
{
    match &target.index {
        None => Some(target.name.id),
        Some(_) => None,
    }
}

fn start_with(id: Option<u32>, value: &Expr) -> Option<Start>
    ensures { start_pair result ≡ form.paired_with id (form.signed_number (plain.term value.now)) }
{
    match (id, signed_number(value)) {
        (Some(id), Some(number)) => Some(Start { id, number }),
        _ => None,
    }
}

fn start_local(list: &[Local]) -> Option<Start>
    ensures { start_pair result ≡ form.start_local (map plain.declared list.now) }
{
    match list {
        [local] => start_declared(local),
        _ => None,
    }
}

fn start_declared(local: &Local) -> Option<Start>
    ensures { start_pair result ≡ form.paired_term local.now.name.id
        (form.single_value local.now.length (plain.terms local.now.values)) }
{
    if local.length.is_some() {
        return None;
    }
    match local.values.as_slice() {
        [value] => start_with(Some(local.name.id), value),
        _ => None,
    }
}

/// A loop's start, where it has the form that turns can be counted from: a variable, and the value that it gets.
pub fn start_of(start: &Option<Box<Stmt>>) -> Option<Start>
    ensures { start_pair result ≡ form.start_of (perhaps_of start.now) }
{
    match start {
        None => None,
        Some(first) => start_statement(first),
    }
}

fn start_statement(s: &Stmt) -> Option<Start>
    ensures { start_pair result ≡ form.start_statement (plain.statement s.now) }
{
    match &s.what {
        StmtKind::Assign {
            target,
            op: None,
            value,
        } => start_with(plain_target(target), value),
        StmtKind::Declare { locals } => start_local(locals.as_slice()),
        _ => None,
    }
}

/// A loop's test, where it has the form that turns can be counted from: a variable compared with a number.
pub fn test_of(test: &Option<Expr>) -> Option<Test>
    ensures { test_from result ≡ form.test_of (plain.optional_term test.now) }
{
    match test {
        None => None,
        Some(e) => test_term(e),
    }
}

fn test_term(e: &Expr) -> Option<Test>
    ensures { test_from result ≡ form.test_term (plain.term e.now) }
{
    match &e.what {
        ExprKind::Binary { op, left, right } => test_between(*op, left, right),
        _ => None,
    }
}

fn test_between(op: Binary, left: &Expr, right: &Expr) -> Option<Test>
    ensures { test_from result ≡ form.test_with op (form.read_of (plain.term left.now))
        (form.signed_number (plain.term right.now)) }
{
    match (read_of(left), signed_number(right)) {
        (Some(id), Some(number)) => Some(Test { id, op, number }),
        _ => None,
    }
}

fn read_of(e: &Expr) -> Option<u32>
    ensures { result ≡ form.read_of (plain.term e.now) }
{
    match &e.what {
        ExprKind::Read { name } => Some(name.id),
        _ => None,
    }
}

fn number_of(e: &Expr) -> Option<i32>
    ensures { result ≡ form.literal_number (plain.term e.now) }
{
    match &e.what {
        ExprKind::Number { value } => Some(*value),
        _ => None,
    }
}

/// A loop's step, where it has the form that turns can be counted from: a variable, and by how much it changes.
pub fn step_of(step: &Option<Box<Stmt>>) -> Option<LoopStep>
    ensures { step_from result ≡ form.step_of (perhaps_of step.now) }
{
    match step {
        None => None,
        Some(next) => step_statement(next),
    }
}

fn step_statement(s: &Stmt) -> Option<LoopStep>
    ensures { step_from result ≡ form.step_statement (plain.statement s.now) }
{
    match &s.what {
        StmtKind::Assign {
            target,
            op: Some(op),
            value,
        } => step_with(plain_target(target), op.op, number_of(value)),
        StmtKind::Assign {
            target,
            op: None,
            value,
        } => step_by_sum(target, value),
        _ => None,
    }
}

fn step_with(id: Option<u32>, op: Binary, by: Option<i32>) -> Option<LoopStep>
    ensures { step_from result ≡ form.step_with id op by }
{
    match (id, by) {
        (Some(id), Some(by)) => Some(LoopStep { id, op, by }),
        _ => None,
    }
}

fn step_by_sum(target: &Target, value: &Expr) -> Option<LoopStep>
    ensures { step_from result ≡ form.step_by_sum (plain.written_target target.now) (plain.term value.now) }
{
    match &value.what {
        ExprKind::Binary { op, left, right } => {
            step_with(
                same_name(plain_target(target), read_of(left)),
                *op,
                number_of(right),
            )
        }
        _ => None,
    }
}

fn same_name(a: Option<u32>, b: Option<u32>) -> Option<u32>
    ensures { result ≡ form.same_name a b }
{
    match (a, b) {
        (Some(a), Some(b)) => { if a == b { Some(a) } else { None } }
        _ => None,
    }
}
