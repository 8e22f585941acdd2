//! Statements with their constants folded.

ghost use Rattle.std.specs.Prelude.{◌≡◌, map, IfOk, OnOk};
ghost use Rattle.forec_kernel.specs.Terms as plain;
ghost use Rattle.forec_kernel.specs.Plain.{expr, stmt, stmts, branch};
ghost use Rattle.fold_laws.specs.Folding.{is_nop, unless_nop, in_sequence, then_stmts, if_term, while_term, fold_expr, fold_branches, fold_stmt, fold_stmts};

use crate::terms::{fold_expression, fold_expressions, number};
use forec_base::{OutOfMemory, Place};
use forec_kernel::{Expression, Launch, Spot, Statement};
use std::alloc::Global;

/// A statement in a box.
fn boxed(alloc: Global, s: Statement) -> Result<Box<Statement>, OutOfMemory>
    ensures { IfOk result (λ b. b.value ≡ s) }
{
    match Box::new(alloc, s) {
        Ok(b) => Ok(b),
        Err(_) => Err(OutOfMemory),
    }
}

fn is_empty(s: &Statement) -> bool
    ensures { result ≡ is_nop (stmt s.now) }
{
    match s {
        Statement::Nop => true,
        _ => false,
    }
}

/// A statement at the end of a list, unless it is `Nop`.
#[tactic(auto, using(crate::proofs::Lists::pushed_none, crate::proofs::Lists::pushed_one))]
fn push(list: &mut Vec<Statement>, s: Statement) -> Result<(), OutOfMemory>
    ensures { OnOk result (stmts list.new.items
        ≡ then_stmts (stmts list.old.items) (unless_nop (stmt s) plain.no_stmts)) }
{
    if is_empty(&s) {
        return Ok(());
    }
    list.push(s)?;
    Ok(())
}

/// Statements one after the other: none is `Nop`, and one is itself.
fn in_order(mut list: Vec<Statement>) -> Statement
    ensures { stmt result ≡ in_sequence (stmts list.items) }
{
    if list.len() > 1 {
        return Statement::Sequence { list };
    }
    match list.pop() {
        None => Statement::Nop,
        Some(only) => only,
    }
}

fn fold_set(alloc: Global, to: Spot, value: &Expression) -> Result<Statement, OutOfMemory>
    ensures { IfOk result (λ k. stmt k ≡ fold_stmt (plain.Set to (expr value.now))) }
{
    let value = fold_expression(alloc, value)?;
    Ok(Statement::Set { to, value })
}

fn fold_set_at(
    alloc: Global,
    slot: u32,
    length: u32,
    index: &Expression,
    value: &Expression,
    place: Place,
) -> Result<Statement, OutOfMemory>
    ensures { IfOk result (λ k. stmt k ≡ fold_stmt (plain.SetAt slot length (expr index.now) (expr value.now) place)) }
{
    let index = fold_expression(alloc, index)?;
    let value = fold_expression(alloc, value)?;
    Ok(Statement::SetAt {
        slot,
        length,
        index,
        value,
        place,
    })
}

fn fold_put_at(
    alloc: Global,
    variable: u32,
    length: u32,
    index: &Expression,
    value: &Expression,
    place: Place,
) -> Result<Statement, OutOfMemory>
    ensures { IfOk result (λ k. stmt k
        ≡ fold_stmt (plain.PutAt variable length (expr index.now) (expr value.now) place)) }
{
    let index = fold_expression(alloc, index)?;
    let value = fold_expression(alloc, value)?;
    Ok(Statement::PutAt {
        variable,
        length,
        index,
        value,
        place,
    })
}

/// An `if` whose sides are folded.
fn fold_if(
    alloc: Global,
    test: &Expression,
    holds: Box<Statement>,
    fails: Box<Statement>,
) -> Result<Statement, OutOfMemory>
    ensures { IfOk result (λ k. stmt k ≡ if_term (fold_expr (expr test.now)) (stmt holds.value) (stmt fails.value)) }
{
    let test = fold_expression(alloc, test)?;
    match number(&test) {
        Some(0) => Ok(Box::into_inner(fails)),
        Some(_) => Ok(Box::into_inner(holds)),
        None => Ok(Statement::If {
            test,
            yes: holds,
            no: fails,
        }),
    }
}

/// A `while` whose body is folded.
fn fold_while(
    alloc: Global,
    test: &Expression,
    bound: Option<u32>,
    body: Box<Statement>,
    place: Place,
) -> Result<Statement, OutOfMemory>
    ensures { IfOk result (λ k. stmt k ≡ while_term (fold_expr (expr test.now)) bound (stmt body.value) place) }
{
    let test = fold_expression(alloc, test)?;
    if let Some(0) = number(&test) {
        return Ok(Statement::Nop);
    }
    Ok(Statement::While {
        test,
        bound,
        body,
        place,
    })
}

/// An abort whose body is folded.
fn fold_enter(
    alloc: Global,
    weak: bool,
    immediate: bool,
    test: &Expression,
    body: Box<Statement>,
) -> Result<Statement, OutOfMemory>
    ensures { IfOk result (λ k. stmt k ≡ plain.Enter weak immediate (fold_expr (expr test.now)) (stmt body.value)) }
{
    let test = fold_expression(alloc, test)?;
    Ok(Statement::Enter {
        weak,
        immediate,
        test,
        body,
    })
}

fn fold_launches(alloc: Global, branches: &[Launch]) -> Result<Vec<Launch>, OutOfMemory>
    ensures { IfOk result (λ k. map branch k.items ≡ fold_branches (map branch branches.now)) }
{
    let mut folded = Vec::new(alloc);
    for launch in branches {
        let args = fold_expressions(alloc, launch.args.as_slice())?;
        folded.push(Launch {
            thread: launch.thread,
            args,
        })?;
    }
    Ok(folded)
}

fn fold_return(alloc: Global, value: &Expression) -> Result<Statement, OutOfMemory>
    ensures { IfOk result (λ k. stmt k ≡ plain.Return (fold_expr (expr value.now))) }
{
    let value = fold_expression(alloc, value)?;
    Ok(Statement::Return { value })
}

/// The statement with its constants folded.
///
/// # Errors
///
/// Out of memory.
#[cycle(statement)]
pub fn fold_statement(alloc: Global, s: &Statement) -> Result<Statement, OutOfMemory>
    ensures { IfOk result (λ k. stmt k ≡ fold_stmt (stmt s.now)) }
{
    match s {
        Statement::Nop => Ok(Statement::Nop),
        Statement::Set { to, value } => fold_set(alloc, *to, value),
        Statement::SetAt {
            slot,
            length,
            index,
            value,
            place,
        } => fold_set_at(alloc, *slot, *length, index, value, *place),
        Statement::PutAt {
            variable,
            length,
            index,
            value,
            place,
        } => fold_put_at(alloc, *variable, *length, index, value, *place),
        Statement::Clear { slot, length } => Ok(Statement::Clear {
            slot: *slot,
            length: *length,
        }),
        Statement::Sequence { list } => {
            let items = list.as_slice();
            let list = fold_statements(alloc, items)?;
            Ok(in_order(list))
        }
        Statement::If { test, yes, no } => {
            let yes = boxed(alloc, fold_statement(alloc, yes)?)?;
            let no = boxed(alloc, fold_statement(alloc, no)?)?;
            fold_if(alloc, test, yes, no)
        }
        Statement::While {
            test,
            bound,
            body,
            place,
        } => {
            let body = boxed(alloc, fold_statement(alloc, body)?)?;
            fold_while(alloc, test, *bound, body, *place)
        }
        Statement::Pause => Ok(Statement::Pause),
        Statement::Par { branches } => {
            let launches = branches.as_slice();
            let branches = fold_launches(alloc, launches)?;
            Ok(Statement::Par { branches })
        }
        Statement::Enter {
            weak,
            immediate,
            test,
            body,
        } => {
            let body = boxed(alloc, fold_statement(alloc, body)?)?;
            fold_enter(alloc, *weak, *immediate, test, body)
        }
        Statement::Return { value } => fold_return(alloc, value),
    }
}

/// The statements of a list, each folded, without those that are `Nop` then.
#[cycle(statement)]
fn fold_statements(alloc: Global, list: &[Statement]) -> Result<Vec<Statement>, OutOfMemory>
    ensures { IfOk result (λ k. stmts k.items ≡ fold_stmts (stmts list.now)) }
{
    let mut folded = Vec::new(alloc);
    for statement in list {
        let one = fold_statement(alloc, statement)?;
        push(&mut folded, one)?;
    }
    Ok(folded)
}
