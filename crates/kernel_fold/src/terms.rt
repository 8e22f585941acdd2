//! Expressions with their constants folded.

ghost use Rattle.std.specs.Prelude.{◌≡◌, not, IfOk};
ghost use Rattle.forec_kernel.specs.Terms as plain;
ghost use Rattle.forec_kernel.specs.Plain.{expr, exprs};
ghost use Rattle.forec_base.specs.Numbers.{truth, is_zero, binary_of};
ghost use Rattle.fold_laws.specs.Folding.{constant_of, binary_number, and_number, or_number, unary_term, binary_term, and_term, or_term, choice_term, fold_expr, fold_exprs};

use forec_base::{Binary, OutOfMemory, Place, Unary, binary, unary};
use forec_kernel::Expression;
use std::alloc::Global;

/// An expression in a box.
fn boxed(alloc: Global, e: Expression) -> Result<Box<Expression>, OutOfMemory>
    ensures { IfOk result (λ b. b.value ≡ e) }
{
    match Box::new(alloc, e) {
        Ok(b) => Ok(b),
        Err(_) => Err(OutOfMemory),
    }
}

/// The number that an expression is.
pub fn number(e: &Expression) -> Option<i32>
    ensures { result ≡ constant_of (expr e.now) }
{
    match e {
        Expression::Number { value } => Some(*value),
        _ => None,
    }
}

/// 1 for a number that isn't 0, and 0 for 0.
fn truth_of(n: i32) -> i32
    ensures { result ≡ truth (not (is_zero n)) }
{
    if n == 0 { 0 } else { 1 }
}

/// What `and` is where its left side is a number.
fn and_result(left: Option<i32>, right: Option<i32>) -> Option<i32>
    ensures { result ≡ and_number left right }
{
    match left {
        None => None,
        Some(0) => Some(0),
        Some(_) => match right {
            None => None,
            Some(y) => Some(truth_of(y)),
        },
    }
}

/// What `or` is where its left side is a number.
fn or_result(left: Option<i32>, right: Option<i32>) -> Option<i32>
    ensures { result ≡ or_number left right }
{
    match left {
        None => None,
        Some(0) => match right {
            None => None,
            Some(y) => Some(truth_of(y)),
        },
        Some(_) => Some(1),
    }
}

fn unary_folded(alloc: Global, op: Unary, of: Expression) -> Result<Expression, OutOfMemory>
    ensures { IfOk result (λ k. expr k ≡ unary_term op (expr of)) }
{
    match number(&of) {
        Some(x) => Ok(Expression::Number {
            value: unary(op, x),
        }),
        None => Ok(Expression::Unary {
            op,
            of: boxed(alloc, of)?,
        }),
    }
}

/// The result of an operator over two numbers, where there is one.
fn binary_result(op: Binary, left: Option<i32>, right: Option<i32>) -> Option<i32>
    ensures { result ≡ binary_number (binary_of op) left right }
{
    match (left, right) {
        (Some(x), Some(y)) => binary(op, x, y),
        _ => None,
    }
}

fn binary_folded(
    alloc: Global,
    op: Binary,
    left: Expression,
    right: Expression,
    place: Option<Place>,
) -> Result<Expression, OutOfMemory>
    ensures { IfOk result (λ k. expr k ≡ binary_term op (expr left) (expr right) place) }
{
    match binary_result(op, number(&left), number(&right)) {
        Some(value) => Ok(Expression::Number { value }),
        None => {
            let left = boxed(alloc, left)?;
            let right = boxed(alloc, right)?;
            Ok(Expression::Binary {
                op,
                left,
                right,
                place,
            })
        }
    }
}

fn and_folded(alloc: Global, left: Expression, right: Expression) -> Result<Expression, OutOfMemory>
    ensures { IfOk result (λ k. expr k ≡ and_term (expr left) (expr right)) }
{
    match and_result(number(&left), number(&right)) {
        Some(value) => Ok(Expression::Number { value }),
        None => {
            let left = boxed(alloc, left)?;
            let right = boxed(alloc, right)?;
            Ok(Expression::And { left, right })
        }
    }
}

fn or_folded(alloc: Global, left: Expression, right: Expression) -> Result<Expression, OutOfMemory>
    ensures { IfOk result (λ k. expr k ≡ or_term (expr left) (expr right)) }
{
    match or_result(number(&left), number(&right)) {
        Some(value) => Ok(Expression::Number { value }),
        None => {
            let left = boxed(alloc, left)?;
            let right = boxed(alloc, right)?;
            Ok(Expression::Or { left, right })
        }
    }
}

fn choice_folded(
    alloc: Global,
    test: Expression,
    holds: Expression,
    fails: Expression,
) -> Result<Expression, OutOfMemory>
    ensures { IfOk result (λ k. expr k ≡ choice_term (expr test) (expr holds) (expr fails)) }
{
    match number(&test) {
        Some(0) => Ok(fails),
        Some(_) => Ok(holds),
        None => {
            let test = boxed(alloc, test)?;
            let yes = boxed(alloc, holds)?;
            let no = boxed(alloc, fails)?;
            Ok(Expression::Choose { test, yes, no })
        }
    }
}

/// The element of a local array at an index that is folded.
fn local_at(
    alloc: Global,
    slot: u32,
    length: u32,
    index: Expression,
    place: Place,
) -> Result<Expression, OutOfMemory>
    ensures { IfOk result (λ k. expr k ≡ plain.LocalAt slot length (expr index) place) }
{
    let index = boxed(alloc, index)?;
    Ok(Expression::LocalAt {
        slot,
        length,
        index,
        place,
    })
}

/// The element of a shared array at an index that is folded.
fn shared_at(
    alloc: Global,
    variable: u32,
    length: u32,
    index: Expression,
    place: Place,
) -> Result<Expression, OutOfMemory>
    ensures { IfOk result (λ k. expr k ≡ plain.SharedAt variable length (expr index) place) }
{
    let index = boxed(alloc, index)?;
    Ok(Expression::SharedAt {
        variable,
        length,
        index,
        place,
    })
}

/// The element of a constant array at an index that is folded.
fn table_at(
    alloc: Global,
    table: u32,
    index: Expression,
    place: Place,
) -> Result<Expression, OutOfMemory>
    ensures { IfOk result (λ k. expr k ≡ plain.TableAt table (expr index) place) }
{
    let index = boxed(alloc, index)?;
    Ok(Expression::TableAt {
        table,
        index,
        place,
    })
}

/// The expression with its constants folded.
///
/// # Errors
///
/// Out of memory.
#[cycle(term)]
pub fn fold_expression(alloc: Global, e: &Expression) -> Result<Expression, OutOfMemory>
    ensures { IfOk result (λ k. expr k ≡ fold_expr (expr e.now)) }
{
    match e {
        Expression::Number { value } => Ok(Expression::Number { value: *value }),
        Expression::Local { slot } => Ok(Expression::Local { slot: *slot }),
        Expression::LocalAt {
            slot,
            length,
            index,
            place,
        } => {
            let index = fold_expression(alloc, index)?;
            local_at(alloc, *slot, *length, index, *place)
        }
        Expression::Variable { variable: v } => Ok(Expression::Variable { variable: *v }),
        Expression::SharedAt {
            variable,
            length,
            index,
            place,
        } => {
            let index = fold_expression(alloc, index)?;
            shared_at(alloc, *variable, *length, index, *place)
        }
        Expression::TableAt {
            table,
            index,
            place,
        } => table_at(alloc, *table, fold_expression(alloc, index)?, *place),
        Expression::Unary { op, of } => unary_folded(alloc, *op, fold_expression(alloc, of)?),
        Expression::Binary {
            op,
            left,
            right,
            place,
        } => {
            let left = fold_expression(alloc, left)?;
            let right = fold_expression(alloc, right)?;
            binary_folded(alloc, *op, left, right, *place)
        }
        Expression::And { left, right } => {
            let left = fold_expression(alloc, left)?;
            let right = fold_expression(alloc, right)?;
            and_folded(alloc, left, right)
        }
        Expression::Or { left, right } => {
            let left = fold_expression(alloc, left)?;
            let right = fold_expression(alloc, right)?;
            or_folded(alloc, left, right)
        }
        Expression::Choose { test, yes, no } => {
            let test = fold_expression(alloc, test)?;
            let yes = fold_expression(alloc, yes)?;
            let no = fold_expression(alloc, no)?;
            choice_folded(alloc, test, yes, no)
        }
        Expression::Call { function, args } => {
            let function = *function;
            let args = fold_expressions(alloc, args.as_slice())?;
            Ok(Expression::Call { function, args })
        }
    }
}

/// The expressions of a list, each folded.
///
/// # Errors
///
/// Out of memory.
#[cycle(term)]
pub fn fold_expressions(alloc: Global, list: &[Expression]) -> Result<Vec<Expression>, OutOfMemory>
    ensures { IfOk result (λ k. exprs k.items ≡ fold_exprs (exprs list.now)) }
{
    let mut terms = Vec::new(alloc);
    for e in list {
        terms.push(fold_expression(alloc, e)?)?;
    }
    Ok(terms)
}
