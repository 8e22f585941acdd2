//! How many instructions code has, counted before it is written: an abort leads after its body, so its
//! address is needed inside. A sum that passes 32 bits is past the most that a code may have, and is
//! reported as out of memory.

ghost use Rattle.std.specs.Prelude.{◌≡◌, ◌+◌, ◌*◌, ◌++◌, map, OnOk, IfOk};
ghost use Rattle.forec_kernel.specs.Plain.{expr, exprs, stmt, stmts, branch};
ghost use Rattle.code_sizes.specs.Sizes.{counted_loops, expression_length, expressions_length, arguments_length, entry_length, abort_length, statement_length, statements_length, abort_bodies, aborts_in, aborts_of};

use forec_base::OutOfMemory;
use forec_kernel::{Expression, Launch, Statement};

fn add(a: u32, b: u32) -> Result<u32, OutOfMemory>
    ensures { IfOk result (λ sum. sum ≡ a + b) }
{
    a.checked_add(b).ok_or(OutOfMemory)
}

/// Two parts, and so many more instructions.
fn sum(a: u32, b: u32, more: u32) -> Result<u32, OutOfMemory>
    ensures { IfOk result (λ n. n ≡ a + b + more) }
{
    let both = add(a, b)?;
    add(both, more)
}

/// A test and two branches.
fn choice_size(test: u32, yes: u32, no: u32) -> Result<u32, OutOfMemory>
    ensures { IfOk result (λ n. n ≡ test + (yes + no) + 2) }
{
    let sides = add(yes, no)?;
    sum(test, sides, 2)
}

#[cycle(expression)]
fn expression_size(expression: &Expression) -> Result<u32, OutOfMemory>
    ensures { IfOk result (λ n. n ≡ expression_length (expr expression.now)) }
{
    match expression {
        Expression::Number { .. } | Expression::Local { .. } | Expression::Variable { .. } => Ok(1),
        Expression::LocalAt { index, .. }
        | Expression::SharedAt { index, .. }
        | Expression::TableAt { index, .. } => one_size(index),
        Expression::Unary { of, .. } => one_size(of),
        Expression::Binary { left, right, .. } => {
            let first = expression_size(left)?;
            let second = expression_size(right)?;
            sum(first, second, 1)
        }
        Expression::And { left, right } | Expression::Or { left, right } => {
            let first = expression_size(left)?;
            let second = expression_size(right)?;
            sum(first, second, 4)
        }
        Expression::Choose { test, yes, no } => {
            let tested = expression_size(test)?;
            let first = expression_size(yes)?;
            let second = expression_size(no)?;
            choice_size(tested, first, second)
        }
        Expression::Call { args, .. } => {
            let inside = expressions_size(args)?;
            add(inside, 1)
        }
    }
}

/// An expression, and one more instruction.
#[cycle(expression)]
fn one_size(of: &Expression) -> Result<u32, OutOfMemory>
    ensures { IfOk result (λ n. n ≡ expression_length (expr of.now) + 1) }
{
    let inside = expression_size(of)?;
    add(inside, 1)
}

#[cycle(expression)]
fn expressions_size(list: &[Expression]) -> Result<u32, OutOfMemory>
    ensures { IfOk result (λ n. n ≡ expressions_length (exprs list.now)) }
{
    let mut sum = 0;
    for expression in list {
        let size = expression_size(expression)?;
        sum = add(sum, size)?;
    }
    Ok(sum)
}

fn arguments_size(branches: &[Launch]) -> Result<u32, OutOfMemory>
    ensures { IfOk result (λ n. n ≡ arguments_length (map branch branches.now)) }
{
    let mut sum = 0;
    for launch in branches {
        let size = expressions_size(&launch.args)?;
        sum = add(sum, size)?;
    }
    Ok(sum)
}

/// The start of an abort whose test has so many instructions.
fn entry_size(weak: bool, immediate: bool, tested: u32) -> Result<u32, OutOfMemory>
    ensures { IfOk result (λ n. n ≡ entry_length weak immediate tested) }
{
    if immediate {
        add(tested, 1)
    } else {
        Ok(weak as u32)
    }
}

/// The number of instructions of a statement, with so many of them before each of its pauses (`checks`)
/// and after it (`prologue`). The sizes of the bodies of its aborts are put after `sizes`, in the order
/// of the text.
#[cycle(statement)]
pub fn statement_size(
    sizes: &mut Vec<u32>,
    statement: &Statement,
    checks: u32,
    prologue: u32,
) -> Result<u32, OutOfMemory>
    ensures size { IfOk result (λ n. n ≡ statement_length checks prologue (stmt statement.now)) }
    ensures bodies { OnOk result (sizes.new.items ≡ sizes.old.items ++ aborts_in checks prologue (stmt statement.now)) }
{
    match statement {
        Statement::Nop => Ok(0),
        Statement::Set { value, .. } | Statement::Return { value } => one_size(value),
        Statement::SetAt { index, value, .. } | Statement::PutAt { index, value, .. } => {
            let first = expression_size(index)?;
            let second = expression_size(value)?;
            sum(first, second, 1)
        }
        Statement::Clear { .. } => Ok(1),
        Statement::Sequence { list } => list_size(sizes, list, checks, prologue),
        Statement::If { test, yes, no } => {
            let tested = expression_size(test)?;
            let first = statement_size(sizes, yes, checks, prologue)?;
            let second = statement_size(sizes, no, checks, prologue)?;
            choice_size(tested, first, second)
        }
        Statement::While {
            test,
            bound,
            body,
            ..
        } => while_size(sizes, body, test, *bound, checks, prologue),
        Statement::Pause => sum(checks, prologue, 2),
        Statement::Par { branches } => par_size(branches, checks, prologue),
        Statement::Enter {
            weak,
            immediate,
            test,
            body,
        } => {
            let tested = expression_size(test)?;
            let inside = abort_size(sizes, *weak, tested, body, checks, prologue)?;
            let entry = entry_size(*weak, *immediate, tested)?;
            add(entry, inside)
        }
    }
}

#[cycle(statement)]
fn while_size(
    sizes: &mut Vec<u32>,
    body: &Statement,
    test: &Expression,
    bound: Option<u32>,
    checks: u32,
    prologue: u32,
) -> Result<u32, OutOfMemory>
    ensures size { IfOk result (λ n. n ≡ expression_length (expr test.now)
        + statement_length checks (prologue + counted_loops bound) (stmt body.now)
        + (2 + 2 * counted_loops bound)) }
    ensures bodies { OnOk result (sizes.new.items ≡ sizes.old.items
        ++ aborts_in checks (prologue + counted_loops bound) (stmt body.now)) }
{
    let counted = bound.is_some() as u32;
    let tested = expression_size(test)?;
    let behind = add(prologue, counted)?;
    let inside = statement_size(sizes, body, checks, behind)?;
    sum(tested, inside, 2 + 2 * counted)
}

fn par_size(branches: &[Launch], checks: u32, prologue: u32) -> Result<u32, OutOfMemory>
    ensures { IfOk result (λ n. n ≡ arguments_length (map branch branches.now) + (checks + checks + prologue) + 6) }
{
    let inside = arguments_size(branches)?;
    let around = sum(checks, checks, prologue)?;
    sum(inside, around, 6)
}

/// The body of an abort whose test has so many instructions.
#[cycle(statement)]
fn abort_size(
    sizes: &mut Vec<u32>,
    weak: bool,
    tested: u32,
    body: &Statement,
    checks: u32,
    prologue: u32,
) -> Result<u32, OutOfMemory>
    ensures size { IfOk result (λ n. n ≡ abort_length checks prologue weak tested (stmt body.now)) }
    ensures bodies { OnOk result (sizes.new.items ≡ sizes.old.items
        ++ abort_bodies checks prologue weak tested (stmt body.now)) }
{
    let guarded = add(tested, 1)?;
    let flag = weak as u32;
    let before = add(checks, flag)?;
    let behind = add(prologue, guarded)?;
    let number = sizes.len();
    sizes.push(0)?;
    let inside = statement_size(sizes, body, before, behind)?;
    sizes[number] = inside;
    Ok(inside)
}

#[cycle(statement)]
fn list_size(
    sizes: &mut Vec<u32>,
    list: &[Statement],
    checks: u32,
    prologue: u32,
) -> Result<u32, OutOfMemory>
    ensures size { IfOk result (λ n. n ≡ statements_length checks prologue (stmts list.now)) }
    ensures bodies { OnOk result (sizes.new.items ≡ sizes.old.items ++ aborts_of checks prologue (stmts list.now)) }
{
    let mut sum = 0;
    for statement in list {
        let size = statement_size(sizes, statement, checks, prologue)?;
        sum = add(sum, size)?;
    }
    Ok(sum)
}
