//! Small parts of statements.

ghost use Rattle.std.specs.Prelude.{◌≡◌, ◌≤◌, ◌+◌, ◌^◌, map, IfOk, OnErr};
ghost use Rattle.forec_kernel.specs.Plain as kernel;
ghost use Rattle.text_kernel.specs.Lowering as lowering;

use forec_base::OutOfMemory;
use forec_kernel::{Expression, Statement};
use std::alloc::Global;

/// A statement in a box.
pub fn boxed(alloc: Global, s: Statement) -> Result<Box<Statement>, OutOfMemory>
    ensures { IfOk result (λ b. b.value ≡ s) }
{
    match Box::new(alloc, s) {
        Ok(b) => Ok(b),
        Err(_) => Err(OutOfMemory),
    }
}

/// An expression in a box.
pub fn boxed_term(alloc: Global, e: Expression) -> Result<Box<Expression>, OutOfMemory>
    ensures { IfOk result (λ b. b.value ≡ e) }
{
    match Box::new(alloc, e) {
        Ok(b) => Ok(b),
        Err(_) => Err(OutOfMemory),
    }
}

/// A sum of slots or threads.
///
/// # Errors
///
/// Out of memory: past 32 bits there is none for so many.
pub fn sum(a: u32, b: u32) -> Result<u32, OutOfMemory>
    ensures ok { IfOk result (λ n. n ≡ a + b) }
    ensures refused { OnErr result (2 ^ 32 ≤ a + b) }
{
    match a.checked_add(b) {
        None => Err(OutOfMemory),
        Some(n) => Ok(n),
    }
}

/// Statements one after the other: none is `Nop`, and one is itself.
pub fn sequence(mut list: Vec<Statement>) -> Statement
    ensures { kernel.stmt result ≡ lowering.sequence (kernel.stmts list.items) }
{
    if list.len() > 1 {
        return Statement::Sequence { list };
    }
    match list.pop() {
        None => Statement::Nop,
        Some(only) => only,
    }
}

/// Two statements one after the other.
pub fn both(
    alloc: Global,
    first: Box<Statement>,
    second: Box<Statement>,
) -> Result<Statement, OutOfMemory>
    ensures { IfOk result (λ k. kernel.stmt k ≡ lowering.pair (kernel.stmt first.value) (kernel.stmt second.value)) }
{
    let mut list = Vec::new(alloc);
    list.push(Box::into_inner(first))?;
    list.push(Box::into_inner(second))?;
    Ok(Statement::Sequence { list })
}

/// A count of 32 bits.
///
/// # Errors
///
/// Out of memory: past 32 bits there is none for so many.
pub fn count(n: usize) -> Result<u32, OutOfMemory>
    ensures ok { IfOk result (λ m. m ≡ n) }
    ensures refused { OnErr result (2 ^ 32 ≤ n) }
{
    match u32::try_from(n) {
        Err(_) => Err(OutOfMemory),
        Ok(m) => Ok(m),
    }
}
