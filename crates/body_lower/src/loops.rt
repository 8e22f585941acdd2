//! The parts of a loop.

ghost use Rattle.std.specs.Prelude.{◌≡◌, IfOk};
ghost use Rattle.forec_tree.specs.Plain as plain;
ghost use Rattle.forec_tree.specs.Plain.{perhaps_of};
ghost use Rattle.forec_kernel.specs.Plain as kernel;
ghost use Rattle.text_kernel.specs.Lowering as lowering;
ghost use Rattle.lower_names.specs.Views.{IsTest};

use forec_base::OutOfMemory;
use forec_kernel::{Expression, Statement};
use forec_tree::{Expr, Number, Stmt};
use lower_names::{Context, State, both, boxed, boxed_term, lower_boxed};
use std::alloc::Global;
use text_kernel::number_of;

/// The bound of a loop, where it has one.
pub fn bound_of(bound: Option<Number>) -> Option<u32>
    ensures { result ≡ lowering.bound_of bound }
{
    match bound {
        None => None,
        Some(n) => Some(number_of(n)),
    }
}

/// The bound that is given, or else the one that is inferred.
pub fn or_inferred(bound: Option<u32>, inferred: Option<u32>) -> Option<u32>
    ensures { result ≡ lowering.or_inferred bound inferred }
{
    match bound {
        None => inferred,
        Some(n) => Some(n),
    }
}

/// The test of a `for`, in a box; a missing one is the number 1.
pub fn optional_test(
    context: &Context<'_, '_>,
    state: &State<'_>,
    test: &Option<Expr>,
) -> Result<Box<Expression>, OutOfMemory>
    ensures { IfOk result (λ k. IsTest context.now state.now test.now (kernel.expr k.value)) }
{
    match test {
        None => boxed_term(context.alloc, Expression::Number { value: 1 }),
        Some(e) => lower_boxed(context.alloc, &context.source.globals, &state.scope, e),
    }
}

/// A loop's body with its step after it, where it has one.
pub fn then_step(
    alloc: Global,
    step: &Option<Box<Stmt>>,
    body: Box<Statement>,
    next: Box<Statement>,
) -> Result<Box<Statement>, OutOfMemory>
    ensures { IfOk result (λ k. kernel.stmt k.value ≡ lowering.then_step (perhaps_of step.now) (kernel.stmt body.value)
        (kernel.stmt next.value)) }
{
    match step {
        None => Ok(body),
        Some(_) => {
            let k = both(alloc, body, next)?;
            boxed(alloc, k)
        }
    }
}

/// A loop with its start before it, where it has one.
pub fn after_start(
    alloc: Global,
    start: &Option<Box<Stmt>>,
    first: Box<Statement>,
    turned: Box<Statement>,
) -> Result<Statement, OutOfMemory>
    ensures { IfOk result (λ k. kernel.stmt k ≡ lowering.after_start (perhaps_of start.now) (kernel.stmt first.value)
        (kernel.stmt turned.value)) }
{
    match start {
        None => Ok(Box::into_inner(turned)),
        Some(_) => both(alloc, first, turned),
    }
}
