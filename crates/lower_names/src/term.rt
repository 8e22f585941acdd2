//! Expressions of the kernel.

ghost use Rattle.std.specs.Prelude.{◌≡◌, map, IfOk};
ghost use Rattle.forec_tree.specs.Plain as plain;
ghost use Rattle.forec_kernel.specs.Plain as kernel;
ghost use Rattle.text_kernel.specs.Lowering as lowering;
ghost use Rattle.loop_check.specs.Views.{indexed_text};
ghost use Rattle.lower_names.specs.Views.{seen};

use crate::globals::Globals;
use crate::parts::boxed_term;
use crate::scope::Scope;
use forec_base::{Binary, OutOfMemory, Place};
use forec_kernel::Expression;
use forec_tree::{Expr, ExprKind};
use std::alloc::Global;
use text_kernel::{Stands, slot_stands};

/// The place of an operator that can trap.
pub fn place_if(op: Binary, place: Place) -> Option<Place>
    ensures { result ≡ lowering.place_if op place }
{
    match op {
        Binary::Div | Binary::Rem => Some(place),
        _ => None,
    }
}

/// What a name stands for: a local hides a global.
pub fn stands(globals: &Globals<'_>, scope: &Scope, id: u32) -> Stands
    ensures { result ≡ lowering.stands (indexed_text globals.now.index) (seen scope.now) id }
{
    match scope.find(id) {
        Some(slot) => slot_stands(slot),
        None => globals.stands(id),
    }
}

/// The number of a variable in a kernel.
///
/// # Errors
///
/// Out of memory: past 32 bits there is none for so many variables.
pub fn kernel_number(variable: u64) -> Result<u32, OutOfMemory>
    ensures { IfOk result (λ n. n ≡ variable) }
{
    match u32::try_from(variable) {
        Err(_) => Err(OutOfMemory),
        Ok(number) => Ok(number),
    }
}

fn read_as(stands: Stands) -> Result<Expression, OutOfMemory>
    ensures { IfOk result (λ e. kernel.expr e ≡ lowering.read_as stands) }
{
    Ok(match stands {
        Stands::AtSlot { slot } => Expression::Local { slot },
        Stands::AsVariable { variable } => Expression::Variable {
            variable: kernel_number(variable)?,
        },
        Stands::AsNumber { value } => Expression::Number { value },
        _ => Expression::Number { value: 0 },
    })
}

/// An element of what a name stands for.
pub fn element_as(
    alloc: Global,
    stands: Stands,
    index: Expression,
    place: Place,
) -> Result<Expression, OutOfMemory>
    ensures { IfOk result (λ e. kernel.expr e ≡ lowering.element_as stands (kernel.expr index) place) }
{
    let index = boxed_term(alloc, index)?;
    Ok(match stands {
        Stands::AtSlots { slot, size } => Expression::LocalAt {
            slot,
            length: size,
            index,
            place,
        },
        Stands::AsVariables { variable, length } => Expression::SharedAt {
            variable: kernel_number(variable)?,
            length,
            index,
            place,
        },
        Stands::AsTable { table } => Expression::TableAt {
            table,
            index,
            place,
        },
        _ => Expression::TableAt {
            table: 0,
            index,
            place,
        },
    })
}

/// The expression of the kernel, where these locals are seen.
#[cycle(term)]
pub fn lower_term(
    alloc: Global,
    globals: &Globals<'_>,
    scope: &Scope,
    e: &Expr,
) -> Result<Expression, OutOfMemory>
    ensures { IfOk result (λ k. kernel.expr k ≡ lowering.lower_term (indexed_text globals.now.index) (seen scope.now)
        (plain.term e.now)) }
{
    match &e.what {
        ExprKind::Number { value } => Ok(Expression::Number { value: *value }),
        ExprKind::Read { name } => read_as(stands(globals, scope, name.id)),
        ExprKind::Element { name, index } => {
            let index = lower_term(alloc, globals, scope, index)?;
            let to = stands(globals, scope, name.id);
            element_as(alloc, to, index, name.place)
        }
        ExprKind::Unary { op, of } => {
            let of = lower_boxed(alloc, globals, scope, of)?;
            Ok(Expression::Unary { op: *op, of })
        }
        ExprKind::Binary { op, left, right } => {
            let left = lower_boxed(alloc, globals, scope, left)?;
            let right = lower_boxed(alloc, globals, scope, right)?;
            let place = place_if(*op, e.place);
            Ok(Expression::Binary {
                op: *op,
                left,
                right,
                place,
            })
        }
        ExprKind::And { left, right } => {
            let left = lower_boxed(alloc, globals, scope, left)?;
            let right = lower_boxed(alloc, globals, scope, right)?;
            Ok(Expression::And { left, right })
        }
        ExprKind::Or { left, right } => {
            let left = lower_boxed(alloc, globals, scope, left)?;
            let right = lower_boxed(alloc, globals, scope, right)?;
            Ok(Expression::Or { left, right })
        }
        ExprKind::Choose { test, yes, no } => {
            let test = lower_boxed(alloc, globals, scope, test)?;
            let yes = lower_boxed(alloc, globals, scope, yes)?;
            let no = lower_boxed(alloc, globals, scope, no)?;
            Ok(Expression::Choose { test, yes, no })
        }
        ExprKind::Call { name, args } => {
            let args = lower_terms(alloc, globals, scope, args.as_slice())?;
            Ok(Expression::Call {
                function: globals.function(name.id),
                args,
            })
        }
    }
}

/// The expression of the kernel, in a box.
#[cycle(term)]
pub fn lower_boxed(
    alloc: Global,
    globals: &Globals<'_>,
    scope: &Scope,
    e: &Expr,
) -> Result<Box<Expression>, OutOfMemory>
    ensures { IfOk result (λ b. kernel.expr b.value ≡ lowering.lower_term (indexed_text globals.now.index)
        (seen scope.now) (plain.term e.now)) }
{
    let term = lower_term(alloc, globals, scope, e)?;
    boxed_term(alloc, term)
}

/// The expressions of a list, in order.
#[cycle(term)]
pub fn lower_terms(
    alloc: Global,
    globals: &Globals<'_>,
    scope: &Scope,
    list: &[Expr],
) -> Result<Vec<Expression>, OutOfMemory>
    ensures { IfOk result (λ k. kernel.exprs k.items ≡ lowering.lower_terms (indexed_text globals.now.index)
        (seen scope.now) (plain.terms list.now)) }
{
    let mut terms = Vec::new(alloc);
    for e in list {
        terms.push(lower_term(alloc, globals, scope, e)?)?;
    }
    Ok(terms)
}
