//! Assignments and declarations.

ghost use Rattle.std.specs.Prelude.{◌≡◌, pos, map, length, IfOk, OnOk};
ghost use Rattle.forec_kernel.specs.Terms.{Num};
ghost use Rattle.forec_tree.specs.Plain as plain;
ghost use Rattle.forec_tree.specs.Terms as tree;
ghost use Rattle.forec_kernel.specs.Plain as kernel;
ghost use Rattle.loop_check.specs.Views.{indexed_text};
ghost use Rattle.text_kernel.specs.Bindings as bindings;
ghost use Rattle.text_kernel.specs.declared.names.Stands.TheVariants as st;
ghost use Rattle.text_kernel.specs.Lowering as lowering;
ghost use Rattle.body_lower.specs.Assigned.{IsAssigned, AreSet, AreDeclared};
ghost use Rattle.lower_names.specs.Views.{seen, AppendsLocals, SeenAfter, Done};

use forec_base::{OutOfMemory, Place};
use forec_kernel::{Expression, Spot, Statement};
use forec_tree::{Expr, Local, Number, OpAt, Target};
use lower_names::{
    Context, Globals, Scope, State, boxed_term, kernel_number, lower_boxed, lower_term, place_if,
    sequence, stands, sum,
};
use std::alloc::Global;
use text_kernel::{Slot, Stands, number_of, slots_of};

/// The value of an assignment: by its operator, where it has one, of the old value and the given one.
fn operated(
    alloc: Global,
    op: Option<OpAt>,
    old: Expression,
    value: Box<Expression>,
) -> Result<Expression, OutOfMemory>
    ensures { IfOk result (λ k. kernel.expr k ≡ lowering.operated_expr op (kernel.expr old) (kernel.expr value.value)) }
{
    match op {
        None => Ok(Box::into_inner(value)),
        Some(by) => {
            let left = boxed_term(alloc, old)?;
            let place = place_if(by.op, by.place);
            Ok(Expression::Binary {
                op: by.op,
                left,
                right: value,
                place,
            })
        }
    }
}

fn assign_to(
    alloc: Global,
    to: Stands,
    op: Option<OpAt>,
    value: Box<Expression>,
) -> Result<Statement, OutOfMemory>
    ensures { IfOk result (λ k. kernel.stmt k ≡ lowering.assign_to to op (kernel.expr value.value)) }
{
    let (spot, old) = match to {
        Stands::AtSlot { slot } => (Spot::Local { slot }, Expression::Local { slot }),
        Stands::AsVariable { variable } => {
            let variable = kernel_number(variable)?;
            (
                Spot::Variable { variable },
                Expression::Variable { variable },
            )
        }
        _ => (Spot::Local { slot: 0 }, Expression::Number { value: 0 }),
    };
    let value = operated(alloc, op, old, value)?;
    Ok(Statement::Set { to: spot, value })
}

/// An element that is assigned: its index, for where it is set; the same once more, for its old value; and
/// the place of the name of its array.
#[derive(Drop)]
struct Element {
    index: Box<Expression>,
    again: Box<Expression>,
    place: Place,
}

/// The element of an array, by the expression of its index.
fn element_by(
    alloc: Global,
    globals: &Globals<'_>,
    scope: &Scope,
    at: &Expr,
    place: Place,
) -> Result<Element, OutOfMemory>
    ensures index { IfOk result (λ e. kernel.expr e.index.value
        ≡ lowering.lower_term (indexed_text globals.now.index) (seen scope.now) (plain.term at.now)) }
    ensures again { IfOk result (λ e. kernel.expr e.again.value ≡ kernel.expr e.index.value) }
    ensures place { IfOk result (λ e. e.place ≡ place) }
{
    let index = lower_boxed(alloc, globals, scope, at)?;
    let again = lower_boxed(alloc, globals, scope, at)?;
    Ok(Element {
        index,
        again,
        place,
    })
}

/// An element of the local array of `length` words from `slot` on is assigned.
fn set_at(
    alloc: Global,
    slot: u32,
    length: u32,
    op: Option<OpAt>,
    element: Element,
    value: Box<Expression>,
) -> Result<Statement, OutOfMemory>
    requires { kernel.expr element.again.value ≡ kernel.expr element.index.value }
    ensures { IfOk result (λ k. kernel.stmt k
        ≡ lowering.assign_at (st.AtSlots slot length) op (kernel.expr element.index.value) (kernel.expr value.value)
        element.place) }
{
    let Element {
        index,
        again,
        place,
    } = element;
    let old = Expression::LocalAt {
        slot,
        length,
        index: again,
        place,
    };
    let value = operated(alloc, op, old, value)?;
    Ok(Statement::SetAt {
        slot,
        length,
        index: Box::into_inner(index),
        value,
        place,
    })
}

/// An element of the shared array whose `length` elements are the variables from `variable` on is assigned.
fn put_at(
    alloc: Global,
    variable: u32,
    length: u32,
    op: Option<OpAt>,
    element: Element,
    value: Box<Expression>,
) -> Result<Statement, OutOfMemory>
    requires { kernel.expr element.again.value ≡ kernel.expr element.index.value }
    ensures { IfOk result (λ k. kernel.stmt k
        ≡ lowering.assign_at (st.AsVariables variable length) op (kernel.expr element.index.value)
        (kernel.expr value.value)
        element.place) }
{
    let Element {
        index,
        again,
        place,
    } = element;
    let old = Expression::SharedAt {
        variable,
        length,
        index: again,
        place,
    };
    let value = operated(alloc, op, old, value)?;
    Ok(Statement::PutAt {
        variable,
        length,
        index: Box::into_inner(index),
        value,
        place,
    })
}

/// An element of what a name stands for is assigned.
fn assign_at(
    alloc: Global,
    to: Stands,
    op: Option<OpAt>,
    element: Element,
    value: Box<Expression>,
) -> Result<Statement, OutOfMemory>
    requires { kernel.expr element.again.value ≡ kernel.expr element.index.value }
    ensures { IfOk result (λ k. kernel.stmt k
        ≡ lowering.assign_at to op (kernel.expr element.index.value) (kernel.expr value.value) element.place) }
{
    match to {
        Stands::AtSlots { slot, size } => set_at(alloc, slot, size, op, element, value),
        Stands::AsVariables { variable, length } => {
            let variable = kernel_number(variable)?;
            put_at(alloc, variable, length, op, element, value)
        }
        _ => set_at(alloc, 0, 0, op, element, value),
    }
}

/// An assignment.
pub fn assign(
    alloc: Global,
    globals: &Globals<'_>,
    scope: &Scope,
    target: &Target,
    op: Option<OpAt>,
    value: &Expr,
) -> Result<Statement, OutOfMemory>
    ensures { IfOk result (λ k. IsAssigned (indexed_text globals.now.index) (seen scope.now) target.now op value.now
        (kernel.stmt k)) }
{
    let to = stands(globals, scope, target.name.id);
    let value = lower_boxed(alloc, globals, scope, value)?;
    match &target.index {
        None => assign_to(alloc, to, op, value),
        Some(at) => {
            let element = element_by(alloc, globals, scope, at, target.name.place)?;
            assign_at(alloc, to, op, element, value)
        }
    }
}

/// The number of an element, as an expression.
fn element_number(at: usize) -> Result<Expression, OutOfMemory>
    ensures { IfOk result (λ k. kernel.expr k ≡ Num (pos at)) }
{
    match i32::try_from(at) {
        Err(_) => Err(OutOfMemory),
        Ok(value) => Ok(Expression::Number { value }),
    }
}

/// An array of locals: its first slot, its length, and the place of its name.
#[derive(Clone, Copy)]
pub struct LocalArray {
    pub slot: u32,
    pub length: u32,
    pub place: Place,
}

/// Sets the elements of an array from its initial values, after other statements.
fn set_values(
    alloc: Global,
    globals: &Globals<'_>,
    scope: &Scope,
    list: &mut Vec<Statement>,
    array: LocalArray,
    values: &[Expr],
) -> Result<(), OutOfMemory>
    ensures { OnOk result (AreSet (indexed_text globals.now.index) (seen scope.now) array values.now list.old.items
        list.new.items) }
{
    for (at, value) in values.iter().enumerate() {
        let value = lower_term(alloc, globals, scope, value)?;
        let index = element_number(at)?;
        list.push(Statement::SetAt {
            slot: array.slot,
            length: array.length,
            index,
            value,
            place: array.place,
        })?;
    }
    Ok(())
}

/// A declarator, whose words begin at a slot.
fn lower_local(
    alloc: Global,
    globals: &Globals<'_>,
    scope: &Scope,
    slot: u32,
    local: &Local,
) -> Result<Statement, OutOfMemory>
    ensures { IfOk result (λ k. kernel.stmt k ≡ lowering.lower_local (indexed_text globals.now.index) (seen scope.now)
        slot (plain.declared local.now)) }
{
    let values = local.values.as_slice();
    match local.length {
        Some(n) => {
            let length = number_of(n);
            let mut list = Vec::new(alloc);
            list.push(Statement::Clear { slot, length })?;
            let array = LocalArray {
                slot,
                length,
                place: local.name.place,
            };
            set_values(alloc, globals, scope, &mut list, array, values)?;
            Ok(sequence(list))
        }
        None => match values.first() {
            None => Ok(Statement::Clear { slot, length: 1 }),
            Some(value) => {
                let value = lower_term(alloc, globals, scope, value)?;
                Ok(Statement::Set {
                    to: Spot::Local { slot },
                    value,
                })
            }
        },
    }
}

fn size_of(length: Option<Number>) -> Option<u32>
    ensures { result ≡ bindings.size_of length }
{
    match length {
        None => None,
        Some(n) => Some(number_of(n)),
    }
}

/// The declarators of one declaration, which are declared from a slot on; it is moved after them.
fn lower_locals(
    alloc: Global,
    globals: &Globals<'_>,
    scope: &mut Scope,
    slot: &mut u32,
    locals: &[Local],
) -> Result<Vec<Statement>, OutOfMemory>
    ensures list { IfOk result (λ k. AreDeclared (indexed_text globals.now.index) (seen scope.old) slot.old locals.now
        k.items) }
    ensures slot { OnOk result (slot.new ≡ lowering.slots_after (indexed_text globals.now.index) slot.old
        (map plain.declared locals.now)) }
    ensures seen { OnOk result (seen scope.new ≡ bindings.with_local_slots (seen scope.old) slot.old
        (map plain.declared locals.now)) }
    ensures kept { OnOk result (AppendsLocals scope.old scope.new) }
{
    let mut list = Vec::new(alloc);
    for local in locals {
        list.push(lower_local(alloc, globals, scope, *slot, local)?)?;
        scope.declare(Slot {
            id: local.name.id,
            slot: *slot,
            size: size_of(local.length),
        })?;
        *slot = sum(*slot, slots_of(local.length))?;
    }
    Ok(list)
}

/// A declaration.
pub fn declare<'p>(
    context: &Context<'_, 'p>,
    place: Place,
    state: &mut State<'p>,
    locals: &[Local],
) -> Result<Statement, OutOfMemory>
    ensures does { IfOk result (λ k. Done context.now (tree.Declare place (map plain.declared locals.now))
        (kernel.stmt k) state.old state.new) }
    ensures seen { OnOk result (SeenAfter context.now (tree.Declare place (map plain.declared locals.now)) state.old
        state.new) }
    ensures kept { OnOk result (AppendsLocals state.old.scope state.new.scope) }
{
    let list = lower_locals(
        context.alloc,
        &context.source.globals,
        &mut state.scope,
        &mut state.slot,
        locals,
    )?;
    Ok(sequence(list))
}

/// The parameters of a function that is inlined, from a slot on, are set from the arguments.
pub fn set_params(
    alloc: Global,
    globals: &Globals<'_>,
    scope: &Scope,
    slot: u32,
    args: &[Expr],
) -> Result<Vec<Statement>, OutOfMemory>
    ensures { IfOk result (λ k. kernel.stmts k.items ≡ lowering.set_params (indexed_text globals.now.index)
        (seen scope.now) slot (plain.terms args.now)) }
{
    let mut list = Vec::new(alloc);
    let mut at = slot;
    for arg in args {
        let value = lower_term(alloc, globals, scope, arg)?;
        list.push(Statement::Set {
            to: Spot::Local { slot: at },
            value,
        })?;
        at = sum(at, 1)?;
    }
    Ok(list)
}
