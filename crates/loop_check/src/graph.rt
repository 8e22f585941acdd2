//! Functions in an order in which each stands after those that it calls.

ghost use Rattle.std.specs.Prelude.{◌≡◌, ◌+◌, ◌<◌, ◌≤◌, ℕ, not, true, false, length, slice_index_or, IfOk, OnOk, [], List};
ghost use Rattle.forec_tree.specs.Faults.{is_in};
ghost use Rattle.loop_check.specs.Graph.{callees, trues, any_waits, MarksUnordered, Held, IsOrder};
ghost use Rattle.loop_check.specs.Graph as plain;

use crate::components::find_components;
use crate::numbered::value_at;
use forec_base::OutOfMemory;
use std::alloc::Global;

/// Whether the mark of a number is set.
pub fn is_waiting(marks: &[bool], id: u32) -> bool
    ensures { result ≡ slice_index_or marks.now id false }
{
    value_at(marks, id, false)
}

fn any_waits(marks: &[bool], list: &[u32]) -> bool
    ensures { result ≡ plain.any_waits marks.now list.now }
{
    for id in list {
        if is_waiting(marks, *id) {
            return true;
        }
    }
    false
}

/// The functions that one calls.
pub fn called<'c>(calls: &'c [Vec<u32>], f: u32) -> &'c [u32]
    ensures { result.now ≡ callees calls.now f }
{
    match calls.get(f as usize) {
        None => &[],
        Some(list) => list,
    }
}

fn any_callee_waits(marks: &[bool], calls: &[Vec<u32>], f: u32) -> bool
    ensures { result ≡ plain.any_waits marks.now (callees calls.now f) }
{
    match calls.get(f as usize) {
        None => false,
        Some(list) => any_waits(marks, list),
    }
}

/// Puts a function after the others, unless it stands there or one that it calls does not.
fn visit(
    functions: &[u32],
    calls: &[Vec<u32>],
    f: u32,
    marks: &mut Vec<bool>,
    order: &mut Vec<u32>,
) -> Result<bool, OutOfMemory>
    requires { MarksUnordered functions.now (callees calls.now) marks.old.items order.old.items }
    ensures waits { OnOk result (MarksUnordered functions.now (callees calls.now) marks.new.items order.new.items) }
    ensures moved { IfOk result (λ moved. moved ≡ true → trues marks.new.items < trues marks.old.items) }
    ensures marks { IfOk result (λ moved. moved ≡ false → marks.new.items ≡ marks.old.items) }
    ensures held { IfOk result (λ moved. moved ≡ false → slice_index_or marks.old.items f false ≡ true
        → plain.any_waits marks.old.items (callees calls.now f) ≡ true) }
{
    if !is_waiting(marks, f) {
        return Ok(false);
    }
    if any_callee_waits(marks, calls, f) {
        return Ok(false);
    }
    order.push(f)?;
    marks[f as usize] = false;
    Ok(true)
}

/// Visits each function once, and tells whether any was put after.
fn round(
    functions: &[u32],
    calls: &[Vec<u32>],
    marks: &mut Vec<bool>,
    order: &mut Vec<u32>,
) -> Result<bool, OutOfMemory>
    requires { MarksUnordered functions.now (callees calls.now) marks.old.items order.old.items }
    ensures waits { OnOk result (MarksUnordered functions.now (callees calls.now) marks.new.items order.new.items) }
    ensures moved { IfOk result (λ moved. moved ≡ true → trues marks.new.items < trues marks.old.items) }
    ensures marks { IfOk result (λ moved. moved ≡ false → marks.new.items ≡ marks.old.items) }
    ensures held { IfOk result (λ moved. moved ≡ false → Held functions.now (callees calls.now) marks.new.items
        (length functions.now)) }
{
    let mut moved = false;
    for f in functions {
        if visit(functions, calls, *f, marks, order)? {
            moved = true;
        }
    }
    Ok(moved)
}

/// A mark for each function.
pub fn marked(alloc: Global, functions: &[u32]) -> Result<Vec<bool>, OutOfMemory>
    ensures right { IfOk result (λ marks. (g : ℕ) → slice_index_or marks.items g false ≡ is_in g functions.now) }
    ensures few { IfOk result (λ marks. trues marks.items ≤ length functions.now) }
{
    let mut marks = Vec::new(alloc);
    for f in functions {
        mark(&mut marks, *f)?;
    }
    Ok(marks)
}

/// Sets the mark of a number.
pub fn mark(marks: &mut Vec<bool>, f: u32) -> Result<(), OutOfMemory>
    ensures set { OnOk result ((g : ℕ) → slice_index_or marks.new.items g false
        ≡ plain.set_at f g (slice_index_or marks.old.items g false)) }
    ensures few { OnOk result (trues marks.new.items ≤ trues marks.old.items + 1) }
{
    let at = f as usize;
    while marks.len() <= at {
        marks.push(false)?;
    }
    marks[at] = true;
    Ok(())
}

/// The functions of a list, each after those of the list that it calls, as far as there is such an
/// order: one that is left over calls one that is left over. The walk through the components gives
/// them in such an order, so that each call is looked at twice; the rounds after it make sure that
/// none is left over that could stand in the order, and there they move none.
pub fn order(alloc: Global, functions: &[u32], calls: &[Vec<u32>]) -> Result<Vec<u32>, OutOfMemory>
    ensures { IfOk result (λ order. IsOrder functions.now (callees calls.now) order.items) }
{
    let mut marks = marked(alloc, functions)?;
    let mut order = Vec::new(alloc);
    let found = find_components(alloc, functions, calls)?;
    for f in &found.functions {
        visit(functions, calls, *f, &mut marks, &mut order)?;
    }
    let mut moved = true;
    while moved {
        moved = round(functions, calls, &mut marks, &mut order)?;
    }
    Ok(order)
}
