//! Rule 6: a function calls itself, by way of others too. The call graph is made of the effects of the bodies.

ghost use Rattle.std.specs.Prelude.{◌≡◌, ◌+◌, ℕ, true, false, map, take, slice_get, slice_index_or, Some, IfOk, OnOk};
ghost use Rattle.forec_tree.specs.Plain as plain;
ghost use Rattle.forec_tree.specs.Faults.{Leads, Member, IsEarly, text_faults};
ghost use Rattle.loop_check.specs.Views.{indexed_text};
ghost use Rattle.loop_check.specs.Graph.{callees};
ghost use Rattle.program_walk.specs.Views.{program_text, program_names};
ghost use Rattle.program_walk.specs.Walk.{item_effects, effects_lists};
ghost use Rattle.forec_check.specs.Early.{effect_calls, IsLeastOrNone, EarlyTo, KnowsCalls};

use fault_order::{is_less, keep_fault};
use forec_base::{Labels, OutOfMemory};
use forec_tree::{Fault, Item, rule};
use loop_check::{Calls, Index, acyclic, add_function, is_waiting, reaches_itself};
use program_walk::{Effect, Symbols};
use std::alloc::Global;

fn called_functions(alloc: Global, effects: &[Effect]) -> Result<Vec<u32>, OutOfMemory>
    ensures { IfOk result (λ list. list.items ≡ effect_calls effects.now) }
{
    let mut list = Vec::new(alloc);
    for effect in effects {
        match *effect {
            Effect::Computes { id } | Effect::Runs { id } | Effect::Starts { id } => list.push(id)?,
            _ => {}
        }
    }
    Ok(list)
}

/// The functions of a program, and those that each calls or starts, from the effects of each item.
pub fn call_graph(
    alloc: Global,
    index: &Index<'_>,
    items: &[Item],
    bodies: &[Vec<Effect>],
) -> Result<Calls, OutOfMemory>
    requires items { map plain.plain_item items.now ≡ indexed_text index.now }
    requires bodies { effects_lists bodies.now ≡ map (item_effects (indexed_text index.now)) (indexed_text index.now) }
    ensures { IfOk result (λ calls. KnowsCalls (indexed_text index.now) calls) }
{
    let mut calls = Calls {
        functions: Vec::new(alloc),
        lists: Vec::new(alloc),
    };
    for (at, item) in items.iter().enumerate() {
        let list = called_functions(alloc, &bodies[at])?;
        add_function(alloc, index, at, item, list, &mut calls)?;
    }
    Ok(calls)
}

/// The calls of all functions, and for each function whether it is certain not to reach itself.
#[derive(Clone, Copy)]
struct KnownCalls<'a> {
    calls: &'a Calls,
    free: &'a [bool],
}

fn judge_recursive(
    alloc: Global,
    symbols: &Symbols<'_, '_>,
    at: usize,
    item: &Item,
    known: &KnownCalls<'_>,
    least: &mut Option<Fault>,
) -> Result<(), OutOfMemory>
    requires item { slice_get (program_text symbols.now) at ≡ Some (plain.plain_item item.now) }
    requires read { KnowsCalls (program_text symbols.now) known.now.calls.now }
    requires free { (g : ℕ) → slice_index_or known.now.free.now g false ≡ true
        → Leads (callees known.now.calls.now.lists.items) g g → ⊥ }
    requires kept { IsLeastOrNone least.old (EarlyTo (program_text symbols.now) (program_names symbols.now)
        (take at (program_text symbols.now))) }
    ensures { OnOk result (IsLeastOrNone least.new (EarlyTo (program_text symbols.now) (program_names symbols.now)
        (take (at + 1) (program_text symbols.now)))) }
{
    match item {
        Item::Global { .. } => Ok(()),
        Item::Function { function } => {
            let id = function.name.id;
            if symbols.index.named_before(id, at) {
                return Ok(());
            }
            if is_waiting(known.free, id) {
                return Ok(());
            }
            if !is_less(least, function.name.place, rule::CALLS_ITSELF) {
                return Ok(());
            }
            let reaches = reaches_itself(alloc, &known.calls.functions, &known.calls.lists, id)?;
            keep_fault(least, reaches, function.name.place, rule::CALLS_ITSELF);
            Ok(())
        }
    }
}

/// Keeps the least fault where functions reach themselves. A walk through the components of the
/// calls tells which functions are free of that; of the others only one whose fault is less than the
/// one kept is searched from, which is one where the items stand in the order of the text. So each
/// call is looked at a few times.
pub fn judge_recursion(
    alloc: Global,
    index: &Index<'_>,
    names: &Labels,
    items: &[Item],
    calls: &Calls,
    least: &mut Option<Fault>,
) -> Result<(), OutOfMemory>
    requires items { map plain.plain_item items.now ≡ indexed_text index.now }
    requires read { KnowsCalls (indexed_text index.now) calls.now }
    requires kept { IsLeastOrNone least.old (λ f. Member f (text_faults (indexed_text index.now) names.now)) }
    ensures { OnOk result (IsLeastOrNone least.new (IsEarly (indexed_text index.now) names.now)) }
{
    let free = acyclic(alloc, &calls.functions, &calls.lists)?;
    let symbols = Symbols { index, names };
    let known = KnownCalls {
        calls,
        free: free.as_slice(),
    };
    for (at, item) in items.iter().enumerate() {
        judge_recursive(alloc, &symbols, at, item, &known, least)?;
    }
    Ok(())
}
