//! The walk over a program in the order of its text: it keeps the least fault of all rules but 6, 10 and 20, and the effects of
//! each function, which those three want to know.

ghost use Rattle.std.specs.Prelude.{◌≡◌, ◌+◌, ◌≤◌, ◌<◌, ◌^◌, ◌++◌, ◌-◌, [], None, map, length, OnOk, IfOk};
ghost use Rattle.forec_tree.specs.Plain as plain;
ghost use Rattle.forec_tree.specs.Rules as rules;
ghost use Rattle.forec_tree.specs.Faults as faults;
ghost use Rattle.fault_order.specs.Least.{least_from};
ghost use Rattle.loop_check.specs.Views.{indexed_text};
ghost use Rattle.program_walk.specs.Walk.{effects_of, item_effects, effects_lists};
ghost use Rattle.program_walk.specs.Items.{in_item, counts_after, CountsBelow, OneMore, JudgesFunction, JudgesItem, JudgesItems};
ghost use Rattle.program_walk.specs.Views.{program_text, program_names};

pub mod context;
pub mod effects;
pub mod expressions;
pub mod functions;
pub mod item_counts;
pub mod statements;

use crate::rules::items::{is_input, judge_global, judge_head, output_count};
use crate::rules::start::judge_start;
use crate::scopes::scope::Scope;
use crate::symbols::Symbols;
use crate::walk::effects::{Effect, Notes};
use crate::walk::functions::body;
use crate::walk::item_counts::ItemCounts;
use forec_base::{Labels, OutOfMemory};
use forec_tree::{Function, Item};
use loop_check::Index;
use std::alloc::Global;
use std::mem;

/// What the walk over all items found: the least fault, and the effects of each item.
#[derive(Drop)]
pub struct ProgramNotes {
    pub notes: Notes,
    pub bodies: Vec<Vec<Effect>>,
}

fn one_if(b: bool) -> usize
    ensures { result ≡ faults.one_if b }
{
    if b { 1 } else { 0 }
}

fn after(counts: ItemCounts, item: &Item) -> ItemCounts
    requires { CountsBelow counts (2 ^ 64 - 1) }
    ensures counts { result ≡ counts_after counts (plain.plain_item item.now) }
    ensures few { OneMore counts result }
{
    match item {
        Item::Global { global } => ItemCounts {
            inputs: counts.inputs + one_if(is_input(global.kind)),
            outputs: counts.outputs + output_count(global) as u128,
            functions: counts.functions,
        },
        Item::Function { .. } => ItemCounts {
            inputs: counts.inputs,
            outputs: counts.outputs,
            functions: counts.functions + 1,
        },
    }
}

fn walk_function(
    symbols: &Symbols<'_, '_>,
    at: usize,
    counts: ItemCounts,
    f: &Function,
    scope: &mut Scope,
    notes: &mut Notes,
) -> Result<(), OutOfMemory>
    requires { notes.old.effects.items ≡ [] }
    ensures least { OnOk result (JudgesFunction (program_text symbols.now) (program_names symbols.now) at counts f.now
        notes.old.least notes.new.least) }
    ensures effects { OnOk result (notes.new.effects.items ≡ effects_of
        (faults.in_function (program_text symbols.now) (plain.plain_function f.now))) }
{
    judge_head(
        symbols.index,
        symbols.names,
        at,
        counts,
        f,
        &mut notes.least,
    );
    body(symbols.index, symbols.names, scope, f, notes)?;
    Ok(())
}

fn walk_item(
    symbols: &Symbols<'_, '_>,
    at: usize,
    counts: ItemCounts,
    item: &Item,
    scope: &mut Scope,
    notes: &mut Notes,
) -> Result<(), OutOfMemory>
    requires { notes.old.effects.items ≡ [] }
    ensures least { OnOk result (JudgesItem (program_text symbols.now) (program_names symbols.now) at counts item.now
        notes.old.least notes.new.least) }
    ensures effects { OnOk result (notes.new.effects.items ≡ effects_of
        (in_item (program_text symbols.now) (plain.plain_item item.now))) }
{
    match item {
        Item::Global { global } => {
            judge_global(
                symbols.index,
                symbols.names,
                at,
                counts,
                global,
                &mut notes.least,
            );
            Ok(())
        }
        Item::Function { function } => {
            walk_function(symbols, at, counts, function, scope, notes)?;
            Ok(())
        }
    }
}

fn walk_items(
    alloc: Global,
    index: &Index<'_>,
    names: &Labels,
    items: &[Item],
    program_notes: &mut ProgramNotes,
) -> Result<(), OutOfMemory>
    requires items { map plain.plain_item items.now ≡ indexed_text index.now }
    requires none { program_notes.old.notes.effects.items ≡ [] }
    requires bodies { program_notes.old.bodies.items ≡ [] }
    ensures least { OnOk result (JudgesItems (indexed_text index.now) names.now program_notes.old.notes.least
        program_notes.new.notes.least) }
    ensures bodies { OnOk result (effects_lists program_notes.new.bodies.items
        ≡ map (item_effects (indexed_text index.now)) (indexed_text index.now)) }
{
    let symbols = Symbols { index, names };
    let mut scope = Scope::new(alloc);
    let mut counts = ItemCounts {
        inputs: 0,
        outputs: 0,
        functions: 0,
    };
    for (at, item) in items.iter().enumerate() {
        walk_item(
            &symbols,
            at,
            counts,
            item,
            &mut scope,
            &mut program_notes.notes,
        )?;
        let effects = mem::replace(&mut program_notes.notes.effects, Vec::new(alloc));
        program_notes.bodies.push(effects)?;
        counts = after(counts, item);
    }
    Ok(())
}

/// Walks over all items once.
pub fn walk_program(
    alloc: Global,
    index: &Index<'_>,
    names: &Labels,
    items: &[Item],
) -> Result<ProgramNotes, OutOfMemory>
    requires { map plain.plain_item items.now ≡ indexed_text index.now }
    ensures least { IfOk result (λ c. c.notes.least ≡ least_from None
        (faults.text_faults (indexed_text index.now) names.now)) }
    ensures bodies { IfOk result (λ c. effects_lists c.bodies.items
        ≡ map (item_effects (indexed_text index.now)) (indexed_text index.now)) }
{
    let mut program_notes = ProgramNotes {
        notes: Notes {
            least: None,
            effects: Vec::new(alloc),
        },
        bodies: Vec::new(alloc),
    };
    judge_start(names, items, &mut program_notes.notes.least);
    walk_items(alloc, index, names, items, &mut program_notes)?;
    Ok(program_notes)
}
