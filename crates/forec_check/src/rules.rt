//! The rules of the language, and the least fault of a program.
//!
//! Where each rule is judged: 6, 10 and 20 here, and all others by `program_walk`.
//!
//! - `recursion`: 6, a function calls itself.
//! - `plain_globals`: 10, two thread instances name a plain variable.
//! - `loops`: 20, a loop might never end its tick.

ghost use Rattle.std.specs.Prelude.{◌≡◌, ◌++◌, [], None, Some, map, IfOk, OnOk};
ghost use Rattle.forec_tree.specs.Plain as plain;
ghost use Rattle.forec_tree.specs.Faults.{IsEarly, IsFault, start_name};
ghost use Rattle.fault_order.specs.Least.{least_from};
ghost use Rattle.loop_check.specs.Views.{indexed_text};
ghost use Rattle.program_walk.specs.Views.{program_text, program_names};
ghost use Rattle.program_walk.specs.Walk.{item_effects, effects_lists};
ghost use Rattle.forec_check.specs.Early.{IsLeastOrNone, KnowsCalls};
ghost use Rattle.forec_check.specs.Loops.{all_loops, loops_faults};
ghost use Rattle.forec_check.specs.AccessCounts.{access_faults, Orders};

pub mod loops;
pub mod plain_globals;
pub mod recursion;

use crate::instances::bodies::Bodies;
use crate::rules::loops::judge_loops;
use crate::rules::plain_globals::judge_plain_globals;
use crate::rules::recursion::{call_graph, judge_recursion};
use forec_base::{Labels, OutOfMemory};
use forec_tree::{Fault, Item, Program};
use loop_check::{Calls, Index, Pauses, order};
use program_walk::{Effect, ProgramNotes, Symbols, start_name, walk_program};
use std::alloc::Global;

fn judge_accesses(
    alloc: Global,
    symbols: &Symbols<'_, '_>,
    items: &[Item],
    bodies: &[Vec<Effect>],
    order: &[u32],
    least: &mut Option<Fault>,
) -> Result<(), OutOfMemory>
    requires items { map plain.plain_item items.now ≡ program_text symbols.now }
    requires bodies { effects_lists bodies.now ≡ map (item_effects (program_text symbols.now))
        (program_text symbols.now) }
    requires order { Orders (program_text symbols.now) order.now }
    ensures { OnOk result (least.new ≡ least_from least.old (access_faults (program_text symbols.now)
        (program_names symbols.now) (program_text symbols.now))) }
{
    match start_name(symbols.names, items) {
        None => Ok(()),
        Some(first) => {
            let bodies = Bodies {
                effects: bodies,
                order,
                first,
            };
            judge_plain_globals(alloc, symbols, items, &bodies, least)?;
            Ok(())
        }
    }
}

/// The least fault of the rules on threads and endless loops, where no other rule is broken.
fn least_late(
    alloc: Global,
    index: &Index<'_>,
    names: &Labels,
    items: &[Item],
    program_notes: &ProgramNotes,
    calls: &Calls,
) -> Result<Option<Fault>, OutOfMemory>
    requires items { map plain.plain_item items.now ≡ indexed_text index.now }
    requires early { IsLeastOrNone None (IsEarly (indexed_text index.now) names.now) }
    requires bodies { effects_lists program_notes.now.bodies.items
        ≡ map (item_effects (indexed_text index.now)) (indexed_text index.now) }
    requires read { KnowsCalls (indexed_text index.now) calls.now }
    ensures { IfOk result (λ least. least ≡ least_from None (access_faults (indexed_text index.now) names.now
        (indexed_text index.now)
        ++ loops_faults (indexed_text index.now) (all_loops (indexed_text index.now)))) }
{
    let symbols = Symbols { index, names };
    let mut least = None;
    let order = order(alloc, &calls.functions, &calls.lists)?;
    judge_accesses(
        alloc,
        &symbols,
        items,
        &program_notes.bodies,
        &order,
        &mut least,
    )?;
    let pauses = Pauses::of(alloc, items)?;
    judge_loops(&pauses, items, &mut least);
    Ok(least)
}

/// The least fault of a program by place, then rule; `None` exactly where it breaks no rule.
pub fn least_fault(
    alloc: Global,
    program: &Program,
    names: &Labels,
) -> Result<Option<Fault>, OutOfMemory>
    ensures { IfOk result (λ least. IsLeastOrNone least (IsFault (plain.program program.now) names.now)) }
{
    let items = program.items.as_slice();
    let index = Index::of(alloc, items)?;
    let program_notes = walk_program(alloc, &index, names, items)?;
    let mut least = program_notes.notes.least;
    let calls = call_graph(alloc, &index, items, &program_notes.bodies)?;
    judge_recursion(alloc, &index, names, items, &calls, &mut least)?;
    if least.is_some() {
        return Ok(least);
    }
    let late = least_late(alloc, &index, names, items, &program_notes, &calls)?;
    Ok(late)
}
