//! Rule 10: two thread instances access a plain global or a plain output.

ghost use Rattle.std.specs.Prelude.{◌≡◌, ◌∷◌, map, Some, IfOk, OnOk};
ghost use Rattle.forec_tree.specs.Plain as plain;
ghost use Rattle.forec_tree.specs.Rules as rules;
ghost use Rattle.forec_tree.specs.Faults.{start_name};
ghost use Rattle.fault_order.specs.Least.{least_from};
ghost use Rattle.program_walk.specs.Views.{program_text, program_names};
ghost use Rattle.program_walk.specs.Walk.{item_effects, effects_lists};
ghost use Rattle.forec_check.specs.AccessCounts.{access_fault, access_faults, Orders};
ghost use Rattle.forec_check.specs.SingleAccess.{TellsSingle};

use crate::instances::accesses::two_access;
use crate::instances::bodies::Bodies;
use crate::instances::single::{SingleAccess, single_access};
use fault_order::{is_less, keep_fault};
use forec_base::OutOfMemory;
use forec_tree::{Fault, GlobalKind, Item, rule};
use program_walk::Symbols;
use std::alloc::Global;

fn is_plain(kind: GlobalKind) -> bool
    ensures { result ≡ rules.is_plain kind }
{
    match kind {
        GlobalKind::Plain | GlobalKind::Output => true,
        _ => false,
    }
}

fn judge_plain_global(
    alloc: Global,
    symbols: &Symbols<'_, '_>,
    bodies: &Bodies<'_>,
    single: &SingleAccess,
    item: &Item,
    least: &mut Option<Fault>,
) -> Result<(), OutOfMemory>
    requires bodies { effects_lists bodies.now.effects.now ≡ map (item_effects (program_text symbols.now))
        (program_text symbols.now) }
    requires order { Orders (program_text symbols.now) bodies.now.order.now }
    requires first { start_name (program_names symbols.now) (program_text symbols.now) ≡ Some bodies.now.first }
    requires single { TellsSingle (program_text symbols.now) bodies.now.first single.now }
    ensures { OnOk result (least.new ≡ least_from least.old (access_fault (program_text symbols.now)
        (program_names symbols.now) (plain.plain_item item.now))) }
{
    match item {
        Item::Function { .. } => Ok(()),
        Item::Global { global } => {
            if !is_plain(global.kind) {
                return Ok(());
            }
            if single.is_single(global.name.id) {
                return Ok(());
            }
            if !is_less(least, global.name.place, rule::PLAIN_IN_TWO_THREADS) {
                return Ok(());
            }
            let two = two_access(
                alloc,
                symbols.index,
                bodies.effects,
                bodies.order,
                global.name.id,
                bodies.first,
            )?;
            keep_fault(least, two, global.name.place, rule::PLAIN_IN_TWO_THREADS);
            Ok(())
        }
    }
}

/// Keeps the least fault of plain globals and outputs that two thread instances access. One walk over
/// all bodies tells which are accessed by one alone; of the others only one whose fault is less than the
/// one kept is looked at by itself, which is one where the items stand in the order of the text. So
/// each effect is looked at a few times.
pub fn judge_plain_globals(
    alloc: Global,
    symbols: &Symbols<'_, '_>,
    items: &[Item],
    bodies: &Bodies<'_>,
    least: &mut Option<Fault>,
) -> Result<(), OutOfMemory>
    requires items { map plain.plain_item items.now ≡ program_text symbols.now }
    requires bodies { effects_lists bodies.now.effects.now ≡ map (item_effects (program_text symbols.now))
        (program_text symbols.now) }
    requires order { Orders (program_text symbols.now) bodies.now.order.now }
    requires first { start_name (program_names symbols.now) (program_text symbols.now) ≡ Some bodies.now.first }
    ensures { OnOk result (least.new ≡ least_from least.old (access_faults (program_text symbols.now)
        (program_names symbols.now) (program_text symbols.now))) }
{
    let single = single_access(
        alloc,
        symbols.index,
        bodies.effects,
        bodies.order,
        bodies.first,
    )?;
    for item in items {
        judge_plain_global(alloc, symbols, bodies, &single, item, least)?;
    }
    Ok(())
}
