//! Rule 3: a program has a `main` to start with.

ghost use Rattle.std.specs.Prelude.{◌≡◌, map};
ghost use Rattle.forec_tree.specs.Plain as plain;
ghost use Rattle.forec_tree.specs.Rules as rules;
ghost use Rattle.forec_tree.specs.Rules.{fault_if};
ghost use Rattle.forec_tree.specs.Faults as faults;
ghost use Rattle.fault_order.specs.Least.{least_from};

use crate::rules::uses::is_main;
use fault_order::keep_fault;
use forec_base::{Labels, Place};
use forec_tree::{Fault, Item, rule};
use loop_check::item_name;

fn is_start(names: &Labels, item: &Item) -> bool
    ensures { result ≡ faults.is_start names.now (plain.plain_item item.now) }
{
    match item {
        Item::Global { .. } => false,
        Item::Function { function } => {
            if !is_main(names, function.name.id) {
                return false;
            }
            if function.gives {
                return false;
            }
            function.params.len() == 0
        }
    }
}

/// The number of the name of the function that a program starts with; None where it has none.
pub fn start_name(names: &Labels, items: &[Item]) -> Option<u32>
    ensures { result ≡ faults.start_name names.now (map plain.plain_item items.now) }
{
    for item in items {
        if is_start(names, item) {
            return Some(item_name(item).id);
        }
    }
    None
}

fn main_place(names: &Labels, items: &[Item]) -> Place
    ensures { result ≡ faults.main_place names.now (map plain.plain_item items.now) }
{
    for item in items {
        let name = item_name(item);
        if is_main(names, name.id) {
            return name.place;
        }
    }
    Place { line: 1, column: 1 }
}

fn is_absent(name: Option<u32>) -> bool
    ensures { result ≡ rules.is_none name }
{
    match name {
        None => true,
        Some(_) => false,
    }
}

/// The fault of a program that has no `main`, by rule 3.
pub fn judge_start(names: &Labels, items: &[Item], least: &mut Option<Fault>)
    ensures { least.new ≡ least_from least.old (faults.main_faults (map plain.plain_item items.now) names.now) }
{
    let absent = is_absent(start_name(names, items));
    keep_fault(least, absent, main_place(names, items), rule::NO_MAIN);
}
