//! The constant arrays of a program.

ghost use Rattle.std.specs.Prelude.{◌≡◌, ◌-◌, ◌^◌, min, sum, map, drop, IfOk};
ghost use Rattle.forec_tree.specs.Plain.{plain_item, plain_global};
ghost use Rattle.text_kernel.specs.Bindings.{first_value};
ghost use Rattle.text_kernel.specs.Kernels.{padded};
ghost use Rattle.text_kernel.specs.Items.{globals_of, array_items, array_length, array_table, IsArrayOf};
ghost use Rattle.kernel_drafts.specs.Reach.{table_items};

use forec_base::OutOfMemory;
use forec_tree::{Global as Declared, Item, Number};
use lower_names::{first_number, is_constant};
use std::alloc::Global;
use text_kernel::number_of;
use text_sizes::add;

/// The constant array that an item declares.
fn array(item: &Item) -> Option<&Declared>
    ensures { IsArrayOf result (plain_item item.now) }
{
    match item {
        Item::Function { .. } => None,
        Item::Global { global } => {
            if is_constant(global.kind) && global.length.is_some() {
                Some(global)
            } else {
                None
            }
        }
    }
}

/// The constant arrays of a program, in order of declaration.
pub fn arrays<'p>(alloc: Global, items: &'p [Item]) -> Result<Vec<&'p Declared>, OutOfMemory>
    ensures { IfOk result (λ list. globals_of list.items ≡ array_items (map plain_item items.now)) }
{
    let mut list = Vec::new(alloc);
    for item in items {
        if let Some(global) = array(item) {
            list.push(global)?;
        }
    }
    Ok(list)
}

fn length(global: &Declared) -> u32
    ensures { result ≡ array_length (plain_global global.now) }
{
    match global.length {
        None => 0,
        Some(n) => number_of(n),
    }
}

/// The words of all constant arrays.
pub fn table_words(arrays: &[&Declared]) -> u64
    ensures { result ≡ min (sum (map array_length (globals_of arrays.now))) (2 ^ 64 - 1) }
{
    let mut total = 0;
    for global in arrays {
        total = add(total, u64::from(length(global)));
    }
    total
}

/// A number by its place; 0 past the last one.
pub fn number_at(values: &[Number], i: usize) -> i32
    ensures { result ≡ first_value (drop i values.now) }
{
    if i < values.len() {
        first_number(&values[i..])
    } else {
        0
    }
}

/// So many numbers: those that are given, and then zeros.
fn table(alloc: Global, length: u32, values: &[Number]) -> Result<Vec<i32>, OutOfMemory>
    ensures { IfOk result (λ list. list.items ≡ padded length values.now) }
{
    let mut list = Vec::new(alloc);
    for i in 0..length {
        list.push(number_at(values, i as usize))?;
    }
    Ok(list)
}

/// The numbers of constant arrays.
pub fn tables(alloc: Global, arrays: &[&Declared]) -> Result<Vec<Vec<i32>>, OutOfMemory>
    ensures { IfOk result (λ list. map table_items list.items ≡ map array_table (globals_of arrays.now)) }
{
    let mut list = Vec::new(alloc);
    for global in arrays {
        let one = table(alloc, length(global), global.values.as_slice())?;
        list.push(one)?;
    }
    Ok(list)
}
