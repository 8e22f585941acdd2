//! How large a checked program is: its thread instances, inputs and outputs.

ghost use Rattle.std.specs.Prelude.{◌≡◌, ◌≤◌, map, IfOk};
ghost use Rattle.forec_tree.specs.Plain as plain;
ghost use Rattle.forec_check.specs.Checked as checked;
ghost use Rattle.forec_check.specs.Checked.{checked_text, names_of};
ghost use Rattle.forec_check.specs.Instances as count;

use crate::checked::Checked;
use crate::instances::instances;
use forec_base::{Labels, MAX_OUTPUTS, OutOfMemory};
use forec_tree::Item;
use program_walk::{is_input, output_count, start_name};
use std::alloc::Global;

impl<'n> Checked<'n> {
    /// The thread instances of the program, at most the greatest `u64`: `main`, and each branch of each
    /// `par` where void functions that are called as statements are inlined. Each function is
    /// counted once, so it takes time in proportion to the program however many instances there are.
    pub fn threads(&self, alloc: Global) -> Result<u64, OutOfMemory>
        ensures { IfOk result (λ n. n ≡ count.thread_count (checked_text self.now) (names_of self.now)) }
    {
        let items = self.program().items.as_slice();
        let first = start_of(self.names(), items);
        let threads = instances(alloc, items, first)?;
        Ok(threads)
    }

    /// The number of the name of the function that the program starts with.
    pub fn start(&self) -> u32
        ensures { result ≡ count.main_number (names_of self.now) (checked_text self.now) }
    {
        start_of(self.names(), self.program().items.as_slice())
    }

    /// How many inputs the program has.
    pub fn inputs(&self) -> usize
        ensures { result ≡ checked.count_inputs (checked_text self.now) }
    {
        count_inputs(self.program().items.as_slice())
    }

    /// How many outputs the program has, plain and shared, where each element of an array is one.
    pub fn outputs(&self) -> usize
        ensures { result ≡ checked.count_outputs (checked_text self.now) }
    {
        count_outputs(self.program().items.as_slice())
    }
}

/// The number of the name `main`; 0 where there is no such function, which rule 3 refuses.
fn start_of(names: &Labels, items: &[Item]) -> u32
    ensures { result ≡ count.main_number names.now (map plain.plain_item items.now) }
{
    match start_name(names, items) {
        None => 0,
        Some(first) => first,
    }
}

fn count_inputs(items: &[Item]) -> usize
    ensures { result ≡ checked.count_inputs (map plain.plain_item items.now) }
{
    let mut count = 0;
    for item in items {
        if let Item::Global { global } = item {
            if is_input(global.kind) {
                count += 1;
            }
        }
    }
    count
}

fn outputs_in(item: &Item) -> u32
    ensures { result ≡ checked.item_outputs (plain.plain_item item.now) }
{
    match item {
        Item::Global { global } => output_count(global),
        Item::Function { .. } => 0,
    }
}

fn count_outputs(items: &[Item]) -> usize
    requires { checked.count_outputs (map plain.plain_item items.now) ≤ MAX_OUTPUTS }
    ensures { result ≡ checked.count_outputs (map plain.plain_item items.now) }
{
    let mut count = 0;
    for item in items {
        count += outputs_in(item) as usize;
    }
    count
}
