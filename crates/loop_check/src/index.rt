//! The items of a program by name.

ghost use Rattle.std.specs.Prelude.{◌≡◌, ◌<◌, ◌≤◌, ◌-◌, ◌^◌, ℕ, map, take, option_map, length, slice_index_or, slice_get, None, MatchOption, IfOk, OnOk};
ghost use Rattle.forec_tree.specs.Plain.{plain_item};
ghost use Rattle.forec_tree.specs.Scopes.{name_of, find_item};
ghost use Rattle.forec_tree.specs.Turns.{global_named};
ghost use Rattle.forec_tree.specs.Faults.{item_named};
ghost use Rattle.loop_check.specs.Index.{blank_entry, entry_from, noted_item};
ghost use Rattle.loop_check.specs.Index as plain;

use crate::entry::Entry;
use crate::numbered::value_at;
use forec_base::OutOfMemory;
use forec_tree::{Item, Name};
use sqlite_items::at;
use std::alloc::Global;

/// The items of a program, with the first one of each name. Its room is that of the greatest number
/// of a name of an item.
#[derive(Drop)]
pub struct Index<'p> {
    items: &'p [Item],
    entries: Vec<Entry>,
    ghost right: { (id : ℕ) → slice_index_or entries.items id blank_entry ≡ entry_from id 0 blank_entry (map plain_item items.now) },
}

fn blank() -> Entry
    ensures { result ≡ plain.blank_entry }
{
    Entry {
        first: 0,
        global: false,
    }
}

/// Lengthens a table, so that it has an entry of this number.
fn grow(entries: &mut Vec<Entry>, id: usize) -> Result<(), OutOfMemory>
    ensures long { OnOk result (id < length entries.new.items) }
    ensures same { (k : ℕ) → slice_index_or entries.new.items k plain.blank_entry
        ≡ slice_index_or entries.old.items k plain.blank_entry }
{
    while entries.len() <= id {
        entries.push(blank())?;
    }
    Ok(())
}

fn note(entries: &mut Vec<Entry>, at: usize, item: &Item) -> Result<(), OutOfMemory>
    requires { at < 2 ^ 64 - 1 }
    ensures { OnOk result ((k : ℕ) → slice_index_or entries.new.items k plain.blank_entry
        ≡ noted_item k at (plain_item item.now) (slice_index_or entries.old.items k plain.blank_entry)) }
{
    let id = item_name(item).id as usize;
    grow(entries, id)?;
    let entry = entries[id];
    entries[id] = Entry {
        first: if entry.first == 0 {
            at + 1
        } else {
            entry.first
        },
        global: entry.global || is_global(item),
    };
    Ok(())
}

fn is_global(item: &Item) -> bool
    ensures { result ≡ plain.is_global_item (plain_item item.now) }
{
    match item {
        Item::Global { .. } => true,
        Item::Function { .. } => false,
    }
}

/// The name of an item.
pub fn item_name(item: &Item) -> Name
    ensures { result ≡ name_of (plain_item item.now) }
{
    match item {
        Item::Global { global } => global.name,
        Item::Function { function } => function.name,
    }
}

impl<'p> Index<'p> {
    ghost use Rattle.loop_check.specs.Views.{indexed_text};

    /// Looks at each item once.
    pub fn of(alloc: Global, items: &'p [Item]) -> Result<Index<'p>, OutOfMemory>
        ensures { IfOk result (λ index. indexed_text index ≡ map plain_item items.now) }
    {
        let mut entries = Vec::new(alloc);
        for (at, item) in items.iter().enumerate() {
            note(&mut entries, at, item)?;
        }
        Ok(Index { items, entries })
    }

    fn entry(&self, id: u32) -> Entry
        ensures { result ≡ entry_from id 0 plain.blank_entry (indexed_text self.now) }
    {
        value_at(&self.entries, id, blank())
    }

    /// The first item of a name.
    pub fn find(&self, id: u32) -> Option<&'p Item>
        ensures { option_map (λ x. plain_item x.now) result ≡ find_item id (indexed_text self.now) }
    {
        let first = self.entry(id).first;
        if first == 0 {
            return None;
        }
        at(self.items, first - 1)
    }

    /// Where the first item of a name stands.
    pub fn position(&self, id: u32) -> Option<usize>
        ensures { MatchOption result (find_item id (indexed_text self.now) ≡ None)
            (λ at. find_item id (indexed_text self.now) ≡ slice_get (indexed_text self.now) at) }
    {
        let first = self.entry(id).first;
        if first == 0 {
            return None;
        }
        Some(first - 1)
    }

    /// Whether the first so many items have one of this name.
    pub fn named_before(&self, id: u32, at: usize) -> bool
        ensures { result ≡ item_named id (take at (indexed_text self.now)) }
    {
        let first = self.entry(id).first;
        first != 0 && first <= at
    }

    /// Whether a global has the name.
    pub fn is_global(&self, id: u32) -> bool
        ensures { result ≡ global_named id (indexed_text self.now) }
    {
        self.entry(id).global
    }

    /// The items, in order.
    pub fn items(&self) -> &'p [Item]
        ensures { map plain_item result.now ≡ indexed_text self.now }
    {
        self.items
    }
}
