//! Which functions are certain to pause.

ghost use Rattle.std.specs.Prelude.{◌≡◌, ◌+◌, ℕ, map, length, take, slice_get, Some, IfOk, OnOk};
ghost use Rattle.forec_tree.specs.Plain as plain;
ghost use Rattle.forec_tree.specs.Faults.{Leads};
ghost use Rattle.forec_tree.specs.Turns.{inferred};
ghost use Rattle.forec_tree.specs.Pauses as pauses;
ghost use Rattle.loop_check.specs.Graph.{callees};
ghost use Rattle.loop_check.specs.Views.{indexed_text};
ghost use Rattle.loop_check.specs.Known.{known, started_in, FunctionOf, IsListOf, Read, AddsItem, IsRightTable};
ghost use Rattle.loop_check.specs.Numbered.{put_entry};

use crate::graph::{mark, order};
use crate::index::{Index, item_name};
use crate::pauses::{any_certain, is_certain, is_known, turns_of};
use crate::starts::all_started;
use forec_base::OutOfMemory;
use forec_tree::{Function, Item, Program, Stmt};
use std::alloc::Global;

/// The function of a name.
pub fn find_function<'p>(index: &Index<'p>, id: u32) -> Option<&'p Function>
    ensures { FunctionOf result (pauses.find_function id (indexed_text index.now)) }
{
    match index.find(id) {
        Some(Item::Function { function }) => Some(function),
        _ => None,
    }
}

/// Puts a list at a number of a table of lists.
fn put(alloc: Global, calls: &mut Vec<Vec<u32>>, id: u32, list: Vec<u32>) -> Result<(), OutOfMemory>
    ensures { OnOk result ((g : ℕ) → callees calls.new.items g
        ≡ put_entry id g list.items (callees calls.old.items g)) }
{
    let at = id as usize;
    'room: while calls.len() <= at {
        calls.push(Vec::new(alloc))?;
    }
    calls[at] = list;
    Ok(())
}

/// The functions that stand among the items by their names, and those that each one calls or starts.
#[derive(Drop)]
pub struct Calls {
    pub functions: Vec<u32>,
    pub lists: Vec<Vec<u32>>,
}

/// Adds a function and its list to those of the items before it, unless one of these has its name.
pub fn add_function(
    alloc: Global,
    index: &Index<'_>,
    at: usize,
    item: &Item,
    list: Vec<u32>,
    calls: &mut Calls,
) -> Result<(), OutOfMemory>
    requires { slice_get (indexed_text index.now) at ≡ Some (plain.plain_item item.now) }
    ensures { OnOk result (AddsItem (take at (indexed_text index.now)) (take (at + 1) (indexed_text index.now))
        (plain.plain_item item.now) list.items calls.old.functions.items calls.new.functions.items
        (callees calls.old.lists.items) (callees calls.new.lists.items)) }
{
    let id = item_name(item).id;
    if index.named_before(id, at) {
        return Ok(());
    }
    match item {
        Item::Global { .. } => Ok(()),
        Item::Function { .. } => {
            put(alloc, &mut calls.lists, id, list)?;
            calls.functions.push(id)?;
            Ok(())
        }
    }
}

fn started_list(alloc: Global, item: &Item) -> Result<Vec<u32>, OutOfMemory>
    ensures { IfOk result (λ list. IsListOf started_in (plain.plain_item item.now) list.items) }
{
    let mut list = Vec::new(alloc);
    if let Item::Function { function } = item {
        all_started(&mut list, function.body.as_slice())?;
    }
    Ok(list)
}

fn add_started(
    alloc: Global,
    index: &Index<'_>,
    at: usize,
    item: &Item,
    calls: &mut Calls,
) -> Result<(), OutOfMemory>
    requires { slice_get (indexed_text index.now) at ≡ Some (plain.plain_item item.now) }
    ensures { OnOk result (Read started_in (take at (indexed_text index.now)) calls.old.functions.items
        (callees calls.old.lists.items)
        → Read started_in (take (at + 1) (indexed_text index.now)) calls.new.functions.items
        (callees calls.new.lists.items)) }
{
    let list = started_list(alloc, item)?;
    add_function(alloc, index, at, item, list, calls)?;
    Ok(())
}

/// The functions of a program, and those that the statements of each one call or start.
pub fn read_calls(alloc: Global, index: &Index<'_>) -> Result<Calls, OutOfMemory>
    ensures { IfOk result (λ calls. Read started_in (indexed_text index.now) calls.functions.items
        (callees calls.lists.items)) }
{
    let mut calls = Calls {
        functions: Vec::new(alloc),
        lists: Vec::new(alloc),
    };
    for (at, item) in index.items().iter().enumerate() {
        add_started(alloc, index, at, item, &mut calls)?;
    }
    Ok(calls)
}

fn function_certain(index: &Index<'_>, called: &[bool], id: u32) -> bool
    ensures { result ≡ pauses.certain_step (indexed_text index.now) (known called.now) id }
{
    match find_function(index, id) {
        None => false,
        Some(function) => {
            if function.gives {
                return false;
            }
            any_certain(index, called, function.body.as_slice())
        }
    }
}

/// Which functions are certain to pause.
fn judged(alloc: Global, index: &Index<'_>, order: &[u32]) -> Result<Vec<bool>, OutOfMemory>
    ensures { IfOk result (λ called. IsRightTable (pauses.certain_step (indexed_text index.now)) order.now
        (length order.now) (known called.items)) }
{
    let mut called = Vec::new(alloc);
    for f in order {
        if function_certain(index, &called, *f) {
            mark(&mut called, *f)?;
        }
    }
    Ok(called)
}

/// Which statements of a program are certain to pause: each function is judged once, after those
/// that it calls or starts.
#[derive(Drop)]
pub struct Pauses<'p> {
    index: Index<'p>,
    called: Vec<bool>,
    ghost right: { (id : ℕ) → known called.items id ≡ pauses.certain_function (map plain.plain_item index.items.now) id },
}

impl<'p> Pauses<'p> {
    /// Judges each function of a program in which none reaches itself by statements and branches.
    pub fn of(alloc: Global, items: &'p [Item]) -> Result<Pauses<'p>, OutOfMemory>
        requires { (f : ℕ) → Leads (pauses.callees_of (map plain.plain_item items.now)) f f → ⊥ }
        ensures { IfOk result (λ p. indexed_text p.index ≡ map plain.plain_item items.now) }
    {
        let index = Index::of(alloc, items)?;
        let calls = read_calls(alloc, &index)?;
        let order = order(alloc, &calls.functions, &calls.lists)?;
        let called = judged(alloc, &index, &order)?;
        Ok(Pauses { index, called })
    }

    /// Whether the body of the void function of a name is certain to pause.
    pub fn function(&self, id: u32) -> bool
        ensures { result ≡ pauses.certain_function (indexed_text self.now.index) id }
    {
        is_known(&self.called, id)
    }

    /// Whether a statement is certain to pause.
    pub fn certain(&self, s: &Stmt) -> bool
        ensures { result ≡ pauses.certain (indexed_text self.now.index) (plain.statement s.now) }
    {
        is_certain(&self.index, &self.called, s)
    }

    /// The number of turns that the form of a `for` tells.
    pub fn turns(&self, s: &Stmt) -> Option<u32>
        ensures { result ≡ inferred (indexed_text self.now.index) (plain.statement s.now) }
    {
        turns_of(&self.index, s)
    }
}

/// Whether a statement is certain to pause: each way through it comes to a `pause`. Each function of
/// the program is judged once. No function of the program may reach itself by calls as statements
/// and branches.
pub fn certain(alloc: Global, program: &Program, stmt: &Stmt) -> Result<bool, OutOfMemory>
    requires { (f : ℕ) → Leads (pauses.callees_of (plain.program program.now)) f f → ⊥ }
    ensures { IfOk result (λ answer. answer ≡ pauses.certain (plain.program program.now) (plain.statement stmt.now)) }
{
    let pauses = Pauses::of(alloc, program.items.as_slice())?;
    Ok(pauses.certain(stmt))
}
