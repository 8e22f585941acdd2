//! What the names of a program's items stand for.

ghost use Rattle.std.specs.Prelude.{◌≡◌, ◌+◌, ℕ, map, None, slice_index_or, IfOk, OnOk};
ghost use Rattle.forec_tree.specs.Plain.{plain_item, plain_global};
ghost use Rattle.forec_tree.specs.Scopes.{find_item};
ghost use Rattle.forec_tree.specs.Terms.{IsGlobal};
ghost use Rattle.loop_check.specs.Views.{indexed_text};
ghost use Rattle.text_kernel.specs.Bindings as bindings;
ghost use Rattle.lower_names.specs.Numbering as numbering;

use forec_base::OutOfMemory;
use forec_tree::{Global as Variable, GlobalKind, Item, Number};
use loop_check::{Index, item_name};
use std::alloc::Global;
use text_kernel::Stands;

/// How many variables, constant arrays and int functions stand before an item. Each element of a shared array is a
/// variable.
#[derive(Clone, Copy)]
pub struct KernelIndices {
    pub variables: u64,
    pub tables: u32,
    pub functions: u32,
}

/// The items of a program by name, with how many of each sort stand before the first one of the name.
#[derive(Drop)]
pub struct Globals<'p> {
    pub index: Index<'p>,
    before: Vec<Option<KernelIndices>>,
    pub total: KernelIndices,
    ghost right: { (id : ℕ) → numbering.indices_or (slice_index_or before.items id None) total ≡ numbering.before_name id numbering.no_indices (indexed_text index) },
}

fn one_more(count: u32, more: bool) -> Result<u32, OutOfMemory>
    ensures { IfOk result (λ n. n ≡ numbering.more_if count more) }
{
    if !more {
        return Ok(count);
    }
    match count.checked_add(1) {
        None => Err(OutOfMemory),
        Some(next) => Ok(next),
    }
}

/// Whether a global is a constant.
pub fn is_constant(kind: GlobalKind) -> bool
    ensures { result ≡ Rattle.forec_tree.specs.Scopes.is_constant kind }
{
    matches!(kind, GlobalKind::Const)
}

/// How many variables a global is: none where it is a constant.
fn variables_of(global: &Variable) -> u32
    ensures { result ≡ bindings.variables_in (IsGlobal (plain_global global.now)) }
{
    if is_constant(global.kind) {
        return 0;
    }
    global.width()
}

/// How many variables an item declares.
fn variables_in(item: &Item) -> u32
    ensures { result ≡ bindings.variables_in (plain_item item.now) }
{
    match item {
        Item::Global { global } => variables_of(global),
        Item::Function { .. } => 0,
    }
}

fn more(count: u64, by: u32) -> Result<u64, OutOfMemory>
    ensures { IfOk result (λ n. n ≡ count + by) }
{
    match count.checked_add(u64::from(by)) {
        None => Err(OutOfMemory),
        Some(next) => Ok(next),
    }
}

fn is_table(item: &Item) -> bool
    ensures { result ≡ bindings.is_table (plain_item item.now) }
{
    match item {
        Item::Global { global } => is_constant(global.kind) && global.length.is_some(),
        Item::Function { .. } => false,
    }
}

fn is_int_function(item: &Item) -> bool
    ensures { result ≡ bindings.is_int_function (plain_item item.now) }
{
    match item {
        Item::Global { .. } => false,
        Item::Function { function } => function.gives,
    }
}

/// The counts after an item.
fn counted(counts: KernelIndices, item: &Item) -> Result<KernelIndices, OutOfMemory>
    ensures { IfOk result (λ c. c ≡ numbering.count_item counts (plain_item item.now)) }
{
    Ok(KernelIndices {
        variables: more(counts.variables, variables_in(item))?,
        tables: one_more(counts.tables, is_table(item))?,
        functions: one_more(counts.functions, is_int_function(item))?,
    })
}

/// Puts counts at a name that has none.
fn note(
    before: &mut Vec<Option<KernelIndices>>,
    id: u32,
    counts: KernelIndices,
) -> Result<(), OutOfMemory>
    ensures { OnOk result ((g : ℕ) → slice_index_or before.new.items g None
        ≡ numbering.put_indices id g counts (slice_index_or before.old.items g None)) }
{
    let at = id as usize;
    'room: while before.len() <= at {
        before.push(None)?;
    }
    if before[at].is_none() {
        before[at] = Some(counts);
    }
    Ok(())
}

/// The first of some numbers; 0 where there is none.
pub fn first_number(values: &[Number]) -> i32
    ensures { result ≡ bindings.first_value values.now }
{
    match values.first() {
        None => 0,
        Some(number) => number.value,
    }
}

/// The first value of a global; 0 where none is given.
pub fn first_value(global: &Variable) -> i32
    ensures { result ≡ bindings.first_value global.now.values }
{
    first_number(global.values.as_slice())
}

/// What a global stands for, with the counts before it.
fn global_stands(counts: KernelIndices, global: &Variable) -> Stands
    ensures { result ≡ numbering.global_stands counts (plain_global global.now) }
{
    if !is_constant(global.kind) {
        let variable = counts.variables;
        return match global.stated_length() {
            None => Stands::AsVariable { variable },
            Some(length) => Stands::AsVariables {
                variable,
                length: length.elements(),
            },
        };
    }
    match global.length {
        None => Stands::AsNumber {
            value: first_value(global),
        },
        Some(_) => Stands::AsTable {
            table: counts.tables,
        },
    }
}

impl<'p> Globals<'p> {
    /// Looks at each item once.
    ///
    /// # Errors
    ///
    /// Out of memory.
    pub fn of(alloc: Global, items: &'p [Item]) -> Result<Globals<'p>, OutOfMemory>
        ensures { IfOk result (λ g. indexed_text g.index ≡ map plain_item items.now) }
    {
        let index = Index::of(alloc, items)?;
        let mut before = Vec::new(alloc);
        let mut total = KernelIndices {
            variables: 0,
            tables: 0,
            functions: 0,
        };
        for item in items {
            note(&mut before, item_name(item).id, total)?;
            total = counted(total, item)?;
        }
        Ok(Globals {
            index,
            before,
            total,
        })
    }

    fn counts(&self, id: u32) -> KernelIndices
        ensures { result ≡ numbering.before_name id numbering.no_indices (indexed_text self.now.index) }
    {
        match self.before.get(id as usize) {
            Some(Some(counts)) => *counts,
            _ => self.total,
        }
    }

    /// The number of the int function of a name.
    pub fn function(&self, id: u32) -> u32
        ensures { result ≡ bindings.number_among bindings.is_int_function id (indexed_text self.now.index) }
    {
        self.counts(id).functions
    }

    /// What the first item of a name stands for.
    pub fn stands(&self, id: u32) -> Stands
        ensures { result
            ≡ bindings.item_stands (indexed_text self.now.index) (find_item id (indexed_text self.now.index)) }
    {
        match self.index.find(id) {
            Some(Item::Global { global }) => global_stands(self.counts(global.name.id), global),
            _ => Stands::AsNothing,
        }
    }
}
