//! Programs that are too large or too deep to be made: which limit they pass first.

ghost use Rattle.std.specs.Prelude.{◌≡◌, ◌≤◌, ◌-◌, ◌^◌, ℕ, min, map, IfOk, IfErr, OnOk};
ghost use Rattle.forec_tree.specs.Plain.{plain_item};
ghost use Rattle.forec_tree.specs.Faults.{Leads};
ghost use Rattle.forec_tree.specs.Pauses.{callees_of};
ghost use Rattle.forec_check.specs.Faultless.{Faultless};
ghost use Rattle.forec_kernel.specs.WellFormed.{Ranked};
ghost use Rattle.loop_check.specs.Views.{indexed_text};
ghost use Rattle.text_kernel.specs.Kernels.{kernel_of, int_functions, main_id};
ghost use Rattle.text_kernel.specs.Items.{functions_of};
ghost use Rattle.text_kernel.specs.Limits as limits;
ghost use Rattle.text_kernel.specs.declared.limits.Quantity.TheVariants as quantity;
ghost use Rattle.kernel_drafts.specs.Measures.{CallsLow, HasWords};
ghost use Rattle.kernel_lower.specs.Refusals.{HasLowerCause};
ghost use Rattle.lower_names.specs.Views.{OneText};

use crate::judge::{Amounts, judge, within};
use crate::lower_fault::LowerFault;
use forec_base::{Labels, MAX_DEPTH, MAX_GLOBALS, MAX_TERMS, OutOfMemory};
use forec_tree::{Function, Item};
use kernel_drafts::{Draft, arrays, lowered_functions, table_words, variables, words_along};
use loop_check::Index;
use lower_names::Source;
use std::alloc::Global;
use text_chains::most_words;
use text_kernel::Quantity;
use text_sizes::{span_of, spans};

/// What is counted on the text of a program: the function that it starts with, its threads, variables and terms, and how
/// many statements at least nest in some thread.
#[derive(Clone, Copy)]
pub struct Outlook {
    pub first: u32,
    pub threads: u64,
    pub variables: u64,
    pub terms: u64,
    pub levels: u64,
}

/// How many statements at least nest in some thread of a program that starts with the
/// function of a name and has so many threads. It is refused where a thread's own words pass their limit.
pub fn foresee(
    alloc: Global,
    index: &Index<'_>,
    names: &Labels,
    first: u32,
    threads: u64,
) -> Result<u64, LowerFault>
    requires free { (f : ℕ) → Leads (callees_of (indexed_text index.now)) f f → ⊥ }
    requires first { first ≡ main_id (indexed_text index.now) names.now }
    requires threads { threads ≡ min (limits.amount quantity.Threads (kernel_of (indexed_text index.now) names.now))
        (2 ^ 64 - 1) }
    requires few { threads ≤ limits.limit_of quantity.Threads }
    ensures words { OnOk result (limits.widest (kernel_of (indexed_text index.now) names.now).shape.threads
        ≤ limits.limit_of quantity.Words) }
    ensures levels { IfOk result
        (λ n. n ≤ limits.amount quantity.Depth (kernel_of (indexed_text index.now) names.now)) }
    ensures fault { IfErr result (λ e. HasLowerCause e (indexed_text index.now) names.now) }
{
    let table = spans(alloc, index)?;
    let main = span_of(&table, first);
    let words = main.slots.max(main.widest);
    within(Quantity::Words, words)?;
    Ok(main.levels.max(main.deepest))
}

/// The words along the chains of calls of these int functions.
fn chain_words(
    alloc: Global,
    source: &Source<'_>,
    names: &Labels,
    functions: &[&Function],
) -> Result<Vec<u64>, OutOfMemory>
    requires text { OneText source.now }
    requires functions { functions_of functions.now ≡ int_functions (indexed_text source.now.globals.index) names.now
        (indexed_text source.now.globals.index) }
    requires ranked { Ranked (kernel_of (indexed_text source.now.globals.index) names.now) }
    requires low { CallsLow (kernel_of (indexed_text source.now.globals.index) names.now) }
    ensures { IfOk result (λ list. HasWords (kernel_of (indexed_text source.now.globals.index) names.now) list.items) }
{
    let functions = lowered_functions(alloc, source, names, functions)?;
    let alone = Draft {
        threads: Vec::new(alloc),
        texts: Vec::new(alloc),
        variables: Vec::new(alloc),
        functions,
        rows: Vec::new(alloc),
    };
    let list = words_along(alloc, &alone)?;
    Ok(list)
}

/// The first limit that a program passes, found on its text. Nothing is inlined for it.
pub fn beyond(
    alloc: Global,
    source: &Source<'_>,
    names: &Labels,
    items: &[Item],
    functions: &[&Function],
    known: Outlook,
) -> Result<(), LowerFault>
    requires text { OneText source.now }
    requires items { map plain_item items.now ≡ indexed_text source.now.globals.index }
    requires functions { functions_of functions.now ≡ int_functions (indexed_text source.now.globals.index) names.now
        (indexed_text source.now.globals.index) }
    requires free { (f : ℕ) → Leads (callees_of (indexed_text source.now.globals.index)) f f → ⊥ }
    requires faultless { Faultless (indexed_text source.now.globals.index) names.now }
    requires ranked { Ranked (kernel_of (indexed_text source.now.globals.index) names.now) }
    requires low { CallsLow (kernel_of (indexed_text source.now.globals.index) names.now) }
    requires first { known.first ≡ main_id (indexed_text source.now.globals.index) names.now }
    requires threads { known.threads ≡ min (limits.amount quantity.Threads
        (kernel_of (indexed_text source.now.globals.index) names.now)) (2 ^ 64 - 1) }
    requires variables { known.variables ≡ min (limits.amount quantity.Globals
        (kernel_of (indexed_text source.now.globals.index) names.now)) (2 ^ 64 - 1) }
    requires terms { known.terms ≡ min (limits.amount quantity.Terms
        (kernel_of (indexed_text source.now.globals.index) names.now)) (2 ^ 64 - 1) }
    requires levels { known.levels ≤ limits.amount quantity.Depth
        (kernel_of (indexed_text source.now.globals.index) names.now) }
    ensures ok { OnOk result ((known.variables ≤ MAX_GLOBALS) × (known.terms ≤ MAX_TERMS)
        × (known.levels ≤ MAX_DEPTH)) }
    ensures fault { IfErr result (λ e. HasLowerCause e (indexed_text source.now.globals.index) names.now) }
{
    let values = chain_words(alloc, source, names, functions)?;
    let globals = variables(alloc, items)?;
    let words = most_words(
        alloc,
        &source.globals,
        names,
        &globals,
        &values,
        known.first,
    )?;
    let arrays = arrays(alloc, items)?;
    judge(Amounts {
        threads: known.threads,
        words,
        globals: known.variables,
        tables: table_words(&arrays),
        terms: known.terms,
        depth: known.levels,
    })
}
