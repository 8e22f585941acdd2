//! What a kernel says of the variables of a program.

ghost use Rattle.std.specs.Prelude.{◌≡◌, ◌+◌, ◌-◌, ◌^◌, ◌++◌, List, [], ◌∷◌, min, sum, map, length, IfOk, OnOk};
ghost use Rattle.forec_tree.specs.Plain.{plain_item};
ghost use Rattle.forec_tree.specs.Rules as rules;
ghost use Rattle.loop_check.specs.Views.{indexed_text};
ghost use Rattle.text_kernel.specs.Kernels as kernels;
ghost use Rattle.forec_tree.specs.Variables.{width};
ghost use Rattle.text_kernel.specs.Items.{globals_of, variable_items, IsVariable};
ghost use Rattle.kernel_drafts.specs.Elements.{plain_element, plain_elements};

use crate::elements::{Element, start_of};
use forec_base::{Labels, OutOfMemory, Policy};
use forec_kernel::Variable;
use forec_tree::{Combine, Global as Declared, GlobalKind, Item};
use lower_names::{Globals, is_constant, sum};
use std::alloc::Global;
use text_sizes::add;

fn is_input(kind: GlobalKind) -> bool
    ensures { result ≡ rules.is_input kind }
{
    match kind {
        GlobalKind::Input => true,
        _ => false,
    }
}

fn is_output(kind: GlobalKind) -> bool
    ensures { result ≡ rules.is_output kind }
{
    match kind {
        GlobalKind::Output => true,
        GlobalKind::SharedOutput => true,
        _ => false,
    }
}

/// The global that an item declares, where it isn't a constant.
fn variable(item: &Item) -> Option<&Declared>
    ensures { IsVariable result (plain_item item.now) }
{
    match item {
        Item::Function { .. } => None,
        Item::Global { global } => {
            if is_constant(global.kind) {
                None
            } else {
                Some(global)
            }
        }
    }
}

/// The globals of a program that aren't constants, in order of declaration.
pub fn variables<'p>(alloc: Global, items: &'p [Item]) -> Result<Vec<&'p Declared>, OutOfMemory>
    ensures { IfOk result (λ list. globals_of list.items ≡ variable_items (map plain_item items.now)) }
{
    let mut list = Vec::new(alloc);
    for item in items {
        if let Some(global) = variable(item) {
            list.push(global)?;
        }
    }
    Ok(list)
}

/// How many variables globals are, each element of a shared array being one.
pub fn variable_total(globals: &[&Declared]) -> u64
    ensures { result ≡ min (sum (map width (globals_of globals.now))) (2 ^ 64 - 1) }
{
    let mut total = 0;
    for global in globals {
        total = add(total, u64::from(global.width()));
    }
    total
}

fn policy_of(globals: &Globals<'_>, names: &Labels, combine: Option<Combine>) -> Policy
    ensures { result ≡ kernels.policy_of (indexed_text globals.now.index) names.now combine }
{
    match combine {
        None => Policy::Mod,
        Some(c) => c.policy,
    }
}

fn combine_of(globals: &Globals<'_>, names: &Labels, combine: Option<Combine>) -> Option<u32>
    ensures { result ≡ kernels.combine_function (indexed_text globals.now.index) names.now combine }
{
    match combine {
        None => None,
        Some(c) => Some(globals.function(c.with.id)),
    }
}

/// What a kernel says of a variable.
fn shaped(globals: &Globals<'_>, names: &Labels, e: &Element<'_>) -> Variable
    ensures { result ≡ kernels.variable_shape (indexed_text globals.now.index) names.now (plain_element e.now) }
{
    Variable {
        policy: policy_of(globals, names, e.global.combine),
        combine: combine_of(globals, names, e.global.combine),
        start: start_of(e),
        input: is_input(e.global.kind),
    }
}

/// What a kernel says of variables.
pub fn shapes(
    alloc: Global,
    globals: &Globals<'_>,
    names: &Labels,
    elements: &[Element<'_>],
) -> Result<Vec<Variable>, OutOfMemory>
    ensures { IfOk result (λ list. list.items ≡ map (kernels.variable_shape (indexed_text globals.now.index) names.now)
        (plain_elements elements.now)) }
{
    let mut list = Vec::new(alloc);
    for e in elements {
        list.push(shaped(globals, names, e))?;
    }
    Ok(list)
}

/// The numbers of the inputs among variables.
pub fn inputs(
    alloc: Global,
    globals: &Globals<'_>,
    names: &Labels,
    elements: &[Element<'_>],
) -> Result<Vec<u32>, OutOfMemory>
    ensures { IfOk result (λ list. list.items ≡ kernels.numbers_of (indexed_text globals.now.index) names.now
        rules.is_input 0 (plain_elements elements.now)) }
{
    let mut list = Vec::new(alloc);
    let mut number = 0u32;
    for e in elements {
        if is_input(e.global.kind) {
            list.push(number)?;
        }
        number = sum(number, 1)?;
    }
    Ok(list)
}

/// The numbers of the outputs among variables.
pub fn outputs(
    alloc: Global,
    globals: &Globals<'_>,
    names: &Labels,
    elements: &[Element<'_>],
) -> Result<Vec<u32>, OutOfMemory>
    ensures { IfOk result (λ list. list.items ≡ kernels.numbers_of (indexed_text globals.now.index) names.now
        rules.is_output 0 (plain_elements elements.now)) }
{
    let mut list = Vec::new(alloc);
    let mut number = 0u32;
    for e in elements {
        if is_output(e.global.kind) {
            list.push(number)?;
        }
        number = sum(number, 1)?;
    }
    Ok(list)
}
