//! The variables of a program: globals, and the elements of shared arrays.

ghost use Rattle.std.specs.Prelude.{◌≡◌, ◌++◌, ◌∷◌, [], codes, decimal, string_bytes, map, IfOk, OnOk};
ghost use Rattle.forec_tree.specs.Plain.{plain_global};
ghost use Rattle.forec_tree.specs.Variables as tree;
ghost use Rattle.text_kernel.specs.Items.{globals_of, each_variable};
ghost use Rattle.text_kernel.specs.Kernels as kernels;
ghost use Rattle.kernel_drafts.specs.Elements.{plain_element, plain_elements};

use crate::tables::number_at;
use forec_base::{Labels, OutOfMemory};
use forec_tree::Global as Declared;
use itoa::Buffer;
use lower_names::first_value;
use std::alloc::Global;

/// A variable of a program: a global, or with an index an element of a shared array.
#[derive(Clone, Copy)]
pub struct Element<'p> {
    pub global: &'p Declared,
    pub index: Option<u32>,
}

/// Adds the elements of a shared array.
fn add_array<'p>(
    list: &mut Vec<Element<'p>>,
    global: &'p Declared,
    length: u32,
) -> Result<(), OutOfMemory>
    ensures { OnOk result (plain_elements list.new.items ≡ plain_elements list.old.items
        ++ tree.elements_from (plain_global global.now) 0 length) }
{
    for i in 0..length {
        list.push(Element {
            global,
            index: Some(i),
        })?;
    }
    Ok(())
}

/// Adds the variables that a global is.
fn add_global<'p>(list: &mut Vec<Element<'p>>, global: &'p Declared) -> Result<(), OutOfMemory>
    ensures { OnOk result (plain_elements list.new.items ≡ plain_elements list.old.items
        ++ tree.variables_of (plain_global global.now)) }
{
    let Some(length) = global.stated_length() else {
        list.push(Element {
            global,
            index: None,
        })?;
        return Ok(());
    };
    add_array(list, global, length.elements())
}

/// The variables that some globals are, in order.
pub fn elements<'p>(
    alloc: Global,
    globals: &[&'p Declared],
) -> Result<Vec<Element<'p>>, OutOfMemory>
    ensures { IfOk result (λ list. plain_elements list.items ≡ each_variable (globals_of globals.now)) }
{
    let mut list = Vec::new(alloc);
    for global in globals {
        add_global(&mut list, global)?;
    }
    Ok(list)
}

/// The start value of a variable.
pub fn start_of(e: &Element<'_>) -> i32
    ensures { result ≡ kernels.initial_value (plain_element e.now) }
{
    match e.index {
        None => first_value(e.global),
        Some(i) => number_at(e.global.values.as_slice(), i as usize),
    }
}

/// The name of an element, by its array and its index.
fn element_name(alloc: Global, name: &str, index: u32) -> Result<String, OutOfMemory>
    ensures { IfOk result (λ text. string_bytes text ≡ name.now ++ codes "[" ++ decimal index ++ codes "]") }
{
    let mut text = String::from_str(alloc, name)?;
    text.push_str("[")?;
    text.push_str(Buffer::new().format(index))?;
    text.push_str("]")?;
    Ok(text)
}

fn add_name(
    alloc: Global,
    list: &mut Labels,
    name: &str,
    index: Option<u32>,
) -> Result<(), OutOfMemory>
    ensures { OnOk result (list.new ≡ list.old ++ kernels.element_name name.now index ∷ []) }
{
    if list.len() == u32::MAX {
        return Err(OutOfMemory);
    }
    let Some(index) = index else {
        return list.push(name);
    };
    let text = element_name(alloc, name, index)?;
    list.push(text.as_str())
}

/// The names of variables.
pub fn labels(
    alloc: Global,
    names: &Labels,
    elements: &[Element<'_>],
) -> Result<Labels, OutOfMemory>
    ensures { IfOk result (λ list. list ≡ map (kernels.variable_name names.now) (plain_elements elements.now)) }
{
    let mut list = Labels::new(alloc)?;
    for e in elements {
        let id = e.global.name.id;
        if id >= names.len() {
            return Err(OutOfMemory);
        }
        add_name(alloc, &mut list, names.get(id), e.index)?;
    }
    Ok(list)
}
