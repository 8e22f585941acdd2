//! The kernel of a program, put together.

ghost use Rattle.std.specs.Prelude.{◌≡◌, ◌∷◌, ◌-◌, ◌^◌, ◌+◌, min, sum, map, length, IfOk};
ghost use Rattle.forec_tree.specs.Plain.{plain_item};
ghost use Rattle.forec_kernel.specs.Plain as kernel;
ghost use Rattle.forec_kernel.specs.Shapes.{plain_kernel};
ghost use Rattle.loop_check.specs.Views.{indexed_text};
ghost use Rattle.text_kernel.specs.Kernels.{kernel_of, main_id};
ghost use Rattle.lower_names.specs.Views.{OneText};
ghost use Rattle.kernel_drafts.specs.Drafts.{thread_body};
ghost use Rattle.text_kernel.specs.Items.{globals_of, functions_of, array_items, array_table};
ghost use Rattle.kernel_drafts.specs.Reach.{table_items};
ghost use Rattle.kernel_drafts.specs.Measures.{IsDraft};
ghost use Rattle.text_kernel.specs.Kernels as kernels;

use crate::elements::{elements, labels};
use crate::expand::{Bodies, expand};
use crate::functions::{Functions, int_functions, lowered_functions};
use crate::globals::{inputs, outputs, shapes, variables};
use crate::measure::Draft;
use crate::shapes::threads_of;
use crate::tables::tables;
use forec_base::{Labels, OutOfMemory};
use forec_kernel::{KernelParts, Shape, Statement};
use forec_tree::{Global as Declared, Item};
use lower_names::{Source, count};
use std::alloc::Global;

/// The bodies of all threads, in the order of their numbers.
fn texts_of(alloc: Global, bodies: Bodies) -> Result<Vec<Statement>, OutOfMemory>
    ensures { IfOk result (λ list. map kernel.stmt list.items ≡ kernel.stmt bodies.main
        ∷ map thread_body bodies.threads.items) }
{
    let mut list = Vec::new(alloc);
    list.push(bodies.main)?;
    for thread in bodies.threads {
        list.push(thread.body)?;
    }
    Ok(list)
}

/// The threads, variables and int functions of the kernel of a program that starts with the function of
/// a name.
pub fn draft(
    alloc: Global,
    source: &Source<'_>,
    names: &Labels,
    items: &[Item],
    first: u32,
) -> Result<Draft, OutOfMemory>
    requires text { OneText source.now }
    requires items { map plain_item items.now ≡ indexed_text source.now.globals.index }
    requires first { first ≡ main_id (indexed_text source.now.globals.index) names.now }
    ensures { IfOk result (λ d. IsDraft (kernel_of (indexed_text source.now.globals.index) names.now) d) }
{
    let globals = &source.globals;
    let list = variables(alloc, items)?;
    let elements = elements(alloc, &list)?;
    let number = count(elements.len())?;
    let variables = shapes(alloc, globals, names, &elements)?;
    let list = int_functions(alloc, globals, names, items)?;
    let functions = lowered_functions(alloc, source, names, &list)?;
    let bodies = expand(alloc, source, items.len(), first)?;
    let threads = threads_of(alloc, names, number, first, &bodies)?;
    let texts = texts_of(alloc, bodies)?;
    Ok(Draft {
        threads: threads.shapes,
        texts,
        variables,
        functions,
        rows: threads.rows,
    })
}

/// The parts of the kernel of a program: its draft, its constant arrays, and what its variables are.
pub fn complete(
    alloc: Global,
    source: &Source<'_>,
    names: &Labels,
    items: &[Item],
    arrays: &[&Declared],
    draft: Draft,
) -> Result<KernelParts, OutOfMemory>
    requires items { map plain_item items.now ≡ indexed_text source.now.globals.index }
    requires arrays { globals_of arrays.now ≡ array_items (indexed_text source.now.globals.index) }
    requires draft { IsDraft (kernel_of (indexed_text source.now.globals.index) names.now) draft }
    ensures { IfOk result (λ parts. plain_kernel parts ≡ kernel_of (indexed_text source.now.globals.index) names.now) }
{
    let globals = &source.globals;
    let list = variables(alloc, items)?;
    let elements = elements(alloc, &list)?;
    let tables = tables(alloc, arrays)?;
    let inputs = inputs(alloc, globals, names, &elements)?;
    let outputs = outputs(alloc, globals, names, &elements)?;
    let names = labels(alloc, names, &elements)?;
    let functions = draft.functions;
    let shape = Shape {
        threads: draft.threads,
        variables: draft.variables,
        functions: functions.shapes,
        tables,
        inputs,
        outputs,
        names,
    };
    Ok(KernelParts {
        shape,
        threads: draft.texts,
        functions: functions.bodies,
    })
}
