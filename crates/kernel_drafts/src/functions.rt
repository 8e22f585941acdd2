//! The int functions of a program.

ghost use Rattle.std.specs.Prelude.{◌≡◌, map, length, IfOk};
ghost use Rattle.forec_tree.specs.Plain.{plain_item, plain_function};
ghost use Rattle.forec_kernel.specs.Plain as kernel;
ghost use Rattle.loop_check.specs.Views.{indexed_text};
ghost use Rattle.text_kernel.specs.Kernels as kernels;
ghost use Rattle.text_kernel.specs.Lowering as lowering;
ghost use Rattle.lower_names.specs.Views.{OneText};
ghost use Rattle.text_kernel.specs.Items.{functions_of, IsIntFunctionOf};
ghost use Rattle.kernel_drafts.specs.Drafts.{AreBodies, function_shape, function_text};

use body_lower::{FUEL, in_function};
use forec_base::{Labels, OutOfMemory};
use forec_kernel::{FunctionShape, Statement};
use forec_tree::{Function, Item};
use lower_names::{Context, Globals, Source, State, count};
use std::alloc::Global;

/// The int function that an item is.
fn int_function_of(item: &Item) -> Option<&Function>
    ensures { IsIntFunctionOf result (plain_item item.now) }
{
    match item {
        Item::Global { .. } => None,
        Item::Function { function } => { if function.gives { Some(function) } else { None } }
    }
}

/// The int functions of a program, in order of declaration.
pub fn int_functions<'p>(
    alloc: Global,
    globals: &Globals<'_>,
    names: &Labels,
    items: &'p [Item],
) -> Result<Vec<&'p Function>, OutOfMemory>
    ensures { IfOk result (λ list. functions_of list.items ≡ kernels.int_functions (indexed_text globals.now.index)
        names.now (map plain_item items.now)) }
{
    let mut list = Vec::new(alloc);
    for item in items {
        if let Some(function) = int_function_of(item) {
            list.push(function)?;
        }
    }
    Ok(list)
}

/// The int functions of a kernel: what it says of each, and their bodies.
#[derive(Drop)]
pub struct Functions {
    pub shapes: Vec<FunctionShape>,
    pub bodies: Vec<Statement>,
}

/// An int function of a kernel.
#[derive(Drop)]
struct IntFunction {
    shape: FunctionShape,
    body: Statement,
}

/// Translates an int function, in which nothing is inlined.
fn translated<'p>(
    alloc: Global,
    source: &Source<'p>,
    names: &Labels,
    function: &'p Function,
) -> Result<IntFunction, OutOfMemory>
    requires { OneText source.now }
    ensures shape { IfOk result (λ l. l.shape ≡ function_shape (indexed_text source.now.globals.index) names.now
        (plain_function function.now)) }
    ensures body { IfOk result (λ l. kernel.stmt l.body ≡ function_text (indexed_text source.now.globals.index)
        names.now (plain_function function.now)) }
{
    let params = count(function.params.len())?;
    let mut state = State::new(alloc);
    state.slot = params;
    let context = Context {
        alloc,
        source,
        deep: 0,
        owner: 0,
    };
    let body = in_function(&context, FUEL, 0, &mut state, function)?;
    let shape = FunctionShape {
        params,
        words: state.slot,
    };
    Ok(IntFunction { shape, body })
}

/// Translates int functions.
pub fn lowered_functions<'p>(
    alloc: Global,
    source: &Source<'p>,
    names: &Labels,
    functions: &[&'p Function],
) -> Result<Functions, OutOfMemory>
    requires { OneText source.now }
    ensures shapes { IfOk result (λ l. l.shapes.items ≡ map (function_shape (indexed_text source.now.globals.index)
        names.now) (functions_of functions.now)) }
    ensures bodies { IfOk result (λ l. AreBodies (indexed_text source.now.globals.index) names.now
        (functions_of functions.now) l.bodies.items) }
{
    let mut shapes = Vec::new(alloc);
    let mut bodies = Vec::new(alloc);
    for function in functions {
        let one = translated(alloc, source, names, function)?;
        shapes.push(one.shape)?;
        bodies.push(one.body)?;
    }
    Ok(Functions { shapes, bodies })
}
