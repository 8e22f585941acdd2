//! The threads below thread 0: the body of each is translated by itself, in the order of their numbers.

ghost use Rattle.std.specs.Prelude.{◌≡◌, ◌+◌, ◌++◌, [], map, length, IfOk, OnOk};
ghost use Rattle.forec_base.specs.declared.Place.{Place};
ghost use Rattle.forec_tree.specs.Pauses as pauses;
ghost use Rattle.forec_tree.specs.Plain as plain;
ghost use Rattle.forec_tree.specs.Terms as tree;
ghost use Rattle.forec_tree.specs.Terms.{Text};
ghost use Rattle.forec_kernel.specs.Plain as kernel;
ghost use Rattle.loop_check.specs.Views.{indexed_text};
ghost use Rattle.text_kernel.specs.Lowering as lowering;
ghost use Rattle.lower_names.specs.Views.{OneText, Same, DoneAsOne, of_thread, IsMade, IsMadeBy, pending_threads, threads_of, threads_on};

use crate::body::{FUEL, inlined, list};
use forec_base::OutOfMemory;
use forec_kernel::Statement;
use forec_tree::{Branch, Expr, Name, Stmt};
use lower_names::{Context, Pending, Source, State, Thread, count, sequence, sum};
use std::alloc::Global;

/// How many parameters the function of a name has.
fn params_of(source: &Source<'_>, id: u32) -> Result<u32, OutOfMemory>
    ensures { IfOk result (λ n. n ≡ length (lowering.param_names
        (pauses.find_function id (indexed_text source.now.globals.index)))) }
{
    match source.function(id) {
        None => Ok(0),
        Some(function) => count(function.params.len()),
    }
}

/// A block that is a branch: it sees global names alone.
fn hidden<'p>(
    context: &Context<'_, 'p>,
    fuel: u32,
    state: &mut State<'p>,
    body: &'p [Stmt],
) -> Result<Statement, OutOfMemory>
    requires { OneText context.now.source.now }
    ensures does { IfOk result (λ k. DoneAsOne context.now [] (plain.statements body.now) (kernel.stmt k) state.old
        state.new) }
    ensures same { OnOk result (Same state.old.scope state.new.scope) }
{
    let base = state.scope.hide();
    let list = list(context, fuel, state, body)?;
    state.scope.show(base);
    Ok(sequence(list))
}

/// Translates a branch that calls a function.
fn calling<'p>(
    context: &Context<'_, 'p>,
    state: &mut State<'p>,
    one: Pending<'p>,
    name: Name,
    args: &'p [Expr],
) -> Result<Thread, OutOfMemory>
    requires text { OneText context.now.source.now }
    requires number { state.old.thread ≡ context.now.owner + 1 }
    requires none { state.old.pending.items ≡ [] }
    ensures { IfOk result (λ t. IsMadeBy context.now one.entry
        (tree.by_call name (plain.terms args.now) tree.no_branches) t state.old state.new) }
{
    let params = params_of(context.source, name.id)?;
    let taken = count(args.len())?;
    state.slot = taken;
    let body = inlined(context, FUEL, 0, state, name.id)?;
    Ok(Thread {
        parent: one.parent,
        par: one.par,
        name: Some(name.id),
        params,
        words: state.slot,
        behind: state.thread,
        body,
    })
}

/// Translates a branch that is a block.
fn blocking<'p>(
    context: &Context<'_, 'p>,
    state: &mut State<'p>,
    one: Pending<'p>,
    body: &'p [Stmt],
) -> Result<Thread, OutOfMemory>
    requires text { OneText context.now.source.now }
    requires number { state.old.thread ≡ context.now.owner + 1 }
    requires none { state.old.pending.items ≡ [] }
    ensures { IfOk result (λ t. (place : Place) →
        IsMadeBy context.now one.entry (tree.by_group place (plain.statements body.now) tree.no_branches) t state.old
        state.new) }
{
    state.slot = 0;
    let body = hidden(context, FUEL, state, body)?;
    Ok(Thread {
        parent: one.parent,
        par: one.par,
        name: None,
        params: 0,
        words: state.slot,
        behind: state.thread,
        body,
    })
}

/// Translates the body of a branch. The branches in it are pending after it.
fn translated<'p>(
    alloc: Global,
    source: &Source<'p>,
    state: &mut State<'p>,
    one: Pending<'p>,
) -> Result<Thread, OutOfMemory>
    requires text { OneText source.now }
    requires none { state.old.pending.items ≡ [] }
    ensures { IfOk result (λ t. IsMade (indexed_text source.now.globals.index) one.entry t state.new) }
{
    let after = sum(one.number, 1)?;
    state.thread = after;
    state.par = one.first;
    let context = Context {
        alloc,
        source,
        deep: one.deep,
        owner: one.number,
    };
    match one.branch {
        Branch::Call { name, args } => {
            let args = args.as_slice();
            let thread = calling(&context, state, one, *name, args)?;
            Ok(thread)
        }
        Branch::Group { body, .. } => {
            let body = body.as_slice();
            let thread = blocking(&context, state, one, body)?;
            Ok(thread)
        }
    }
}

/// Puts branches on a stack, so that the first one is taken first.
fn stacked<'p>(
    stack: &mut Vec<Pending<'p>>,
    pending: &mut Vec<Pending<'p>>,
) -> Result<(), OutOfMemory>
    ensures stack { OnOk result ((text : Text) → threads_on text stack.new.items
        ≡ pending_threads text pending.old.items ++ threads_on text stack.old.items) }
    ensures none { OnOk result (pending.new.items ≡ []) }
{
    while let Some(one) = pending.pop() {
        stack.push(one)?;
    }
    Ok(())
}

/// Translates the branches that are pending, and those in them.
pub fn threads_below<'p>(
    alloc: Global,
    source: &Source<'p>,
    mut state: State<'p>,
) -> Result<Vec<Thread>, OutOfMemory>
    requires { OneText source.now }
    ensures { IfOk result (λ list. map of_thread list.items ≡ threads_of (indexed_text source.now.globals.index)
        state.entry) }
{
    let mut stack = Vec::new(alloc);
    stacked(&mut stack, &mut state.pending)?;
    let mut threads = Vec::new(alloc);
    while let Some(one) = stack.pop() {
        let thread = translated(alloc, source, &mut state, one)?;
        threads.push(thread)?;
        stacked(&mut stack, &mut state.pending)?;
    }
    Ok(threads)
}
