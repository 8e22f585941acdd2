//! A `par` and its branches: each is a thread, whose body is translated later, by itself.

ghost use Rattle.std.specs.Prelude.{◌∷◌, [], map, IfOk, OnOk};
ghost use Rattle.forec_tree.specs.Plain as plain;
ghost use Rattle.forec_tree.specs.Terms as tree;
ghost use Rattle.forec_kernel.specs.Plain as kernel;
ghost use Rattle.lower_names.specs.Views.{OneText, context_text, seen, Same, Done, DoneBranches, Launches};

use forec_base::{OutOfMemory, Place};
use forec_kernel::{Expression, Launch, Statement};
use forec_tree::Branch;
use lower_names::{Context, Pending, State, lower_terms, sum};

/// The arguments of a branch.
fn arguments(
    context: &Context<'_, '_>,
    state: &State<'_>,
    one: &Branch,
) -> Result<Vec<Expression>, OutOfMemory>
    ensures { IfOk result (λ list. Launches (context_text context.now) (seen state.now.scope)
        (plain.branches (one.now ∷ [])) (kernel.exprs list.items)) }
{
    match one {
        Branch::Call { args, .. } => {
            let args = args.as_slice();
            let list = lower_terms(context.alloc, &context.source.globals, &state.scope, args)?;
            Ok(list)
        }
        Branch::Group { .. } => Ok(Vec::new(context.alloc)),
    }
}

/// A branch of a `par`. It takes the numbers of its thread and of those below it, and its body is
/// translated later.
fn branch<'p>(
    context: &Context<'_, 'p>,
    par: u32,
    state: &mut State<'p>,
    one: &'p Branch,
) -> Result<Launch, OutOfMemory>
    requires { OneText context.now.source.now }
    ensures does { IfOk result (λ k. DoneBranches context.now par (plain.branches (one.now ∷ []))
        (kernel.branch k ∷ []) state.old state.new) }
    ensures same { OnOk result (Same state.old.scope state.new.scope) }
{
    let added = context.source.added_by(one)?;
    if context.deep < added.calls {
        return Err(OutOfMemory);
    }
    let number = state.thread;
    let first = state.par;
    let after = sum(number, added.threads)?;
    let next = sum(first, added.pars)?;
    state.pending.push(Pending {
        number,
        parent: context.owner,
        par,
        first,
        deep: context.deep,
        branch: one,
    })?;
    state.thread = after;
    state.par = next;
    let args = arguments(context, state, one)?;
    Ok(Launch {
        thread: number,
        args,
    })
}

/// The branches of a `par`.
fn branches<'p>(
    context: &Context<'_, 'p>,
    par: u32,
    state: &mut State<'p>,
    all: &'p [Branch],
) -> Result<Vec<Launch>, OutOfMemory>
    requires { OneText context.now.source.now }
    ensures does { IfOk result (λ k. DoneBranches context.now par (plain.branches all.now) (map kernel.branch k.items)
        state.old state.new) }
    ensures same { OnOk result (Same state.old.scope state.new.scope) }
{
    let mut launches = Vec::new(context.alloc);
    for one in all {
        let launch = branch(context, par, state, one)?;
        launches.push(launch)?;
    }
    Ok(launches)
}

/// A `par`.
pub fn par<'p>(
    context: &Context<'_, 'p>,
    place: Place,
    state: &mut State<'p>,
    all: &'p [Branch],
) -> Result<Statement, OutOfMemory>
    requires { OneText context.now.source.now }
    ensures does { IfOk result (λ k. Done context.now (tree.Par place (plain.branches all.now)) (kernel.stmt k)
        state.old state.new) }
    ensures same { OnOk result (Same state.old.scope state.new.scope) }
{
    if all.is_empty() {
        return Ok(Statement::Nop);
    }
    let par = state.par;
    state.par = sum(par, 1)?;
    let branches = branches(context, par, state, all)?;
    Ok(Statement::Par { branches })
}
