//! The body of a thread: its statements, with the functions that it calls as statements inlined.
//!
//! `fuel` is how many levels of the kernel may nest: each takes a part of the stack, of
//! which there is only so much. Groups and functions of one statement add no level, so they are gone
//! through in a loop; and the bodies of branches, which are threads of their own, are left for later.

ghost use Rattle.std.specs.Prelude.{◌≡◌, ◌≤◌, [], IfOk, OnOk};
ghost use Rattle.forec_tree.specs.Plain as plain;
ghost use Rattle.forec_tree.specs.Plain.{perhaps_of};
ghost use Rattle.forec_tree.specs.Terms as tree;
ghost use Rattle.forec_kernel.specs.Plain as kernel;
ghost use Rattle.lower_names.specs.Heads.{while_of, for_of, turns_of};
ghost use Rattle.lower_names.specs.Views.{OneText, context_text, seen, AppendsLocals, Same, SeenAfter, SeenAfterPerhaps, Done, DonePerhaps, DoneList, DoneAsOne};
ghost use Rattle.lower_names.specs.Views.{DoneIf, DoneAbort, DoneLanded, DoneCall, DoneFunction};

use crate::assign::{assign, declare, set_params};
use crate::branches::par;
use crate::loops::{after_start, bound_of, optional_test, or_inferred, then_step};
use forec_base::{OutOfMemory, Place};
use forec_kernel::Statement;
use forec_tree::{Expr, Function, Name, Stmt, StmtKind};
use lower_names::{
    AbortHead, Context, ForHead, State, WhileHead, boxed, count, innermost, lower_term, sequence,
    sum,
};

/// How many levels of the kernel may nest in a body. Past it there is no memory: each
/// takes up to 5 KB of stack, so the caller has 64 MB of it.
pub const FUEL: u32 = 8192;

/// A statement in the scope that stands. Only the locals of a declaration stay in it.
#[cycle(body)]
pub fn statement<'p>(
    context: &Context<'_, 'p>,
    fuel: u32,
    state: &mut State<'p>,
    s: &'p Stmt,
) -> Result<Statement, OutOfMemory>
    requires { OneText context.now.source.now }
    ensures does { IfOk result (λ k. Done context.now (plain.statement s.now) (kernel.stmt k) state.old state.new) }
    ensures seen { OnOk result (SeenAfter context.now (plain.statement s.now) state.old state.new) }
    ensures kept { OnOk result (AppendsLocals state.old.scope state.new.scope) }
{
    match &s.what {
        StmtKind::Declare { locals } => {
            let k = declare(context, s.place, state, locals.as_slice())?;
            Ok(k)
        }
        _ => {
            let k = inner(context, fuel, state, s)?;
            Ok(k)
        }
    }
}

/// A statement by its kind. Each takes a level of the kernel, and so one of `fuel`.
#[cycle(body)]
fn by_kind<'p>(
    context: &Context<'_, 'p>,
    fuel: u32,
    state: &mut State<'p>,
    s: &'p Stmt,
) -> Result<Statement, OutOfMemory>
    requires { OneText context.now.source.now }
    ensures does { IfOk result (λ k. Done context.now (plain.statement s.now) (kernel.stmt k) state.old state.new) }
    ensures kept { OnOk result (AppendsLocals state.old.scope state.new.scope) }
{
    if fuel == 0 {
        return Err(OutOfMemory);
    }
    let fuel = fuel - 1;
    match &s.what {
        StmtKind::Nothing => Ok(Statement::Nop),
        StmtKind::Pause => Ok(Statement::Pause),
        StmtKind::Group { body } => {
            let body = body.as_slice();
            let k = block(context, fuel, state, body)?;
            Ok(k)
        }
        StmtKind::Declare { locals } => {
            let k = declare(context, s.place, state, locals.as_slice())?;
            Ok(k)
        }
        StmtKind::Assign { target, op, value } => {
            let k = assign(
                context.alloc,
                &context.source.globals,
                &state.scope,
                target,
                *op,
                value,
            )?;
            Ok(k)
        }
        StmtKind::Return { value } => {
            let value = lower_term(context.alloc, &context.source.globals, &state.scope, value)?;
            Ok(Statement::Return { value })
        }
        StmtKind::If { test, yes, no } => {
            let k = if_statement(context, fuel, state, test, yes, no)?;
            Ok(k)
        }
        StmtKind::While { test, bound, body } => {
            let head = WhileHead {
                place: s.place,
                test,
                bound: *bound,
            };
            let k = while_statement(context, fuel, state, head, body)?;
            Ok(k)
        }
        StmtKind::For {
            start,
            test,
            step,
            bound,
            body,
        } => {
            let turns = or_inferred(bound_of(*bound), context.source.pauses.turns(s));
            let head = ForHead {
                place: s.place,
                start,
                test,
                step,
                bound: *bound,
            };
            let k = for_statement(context, fuel, state, turns, head, body)?;
            Ok(k)
        }
        StmtKind::Call { name, args } => {
            let args = args.as_slice();
            let k = call(context, fuel, s.place, state, *name, args)?;
            Ok(k)
        }
        StmtKind::Par { branches: all } => {
            let all = all.as_slice();
            let k = par(context, s.place, state, all)?;
            Ok(k)
        }
        StmtKind::Abort {
            weak,
            immediate,
            test,
            body,
        } => {
            let body = body.as_slice();
            let head = AbortHead {
                weak: *weak,
                immediate: *immediate,
                test,
            };
            let k = abort(context, fuel, state, head, body)?;
            Ok(k)
        }
    }
}

/// An `if`.
#[cycle(body)]
fn if_statement<'p>(
    context: &Context<'_, 'p>,
    fuel: u32,
    state: &mut State<'p>,
    test: &Expr,
    yes: &'p Stmt,
    no: &'p Option<Box<Stmt>>,
) -> Result<Statement, OutOfMemory>
    requires { OneText context.now.source.now }
    ensures does { IfOk result (λ k. DoneIf context.now test.now yes.now (perhaps_of no.now) (kernel.stmt k) state.old
        state.new) }
    ensures same { OnOk result (Same state.old.scope state.new.scope) }
{
    let yes = boxed_inner(context, fuel, state, yes)?;
    let no = optional_inner(context, fuel, state, no)?;
    let test = lower_term(context.alloc, &context.source.globals, &state.scope, test)?;
    Ok(Statement::If { test, yes, no })
}

/// A `while`.
#[cycle(body)]
fn while_statement<'p>(
    context: &Context<'_, 'p>,
    fuel: u32,
    state: &mut State<'p>,
    head: WhileHead<'p>,
    body: &'p Stmt,
) -> Result<Statement, OutOfMemory>
    requires { OneText context.now.source.now }
    ensures does { IfOk result (λ k. Done context.now (while_of head.entry body.now) (kernel.stmt k) state.old
        state.new) }
    ensures same { OnOk result (Same state.old.scope state.new.scope) }
{
    let body = boxed_inner(context, fuel, state, body)?;
    let test = lower_term(
        context.alloc,
        &context.source.globals,
        &state.scope,
        head.test,
    )?;
    let bound = bound_of(head.bound);
    Ok(Statement::While {
        test,
        bound,
        body,
        place: head.place,
    })
}

/// A `for`, with its number of iterations by its bound or its form.
#[cycle(body)]
fn for_statement<'p>(
    context: &Context<'_, 'p>,
    fuel: u32,
    state: &mut State<'p>,
    turns: Option<u32>,
    head: ForHead<'p>,
    body: &'p Stmt,
) -> Result<Statement, OutOfMemory>
    requires text { OneText context.now.source.now }
    requires turns { turns ≡ turns_of (context_text context.now) head body.now }
    ensures does { IfOk result (λ k. Done context.now (for_of head.entry body.now) (kernel.stmt k) state.old
        state.new) }
    ensures same { OnOk result (Same state.old.scope state.new.scope) }
{
    let len = state.scope.len();
    let first = optional_statement(context, fuel, state, head.start)?;
    let test = optional_test(context, state, head.test)?;
    let next = optional_statement(context, fuel, state, head.step)?;
    let body = boxed_inner(context, fuel, state, body)?;
    state.scope.forget(len);
    let body = then_step(context.alloc, head.step, body, next)?;
    let turned = Statement::While {
        test: Box::into_inner(test),
        bound: turns,
        body,
        place: head.place,
    };
    let turned = boxed(context.alloc, turned)?;
    let k = after_start(context.alloc, head.start, first, turned)?;
    Ok(k)
}

/// A call of a void function.
#[cycle(body)]
fn call<'p>(
    context: &Context<'_, 'p>,
    fuel: u32,
    place: Place,
    state: &mut State<'p>,
    name: Name,
    args: &[Expr],
) -> Result<Statement, OutOfMemory>
    requires { OneText context.now.source.now }
    ensures does { IfOk result (λ k. Done context.now (tree.Invoke place name (plain.terms args.now)) (kernel.stmt k)
        state.old state.new) }
    ensures same { OnOk result (Same state.old.scope state.new.scope) }
{
    let first = state.slot;
    let taken = count(args.len())?;
    let after = sum(first, taken)?;
    let mut list = set_params(
        context.alloc,
        &context.source.globals,
        &state.scope,
        first,
        args,
    )?;
    state.slot = after;
    let body = inlined(context, fuel, first, state, name.id)?;
    list.push(body)?;
    Ok(sequence(list))
}

/// An abort.
#[cycle(body)]
fn abort<'p>(
    context: &Context<'_, 'p>,
    fuel: u32,
    state: &mut State<'p>,
    head: AbortHead<'p>,
    body: &'p [Stmt],
) -> Result<Statement, OutOfMemory>
    requires { OneText context.now.source.now }
    ensures does { IfOk result (λ k. DoneAbort context.now head.entry body.now (kernel.stmt k) state.old state.new) }
    ensures same { OnOk result (Same state.old.scope state.new.scope) }
{
    let body = block(context, fuel, state, body)?;
    let body = boxed(context.alloc, body)?;
    let test = lower_term(
        context.alloc,
        &context.source.globals,
        &state.scope,
        head.test,
    )?;
    Ok(Statement::Enter {
        weak: head.weak,
        immediate: head.immediate,
        test,
        body,
    })
}

/// A statement in a scope of its own, from where it lands.
#[cycle(body)]
fn inner<'p>(
    context: &Context<'_, 'p>,
    fuel: u32,
    state: &mut State<'p>,
    s: &'p Stmt,
) -> Result<Statement, OutOfMemory>
    requires { OneText context.now.source.now }
    ensures does { IfOk result (λ k. Done context.now (plain.statement s.now) (kernel.stmt k) state.old state.new) }
    ensures same { OnOk result (Same state.old.scope state.new.scope) }
{
    let one = innermost(s);
    if let Some(landing) = context.source.landing(one) {
        if landing.calls <= context.deep {
            return landed(context, fuel, state, landing.calls, landing.statement);
        }
    }
    let len = state.scope.len();
    let k = by_kind(context, fuel, state, one)?;
    state.scope.forget(len);
    Ok(k)
}

/// The statement to which so many calls come. It sees global names alone.
#[cycle(body)]
fn landed<'p>(
    context: &Context<'_, 'p>,
    fuel: u32,
    state: &mut State<'p>,
    calls: usize,
    s: &'p Stmt,
) -> Result<Statement, OutOfMemory>
    requires text { OneText context.now.source.now }
    requires calls { calls ≤ context.now.deep }
    ensures does { IfOk result (λ k. DoneLanded context.now calls (plain.statement s.now) (kernel.stmt k) state.old
        state.new) }
    ensures same { OnOk result (Same state.old.scope state.new.scope) }
{
    let below = Context {
        alloc: context.alloc,
        source: context.source,
        deep: context.deep - calls,
        owner: context.owner,
    };
    let base = state.scope.hide();
    let k = by_kind(&below, fuel, state, s)?;
    state.scope.show(base);
    Ok(k)
}

/// A statement in a scope of its own, in a box.
#[cycle(body)]
fn boxed_inner<'p>(
    context: &Context<'_, 'p>,
    fuel: u32,
    state: &mut State<'p>,
    s: &'p Stmt,
) -> Result<Box<Statement>, OutOfMemory>
    requires { OneText context.now.source.now }
    ensures does { IfOk result (λ k. Done context.now (plain.statement s.now) (kernel.stmt k.value) state.old
        state.new) }
    ensures same { OnOk result (Same state.old.scope state.new.scope) }
{
    let k = inner(context, fuel, state, s)?;
    boxed(context.alloc, k)
}

/// An optional statement in a scope of its own, in a box; a missing one is `nop`.
#[cycle(body)]
fn optional_inner<'p>(
    context: &Context<'_, 'p>,
    fuel: u32,
    state: &mut State<'p>,
    s: &'p Option<Box<Stmt>>,
) -> Result<Box<Statement>, OutOfMemory>
    requires { OneText context.now.source.now }
    ensures does { IfOk result (λ k. DonePerhaps context.now (perhaps_of s.now) (kernel.stmt k.value) state.old
        state.new) }
    ensures same { OnOk result (Same state.old.scope state.new.scope) }
{
    match s {
        None => boxed(context.alloc, Statement::Nop),
        Some(there) => boxed_inner(context, fuel, state, there),
    }
}

/// An optional statement in the scope that stands, in a box; a missing one is `nop`.
#[cycle(body)]
fn optional_statement<'p>(
    context: &Context<'_, 'p>,
    fuel: u32,
    state: &mut State<'p>,
    s: &'p Option<Box<Stmt>>,
) -> Result<Box<Statement>, OutOfMemory>
    requires { OneText context.now.source.now }
    ensures does { IfOk result (λ k. DonePerhaps context.now (perhaps_of s.now) (kernel.stmt k.value) state.old
        state.new) }
    ensures seen { OnOk result (SeenAfterPerhaps context.now (perhaps_of s.now) state.old state.new) }
    ensures kept { OnOk result (AppendsLocals state.old.scope state.new.scope) }
{
    match s {
        None => boxed(context.alloc, Statement::Nop),
        Some(there) => {
            let k = statement(context, fuel, state, there)?;
            boxed(context.alloc, k)
        }
    }
}

/// Statements in the scope that stands.
#[cycle(body)]
pub fn list<'p>(
    context: &Context<'_, 'p>,
    fuel: u32,
    state: &mut State<'p>,
    body: &'p [Stmt],
) -> Result<Vec<Statement>, OutOfMemory>
    requires { OneText context.now.source.now }
    ensures does { IfOk result (λ k. DoneList context.now (seen state.old.scope) (plain.statements body.now)
        (kernel.stmts k.items) state.old state.new) }
    ensures kept { OnOk result (AppendsLocals state.old.scope state.new.scope) }
{
    let mut list = Vec::new(context.alloc);
    for s in body {
        let k = statement(context, fuel, state, s)?;
        list.push(k)?;
    }
    Ok(list)
}

/// Statements in a scope of their own.
#[cycle(body)]
fn block<'p>(
    context: &Context<'_, 'p>,
    fuel: u32,
    state: &mut State<'p>,
    body: &'p [Stmt],
) -> Result<Statement, OutOfMemory>
    requires { OneText context.now.source.now }
    ensures does { IfOk result (λ k. DoneAsOne context.now (seen state.old.scope) (plain.statements body.now)
        (kernel.stmt k) state.old state.new) }
    ensures same { OnOk result (Same state.old.scope state.new.scope) }
{
    let len = state.scope.len();
    let list = list(context, fuel, state, body)?;
    state.scope.forget(len);
    Ok(sequence(list))
}

/// A void function by its name, inlined: the slots of its parameters begin at `first`.
///
/// # Errors
///
/// Out of memory, also where more than `fuel` levels of the kernel nest.
#[cycle(body)]
pub fn inlined<'p>(
    context: &Context<'_, 'p>,
    fuel: u32,
    first: u32,
    state: &mut State<'p>,
    id: u32,
) -> Result<Statement, OutOfMemory>
    requires { OneText context.now.source.now }
    ensures does { IfOk result (λ k. DoneCall context.now id first (kernel.stmt k) state.old state.new) }
    ensures same { OnOk result (Same state.old.scope state.new.scope) }
{
    if context.deep == 0 {
        return Ok(Statement::Nop);
    }
    match context.source.function(id) {
        None => Ok(Statement::Nop),
        Some(function) => {
            let below = Context {
                alloc: context.alloc,
                source: context.source,
                deep: context.deep - 1,
                owner: context.owner,
            };
            let k = in_function(&below, fuel, first, state, function)?;
            Ok(k)
        }
    }
}

/// The body of a function, with slots of its parameters from `first` on; for the rest as `inlined`.
///
/// # Errors
///
/// Out of memory, also where more than `fuel` levels of the kernel nest.
#[cycle(body)]
pub fn in_function<'p>(
    context: &Context<'_, 'p>,
    fuel: u32,
    first: u32,
    state: &mut State<'p>,
    function: &'p Function,
) -> Result<Statement, OutOfMemory>
    requires { OneText context.now.source.now }
    ensures does { IfOk result (λ k. DoneFunction context.now (plain.plain_function function.now) first (kernel.stmt k)
        state.old state.new) }
    ensures same { OnOk result (Same state.old.scope state.new.scope) }
{
    let base = state.scope.hide();
    state
        .scope
        .declare_params(first, function.params.as_slice())?;
    let body = function.body.as_slice();
    let list = list(context, fuel, state, body)?;
    state.scope.show(base);
    Ok(sequence(list))
}
