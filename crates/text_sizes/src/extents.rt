//! How many terms the translation of a program has, up to the greatest `u64`, without it being made:
//! each function is looked at once, after those that it calls or starts.

ghost use Rattle.std.specs.Prelude.{◌≡◌, ◌+◌, ◌-◌, ◌^◌, ℕ, min, map, IfOk};
ghost use Rattle.forec_tree.specs.Plain as plain;
ghost use Rattle.forec_tree.specs.Faults.{Leads};
ghost use Rattle.forec_tree.specs.Pauses.{callees_of};
ghost use Rattle.forec_tree.specs.Plain.{perhaps_of};
ghost use Rattle.loop_check.specs.Views.{indexed_text};
ghost use Rattle.forec_check.specs.Table.{Settles};
ghost use Rattle.text_sizes.specs.TermCounts as counts;
ghost use Rattle.text_sizes.specs.Extents.{no_extent, extent_at, own_at, under_at, extent_step, capped_size, extent_value, int_function_terms, IsBlockTerms};
ghost use Rattle.text_kernel.specs.Items.{functions_of};
ghost use Rattle.text_kernel.specs.Kernels.{kernel_of, int_functions, main_id};
ghost use Rattle.text_kernel.specs.Limits.{amount};
ghost use Rattle.text_kernel.specs.declared.limits.Quantity.TheVariants.{Terms};

use crate::tally::{
    add, all_terms, assign_terms, branch_terms, call_terms, declared_terms, optional_terms,
    sequence, terms_of,
};
use forec_base::{Labels, OutOfMemory};
use forec_tree::{Branch, Expr, Function, Stmt, StmtKind};
use loop_check::{Index, find_function, order, put, read_calls, value_at};
use std::alloc::Global;

/// The terms of a function that is inlined, and those of the threads below it.
#[derive(Clone, Copy)]
pub struct Extent {
    pub own: u64,
    pub under: u64,
}

/// What is known of the function of a number; one that isn't known is inlined as `nop`.
fn known_of(table: &[Extent], id: u32) -> Extent
    ensures own { result.own ≡ own_at table.now id }
    ensures under { result.under ≡ under_at table.now id }
{
    value_at(table, id, Extent { own: 1, under: 0 })
}

/// The terms of a statement.
#[cycle(own)]
fn own(table: &[Extent], s: &Stmt) -> u64
    ensures { result ≡ min (counts.own (own_at table.now) (plain.statement s.now)) (2 ^ 64 - 1) }
{
    match &s.what {
        StmtKind::Nothing => 1,
        StmtKind::Pause => 1,
        StmtKind::Group { body } => block(table, body.as_slice()),
        StmtKind::Declare { locals } => {
            let locals = locals.as_slice();
            sequence(locals.len(), declared_terms(locals))
        }
        StmtKind::Assign { target, op, value } => assign_terms(target, *op, value),
        StmtKind::Call { name, args } => call_terms(args.as_slice(), known_of(table, name.id).own),
        StmtKind::If { test, yes, no } => {
            let yes = own(table, yes);
            add(add(add(1, terms_of(test)), yes), optional_own(table, no))
        }
        StmtKind::While { test, body, .. } => add(add(1, terms_of(test)), own(table, body)),
        StmtKind::For {
            start,
            test,
            step,
            body,
            ..
        } => {
            let body = step_own(table, step, own(table, body));
            start_own(table, start, add(add(1, optional_terms(test)), body))
        }
        StmtKind::Par { branches } => add(1, branch_terms(branches.as_slice())),
        StmtKind::Abort { test, body, .. } => {
            add(add(1, terms_of(test)), block(table, body.as_slice()))
        }
        StmtKind::Return { value } => add(1, terms_of(value)),
    }
}

/// The terms of a loop's body with its step after it, where it has one.
#[cycle(own)]
fn step_own(table: &[Extent], step: &Option<Box<Stmt>>, body: u64) -> u64
    ensures { (n : ℕ) → body ≡ min n (2 ^ 64 - 1) → result ≡ min
        (counts.own_step (own_at table.now) (perhaps_of step.now) n) (2 ^ 64 - 1) }
{
    match step {
        None => body,
        Some(there) => add(add(1, body), own(table, there)),
    }
}

/// The terms of a loop with its start before it, where it has one.
#[cycle(own)]
fn start_own(table: &[Extent], start: &Option<Box<Stmt>>, turned: u64) -> u64
    ensures { (n : ℕ) → turned ≡ min n (2 ^ 64 - 1) → result
        ≡ min (counts.own_start (own_at table.now) (perhaps_of start.now) n) (2 ^ 64 - 1) }
{
    match start {
        None => turned,
        Some(there) => add(add(1, own(table, there)), turned),
    }
}

/// The terms of an optional statement; a missing one is `nop`.
#[cycle(own)]
fn optional_own(table: &[Extent], s: &Option<Box<Stmt>>) -> u64
    ensures { result ≡ min (counts.own_perhaps (own_at table.now) (perhaps_of s.now)) (2 ^ 64 - 1) }
{
    match s {
        None => 1,
        Some(there) => own(table, there),
    }
}

#[cycle(own)]
fn all_own(table: &[Extent], list: &[Stmt]) -> u64
    ensures { result ≡ min (counts.own_all (own_at table.now) (plain.statements list.now)) (2 ^ 64 - 1) }
{
    let mut total = 0;
    for s in list {
        total = add(total, own(table, s));
    }
    total
}

/// The terms of statements as one.
#[cycle(own)]
fn block(table: &[Extent], list: &[Stmt]) -> u64
    ensures { IsBlockTerms table.now list.now result }
{
    sequence(list.len(), all_own(table, list))
}

/// The terms of the threads below a statement.
#[cycle(under)]
fn under(table: &[Extent], s: &Stmt) -> u64
    ensures { result ≡ min (counts.under (own_at table.now) (under_at table.now) (plain.statement s.now)) (2 ^ 64 - 1) }
{
    match &s.what {
        StmtKind::Group { body } => all_under(table, body.as_slice()),
        StmtKind::Call { name, .. } => known_of(table, name.id).under,
        StmtKind::If { yes, no, .. } => add(under(table, yes), optional_under(table, no)),
        StmtKind::While { body, .. } => under(table, body),
        StmtKind::For {
            start,
            step,
            body,
            ..
        } => {
            let head = optional_under(table, start);
            add(head, add(optional_under(table, step), under(table, body)))
        }
        StmtKind::Par { branches } => branches_under(table, branches.as_slice()),
        StmtKind::Abort { body, .. } => all_under(table, body.as_slice()),
        _ => 0,
    }
}

#[cycle(under)]
fn optional_under(table: &[Extent], s: &Option<Box<Stmt>>) -> u64
    ensures { result ≡ min (counts.under_perhaps (own_at table.now) (under_at table.now) (perhaps_of s.now))
        (2 ^ 64 - 1) }
{
    match s {
        None => 0,
        Some(there) => under(table, there),
    }
}

#[cycle(under)]
fn all_under(table: &[Extent], list: &[Stmt]) -> u64
    ensures { result ≡ min (counts.under_all (own_at table.now) (under_at table.now) (plain.statements list.now))
        (2 ^ 64 - 1) }
{
    let mut total = 0;
    for s in list {
        total = add(total, under(table, s));
    }
    total
}

#[cycle(under)]
fn branches_under(table: &[Extent], list: &[Branch]) -> u64
    ensures { result ≡ min (counts.under_branches (own_at table.now) (under_at table.now) (plain.branches list.now))
        (2 ^ 64 - 1) }
{
    let mut total = 0;
    for branch in list {
        let inside = match branch {
            Branch::Call { name, .. } => {
                let known = known_of(table, name.id);
                add(known.own, known.under)
            }
            Branch::Group { body, .. } => {
                let body = body.as_slice();
                add(block(table, body), all_under(table, body))
            }
        };
        total = add(total, inside);
    }
    total
}

/// The terms of a function's text, by its number.
fn function_extent(index: &Index<'_>, table: &[Extent], id: u32) -> Extent
    ensures { result ≡ extent_step capped_size (indexed_text index.now) (extent_at table.now) id }
{
    match find_function(index, id) {
        None => Extent { own: 1, under: 0 },
        Some(function) => {
            let body = function.body.as_slice();
            Extent {
                own: block(table, body),
                under: all_under(table, body),
            }
        }
    }
}

/// The extent of each function, each after those that it calls or starts.
fn table_of(alloc: Global, index: &Index<'_>, order: &[u32]) -> Result<Vec<Extent>, OutOfMemory>
    requires { Settles no_extent (extent_step capped_size (indexed_text index.now))
        (extent_value (indexed_text index.now)) order.now }
    ensures { IfOk result (λ table. (id : ℕ) → extent_at table.items id ≡ extent_value (indexed_text index.now) id) }
{
    let mut table = Vec::new(alloc);
    for f in order {
        let known = function_extent(index, &table, *f);
        put(&mut table, *f, known, Extent { own: 1, under: 0 })?;
    }
    Ok(table)
}

/// The extents of the functions of a program in which none reaches itself by statements and branches.
pub fn extents(alloc: Global, index: &Index<'_>) -> Result<Vec<Extent>, OutOfMemory>
    requires { (f : ℕ) → Leads (callees_of (indexed_text index.now)) f f → ⊥ }
    ensures { IfOk result (λ table. (id : ℕ) → extent_at table.items id ≡ extent_value (indexed_text index.now) id) }
{
    let calls = read_calls(alloc, index)?;
    let order = order(alloc, &calls.functions, &calls.lists)?;
    let table = table_of(alloc, index, &order)?;
    Ok(table)
}

/// The terms of int functions, in which nothing is inlined.
fn function_terms(functions: &[&Function]) -> u64
    ensures { result ≡ min (int_function_terms (functions_of functions.now)) (2 ^ 64 - 1) }
{
    let mut total = 0;
    for function in functions {
        total = add(total, block(&[], function.body.as_slice()));
    }
    total
}

/// The terms of the kernel of a program that starts with the function of a name and has these int
/// functions. Nothing is inlined for it.
pub fn program_terms(
    alloc: Global,
    index: &Index<'_>,
    names: &Labels,
    functions: &[&Function],
    first: u32,
) -> Result<u64, OutOfMemory>
    requires free { (f : ℕ) → Leads (callees_of (indexed_text index.now)) f f → ⊥ }
    requires functions { functions_of functions.now
        ≡ int_functions (indexed_text index.now) names.now (indexed_text index.now) }
    requires first { first ≡ main_id (indexed_text index.now) names.now }
    ensures { IfOk result (λ n. n ≡ min (amount Terms (kernel_of (indexed_text index.now) names.now)) (2 ^ 64 - 1)) }
{
    let table = extents(alloc, index)?;
    let main = known_of(&table, first);
    Ok(add(add(main.own, main.under), function_terms(functions)))
}
