//! The widest and the deepest of the threads below text, up to the greatest `u64`: one walk for either measure.

ghost use Rattle.std.specs.Prelude.{◌≡◌, ◌-◌, ◌^◌, ℕ, min, IfOk};
ghost use Rattle.forec_tree.specs.Plain as plain;
ghost use Rattle.forec_tree.specs.Terms.{count_terms};
ghost use Rattle.forec_tree.specs.Faults.{Leads};
ghost use Rattle.forec_tree.specs.Pauses.{callees_of};
ghost use Rattle.loop_check.specs.Views.{indexed_text};
ghost use Rattle.forec_check.specs.Table.{Settles};
ghost use Rattle.text_sizes.specs.Extents.{capped_size};
ghost use Rattle.text_sizes.specs.Spans as of;
ghost use Rattle.text_sizes.specs.Measures.{call_by, block_by, below_by, IsMostBelow, IsMostBelowOptional, IsMostBelowAll, IsMostBelowBranches};

use crate::span::{Span, all_slots, arguments, block_levels, no_span, span_of};
use crate::tally::add;
use forec_base::OutOfMemory;
use forec_tree::{Branch, Expr, Stmt, StmtKind};
use loop_check::{Index, find_function, order, put, read_calls};
use std::alloc::Global;

/// What is measured of a thread.
#[derive(Clone, Copy)]
pub enum Measure {
    /// Its words.
    Words,
    /// How many statements nest.
    Levels,
}

/// The greatest measure of a thread below a function that is inlined.
fn below(table: &[Span], measure: Measure, id: u32) -> u64
    ensures { result ≡ min (below_by measure table.now id) (2 ^ 64 - 1) }
{
    let known = span_of(table, id);
    match measure {
        Measure::Words => known.widest,
        Measure::Levels => known.deepest,
    }
}

/// The measure of a branch that calls a function.
fn by_name(table: &[Span], measure: Measure, id: u32, args: &[Expr]) -> u64
    ensures { result ≡ min (call_by measure table.now id (count_terms (plain.terms args.now))) (2 ^ 64 - 1) }
{
    let known = span_of(table, id);
    match measure {
        Measure::Words => add(arguments(args), known.slots),
        Measure::Levels => known.levels,
    }
}

/// The measure of a branch that is a block.
fn by_body(table: &[Span], measure: Measure, body: &[Stmt]) -> u64
    ensures { result ≡ min (block_by measure table.now (plain.statements body.now)) (2 ^ 64 - 1) }
{
    match measure {
        Measure::Words => all_slots(table, body),
        Measure::Levels => block_levels(table, body),
    }
}

/// The greatest measure of a thread below a statement.
#[cycle(most)]
fn most(table: &[Span], measure: Measure, s: &Stmt) -> u64
    ensures { IsMostBelow measure table.now s.now result }
{
    match &s.what {
        StmtKind::Group { body } => all_most(table, measure, body.as_slice()),
        StmtKind::Call { name, .. } => below(table, measure, name.id),
        StmtKind::If { yes, no, .. } => {
            let yes = most(table, measure, yes);
            yes.max(optional_most(table, measure, no))
        }
        StmtKind::While { body, .. } => most(table, measure, body),
        StmtKind::For {
            start,
            step,
            body,
            ..
        } => {
            let start = optional_most(table, measure, start);
            let step = optional_most(table, measure, step);
            start.max(step.max(most(table, measure, body)))
        }
        StmtKind::Par { branches } => branches_most(table, measure, branches.as_slice()),
        StmtKind::Abort { body, .. } => all_most(table, measure, body.as_slice()),
        _ => 0,
    }
}

#[cycle(most)]
fn optional_most(table: &[Span], measure: Measure, s: &Option<Box<Stmt>>) -> u64
    ensures { IsMostBelowOptional measure table.now s.now result }
{
    match s {
        None => 0,
        Some(there) => most(table, measure, there),
    }
}

#[cycle(most)]
fn all_most(table: &[Span], measure: Measure, list: &[Stmt]) -> u64
    ensures { IsMostBelowAll measure table.now list.now result }
{
    let mut greatest = 0u64;
    for s in list {
        greatest = greatest.max(most(table, measure, s));
    }
    greatest
}

#[cycle(most)]
fn branches_most(table: &[Span], measure: Measure, list: &[Branch]) -> u64
    ensures { IsMostBelowBranches measure table.now list.now result }
{
    let mut greatest = 0u64;
    for branch in list {
        let inside = match branch {
            Branch::Call { name, args } => {
                let own = by_name(table, measure, name.id, args.as_slice());
                own.max(below(table, measure, name.id))
            }
            Branch::Group { body, .. } => {
                let body = body.as_slice();
                let own = by_body(table, measure, body);
                own.max(all_most(table, measure, body))
            }
        };
        greatest = greatest.max(inside);
    }
    greatest
}

/// What is known of a function by its text, by its number.
fn function_span(index: &Index<'_>, table: &[Span], id: u32) -> Span
    ensures { result ≡ of.span_step capped_size (indexed_text index.now) (of.span_at table.now) id }
{
    match find_function(index, id) {
        None => no_span(),
        Some(function) => {
            let body = function.body.as_slice();
            Span {
                slots: all_slots(table, body),
                widest: all_most(table, Measure::Words, body),
                levels: block_levels(table, body),
                deepest: all_most(table, Measure::Levels, body),
            }
        }
    }
}

/// What is known of each function, each after those that it calls or starts.
fn table_of(alloc: Global, index: &Index<'_>, order: &[u32]) -> Result<Vec<Span>, OutOfMemory>
    requires { Settles of.no_span (of.span_step capped_size (indexed_text index.now))
        (of.span_value (indexed_text index.now)) order.now }
    ensures { IfOk result (λ table. (id : ℕ) → of.span_at table.items id ≡ of.span_value (indexed_text index.now) id) }
{
    let mut table = Vec::new(alloc);
    for f in order {
        let known = function_span(index, &table, *f);
        put(&mut table, *f, known, no_span())?;
    }
    Ok(table)
}

/// What is known of the functions of a program in which none reaches itself by statements and branches.
pub fn spans(alloc: Global, index: &Index<'_>) -> Result<Vec<Span>, OutOfMemory>
    requires { (f : ℕ) → Leads (callees_of (indexed_text index.now)) f f → ⊥ }
    ensures { IfOk result (λ table. (id : ℕ) → of.span_at table.items id ≡ of.span_value (indexed_text index.now) id) }
{
    let calls = read_calls(alloc, index)?;
    let order = order(alloc, &calls.functions, &calls.lists)?;
    let table = table_of(alloc, index, &order)?;
    Ok(table)
}
