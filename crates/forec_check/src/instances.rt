//! Thread instances: how many a program has, up to the greatest `u64`, and below, which of them access a global.
//!
//! An instance is `main`, or one branch of one `par` where void functions that are called as statements are inlined.

ghost use Rattle.std.specs.Prelude.{◌≡◌, ◌+◌, ◌-◌, ◌^◌, ℕ, min, map, IfOk};
ghost use Rattle.forec_tree.specs.Plain as plain;
ghost use Rattle.forec_tree.specs.Plain.{perhaps_of};
ghost use Rattle.forec_tree.specs.Pauses.{callees_of};
ghost use Rattle.forec_tree.specs.Faults.{Leads};
ghost use Rattle.forec_tree.specs.Threads as threads;
ghost use Rattle.loop_check.specs.Views.{indexed_text};
ghost use Rattle.forec_check.specs.Table.{Settles};
ghost use Rattle.forec_check.specs.Instances.{count_at, capped_below, count_of};

pub mod access_count;
pub mod accesses;
pub mod bodies;
pub mod call_sites;
pub mod propagate;
pub mod single;

use forec_base::OutOfMemory;
use forec_tree::{Branch, Item, Stmt, StmtKind};
use loop_check::{Index, find_function, order, put, read_calls, value_at};
use std::alloc::Global;

fn known_count(table: &[u64], id: u32) -> u64
    ensures { result ≡ count_at table.now id }
{
    value_at(table, id, 0)
}

fn sum(a: u64, b: u64) -> u64
    ensures { result ≡ min (a + b) (2 ^ 64 - 1) }
{
    a.saturating_add(b)
}

/// The instances that start in a statement, where a table tells how many start in each function.
#[cycle(count)]
fn count_statement(table: &[u64], s: &Stmt) -> u64
    ensures { result ≡ min (threads.below (count_at table.now) (plain.statement s.now)) (2 ^ 64 - 1) }
{
    match &s.what {
        StmtKind::Group { body } => count_statements(table, body.as_slice()),
        StmtKind::Call { name, .. } => known_count(table, name.id),
        StmtKind::If { yes, no, .. } => sum(
            count_statement(table, yes),
            count_optional_statement(table, no),
        ),
        StmtKind::While { body, .. } => count_statement(table, body),
        StmtKind::For {
            start,
            step,
            body,
            ..
        } => {
            let head = count_optional_statement(table, start);
            sum(
                head,
                sum(
                    count_optional_statement(table, step),
                    count_statement(table, body),
                ),
            )
        }
        StmtKind::Par { branches } => count_branches(table, branches.as_slice()),
        StmtKind::Abort { body, .. } => count_statements(table, body.as_slice()),
        _ => 0,
    }
}

#[cycle(count)]
fn count_optional_statement(table: &[u64], s: &Option<Box<Stmt>>) -> u64
    ensures { result ≡ min (threads.below_perhaps (count_at table.now) (perhaps_of s.now)) (2 ^ 64 - 1) }
{
    match s {
        None => 0,
        Some(there) => count_statement(table, there),
    }
}

#[cycle(count)]
fn count_statements(table: &[u64], list: &[Stmt]) -> u64
    ensures { result ≡ min (threads.below_all (count_at table.now) (plain.statements list.now)) (2 ^ 64 - 1) }
{
    let mut total = 0;
    for s in list {
        total = sum(total, count_statement(table, s));
    }
    total
}

#[cycle(count)]
fn count_branches(table: &[u64], list: &[Branch]) -> u64
    ensures { result ≡ min (threads.below_branches (count_at table.now) (plain.branches list.now)) (2 ^ 64 - 1) }
{
    let mut total = 0;
    for branch in list {
        let inside = match branch {
            Branch::Call { name, .. } => known_count(table, name.id),
            Branch::Group { body, .. } => count_statements(table, body.as_slice()),
        };
        total = sum(total, sum(1, inside));
    }
    total
}

fn count_function(index: &Index<'_>, table: &[u64], id: u32) -> u64
    ensures { result ≡ capped_below (indexed_text index.now) (count_at table.now) id }
{
    match find_function(index, id) {
        None => 0,
        Some(function) => count_statements(table, function.body.as_slice()),
    }
}

/// How many instances start in each function, each after those that it calls or starts.
fn counts(alloc: Global, index: &Index<'_>, order: &[u32]) -> Result<Vec<u64>, OutOfMemory>
    requires { Settles 0 (capped_below (indexed_text index.now)) (count_of (indexed_text index.now)) order.now }
    ensures { IfOk result (λ table. (id : ℕ) → count_at table.items id ≡ count_of (indexed_text index.now) id) }
{
    let mut table = Vec::new(alloc);
    for f in order {
        let value = count_function(index, &table, *f);
        put(&mut table, *f, value, 0)?;
    }
    Ok(table)
}

/// The thread instances of a program that begins with the function of this name, at most the greatest
/// `u64`. Each function is counted once, after those that it calls or starts, so nothing is inlined.
pub fn instances(alloc: Global, items: &[Item], first: u32) -> Result<u64, OutOfMemory>
    requires { (f : ℕ) → Leads (callees_of (map plain.plain_item items.now)) f f → ⊥ }
    ensures { IfOk result (λ n. n ≡ min (threads.instances (map plain.plain_item items.now) first) (2 ^ 64 - 1)) }
{
    let index = Index::of(alloc, items)?;
    let calls = read_calls(alloc, &index)?;
    let order = order(alloc, &calls.functions, &calls.lists)?;
    let table = counts(alloc, &index, &order)?;
    Ok(sum(1, known_count(&table, first)))
}
