//! What the bodies of threads and int functions call, and the greatest sums along chains of calls.

ghost use Rattle.std.specs.Prelude.{◌≡◌, ◌+◌, ◌-◌, ◌^◌, ◌++◌, ◌<◌, ℕ, min, map, length, true, IfOk, OnOk};
ghost use Rattle.forec_tree.specs.Faults.{is_in, Leads};
ghost use Rattle.forec_kernel.specs.Plain as kernel;
ghost use Rattle.forec_kernel.specs.WellFormed as of;
ghost use Rattle.loop_check.specs.Graph.{callees, FunctionsCall};
ghost use Rattle.forec_check.specs.Table.{Settles};
ghost use Rattle.kernel_drafts.specs.Reach.{has, users_by, combine_by, pars_by, combine_at, value_at, chain_step, chain_value, list_items};

use crate::pars::pars;
use forec_base::OutOfMemory;
use forec_kernel::{Statement, Variable};
use kernel_calls::statement_calls;
use loop_check::{order, put};
use std::alloc::Global;
use text_sizes::add;

/// Whether a thread has a copy of a variable.
fn has_copy(rows: &[Vec<bool>], thread: u32, variable: u32) -> bool
    ensures { result ≡ has rows.now thread variable }
{
    match rows.get(thread as usize) {
        None => false,
        Some(row) => match row.as_slice().get(variable as usize) {
            None => false,
            Some(mark) => *mark,
        },
    }
}

/// How many of some threads have a copy of a variable.
fn users(rows: &[Vec<bool>], threads: &[u32], variable: u32) -> usize
    ensures { result ≡ users_by (has rows.now) threads.now variable }
{
    let mut count = 0;
    for thread in threads {
        if has_copy(rows, *thread, variable) {
            count += 1;
        }
    }
    count
}

fn combine_of(variables: &[Variable], variable: u32) -> Option<u32>
    ensures { result ≡ combine_at variables.now variable }
{
    match variables.get(variable as usize) {
        None => None,
        Some(known) => known.combine,
    }
}

/// Adds the combine functions that a par of these threads can call, among those of some variables.
fn par_calls(
    calls: &mut Vec<u32>,
    rows: &[Vec<bool>],
    variables: &[Variable],
    threads: &[u32],
    uses: &[u32],
) -> Result<(), OutOfMemory>
    ensures { OnOk result (calls.new.items ≡ calls.old.items
        ++ combine_by (has rows.now) (combine_at variables.now) threads.now uses.now) }
{
    for variable in uses {
        if let Some(function) = combine_of(variables, *variable) {
            if 1 < users(rows, threads, *variable) {
                calls.push(function)?;
            }
        }
    }
    Ok(())
}

/// The int functions that the body of a thread can call, the combine functions of its pars among them.
pub fn thread_calls(
    alloc: Global,
    rows: &[Vec<bool>],
    variables: &[Variable],
    uses: &[u32],
    body: &Statement,
) -> Result<Vec<u32>, OutOfMemory>
    ensures { IfOk result (λ calls. calls.items ≡ of.stmt_calls (kernel.stmt body.now)
        ++ pars_by (has rows.now) (combine_at variables.now) uses.now (of.pars_of (kernel.stmt body.now))) }
{
    let mut calls = Vec::new(alloc);
    statement_calls(&mut calls, body)?;
    let mut found = Vec::new(alloc);
    pars(alloc, &mut found, body)?;
    for threads in &found {
        par_calls(&mut calls, rows, variables, threads.as_slice(), uses)?;
    }
    Ok(calls)
}

/// The calls of each of some bodies.
pub fn body_calls(alloc: Global, bodies: &[Statement]) -> Result<Vec<Vec<u32>>, OutOfMemory>
    ensures { IfOk result (λ lists. map list_items lists.items ≡ map (λ s. of.stmt_calls (kernel.stmt s)) bodies.now) }
{
    let mut lists = Vec::new(alloc);
    for body in bodies {
        let mut calls = Vec::new(alloc);
        statement_calls(&mut calls, body)?;
        lists.push(calls)?;
    }
    Ok(lists)
}

fn value(table: &[u64], function: u32) -> u64
    ensures { result ≡ value_at table.now function }
{
    loop_check::value_at(table, function, 0)
}

/// The greatest value of some functions.
pub fn greatest(table: &[u64], functions: &[u32]) -> u64
    ensures { result ≡ of.greatest (value_at table.now) functions.now }
{
    let mut most = 0;
    for function in functions {
        most = most.max(value(table, *function));
    }
    most
}

fn called(lists: &[Vec<u32>], function: u32) -> &[u32]
    ensures { result.now ≡ callees lists.now function }
{
    match lists.get(function as usize) {
        None => &[],
        Some(list) => list.as_slice(),
    }
}

/// The greatest sum of a measure of functions along a chain of calls that begins at each.
fn sums(
    alloc: Global,
    own: &[u64],
    lists: &[Vec<u32>],
    order: &[u32],
) -> Result<Vec<u64>, OutOfMemory>
    requires { Settles 0 (chain_step own.now (callees lists.now)) (chain_value own.now (callees lists.now)) order.now }
    ensures { IfOk result (λ table. (f : ℕ) → value_at table.items f ≡ chain_value own.now (callees lists.now) f) }
{
    let mut table = Vec::new(alloc);
    for f in order {
        let below = greatest(&table, called(lists, *f));
        let known = add(value(own, *f), below);
        put(&mut table, *f, known, 0)?;
    }
    Ok(table)
}

/// The first so many numbers.
pub fn numbers(alloc: Global, count: usize) -> Result<Vec<u32>, OutOfMemory>
    ensures { IfOk result (λ list. list.items ≡ of.count_up 0 count) }
{
    let mut list = Vec::new(alloc);
    for i in 0..count {
        match u32::try_from(i) {
            Err(_) => return Err(OutOfMemory),
            Ok(number) => list.push(number)?,
        }
    }
    Ok(list)
}

/// The greatest sum of a measure of functions along a chain of calls that begins at each. No function
/// reaches itself; each is looked at once, after those that it calls.
pub fn chains(alloc: Global, own: &[u64], lists: &[Vec<u32>]) -> Result<Vec<u64>, OutOfMemory>
    requires free { (f : ℕ) → Leads (callees lists.now) f f → ⊥ }
    requires long { length lists.now ≡ length own.now }
    ensures { IfOk result (λ table. (f : ℕ) → value_at table.items f ≡ chain_value own.now (callees lists.now) f) }
{
    let functions = numbers(alloc, own.len())?;
    let order = order(alloc, &functions, lists)?;
    sums(alloc, own, lists, &order)
}
