//! Placements that balance the cores.

ghost use Rattle.std.specs.Prelude.{◌≡◌, ◌≤◌, ◌<◌, ◌+◌, ◌^◌, All, length, sum, IfOk};
ghost use Rattle.core_alloc.specs.Balance.{ranked_from, total_weight, IsHeaviestFirst, lightest, balance_of, IsBalanced, IsEven};

use crate::placement::Placement;
use crate::ranked::Ranked;
use forec_base::OutOfMemory;
use std::alloc::Global;
use std::cmp::Reverse;

/// The threads with their weights, by number.
fn by_number(alloc: Global, weights: &[u64]) -> Result<Vec<Ranked>, OutOfMemory>
    requires { length weights.now < 2 ^ 32 }
    ensures { IfOk result (λ list. list.items ≡ ranked_from 0 weights.now) }
{
    let mut list = Vec::new(alloc);
    let mut thread = 0;
    for weight in weights {
        list.push(Ranked {
            weight: Reverse(*weight),
            thread,
        })?;
        thread += 1;
    }
    Ok(list)
}

/// The threads, heaviest first, equal ones by number.
fn heaviest_first(alloc: Global, weights: &[u64]) -> Result<Vec<Ranked>, OutOfMemory>
    requires { length weights.now < 2 ^ 32 }
    ensures { IfOk result (λ order. IsHeaviestFirst weights.now order.items) }
{
    let mut order = by_number(alloc, weights)?;
    order.sort()?;
    Ok(order)
}

/// The core with the least load, of equal ones the lowest.
fn lightest_core(loads: &[u64]) -> usize
    requires { 0 < length loads.now }
    ensures core { result ≡ lightest loads.now }
    ensures below { result < length loads.now }
{
    let mut best = 0;
    for core in 0..loads.len() {
        if loads[core] < loads[best] {
            best = core;
        }
    }
    best
}

/// The core of each thread, each placed in this order on the core with the least load so far.
fn places_of(alloc: Global, order: &[Ranked], cores: u32) -> Result<Vec<u32>, OutOfMemory>
    requires some { 1 ≤ cores }
    requires few { cores ≤ 64 }
    requires threads { All (λ r. r.thread < length order.now) order.now }
    requires total { total_weight order.now ≤ 2 ^ 62 }
    ensures places { IfOk result (λ p. p.items ≡ (balance_of order.now cores).places) }
    ensures below { IfOk result (λ p. All (λ core. core < cores) p.items) }
    ensures count { IfOk result (λ p. length p.items ≡ length order.now) }
{
    let mut loads = vec![in alloc; 0; cores as usize]?;
    let mut places = vec![in alloc; 0; order.len()]?;
    for thread in order {
        let core = lightest_core(&loads);
        loads[core] += thread.weight.0;
        places[thread.thread as usize] = core as u32;
    }
    Ok(places)
}

/// The placement that takes the threads heaviest first, equal ones by number, and places each on the core with
/// the least load so far, of equal ones the lowest (Graham's list scheduling, longest first). `weights` has one for
/// each thread.
///
/// No core's load is greater than its share of all weights and the heaviest weight together.
///
/// # Errors
///
/// Out of memory.
pub fn balance(alloc: Global, weights: &[u64], cores: u32) -> Result<Placement, OutOfMemory>
    requires some { 1 ≤ cores }
    requires few { cores ≤ 64 }
    requires threads { length weights.now < 2 ^ 32 }
    requires total { sum weights.now ≤ 2 ^ 62 }
    ensures cores { IfOk result (λ p. p.cores ≡ cores) }
    ensures threads { IfOk result (λ p. length p.places ≡ length weights.now) }
    ensures places { IfOk result (λ p. IsBalanced weights.now cores p.places) }
    ensures even { IfOk result (λ p. IsEven weights.now cores p.places) }
{
    let order = heaviest_first(alloc, weights)?;
    let places = places_of(alloc, &order, cores)?;
    Ok(Placement::of(cores, places))
}
