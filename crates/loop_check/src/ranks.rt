//! Functions that certainly do not reach themselves.

ghost use Rattle.std.specs.Prelude.{◌≡◌, ◌<◌, ◌≤◌, ℕ, true, false, slice_index_or, IfOk};
ghost use Rattle.forec_tree.specs.Faults.{is_in, Leads};
ghost use Rattle.loop_check.specs.Graph.{callees, FunctionsCall, rank_at, NeverUp};

use crate::components::find_components;
use crate::graph::{called, mark};
use crate::numbered::value_at;
use forec_base::OutOfMemory;
use std::alloc::Global;

fn rank(ranks: &[usize], f: u32) -> usize
    ensures { result ≡ rank_at ranks.now f }
{
    value_at(ranks, f, 0)
}

/// Whether each of a list has a rank below this one.
fn all_below(ranks: &[usize], list: &[u32], limit: usize) -> bool
    ensures { result ≡ true → (g : ℕ) → is_in g list.now ≡ true → rank_at ranks.now g < limit }
{
    for g in list {
        if limit <= rank(ranks, *g) {
            return false;
        }
    }
    true
}

/// Whether each of a list has at most this rank.
fn all_within(ranks: &[usize], list: &[u32], most: usize) -> bool
    ensures { result ≡ true → (g : ℕ) → is_in g list.now ≡ true → rank_at ranks.now g ≤ most }
{
    for g in list {
        if most < rank(ranks, *g) {
            return false;
        }
    }
    true
}

/// Whether no call leads to a function of a higher rank.
fn never_up(functions: &[u32], calls: &[Vec<u32>], ranks: &[usize]) -> bool
    requires { FunctionsCall functions.now (callees calls.now) }
    ensures { result ≡ true → NeverUp (callees calls.now) ranks.now }
{
    for f in functions {
        if !all_within(ranks, called(calls, *f), rank(ranks, *f)) {
            return false;
        }
    }
    true
}

/// A mark for each function that calls lower ones alone.
fn falling(
    alloc: Global,
    functions: &[u32],
    calls: &[Vec<u32>],
    ranks: &[usize],
) -> Result<Vec<bool>, OutOfMemory>
    requires { NeverUp (callees calls.now) ranks.now }
    ensures { IfOk result (λ marks. (g : ℕ) → slice_index_or marks.items g false ≡ true → Leads (callees calls.now) g g
        → ⊥) }
{
    let mut marks = Vec::new(alloc);
    for f in functions {
        if all_below(ranks, called(calls, *f), rank(ranks, *f)) {
            mark(&mut marks, *f)?;
        }
    }
    Ok(marks)
}

/// A mark for each function that a walk through the components finds alone in its own: a function
/// that has the mark does not reach itself. Looks at each call a few times.
pub fn acyclic(
    alloc: Global,
    functions: &[u32],
    calls: &[Vec<u32>],
) -> Result<Vec<bool>, OutOfMemory>
    requires { FunctionsCall functions.now (callees calls.now) }
    ensures { IfOk result (λ marks. (g : ℕ) → slice_index_or marks.items g false ≡ true → Leads (callees calls.now) g g
        → ⊥) }
{
    let found = find_components(alloc, functions, calls)?;
    let ranks = found.ranks.as_slice();
    if never_up(functions, calls, ranks) {
        return falling(alloc, functions, calls, ranks);
    }
    Ok(Vec::new(alloc))
}
