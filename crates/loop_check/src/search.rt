//! Whether a function reaches itself.

ghost use Rattle.std.specs.Prelude.{◌≡◌, ◌≤◌, ◌+◌, ◌*◌, ◌&&◌, ◌||◌, ℕ, not, true, false, length, slice_index_or, IfOk, OnOk};
ghost use Rattle.forec_tree.specs.Faults.{is_in, Leads};
ghost use Rattle.loop_check.specs.Graph.{callees, trues, FunctionsCall};

use crate::graph::{called, is_waiting, marked};
use forec_base::OutOfMemory;
use std::alloc::Global;

fn is_among(list: &[u32], f: u32) -> bool
    ensures { result ≡ is_in f list.now }
{
    for g in list {
        if *g == f {
            return true;
        }
    }
    false
}

/// Puts those functions of a list that wait after the others that are to be looked at.
fn follow(list: &[u32], waiting: &mut Vec<bool>, rest: &mut Vec<u32>) -> Result<(), OutOfMemory>
    ensures waiting { OnOk result ((g : ℕ) → slice_index_or waiting.new.items g false
        ≡ (slice_index_or waiting.old.items g false && not (is_in g list.now))) }
    ensures rest { OnOk result ((g : ℕ) → is_in g rest.new.items
        ≡ (is_in g rest.old.items || (slice_index_or waiting.old.items g false && is_in g list.now))) }
    ensures size { OnOk result (2 * trues waiting.new.items + length rest.new.items
        ≤ 2 * trues waiting.old.items + length rest.old.items) }
{
    for g in list {
        if is_waiting(waiting, *g) {
            waiting[*g as usize] = false;
            rest.push(*g)?;
        }
    }
    Ok(())
}

/// Whether a function reaches itself through calls. Looks at each call once.
pub fn reaches_itself(
    alloc: Global,
    functions: &[u32],
    calls: &[Vec<u32>],
    f: u32,
) -> Result<bool, OutOfMemory>
    requires { FunctionsCall functions.now (callees calls.now) }
    ensures reaches { IfOk result (λ answer. answer ≡ true → Leads (callees calls.now) f f) }
    ensures found { IfOk result (λ answer. Leads (callees calls.now) f f → answer ≡ true) }
{
    let mut waiting = marked(alloc, functions)?;
    let mut rest = Vec::new(alloc);
    rest.push(f)?;
    while let Some(g) = rest.pop() {
        let list = called(calls, g);
        if is_among(list, f) {
            return Ok(true);
        }
        follow(list, &mut waiting, &mut rest)?;
    }
    Ok(false)
}
