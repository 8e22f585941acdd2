//! How many thread instances access one global.

ghost use Rattle.std.specs.Prelude.{◌≡◌, ◌+◌, ◌||◌, ◌&&◌, ◌==◌, ℕ, min, map, nat_lt, length, Some, IfOk, OnOk};
ghost use Rattle.forec_tree.specs.Plain as plain;
ghost use Rattle.forec_tree.specs.Pauses.{find_function};
ghost use Rattle.forec_check.specs.AccessScan.{scan_start, as_access, accessing_instances, instances_of};
ghost use Rattle.loop_check.specs.Views.{indexed_text};
ghost use Rattle.program_walk.specs.Walk.{item_effects, effects_lists};
ghost use Rattle.forec_check.specs.AccessCounts.{capped_access, called_access, access_of, scan_effects, CountsEffect, capped_step, Orders};
ghost use Rattle.forec_check.specs.AccessCounts as counts;

use crate::instances::access_count::{AccessCount, AccessTally};
use crate::instances::propagate::effects_of;
use forec_base::OutOfMemory;
use loop_check::{Index, put, value_at};
use program_walk::Effect;
use std::alloc::Global;

fn no_access_count() -> AccessCount
    ensures { result ≡ counts.no_access_count }
{
    AccessCount {
        own: false,
        below: 0,
    }
}

fn access_count(table: &[AccessCount], id: u32) -> AccessCount
    ensures { access_of result ≡ called_access table.now id }
{
    let known = value_at(table, id, no_access_count());
    AccessCount {
        own: known.own,
        below: known.below.min(2),
    }
}

fn sum(a: u32, b: u32) -> u32
    ensures { result ≡ min (a + b) 2 }
{
    (a.min(2) + b.min(2)).min(2)
}

fn instances(n: AccessCount) -> u32
    ensures { min result 2 ≡ min (accessing_instances (access_of n)) 2 }
{
    if n.own { sum(n.below, 1) } else { n.below }
}

fn count_effect(
    effect: Effect,
    g: u32,
    table: &[AccessCount],
    t: &mut AccessTally,
) -> Result<(), OutOfMemory>
    ensures { OnOk result (CountsEffect t.old t.new g table.now effect) }
{
    match effect {
        Effect::Accesses { id } => t.own = t.own || id == g,
        Effect::Computes { .. } => {}
        Effect::Runs { id } => {
            let called = access_count(table, id);
            t.own = t.own || called.own;
            t.below = sum(t.below, called.below);
        }
        Effect::Starts { id } => t.below = sum(t.below, instances(access_count(table, id))),
        Effect::Opens => {
            t.round.push(t.own)?;
            t.own = false;
        }
        Effect::Closes => {
            if let Some(own) = t.round.pop() {
                t.below = sum(t.below, u32::from(t.own));
                t.own = own;
            }
        }
    }
    Ok(())
}

fn text_access(
    alloc: Global,
    effects: &[Effect],
    g: u32,
    table: &[AccessCount],
) -> Result<AccessCount, OutOfMemory>
    ensures { IfOk result (λ n. capped_access (access_of n) ≡ capped_access
        (as_access (scan_effects g (called_access table.now) scan_start effects.now))) }
{
    let mut t = AccessTally {
        own: false,
        below: 0,
        round: Vec::new(alloc),
    };
    for effect in effects {
        count_effect(*effect, g, table, &mut t)?;
    }
    Ok(AccessCount {
        own: t.own,
        below: t.below,
    })
}

fn function_access(
    alloc: Global,
    index: &Index<'_>,
    bodies: &[Vec<Effect>],
    g: u32,
    table: &[AccessCount],
    id: u32,
) -> Result<AccessCount, OutOfMemory>
    requires { effects_lists bodies.now ≡ map (item_effects (indexed_text index.now)) (indexed_text index.now) }
    ensures { IfOk result
        (λ n. capped_access (access_of n) ≡ capped_step (indexed_text index.now) g (called_access table.now) id) }
{
    let n = text_access(alloc, effects_of(index, bodies, id), g, table)?;
    Ok(n)
}

/// Whether two thread instances access a global. Looks at each effect of the bodies once.
pub fn two_access(
    alloc: Global,
    index: &Index<'_>,
    bodies: &[Vec<Effect>],
    order: &[u32],
    g: u32,
    first: u32,
) -> Result<bool, OutOfMemory>
    requires bodies { effects_lists bodies.now ≡ map (item_effects (indexed_text index.now)) (indexed_text index.now) }
    requires order { Orders (indexed_text index.now) order.now }
    ensures { IfOk result (λ two. two ≡ nat_lt 1 (instances_of (indexed_text index.now) g first)) }
{
    let mut table = Vec::new(alloc);
    for f in order {
        let value = function_access(alloc, index, bodies, g, &table, *f)?;
        put(&mut table, *f, value, no_access_count())?;
    }
    Ok(1 < instances(access_count(&table, first)))
}
