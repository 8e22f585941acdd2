//! Globals that one thread instance alone accesses, all found in one walk.

ghost use Rattle.std.specs.Prelude.{◌≡◌, map, IfOk};
ghost use Rattle.loop_check.specs.Views.{indexed_text};
ghost use Rattle.program_walk.specs.Walk.{item_effects, effects_lists};
ghost use Rattle.forec_check.specs.AccessCounts.{Orders};
ghost use Rattle.forec_check.specs.SingleAccess as plain;
ghost use Rattle.forec_check.specs.SingleAccess.{TellsSingle};

use crate::instances::call_sites::{CallSites, at};
use crate::instances::propagate::{SiteTables, propagate};
use forec_base::OutOfMemory;
use loop_check::Index;
use program_walk::Effect;
use std::alloc::Global;

/// The instances that access each global, as far as they are one alone, and whether that is certain.
#[derive(Drop)]
pub struct SingleAccess {
    pub globals: Vec<CallSites>,
    pub certain: bool,
}

impl SingleAccess {
    /// Returns whether it is certain that at most one instance accesses a global.
    pub fn is_single(&self, g: u32) -> bool
        ensures { result ≡ plain.is_single self.now g }
    {
        if !self.certain {
            return false;
        }
        match at(&self.globals, g) {
            CallSites::Many => false,
            _ => true,
        }
    }
}

fn reversed(alloc: Global, order: &[u32]) -> Result<Vec<u32>, OutOfMemory> {
    let mut list = Vec::new(alloc);
    for f in order.iter().rev() {
        list.push(*f)?;
    }
    Ok(list)
}

/// Goes through the functions, callers first, so that when one is reached all is known of where it is
/// called and in which instance its text stands. A second walk in which nothing moves makes certain
/// that the tables hold what each effect tells.
pub fn single_access(
    alloc: Global,
    index: &Index<'_>,
    bodies: &[Vec<Effect>],
    order: &[u32],
    first: u32,
) -> Result<SingleAccess, OutOfMemory>
    requires bodies { effects_lists bodies.now ≡ map (item_effects (indexed_text index.now)) (indexed_text index.now) }
    requires order { Orders (indexed_text index.now) order.now }
    ensures { IfOk result (λ n. TellsSingle (indexed_text index.now) first n) }
{
    let mut tables = SiteTables {
        calls: Vec::new(alloc),
        texts: Vec::new(alloc),
        globals: Vec::new(alloc),
    };
    let callers = reversed(alloc, order)?;
    propagate(alloc, index, bodies, &callers, first, &mut tables)?;
    let moved = propagate(alloc, index, bodies, order, first, &mut tables)?;
    Ok(SingleAccess {
        globals: tables.globals,
        certain: !moved,
    })
}
