//! Call sites, and the instances that they start, handed on from callers to callees.

ghost use Rattle.std.specs.Prelude.{◌≡◌, ◌≢◌, false, true, map, IfOk};
ghost use Rattle.forec_tree.specs.Pauses.{find_function};
ghost use Rattle.loop_check.specs.Views.{indexed_text};
ghost use Rattle.program_walk.specs.Walk.{item_effects, effects_lists};
ghost use Rattle.forec_check.specs.AccessCounts.{effects_in};
ghost use Rattle.forec_check.specs.CallSites as plain;
ghost use Rattle.forec_check.specs.CallSites.{site_maps, outermost, SameTables, HoldsEffects, RestsAround, SettlesCalled, AllSettled};

use crate::instances::call_sites::{CallSite, CallSites, at, join};
use forec_base::OutOfMemory;
use loop_check::Index;
use program_walk::Effect;
use std::alloc::Global;

/// By the numbers of their names: where each function is called or started, the instances in whose
/// text it stands, and the instances that access each global. An instance is told by where it starts.
#[derive(Drop)]
pub struct SiteTables {
    pub calls: Vec<CallSites>,
    pub texts: Vec<CallSites>,
    pub globals: Vec<CallSites>,
}

/// The instances whose text is read, and those of the texts round it.
#[derive(Drop)]
struct OpenInstances {
    here: CallSites,
    round: Vec<CallSites>,
}

/// The instances that start at a site, in a function that is called from some sites.
fn opened(calls: CallSites, site: CallSite) -> CallSites
    ensures { result ≡ plain.opened_sites calls site }
{
    match calls {
        CallSites::None => CallSites::None,
        CallSites::One { .. } => CallSites::One { site },
        CallSites::Many => CallSites::Many,
    }
}

fn propagate_call(
    tables: &mut SiteTables,
    id: u32,
    site: CallSites,
    text: CallSites,
) -> Result<bool, OutOfMemory>
    ensures same { IfOk result (λ moved. moved ≡ false → SameTables tables.old tables.new) }
    ensures calls { IfOk result (λ moved. moved ≡ false → plain.is_within site ((site_maps tables.old).calls id)
        ≡ true) }
    ensures texts { IfOk result (λ moved. moved ≡ false → plain.is_within text ((site_maps tables.old).texts id)
        ≡ true) }
{
    let called = join(&mut tables.calls, id, site)?;
    let stands = join(&mut tables.texts, id, text)?;
    Ok(called || stands)
}

fn propagate_effect(
    effect: Effect,
    site: CallSites,
    around: &mut OpenInstances,
    tables: &mut SiteTables,
) -> Result<bool, OutOfMemory>
    ensures same { IfOk result (λ moved. moved ≡ false → SameTables tables.old tables.new) }
    ensures rests { IfOk result (λ moved. moved ≡ false → RestsAround tables.old effect site around.old around.new) }
{
    match effect {
        Effect::Accesses { id } => {
            let moved = join(&mut tables.globals, id, around.here)?;
            Ok(moved)
        }
        Effect::Computes { .. } => Ok(false),
        Effect::Runs { id } => {
            let moved = propagate_call(tables, id, site, around.here)?;
            Ok(moved)
        }
        Effect::Starts { id } => {
            let moved = propagate_call(tables, id, site, site)?;
            Ok(moved)
        }
        Effect::Opens => {
            around.round.push(around.here)?;
            around.here = site;
            Ok(false)
        }
        Effect::Closes => {
            if let Some(outer) = around.round.pop() {
                around.here = outer;
            }
            Ok(false)
        }
    }
}

fn propagate_effects(
    alloc: Global,
    f: u32,
    effects: &[Effect],
    tables: &mut SiteTables,
) -> Result<bool, OutOfMemory>
    ensures same { IfOk result (λ moved. moved ≡ false → SameTables tables.old tables.new) }
    ensures settled { IfOk result (λ moved. moved ≡ false → HoldsEffects (site_maps tables.old) f 1
        (outermost (site_maps tables.old) f) effects.now) }
{
    let calls = at(&tables.calls, f);
    let mut around = OpenInstances {
        here: at(&tables.texts, f),
        round: Vec::new(alloc),
    };
    let mut moved = false;
    for (number, effect) in effects.iter().enumerate() {
        let site = opened(
            calls,
            CallSite {
                function: f,
                effect: number + 1,
            },
        );
        if propagate_effect(*effect, site, &mut around, tables)? {
            moved = true;
        }
    }
    Ok(moved || !around.round.is_empty())
}

fn is_none(sites: CallSites) -> bool
    ensures some { result ≡ false → sites ≢ plain.no_sites }
    ensures none { result ≡ true → sites ≡ plain.no_sites }
{
    match sites {
        CallSites::None => true,
        _ => false,
    }
}

/// The effects of the body of a function.
pub fn effects_of<'b>(index: &Index<'_>, bodies: &'b [Vec<Effect>], f: u32) -> &'b [Effect]
    requires { effects_lists bodies.now ≡ map (item_effects (indexed_text index.now)) (indexed_text index.now) }
    ensures { result.now ≡ effects_in (indexed_text index.now) (find_function f (indexed_text index.now)) }
{
    match index.position(f) {
        None => &[],
        Some(place) => match sqlite_items::at(bodies, place) {
            None => &[],
            Some(effects) => effects,
        },
    }
}

fn propagate_function(
    alloc: Global,
    index: &Index<'_>,
    bodies: &[Vec<Effect>],
    f: u32,
    tables: &mut SiteTables,
) -> Result<bool, OutOfMemory>
    requires { effects_lists bodies.now ≡ map (item_effects (indexed_text index.now)) (indexed_text index.now) }
    ensures same { IfOk result (λ moved. moved ≡ false → SameTables tables.old tables.new) }
    ensures settled { IfOk result (λ moved. moved ≡ false → SettlesCalled (indexed_text index.now) tables.old f) }
{
    if is_none(at(&tables.calls, f)) {
        return Ok(false);
    }
    let moved = propagate_effects(alloc, f, effects_of(index, bodies, f), tables)?;
    Ok(moved)
}

/// Adds what the bodies of some functions tell to the tables, and tells whether any was new.
pub fn propagate(
    alloc: Global,
    index: &Index<'_>,
    bodies: &[Vec<Effect>],
    functions: &[u32],
    first: u32,
    tables: &mut SiteTables,
) -> Result<bool, OutOfMemory>
    requires { effects_lists bodies.now ≡ map (item_effects (indexed_text index.now)) (indexed_text index.now) }
    ensures { IfOk result (λ moved. moved ≡ false → AllSettled (indexed_text index.now) first functions.now
        (site_maps tables.new)) }
{
    let start = CallSites::One {
        site: CallSite {
            function: first,
            effect: 0,
        },
    };
    let mut moved = propagate_call(tables, first, start, start)?;
    for f in functions {
        if propagate_function(alloc, index, bodies, *f, tables)? {
            moved = true;
        }
    }
    Ok(moved)
}
