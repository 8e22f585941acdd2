//! Sets of call sites, as far as they have at most one.

ghost use Rattle.std.specs.Prelude.{◌≡◌, ℕ, true, false, IfOk};
ghost use Rattle.forec_check.specs.CallSites as plain;
ghost use Rattle.forec_check.specs.CallSites.{sites_at};

use forec_base::OutOfMemory;
use loop_check::{put, value_at};

/// Where a function is called or an instance starts: an effect of the body of a function, by its number
/// from 1. The program itself starts at number 0 of `main`.
#[derive(Clone, Copy)]
pub struct CallSite {
    pub function: u32,
    pub effect: usize,
}

/// A set of call sites that has none, this one alone, or several.
#[derive(Clone, Copy)]
pub enum CallSites {
    None,
    One { site: CallSite },
    Many,
}

fn same(a: CallSite, b: CallSite) -> bool
    ensures { result ≡ plain.same_call_site a b }
{
    a.function == b.function && a.effect == b.effect
}

/// Whether a set is part of another, as far as the two tell.
pub fn within(part: CallSites, whole: CallSites) -> bool
    ensures { result ≡ plain.is_within part whole }
{
    match part {
        CallSites::None => true,
        CallSites::One { site } => match whole {
            CallSites::None => false,
            CallSites::One { site: other } => same(site, other),
            CallSites::Many => true,
        },
        CallSites::Many => match whole {
            CallSites::Many => true,
            _ => false,
        },
    }
}

/// The set of a number; none past the end of a table.
pub fn at(table: &[CallSites], id: u32) -> CallSites
    ensures { result ≡ sites_at table.now id }
{
    value_at(table, id, CallSites::None)
}

fn joined(known: CallSites, part: CallSites) -> CallSites {
    match known {
        CallSites::None => part,
        _ => CallSites::Many,
    }
}

/// Adds a set to that of a number, and tells whether it was no part of it.
pub fn join(table: &mut Vec<CallSites>, id: u32, part: CallSites) -> Result<bool, OutOfMemory>
    ensures same { IfOk result (λ moved. moved ≡ false → table.new.items ≡ table.old.items) }
    ensures within { IfOk result (λ moved. moved ≡ false → plain.is_within part (sites_at table.old.items id) ≡ true) }
{
    let known = at(table, id);
    if within(part, known) {
        return Ok(false);
    }
    put(table, id, joined(known, part), CallSites::None)?;
    Ok(true)
}
