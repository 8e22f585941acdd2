//! The least fault so far.

ghost use Rattle.std.specs.Prelude.{◌≡◌};
ghost use Rattle.forec_tree.specs.Rules.{fault_if};
ghost use Rattle.fault_order.specs.Least.{least_from};
ghost use Rattle.forec_tree.specs.Faults as order;
ghost use Rattle.fault_order.specs.Least.{improves};

use forec_base::Place;
use forec_tree::Fault;

fn is_before(a: Fault, b: Fault) -> bool
    ensures { result ≡ order.is_before a b }
{
    if a.place.line != b.place.line {
        return a.place.line < b.place.line;
    }
    if a.place.column != b.place.column {
        return a.place.column < b.place.column;
    }
    a.rule < b.rule
}

/// Whether a fault is less than the one kept.
pub fn is_less(least: &Option<Fault>, place: Place, rule: u8) -> bool
    ensures { result ≡ improves least.now (record { place = place; rule = rule }) }
{
    match *least {
        None => true,
        Some(kept) => is_before(Fault { place, rule }, kept),
    }
}

/// Keeps a fault where a rule is broken and the fault is less than the one kept.
pub fn keep_fault(least: &mut Option<Fault>, broken: bool, place: Place, rule: u8)
    ensures { least.new ≡ least_from least.old (fault_if broken place rule) }
{
    if broken {
        let fault = Fault { place, rule };
        *least = match *least {
            None => Some(fault),
            Some(kept) => if is_before(fault, kept) {
                Some(fault)
            } else {
                Some(kept)
            },
        };
    }
}
