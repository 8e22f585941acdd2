//! Rules 2, 17, 18 and 21 of a declaration, and rule 19 of a bound.

ghost use Rattle.std.specs.Prelude.{◌≡◌, [], ◌∷◌, map, pos};
ghost use Rattle.forec_tree.specs.Rules as rules;
ghost use Rattle.forec_tree.specs.Findings.{Declares, in_bound};
ghost use Rattle.fault_order.specs.Least.{judged, least_from};
ghost use Rattle.program_walk.specs.Views.{judging_in};

use crate::walk::context::Context;
use fault_order::keep_fault;
use forec_base::{Labels, MAX_ARRAY_LENGTH, MAX_NAME_BYTES, MAX_TURNS, Place};
use forec_tree::{Fault, Name, Number, rule};

/// Whether a name, given by its number, has more bytes than a name may have. A number that stands for no name is not
/// long.
pub fn is_long(names: &Labels, id: u32) -> bool
    ensures { result ≡ rules.is_long (names.now) id }
{
    if id >= names.len() {
        return false;
    }
    names.get(id).len() > MAX_NAME_BYTES
}

fn outside_length(n: Number) -> bool
    ensures { result ≡ rules.outside (pos MAX_ARRAY_LENGTH) n.value }
{
    n.value < 1 || (MAX_ARRAY_LENGTH as i32) < n.value
}

fn outside_bound(n: Number) -> bool
    ensures { result ≡ rules.outside (pos MAX_TURNS) n.value }
{
    n.value < 1 || (MAX_TURNS as i32) < n.value
}

/// Keeps the fault of an array whose length is outside of 1 to the greatest there is; no length is no fault.
pub fn judge_length(length: Option<Number>, least: &mut Option<Fault>)
    ensures { least.new ≡ least_from least.old (rules.length_faults length) }
{
    match length {
        None => {}
        Some(n) => keep_fault(least, outside_length(n), n.place, rule::ARRAY_LENGTH),
    }
}

/// Whether more values are listed than an array of this length has elements. Without a length none are too many.
pub fn too_many(length: Option<Number>, values: usize) -> bool
    ensures { result ≡ rules.too_many length values }
{
    match length {
        None => false,
        Some(n) => values > 0 && (n.value as i128) < (values as i128),
    }
}

/// Judges one declaration, and keeps the least fault.
pub fn judge_declared(
    context: &Context<'_, '_>,
    name: Name,
    again: bool,
    length: Option<Number>,
    values: usize,
    least: &mut Option<Fault>,
)
    ensures { least.new ≡ judged (judging_in context.now) (Declares name again length values ∷ []) least.old }
{
    keep_fault(least, again, name.place, rule::NAME_TWICE);
    judge_length(length, least);
    keep_fault(
        least,
        too_many(length, values),
        name.place,
        rule::TOO_MANY_VALUES,
    );
    keep_fault(
        least,
        is_long(context.names, name.id),
        name.place,
        rule::LONG_NAME,
    );
}

/// Judges the bound of a loop, and keeps the least fault.
pub fn judge_bound(context: &Context<'_, '_>, bound: Option<Number>, least: &mut Option<Fault>)
    ensures { least.new ≡ judged (judging_in context.now) (in_bound bound) least.old }
{
    match bound {
        None => {}
        Some(n) => keep_fault(least, outside_bound(n), n.place, rule::LOOP_BOUND),
    }
}
