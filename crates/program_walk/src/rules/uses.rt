//! Rules 1, 4, 5, 7, 8, 9, 11 and 13: uses of names.

ghost use Rattle.std.specs.Prelude.{◌≡◌, [], ◌∷◌, map, ◌&&◌};
ghost use Rattle.forec_tree.specs.Rules as rules;
ghost use Rattle.forec_tree.specs.Findings.{Use};
ghost use Rattle.fault_order.specs.Least.{judged};
ghost use Rattle.program_walk.specs.Views.{judging_in};

use crate::walk::context::Context;
use fault_order::keep_fault;
use forec_base::{Labels, Place};
use forec_tree::{Fault, GlobalKind, How, Meaning, Name, rule};

fn fits_use(how: How, means: Meaning) -> bool
    ensures { result ≡ rules.fits_use how means }
{
    match means {
        Meaning::Unknown => true,
        Meaning::Local { array } | Meaning::Global { array, .. } => match how {
            How::Reads | How::Writes => !array,
            How::Indexes | How::WritesAt => array,
            _ => false,
        },
        Meaning::Function { gives, .. } => match how {
            How::Computes { .. } => gives,
            How::Runs { .. } | How::Starts { .. } => !gives,
            _ => false,
        },
    }
}

fn arguments(how: How) -> Option<usize>
    ensures { result ≡ rules.argument_count how }
{
    match how {
        How::Computes { args } | How::Runs { args } | How::Starts { args } => Some(args),
        _ => None,
    }
}

fn miscounts(args: Option<usize>, means: Meaning) -> bool
    ensures { result ≡ rules.miscounts args means }
{
    match (args, means) {
        (Some(n), Meaning::Function { params, .. }) => n != params,
        _ => false,
    }
}

/// Whether a name, given by its number, is `main`.
pub fn is_main(names: &Labels, id: u32) -> bool
    ensures { result ≡ rules.is_main (names.now) id }
{
    if id >= names.len() {
        return false;
    }
    is_main_text(names.get(id).as_bytes())
}

fn is_main_text(name: &[u8]) -> bool
    ensures { result ≡ rules.same_bytes name.now (Rattle.std.specs.Prelude.codes "main") }
{
    match name {
        [a, b, c, d] => *a == b'm' && *b == b'a' && *c == b'i' && *d == b'n',
        _ => false,
    }
}

fn enters_main(names: &Labels, args: Option<usize>, means: Meaning, name: Name) -> bool
    ensures { result ≡ rules.enters_main (names.now) args means name }
{
    match (args, means) {
        (Some(_), Meaning::Function { .. }) => is_main(names, name.id),
        _ => false,
    }
}

fn writes(how: How) -> bool
    ensures { result ≡ rules.writes how }
{
    match how {
        How::Writes | How::WritesAt => true,
        _ => false,
    }
}

fn means_input(means: Meaning) -> bool
    ensures { result ≡ rules.means_kind rules.is_input means }
{
    match means {
        Meaning::Global {
            kind: GlobalKind::Input,
            ..
        } => true,
        _ => false,
    }
}

fn means_constant(means: Meaning) -> bool
    ensures { result ≡ rules.means_kind rules.is_constant means }
{
    match means {
        Meaning::Global {
            kind: GlobalKind::Const,
            ..
        } => true,
        _ => false,
    }
}

fn means_changing(means: Meaning) -> bool
    ensures { result ≡ rules.means_kind rules.is_changing means }
{
    match means {
        Meaning::Global {
            kind: GlobalKind::Const,
            ..
        } => false,
        Meaning::Global { .. } => true,
        _ => false,
    }
}

fn runs_void(how: How, means: Meaning) -> bool
    ensures { result ≡ rules.runs_void how means }
{
    match (how, means) {
        (How::Runs { .. }, Meaning::Function { gives, .. }) => !gives,
        _ => false,
    }
}

fn is_unknown(means: Meaning) -> bool
    ensures { result ≡ rules.is_unknown means }
{
    match means {
        Meaning::Unknown => true,
        _ => false,
    }
}

fn writes_input(how: How, means: Meaning) -> bool
    ensures { result ≡ (rules.writes how && rules.means_kind rules.is_input means) }
{
    writes(how) && means_input(means)
}

fn writes_constant(how: How, means: Meaning) -> bool
    ensures { result ≡ (rules.writes how && rules.means_kind rules.is_constant means) }
{
    writes(how) && means_constant(means)
}

fn names_changing(gives: bool, means: Meaning) -> bool
    ensures { result ≡ (gives && rules.means_kind rules.is_changing means) }
{
    gives && means_changing(means)
}

fn runs_void_inside(gives: bool, how: How, means: Meaning) -> bool
    ensures { result ≡ (gives && rules.runs_void how means) }
{
    gives && runs_void(how, means)
}

/// Judges one use of a name, and keeps the least fault.
pub fn judge_use(
    context: &Context<'_, '_>,
    how: How,
    name: Name,
    means: Meaning,
    least: &mut Option<Fault>,
)
    ensures { least.new ≡ judged (judging_in context.now) (Use how name means ∷ []) least.old }
{
    keep_fault(least, is_unknown(means), name.place, rule::NAME_UNDECLARED);
    keep_fault(least, !fits_use(how, means), name.place, rule::WRONG_KIND);
    keep_fault(
        least,
        miscounts(arguments(how), means),
        name.place,
        rule::WRONG_ARGUMENTS,
    );
    keep_fault(
        least,
        enters_main(context.names, arguments(how), means, name),
        name.place,
        rule::MAIN_CALLED,
    );
    keep_fault(
        least,
        writes_input(how, means),
        name.place,
        rule::INPUT_ASSIGNED,
    );
    keep_fault(
        least,
        writes_constant(how, means),
        name.place,
        rule::CONSTANT_ASSIGNED,
    );
    keep_fault(
        least,
        names_changing(context.gives, means),
        name.place,
        rule::INT_NAMES_GLOBAL,
    );
    keep_fault(
        least,
        runs_void_inside(context.gives, how, means),
        name.place,
        rule::INT_CALLS_VOID,
    );
}
