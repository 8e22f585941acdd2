//! What expressions and declarations bring.

ghost use Rattle.std.specs.Prelude.{◌≡◌, false, map};
ghost use Rattle.forec_tree.specs.Plain as plain;
ghost use Rattle.text_chains.specs.Tallies as of;
ghost use Rattle.text_chains.specs.Views.{value_by};

use crate::tally::{
    Tally, Weights, calling, hides, joined, names_alone, names_indexed, naming, nothing, taking,
    value,
};
use forec_tree::{Expr, ExprKind, Local, Name, Target};
use text_kernel::slots_of;

/// An expression.
#[cycle(terms)]
pub fn term(w: &Weights<'_>, hidden: bool, e: &Expr) -> Tally
    ensures { result ≡ of.of_term w.now.variable w.now.array (value_by w.now) hidden (plain.term e.now) }
{
    match &e.what {
        ExprKind::Number { .. } => nothing(),
        ExprKind::Read { name } => naming(names_alone(w, hidden, name.id)),
        ExprKind::Element { name, index } => {
            let named = naming(names_indexed(w, hidden, name.id));
            joined(named, term(w, hidden, index))
        }
        ExprKind::Unary { of, .. } => term(w, hidden, of),
        ExprKind::Binary { left, right, .. } => joined(
            term(w, hidden, left),
            term(w, hidden, right),
        ),
        ExprKind::And { left, right } => joined(term(w, hidden, left), term(w, hidden, right)),
        ExprKind::Or { left, right } => joined(term(w, hidden, left), term(w, hidden, right)),
        ExprKind::Choose { test, yes, no } => {
            let sides = joined(term(w, hidden, yes), term(w, hidden, no));
            joined(term(w, hidden, test), sides)
        }
        ExprKind::Call { name, args } => {
            joined(
                calling(value(w, name.id)),
                terms(w, hidden, args.as_slice()),
            )
        }
    }
}

/// Expressions, one after the other.
#[cycle(terms)]
pub fn terms(w: &Weights<'_>, hidden: bool, list: &[Expr]) -> Tally
    ensures { result ≡ of.of_terms w.now.variable w.now.array (value_by w.now) hidden (plain.terms list.now) }
{
    let mut total = nothing();
    for e in list {
        total = joined(total, term(w, hidden, e));
    }
    total
}

/// An optional test.
pub fn optional_term(w: &Weights<'_>, hidden: bool, e: &Option<Expr>) -> Tally
    ensures { result ≡ of.of_optional w.now.variable w.now.array (value_by w.now) hidden (plain.optional_term e.now) }
{
    match e {
        None => nothing(),
        Some(there) => term(w, hidden, there),
    }
}

/// What an assignment writes to.
pub fn target(w: &Weights<'_>, hidden: bool, t: &Target) -> Tally
    ensures { result ≡ of.of_target w.now.variable w.now.array (value_by w.now) hidden (plain.written_target t.now) }
{
    match &t.index {
        None => naming(names_alone(w, hidden, t.name.id)),
        Some(index) => {
            let named = naming(names_indexed(w, hidden, t.name.id));
            joined(named, term(w, hidden, index))
        }
    }
}

/// The arguments of a call that is inlined: each is set to a word of its own.
pub fn sets(w: &Weights<'_>, hidden: bool, args: &[Expr]) -> Tally
    ensures { result ≡ of.of_sets w.now.variable w.now.array (value_by w.now) hidden (plain.terms args.now) }
{
    joined(taking(args.len() as u64), terms(w, hidden, args))
}

fn local(w: &Weights<'_>, hidden: bool, l: &Local) -> Tally
    ensures { result ≡ of.of_local w.now.variable w.now.array (value_by w.now) hidden (plain.declared l.now) }
{
    let list = l.values.as_slice();
    let values = match l.length {
        Some(_) => terms(w, hidden, list),
        None => match list.first() {
            None => nothing(),
            Some(value) => term(w, hidden, value),
        },
    };
    joined(taking(u64::from(slots_of(l.length))), values)
}

/// A declaration. Each initial value stands before its name.
pub fn locals(w: &Weights<'_>, hidden: bool, list: &[Local]) -> Tally
    ensures { result ≡ of.of_locals w.now.variable w.now.array (value_by w.now) hidden (map plain.declared list.now) }
{
    let mut total = nothing();
    let mut now_hidden = hidden;
    for l in list {
        total = joined(total, local(w, now_hidden, l));
        now_hidden = hides(w, now_hidden, l.name.id);
    }
    total
}

/// Whether the variable is hidden after a declaration.
pub fn hides_locals(w: &Weights<'_>, hidden: bool, list: &[Local]) -> bool
    ensures { result ≡ of.hides_locals w.now.variable hidden (map plain.declared list.now) }
{
    let mut now_hidden = hidden;
    for l in list {
        now_hidden = hides(w, now_hidden, l.name.id);
    }
    now_hidden
}

/// Whether the variable is hidden by a parameter.
pub fn hides_params(w: &Weights<'_>, params: &[Name]) -> bool
    ensures { result ≡ of.hides_params w.now.variable false params.now }
{
    let mut hidden = false;
    for p in params {
        hidden = hides(w, hidden, p.id);
    }
    hidden
}
