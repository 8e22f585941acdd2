//! How many terms the translation of expressions and declarations has, up to the greatest `u64`.

ghost use Rattle.std.specs.Prelude.{◌≡◌, ◌+◌, ◌-◌, ◌^◌, min, map};
ghost use Rattle.forec_tree.specs.Plain as plain;
ghost use Rattle.text_sizes.specs.TermCounts as counts;

use forec_tree::{Branch, Expr, ExprKind, Local, OpAt, Target};

/// A sum; past the greatest number it stays there.
pub fn add(a: u64, b: u64) -> u64
    ensures { result ≡ min (a + b) (2 ^ 64 - 1) }
{
    a.saturating_add(b)
}

/// The terms of an expression.
#[cycle(terms)]
pub fn terms_of(e: &Expr) -> u64
    ensures { result ≡ min (counts.term_count (plain.term e.now)) (2 ^ 64 - 1) }
{
    match &e.what {
        ExprKind::Number { .. } => 1,
        ExprKind::Read { .. } => 1,
        ExprKind::Element { index, .. } => add(1, terms_of(index)),
        ExprKind::Unary { of, .. } => add(1, terms_of(of)),
        ExprKind::Binary { left, right, .. } => add(add(1, terms_of(left)), terms_of(right)),
        ExprKind::And { left, right } => add(add(1, terms_of(left)), terms_of(right)),
        ExprKind::Or { left, right } => add(add(1, terms_of(left)), terms_of(right)),
        ExprKind::Choose { test, yes, no } => {
            add(add(add(1, terms_of(test)), terms_of(yes)), terms_of(no))
        }
        ExprKind::Call { args, .. } => add(1, all_terms(args.as_slice())),
    }
}

/// The terms of expressions.
#[cycle(terms)]
pub fn all_terms(list: &[Expr]) -> u64
    ensures { result ≡ min (counts.terms_count (plain.terms list.now)) (2 ^ 64 - 1) }
{
    let mut total = 0;
    for e in list {
        total = add(total, terms_of(e));
    }
    total
}

/// The terms of an optional test; a missing one is a number.
pub fn optional_terms(e: &Option<Expr>) -> u64
    ensures { result ≡ min (counts.optional_count (plain.optional_term e.now)) (2 ^ 64 - 1) }
{
    match e {
        None => 1,
        Some(there) => terms_of(there),
    }
}

/// The terms of statements that each set something to one of these.
fn sets(list: &[Expr]) -> u64
    ensures { result ≡ min (counts.sets_count (plain.terms list.now)) (2 ^ 64 - 1) }
{
    let mut total = 0;
    for e in list {
        total = add(total, add(1, terms_of(e)));
    }
    total
}

/// The terms of statements that each set an element by its number to one of these.
fn values(list: &[Expr]) -> u64
    ensures { result ≡ min (counts.values_count (plain.terms list.now)) (2 ^ 64 - 1) }
{
    let mut total = 0;
    for e in list {
        total = add(total, add(2, terms_of(e)));
    }
    total
}

/// The terms of a sequence of so many statements of these terms together.
pub fn sequence(len: usize, total: u64) -> u64
    ensures { result ≡ min (counts.sequence_count len total) (2 ^ 64 - 1) }
{
    if len == 0 {
        return 1;
    }
    if len == 1 {
        return total;
    }
    add(1, total)
}

fn local_terms(local: &Local) -> u64
    ensures { result ≡ min (counts.local_count (plain.declared local.now)) (2 ^ 64 - 1) }
{
    let list = local.values.as_slice();
    match local.length {
        Some(_) => sequence(list.len() + 1, add(1, values(list))),
        None => match list.first() {
            None => 1,
            Some(value) => add(1, terms_of(value)),
        },
    }
}

/// The terms of a declaration.
pub fn declared_terms(locals: &[Local]) -> u64
    ensures { result ≡ min (counts.locals_count (map plain.declared locals.now)) (2 ^ 64 - 1) }
{
    let mut total = 0;
    for local in locals {
        total = add(total, local_terms(local));
    }
    total
}

/// The terms of an assignment: its value, the old one where it has an operator, and its index, which
/// an operator has twice.
pub fn assign_terms(target: &Target, op: Option<OpAt>, value: &Expr) -> u64
    ensures { result ≡ min (counts.assign_count (plain.written_target target.now).index op
        (counts.term_count (plain.term value.now))) (2 ^ 64 - 1) }
{
    let value = terms_of(value);
    match &target.index {
        None => match op {
            None => add(1, value),
            Some(_) => add(1, add(2, value)),
        },
        Some(at) => {
            let at = terms_of(at);
            match op {
                None => add(add(1, at), value),
                Some(_) => add(add(1, at), add(add(1, add(1, at)), value)),
            }
        }
    }
}

/// The terms of a call that is inlined: the arguments are set one by one before the body.
pub fn call_terms(args: &[Expr], body: u64) -> u64
    ensures { counts.IsCallTerms args.now body result }
{
    sequence(args.len() + 1, add(sets(args), body))
}

/// The terms of a `par` apart from itself: the arguments of its branches.
pub fn branch_terms(branches: &[Branch]) -> u64
    ensures { result ≡ min (counts.branches_count (plain.branches branches.now)) (2 ^ 64 - 1) }
{
    let mut total = 0;
    for branch in branches {
        let args = match branch {
            Branch::Call { args, .. } => all_terms(args.as_slice()),
            Branch::Group { .. } => 0,
        };
        total = add(total, args);
    }
    total
}
