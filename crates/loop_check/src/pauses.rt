//! Statements that are certain to pause, and the functions that a statement calls or starts.

ghost use Rattle.std.specs.Prelude.{◌≡◌};
ghost use Rattle.forec_tree.specs.Plain as plain;
ghost use Rattle.forec_tree.specs.Turns.{inferred};
ghost use Rattle.forec_tree.specs.Pauses as pauses;
ghost use Rattle.loop_check.specs.Views.{indexed_text};
ghost use Rattle.loop_check.specs.Known.{known};

use crate::index::Index;
use crate::numbered::value_at;
use crate::runs::{form_of, run};
use forec_tree::{Branch, Expr, ExprKind, Stmt, StmtKind};

/// The number of turns that the form of a `for` tells.
pub fn turns_of(index: &Index<'_>, s: &Stmt) -> Option<u32>
    ensures { result ≡ inferred (indexed_text index.now) (plain.statement s.now) }
{
    match form_of(s) {
        None => None,
        Some(form) => {
            if index.is_global(form.id) {
                None
            } else {
                run(form)
            }
        }
    }
}

/// A number other than 0.
pub fn is_nonzero(e: &Expr) -> bool
    ensures { result ≡ pauses.is_nonzero (plain.term e.now) }
{
    match &e.what {
        ExprKind::Number { value } => *value != 0,
        _ => false,
    }
}

/// A test that always holds: none, or a number other than 0.
pub fn always(test: &Option<Expr>) -> bool
    ensures { result ≡ pauses.always (plain.optional_term test.now) }
{
    match test {
        None => true,
        Some(e) => is_nonzero(e),
    }
}

/// One turn or more.
pub fn at_least_one(turns: Option<u32>) -> bool
    ensures { result ≡ pauses.at_least_one turns }
{
    match turns {
        None => false,
        Some(n) => n != 0,
    }
}

/// What a table says of a function; false where it says nothing.
pub fn is_known(called: &[bool], id: u32) -> bool
    ensures { result ≡ known called.now id }
{
    value_at(called, id, false)
}

/// Whether a statement is certain to pause, where `called` says it of each function by its name.
#[cycle(certain)]
pub fn is_certain(index: &Index<'_>, called: &[bool], s: &Stmt) -> bool
    ensures { result ≡ pauses.certain_by (indexed_text index.now) (known called.now) (plain.statement s.now) }
{
    match &s.what {
        StmtKind::Nothing => false,
        StmtKind::Group { body } => any_certain(index, called, body.as_slice()),
        StmtKind::Declare { .. } => false,
        StmtKind::Assign { .. } => false,
        StmtKind::Call { name, .. } => is_known(called, name.id),
        StmtKind::If { yes, no, .. } => {
            if !is_certain(index, called, yes) {
                return false;
            }
            match no {
                None => false,
                Some(other) => is_certain(index, called, other),
            }
        }
        StmtKind::While { test, body, .. } => {
            if !is_nonzero(test) {
                return false;
            }
            is_certain(index, called, body)
        }
        StmtKind::For { test, body, .. } => {
            if !always(test) {
                if !at_least_one(turns_of(index, s)) {
                    return false;
                }
            }
            is_certain(index, called, body)
        }
        StmtKind::Pause => true,
        StmtKind::Par { branches } => branch_certain(index, called, branches.as_slice()),
        StmtKind::Abort {
            immediate,
            body,
            ..
        } => {
            if *immediate {
                return false;
            }
            any_certain(index, called, body.as_slice())
        }
        StmtKind::Return { .. } => false,
    }
}

/// Whether one of some statements is certain to pause.
#[cycle(certain)]
pub fn any_certain(index: &Index<'_>, called: &[bool], list: &[Stmt]) -> bool
    ensures { result ≡ pauses.some_certain (indexed_text index.now) (known called.now) (plain.statements list.now) }
{
    for s in list {
        if is_certain(index, called, s) {
            return true;
        }
    }
    false
}

#[cycle(certain)]
fn branch_certain(index: &Index<'_>, called: &[bool], list: &[Branch]) -> bool
    ensures { result ≡ pauses.branch_certain (indexed_text index.now) (known called.now) (plain.branches list.now) }
{
    for branch in list {
        match branch {
            Branch::Call { name, .. } => {
                if is_known(called, name.id) {
                    return true;
                }
            }
            Branch::Group { body, .. } => {
                if any_certain(index, called, body.as_slice()) {
                    return true;
                }
            }
        }
    }
    false
}
