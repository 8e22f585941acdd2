//! Whether a statement assigns or declares a name.

ghost use Rattle.std.specs.Prelude.{◌≡◌, map};
ghost use Rattle.forec_tree.specs.Plain as plain;
ghost use Rattle.forec_tree.specs.Turns as form;

use forec_tree::{Branch, Local, Stmt, StmtKind};

/// Whether a statement declares or assigns a name, given by its number, or has a statement in it that does.
#[cycle(touch)]
pub fn touches(id: u32, s: &Stmt) -> bool
    ensures { result ≡ form.touches id (plain.statement s.now) }
{
    match &s.what {
        StmtKind::Nothing => false,
        StmtKind::Group { body } => any_touches(id, body.as_slice()),
        StmtKind::Declare { locals } => declares(id, locals.as_slice()),
        StmtKind::Assign { target, .. } => target.name.id == id,
        StmtKind::Call { .. } => false,
        StmtKind::If { yes, no, .. } => {
            if touches(id, yes) {
                return true;
            }
            match no {
                None => false,
                Some(other) => touches(id, other),
            }
        }
        StmtKind::While { body, .. } => touches(id, body),
        StmtKind::For {
            start,
            step,
            body,
            ..
        } => {
            if let Some(first) = start {
                if touches(id, first) {
                    return true;
                }
            }
            if let Some(next) = step {
                if touches(id, next) {
                    return true;
                }
            }
            touches(id, body)
        }
        StmtKind::Pause => false,
        StmtKind::Par { branches } => branches_touch(id, branches.as_slice()),
        StmtKind::Abort { body, .. } => any_touches(id, body.as_slice()),
        StmtKind::Return { .. } => false,
    }
}

#[cycle(touch)]
fn any_touches(id: u32, list: &[Stmt]) -> bool
    ensures { result ≡ form.some_touches id (plain.statements list.now) }
{
    for s in list {
        if touches(id, s) {
            return true;
        }
    }
    false
}

#[cycle(touch)]
fn branches_touch(id: u32, list: &[Branch]) -> bool
    ensures { result ≡ form.branches_touch id (plain.branches list.now) }
{
    for branch in list {
        match branch {
            Branch::Call { .. } => {}
            Branch::Group { body, .. } => {
                if any_touches(id, body.as_slice()) {
                    return true;
                }
            }
        }
    }
    false
}

fn declares(id: u32, list: &[Local]) -> bool
    ensures { result ≡ form.declares_name id (map plain.declared list.now) }
{
    for local in list {
        if local.name.id == id {
            return true;
        }
    }
    false
}
