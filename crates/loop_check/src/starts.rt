//! The functions that a statement calls or starts.

ghost use Rattle.std.specs.Prelude.{◌≡◌, ◌++◌, OnOk};
ghost use Rattle.forec_tree.specs.Plain as plain;
ghost use Rattle.forec_tree.specs.Pauses as pauses;
ghost use Rattle.forec_tree.specs.Plain.{perhaps_of};

use forec_base::OutOfMemory;
use forec_tree::{Branch, Stmt, StmtKind};

#[cycle(start)]
fn started(list: &mut Vec<u32>, s: &Stmt) -> Result<(), OutOfMemory>
    ensures { OnOk result (list.new.items ≡ list.old.items ++ pauses.started_names (plain.statement s.now)) }
{
    match &s.what {
        StmtKind::Group { body } => all_started(list, body.as_slice()),
        StmtKind::Call { name, .. } => Ok(list.push(name.id)?),
        StmtKind::If { yes, no, .. } => {
            started(list, yes)?;
            optional_started(list, no)
        }
        StmtKind::While { body, .. } => started(list, body),
        StmtKind::For {
            start,
            step,
            body,
            ..
        } => {
            optional_started(list, start)?;
            optional_started(list, step)?;
            started(list, body)
        }
        StmtKind::Par { branches } => branches_started(list, branches.as_slice()),
        StmtKind::Abort { body, .. } => all_started(list, body.as_slice()),
        _ => Ok(()),
    }
}

#[cycle(start)]
fn optional_started(list: &mut Vec<u32>, s: &Option<Box<Stmt>>) -> Result<(), OutOfMemory>
    ensures { OnOk result (list.new.items ≡ list.old.items ++ pauses.perhaps_started (perhaps_of s.now)) }
{
    match s {
        None => Ok(()),
        Some(inner) => started(list, inner),
    }
}

/// Adds the functions that some statements call or start, in order.
#[cycle(start)]
pub fn all_started(list: &mut Vec<u32>, body: &[Stmt]) -> Result<(), OutOfMemory>
    ensures { OnOk result (list.new.items ≡ list.old.items ++ pauses.all_started (plain.statements body.now)) }
{
    for s in body {
        started(list, s)?;
    }
    Ok(())
}

#[cycle(start)]
fn branches_started(list: &mut Vec<u32>, branches: &[Branch]) -> Result<(), OutOfMemory>
    ensures { OnOk result (list.new.items ≡ list.old.items ++ pauses.branches_started (plain.branches branches.now)) }
{
    for branch in branches {
        match branch {
            Branch::Call { name, .. } => list.push(name.id)?,
            Branch::Group { body, .. } => all_started(list, body.as_slice())?,
        }
    }
    Ok(())
}
