//! The pars in bodies of the kernel, each by the threads of its branches.

ghost use Rattle.std.specs.Prelude.{◌≡◌, ◌++◌, map, OnOk, IfOk};
ghost use Rattle.forec_kernel.specs.Plain as kernel;
ghost use Rattle.forec_kernel.specs.WellFormed as of;
ghost use Rattle.kernel_drafts.specs.Reach.{list_items};

use forec_base::OutOfMemory;
use forec_kernel::{Launch, Statement};
use std::alloc::Global;

fn launched(alloc: Global, launches: &[Launch]) -> Result<Vec<u32>, OutOfMemory>
    ensures { IfOk result (λ list. list.items ≡ of.threads_in (map kernel.branch launches.now)) }
{
    let mut list = Vec::new(alloc);
    for launch in launches {
        list.push(launch.thread)?;
    }
    Ok(list)
}

/// Adds the pars in a statement to a list, in order, each by the threads of its branches.
#[cycle(pars)]
pub fn pars(alloc: Global, found: &mut Vec<Vec<u32>>, s: &Statement) -> Result<(), OutOfMemory>
    ensures { OnOk result (map list_items found.new.items ≡ map list_items found.old.items
        ++ of.pars_of (kernel.stmt s.now)) }
{
    match s {
        Statement::Sequence { list } => {
            list_pars(alloc, found, list.as_slice())?;
            Ok(())
        }
        Statement::If { yes, no, .. } => {
            pars(alloc, found, yes)?;
            pars(alloc, found, no)?;
            Ok(())
        }
        Statement::While { body, .. } => {
            pars(alloc, found, body)?;
            Ok(())
        }
        Statement::Enter { body, .. } => {
            pars(alloc, found, body)?;
            Ok(())
        }
        Statement::Par { branches } => {
            let threads = launched(alloc, branches.as_slice())?;
            found.push(threads)?;
            Ok(())
        }
        _ => Ok(()),
    }
}

#[cycle(pars)]
fn list_pars(
    alloc: Global,
    found: &mut Vec<Vec<u32>>,
    list: &[Statement],
) -> Result<(), OutOfMemory>
    ensures { OnOk result (map list_items found.new.items ≡ map list_items found.old.items
        ++ of.pars_in (kernel.stmts list.now)) }
{
    for s in list {
        pars(alloc, found, s)?;
    }
    Ok(())
}
