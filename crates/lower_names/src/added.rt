//! How many threads and `par`s a text adds, with those of the functions that are inlined. Threads and
//! `par`s are numbered in preorder: a branch takes as many numbers as its text adds.

ghost use Rattle.std.specs.Prelude.{◌≡◌, ◌∷◌, [], ℕ, None, Some, slice_index_or, IfOk};
ghost use Rattle.forec_base.specs.declared.Place.{Place};
ghost use Rattle.forec_tree.specs.Plain as plain;
ghost use Rattle.forec_tree.specs.Plain.{perhaps_of};
ghost use Rattle.forec_tree.specs.Terms as tree;
ghost use Rattle.forec_tree.specs.Terms.{Text};
ghost use Rattle.loop_check.specs.Views.{indexed_text};
ghost use Rattle.lower_names.specs.Additions as additions;
ghost use Rattle.lower_names.specs.Additions.{StatementAdds, PerhapsAdds, ListAdds, BranchesAdd, BodyAdds, FunctionAdds, AllAdd, AddsTogether};

use crate::parts::sum;
use forec_base::OutOfMemory;
use forec_tree::{Branch, Function, Stmt, StmtKind};
use loop_check::{Index, find_function, put, value_at};
use std::alloc::Global;

/// How many threads and `par`s a text adds, where so many calls may nest.
#[derive(Clone, Copy)]
pub struct Added {
    pub threads: u32,
    pub pars: u32,
    pub calls: usize,
}

/// What a text adds without calls and branches.
fn nothing() -> Added
    ensures { result ≡ additions.no_additions }
{
    Added {
        threads: 0,
        pars: 0,
        calls: 0,
    }
}

/// What two texts add together.
fn both(a: Added, b: Added) -> Result<Added, OutOfMemory>
    ensures { IfOk result (AddsTogether a b) }
{
    let threads = sum(a.threads, b.threads)?;
    let pars = sum(a.pars, b.pars)?;
    Ok(Added {
        threads,
        pars,
        calls: a.calls.max(b.calls),
    })
}

/// What the function of a name adds. One that isn't known adds more than 32 bits hold.
fn known(table: &[Option<Added>], id: u32) -> Result<Added, OutOfMemory>
    ensures { IfOk result (λ a. slice_index_or table.now id None ≡ Some a) }
{
    match value_at(table, id, None) {
        None => Err(OutOfMemory),
        Some(added) => Ok(added),
    }
}

/// What a statement adds, by what is known of the functions.
#[cycle(added)]
fn of_statement(table: &[Option<Added>], s: &Stmt) -> Result<Added, OutOfMemory>
    ensures { IfOk result (λ a. (text : Text) → AllAdd text table.now → StatementAdds text (plain.statement s.now) a) }
{
    match &s.what {
        StmtKind::Nothing => Ok(nothing()),
        StmtKind::Pause => Ok(nothing()),
        StmtKind::Declare { .. } => Ok(nothing()),
        StmtKind::Assign { .. } => Ok(nothing()),
        StmtKind::Return { .. } => Ok(nothing()),
        StmtKind::Group { body } => {
            let added = of_list(table, body.as_slice())?;
            Ok(added)
        }
        StmtKind::Call { name, .. } => {
            let added = known(table, name.id)?;
            Ok(added)
        }
        StmtKind::If { yes, no, .. } => {
            let yes = of_statement(table, yes)?;
            let no = of_optional(table, no)?;
            let added = both(yes, no)?;
            Ok(added)
        }
        StmtKind::While { body, .. } => {
            let added = of_statement(table, body)?;
            Ok(added)
        }
        StmtKind::For {
            start,
            step,
            body,
            ..
        } => {
            let start = of_optional(table, start)?;
            let step = of_optional(table, step)?;
            let body = of_statement(table, body)?;
            let turned = both(step, body)?;
            let added = both(start, turned)?;
            Ok(added)
        }
        StmtKind::Par { branches } => {
            let added = of_par(table, branches.as_slice())?;
            Ok(added)
        }
        StmtKind::Abort { body, .. } => {
            let added = of_list(table, body.as_slice())?;
            Ok(added)
        }
    }
}

/// What an optional statement adds.
#[cycle(added)]
fn of_optional(table: &[Option<Added>], s: &Option<Box<Stmt>>) -> Result<Added, OutOfMemory>
    ensures { IfOk result (λ a. (text : Text) → AllAdd text table.now → PerhapsAdds text (perhaps_of s.now) a) }
{
    match s {
        None => Ok(nothing()),
        Some(there) => {
            let added = of_statement(table, there)?;
            Ok(added)
        }
    }
}

/// What statements add.
#[cycle(added)]
fn of_list(table: &[Option<Added>], list: &[Stmt]) -> Result<Added, OutOfMemory>
    ensures { IfOk result (λ a. (text : Text) → AllAdd text table.now → ListAdds text (plain.statements list.now) a) }
{
    let mut total = nothing();
    for s in list {
        let more = of_statement(table, s)?;
        total = both(total, more)?;
    }
    Ok(total)
}

/// What a branch adds, its own thread among them.
///
/// # Errors
///
/// Out of memory, also where it adds more threads than 32 bits hold.
#[cycle(added)]
pub fn of_branch(table: &[Option<Added>], one: &Branch) -> Result<Added, OutOfMemory>
    ensures { IfOk result (λ a. (text : Text) → AllAdd text table.now
        → BranchesAdd text (plain.branches (one.now ∷ [])) a) }
{
    let thread = Added {
        threads: 1,
        pars: 0,
        calls: 0,
    };
    match one {
        Branch::Call { name, .. } => {
            let below = known(table, name.id)?;
            let added = both(thread, below)?;
            Ok(added)
        }
        Branch::Group { body, .. } => {
            let below = of_list(table, body.as_slice())?;
            let added = both(thread, below)?;
            Ok(added)
        }
    }
}

/// What branches add.
#[cycle(added)]
fn of_branches(table: &[Option<Added>], list: &[Branch]) -> Result<Added, OutOfMemory>
    ensures { IfOk result (λ a. (text : Text) → AllAdd text table.now → BranchesAdd text (plain.branches list.now) a) }
{
    let mut total = nothing();
    for one in list {
        let more = of_branch(table, one)?;
        total = both(total, more)?;
    }
    Ok(total)
}

/// What a `par` adds, itself among them; one without branches adds nothing.
#[cycle(added)]
fn of_par(table: &[Option<Added>], list: &[Branch]) -> Result<Added, OutOfMemory>
    ensures { IfOk result (λ a. (text : Text) → AllAdd text table.now → (at : Place)
        → StatementAdds text (tree.Par at (plain.branches list.now)) a) }
{
    if list.is_empty() {
        return Ok(nothing());
    }
    let par = Added {
        threads: 0,
        pars: 1,
        calls: 0,
    };
    let below = of_branches(table, list)?;
    let added = both(par, below)?;
    Ok(added)
}

/// What the function of a text adds, which is a call more.
fn of_function(table: &[Option<Added>], function: &Function) -> Result<Added, OutOfMemory>
    ensures { IfOk result (λ a. (text : Text) → AllAdd text table.now
        → BodyAdds text (plain.plain_function function.now) a) }
{
    let body = function.body.as_slice();
    let below = of_list(table, body)?;
    let Some(calls) = below.calls.checked_add(1) else {
        return Err(OutOfMemory);
    };
    Ok(Added {
        threads: below.threads,
        pars: below.pars,
        calls,
    })
}

/// What the function of a name adds, by what is known of those that it calls.
fn of_name(index: &Index<'_>, table: &[Option<Added>], id: u32) -> Option<Added>
    requires { AllAdd (indexed_text index.now) table.now }
    ensures { FunctionAdds (indexed_text index.now) id result }
{
    match find_function(index, id) {
        None => Some(nothing()),
        Some(function) => match of_function(table, function) {
            Err(_) => None,
            Ok(added) => Some(added),
        },
    }
}

/// What the calls of functions add, each of which is looked at once, after those that it calls.
pub fn additions(
    alloc: Global,
    index: &Index<'_>,
    order: &[u32],
) -> Result<Vec<Option<Added>>, OutOfMemory>
    ensures { IfOk result (λ table. AllAdd (indexed_text index.now) table.items) }
{
    let mut table = Vec::new(alloc);
    for f in order {
        let added = of_name(index, &table, *f);
        put(&mut table, *f, added, None)?;
    }
    Ok(table)
}
