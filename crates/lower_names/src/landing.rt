//! Where statements land. A group of one statement is this statement, and a call without arguments of a
//! function of one statement is that one, which sees global names alone: the kernel has nothing for the
//! way there.

ghost use Rattle.std.specs.Prelude.{◌≡◌, ℕ, None, Some, option_map, slice_index_or, IfOk};
ghost use Rattle.forec_tree.specs.Plain as plain;
ghost use Rattle.forec_tree.specs.Pauses.{find_function};
ghost use Rattle.loop_check.specs.Views.{indexed_text};
ghost use Rattle.lower_names.specs.Landings as landings;
ghost use Rattle.lower_names.specs.Landings.{AllLand, FunctionLands, SameKernel, CallLands};

use forec_base::OutOfMemory;
use forec_tree::{Function, Stmt, StmtKind};
use loop_check::{Index, find_function, put, value_at};
use std::alloc::Global;

/// The statement to which a call comes, and how many calls lead to it, this one among them.
#[derive(Clone, Copy)]
pub struct Landing<'p> {
    pub statement: &'p Stmt,
    pub calls: usize,
}

/// The statement of a list of one.
fn only(body: &[Stmt]) -> Option<&Stmt>
    ensures { option_map (λ s. plain.statement s.now) result ≡ landings.only (plain.statements body.now) }
{
    if body.len() == 1 {
        Some(&body[0])
    } else {
        None
    }
}

/// The statement in a group of one.
fn inside(s: &Stmt) -> Option<&Stmt>
    ensures { option_map (λ one. plain.statement one.now) result ≡ landings.only_in_group (plain.statement s.now) }
{
    match &s.what {
        StmtKind::Group { body } => only(body.as_slice()),
        _ => None,
    }
}

/// The statement in nested groups of one; itself where it is no such group.
pub fn innermost(s: &Stmt) -> &Stmt
    ensures same { SameKernel (plain.statement s.now) (plain.statement result.now) }
    ensures last { landings.only_in_group (plain.statement result.now) ≡ None }
{
    let mut at = s;
    while let Some(one) = inside(at) {
        at = one;
    }
    at
}

/// Where the function of a name lands, by what is known of the functions.
fn known<'p>(table: &[Option<Landing<'p>>], id: u32) -> Option<Landing<'p>>
    ensures { result ≡ slice_index_or table.now id None }
{
    value_at(table, id, None)
}

/// Where a call lands by so many calls at most; only one without arguments does.
pub fn lands<'p>(index: &Index<'p>, table: &[Option<Landing<'p>>], s: &Stmt) -> Option<Landing<'p>>
    requires { AllLand (indexed_text index.now) table.now }
    ensures { CallLands (indexed_text index.now) (plain.statement s.now) result }
{
    match &s.what {
        StmtKind::Call { name, args } => {
            if args.len() == 0 {
                known(table, name.id)
            } else {
                None
            }
        }
        _ => None,
    }
}

/// Where the call of a function lands whose body is one statement.
fn function_landing<'p>(
    index: &Index<'p>,
    table: &[Option<Landing<'p>>],
    function: &'p Function,
) -> Option<Landing<'p>>
    requires { AllLand (indexed_text index.now) table.now }
    ensures { (id : ℕ) → find_function id (indexed_text index.now) ≡ Some (plain.plain_function function.now)
        → FunctionLands (indexed_text index.now) id result }
{
    if function.params.len() > 0 {
        return None;
    }
    match only(function.body.as_slice()) {
        None => None,
        Some(one) => {
            let statement = innermost(one);
            match lands(index, table, statement) {
                None => Some(Landing {
                    statement,
                    calls: 1,
                }),
                Some(next) => match next.calls.checked_add(1) {
                    None => None,
                    Some(calls) => Some(Landing {
                        statement: next.statement,
                        calls,
                    }),
                },
            }
        }
    }
}

/// Where the call of the function of a name lands.
fn landing_of<'p>(index: &Index<'p>, table: &[Option<Landing<'p>>], id: u32) -> Option<Landing<'p>>
    requires { AllLand (indexed_text index.now) table.now }
    ensures { FunctionLands (indexed_text index.now) id result }
{
    match find_function(index, id) {
        None => None,
        Some(function) => function_landing(index, table, function),
    }
}

/// Where the calls of functions land, each of which is looked at once. Behind those that it calls each
/// lands as far as it can.
pub fn landings<'p>(
    alloc: Global,
    index: &Index<'p>,
    order: &[u32],
) -> Result<Vec<Option<Landing<'p>>>, OutOfMemory>
    ensures { IfOk result (λ table. AllLand (indexed_text index.now) table.items) }
{
    let mut table = Vec::new(alloc);
    for f in order {
        let landing = landing_of(index, &table, *f);
        put(&mut table, *f, landing, None)?;
    }
    Ok(table)
}
