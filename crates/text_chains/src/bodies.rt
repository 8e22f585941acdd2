//! What statements bring.

ghost use Rattle.std.specs.Prelude.{◌≡◌, ◌≤◌, ℕ};
ghost use Rattle.forec_tree.specs.Plain as plain;
ghost use Rattle.forec_tree.specs.Plain.{perhaps_of};
ghost use Rattle.text_chains.specs.declared.tally.Tally.{Tally};
ghost use Rattle.text_chains.specs.Tallies as of;
ghost use Rattle.text_chains.specs.Tallies.{tally_at};
ghost use Rattle.text_chains.specs.Views.{value_by, AddsTally, AddsNaming};

use crate::tally::{Tally, Weights, calling, joined, known_of, nothing, started};
use crate::terms::{hides_locals, locals, optional_term, sets, target, term, terms};
use forec_tree::{Branch, Stmt, StmtKind};

/// What the branches of a `par` bring, and how many of them name the variable.
#[derive(Clone, Copy)]
struct Spread {
    tally: Tally,
    naming: usize,
}

/// Whether the variable is hidden after a statement.
fn after(w: &Weights<'_>, hidden: bool, s: &Stmt) -> bool
    ensures { result ≡ of.hides_after w.now.variable hidden (plain.statement s.now) }
{
    match &s.what {
        StmtKind::Declare { locals } => hides_locals(w, hidden, locals.as_slice()),
        _ => hidden,
    }
}

fn after_optional(w: &Weights<'_>, hidden: bool, s: &Option<Box<Stmt>>) -> bool
    ensures { result ≡ of.hides_after_perhaps w.now.variable hidden (perhaps_of s.now) }
{
    match s {
        None => hidden,
        Some(there) => after(w, hidden, there),
    }
}

/// What a `par` calls, of whose branches so many name the variable.
fn folded(w: &Weights<'_>, naming: usize) -> u64
    ensures { (known : ℕ → Tally) → result ≡ of.calls_worth w.now.variable w.now.array (value_by w.now) w.now.worth
        known naming }
{
    if 1 < naming { w.worth } else { 0 }
}

/// A statement.
#[cycle(statement)]
fn statement(w: &Weights<'_>, table: &[Tally], hidden: bool, s: &Stmt) -> Tally
    ensures { result ≡ of.tally w.now.variable w.now.array (value_by w.now) w.now.worth (tally_at table.now) hidden
        (plain.statement s.now) }
{
    match &s.what {
        StmtKind::Nothing => nothing(),
        StmtKind::Pause => nothing(),
        StmtKind::Group { body } => all(w, table, hidden, body.as_slice()),
        StmtKind::Declare { locals: list } => locals(w, hidden, list.as_slice()),
        StmtKind::Assign {
            target: to,
            value,
            ..
        } => joined(target(w, hidden, to), term(w, hidden, value)),
        StmtKind::Call { name, args } => {
            joined(sets(w, hidden, args.as_slice()), known_of(table, name.id))
        }
        StmtKind::If { test, yes, no } => {
            let yes = statement(w, table, hidden, yes);
            let sides = joined(yes, optional(w, table, hidden, no));
            joined(term(w, hidden, test), sides)
        }
        StmtKind::While { test, body, .. } => {
            joined(term(w, hidden, test), statement(w, table, hidden, body))
        }
        StmtKind::For {
            start,
            test,
            step,
            body,
            ..
        } => {
            let inside = after_optional(w, hidden, start);
            let body = statement(w, table, after_optional(w, inside, step), body);
            let turn = joined(optional(w, table, inside, step), body);
            let turned = joined(optional_term(w, inside, test), turn);
            joined(optional(w, table, hidden, start), turned)
        }
        StmtKind::Par { branches: list } => {
            let all = branches(w, table, hidden, list.as_slice());
            joined(calling(folded(w, all.naming)), all.tally)
        }
        StmtKind::Abort { test, body, .. } => {
            joined(
                term(w, hidden, test),
                all(w, table, hidden, body.as_slice()),
            )
        }
        StmtKind::Return { value } => term(w, hidden, value),
    }
}

#[cycle(statement)]
fn optional(w: &Weights<'_>, table: &[Tally], hidden: bool, s: &Option<Box<Stmt>>) -> Tally
    ensures { result ≡ of.perhaps_tally w.now.variable w.now.array (value_by w.now) w.now.worth (tally_at table.now)
        hidden (perhaps_of s.now) }
{
    match s {
        None => nothing(),
        Some(there) => statement(w, table, hidden, there),
    }
}

/// Statements, one after the other.
#[cycle(statement)]
pub fn all(w: &Weights<'_>, table: &[Tally], hidden: bool, list: &[Stmt]) -> Tally
    ensures { result ≡ of.all_tally w.now.variable w.now.array (value_by w.now) w.now.worth (tally_at table.now) hidden
        (plain.statements list.now) }
{
    let mut total = nothing();
    let mut now_hidden = hidden;
    for s in list {
        total = joined(total, statement(w, table, now_hidden, s));
        now_hidden = after(w, now_hidden, s);
    }
    total
}

/// A branch of a `par`, and the arguments that its thread gets.
#[cycle(statement)]
fn branch(w: &Weights<'_>, table: &[Tally], hidden: bool, b: &Branch) -> Spread
    ensures tally { AddsTally w.now table.now hidden b.now result.tally }
    ensures naming { AddsNaming w.now table.now b.now result.naming }
    ensures one { result.naming ≤ 1 }
{
    match b {
        Branch::Call { name, args } => {
            let known = known_of(table, name.id);
            let args = args.as_slice();
            let own = started(args.len() as u64, known);
            Spread {
                tally: joined(terms(w, hidden, args), own),
                naming: usize::from(known.named),
            }
        }
        Branch::Group { body, .. } => {
            let body = all(w, table, false, body.as_slice());
            Spread {
                tally: started(0, body),
                naming: usize::from(body.named),
            }
        }
    }
}

#[cycle(statement)]
fn branches(w: &Weights<'_>, table: &[Tally], hidden: bool, list: &[Branch]) -> Spread
    ensures tally { result.tally ≡ of.branches_tally w.now.variable w.now.array (value_by w.now) w.now.worth
        (tally_at table.now) hidden (plain.branches list.now) }
    ensures naming { result.naming ≡ of.branches_naming w.now.variable w.now.array (value_by w.now) w.now.worth
        (tally_at table.now) (plain.branches list.now) }
{
    let mut total = Spread {
        tally: nothing(),
        naming: 0,
    };
    for b in list {
        let one = branch(w, table, hidden, b);
        total = Spread {
            tally: joined(total.tally, one.tally),
            naming: total.naming + one.naming,
        };
    }
    total
}
