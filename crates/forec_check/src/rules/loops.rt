//! Rule 20: a loop may run for ever in one tick.

ghost use Rattle.std.specs.Prelude.{◌≡◌, ◌&&◌, not, map};
ghost use Rattle.forec_tree.specs.Plain as plain;
ghost use Rattle.forec_tree.specs.Plain.{perhaps_of};
ghost use Rattle.forec_tree.specs.Rules as rules;
ghost use Rattle.forec_tree.specs.Rules.{fault_if};
ghost use Rattle.forec_tree.specs.Turns.{inferred};
ghost use Rattle.forec_tree.specs.Pauses.{certain, certain_function, certain_perhaps, some_certain, branch_certain};
ghost use Rattle.fault_order.specs.Least.{least_from};
ghost use Rattle.loop_check.specs.Judges.{judge_text};
ghost use Rattle.forec_check.specs.Loops.{loops_in, loops_in_perhaps, loops_in_all, loops_in_branches, all_loops, loops_faults};

use fault_order::keep_fault;
use forec_tree::{Branch, Fault, Item, Number, Stmt, StmtKind, rule};
use loop_check::{Pauses, always, at_least_one, is_nonzero};

fn is_endless(bound: Option<Number>, turns: Option<u32>, pausing: bool) -> bool
    ensures { result ≡ (rules.is_none bound && (rules.is_none turns && not pausing)) }
{
    if bound.is_some() {
        return false;
    }
    if turns.is_some() {
        return false;
    }
    !pausing
}

/// Keeps the fault of a loop that may run for ever, and tells the number of turns of its form.
fn keep_endless(
    pauses: &Pauses<'_>,
    s: &Stmt,
    bound: Option<Number>,
    inside: bool,
    least: &mut Option<Fault>,
) -> Option<u32>
    ensures turns { result ≡ inferred (judge_text pauses.now) (plain.statement s.now) }
    ensures least { least.new ≡ least_from least.old
        (fault_if (rules.is_none bound
        && (rules.is_none (inferred (judge_text pauses.now) (plain.statement s.now)) && not inside)) s.now.place 20) }
{
    let turns = pauses.turns(s);
    keep_fault(
        least,
        is_endless(bound, turns, inside),
        s.place,
        rule::ENDLESS_LOOP,
    );
    turns
}

/// Keeps the least fault of the loops in a statement, those inside first, and tells whether the
/// statement is certain to pause.
#[cycle(loops)]
fn judge_statement(pauses: &Pauses<'_>, s: &Stmt, least: &mut Option<Fault>) -> bool
    ensures certain { result ≡ certain (judge_text pauses.now) (plain.statement s.now) }
    ensures least { least.new ≡ least_from least.old (loops_faults (judge_text pauses.now)
        (loops_in (plain.statement s.now))) }
{
    match &s.what {
        StmtKind::Nothing => false,
        StmtKind::Group { body } => judge_statements(pauses, body.as_slice(), least),
        StmtKind::Declare { .. } => false,
        StmtKind::Assign { .. } => false,
        StmtKind::Call { name, .. } => pauses.function(name.id),
        StmtKind::If { yes, no, .. } => {
            let first = judge_statement(pauses, yes, least);
            let second = judge_optional_statement(pauses, no, least);
            first && second
        }
        StmtKind::While { test, bound, body } => {
            let inside = judge_statement(pauses, body, least);
            let _ = keep_endless(pauses, s, *bound, inside, least);
            is_nonzero(test) && inside
        }
        StmtKind::For {
            start,
            test,
            step,
            bound,
            body,
        } => {
            let _ = judge_optional_statement(pauses, start, least);
            let _ = judge_optional_statement(pauses, step, least);
            let inside = judge_statement(pauses, body, least);
            let turns = keep_endless(pauses, s, *bound, inside, least);
            let runs = always(test) || at_least_one(turns);
            runs && inside
        }
        StmtKind::Pause => true,
        StmtKind::Par { branches } => judge_branches(pauses, branches.as_slice(), least),
        StmtKind::Abort {
            immediate,
            body,
            ..
        } => {
            let inside = judge_statements(pauses, body.as_slice(), least);
            !*immediate && inside
        }
        StmtKind::Return { .. } => false,
    }
}

#[cycle(loops)]
fn judge_optional_statement(
    pauses: &Pauses<'_>,
    s: &Option<Box<Stmt>>,
    least: &mut Option<Fault>,
) -> bool
    ensures certain { result ≡ certain_perhaps (judge_text pauses.now) (certain_function (judge_text pauses.now))
        (perhaps_of s.now) }
    ensures least { least.new ≡ least_from least.old (loops_faults (judge_text pauses.now)
        (loops_in_perhaps (perhaps_of s.now))) }
{
    match s {
        None => false,
        Some(there) => judge_statement(pauses, there, least),
    }
}

#[cycle(loops)]
fn judge_statements(pauses: &Pauses<'_>, list: &[Stmt], least: &mut Option<Fault>) -> bool
    ensures certain { result ≡ some_certain (judge_text pauses.now) (certain_function (judge_text pauses.now))
        (plain.statements list.now) }
    ensures least { least.new ≡ least_from least.old (loops_faults (judge_text pauses.now)
        (loops_in_all (plain.statements list.now))) }
{
    let mut found = false;
    for s in list {
        if judge_statement(pauses, s, least) {
            found = true;
        }
    }
    found
}

#[cycle(loops)]
fn judge_branches(pauses: &Pauses<'_>, list: &[Branch], least: &mut Option<Fault>) -> bool
    ensures certain { result ≡ branch_certain (judge_text pauses.now) (certain_function (judge_text pauses.now))
        (plain.branches list.now) }
    ensures least { least.new ≡ least_from least.old (loops_faults (judge_text pauses.now)
        (loops_in_branches (plain.branches list.now))) }
{
    let mut found = false;
    for branch in list {
        let one = match branch {
            Branch::Call { name, .. } => pauses.function(name.id),
            Branch::Group { body, .. } => judge_statements(pauses, body.as_slice(), least),
        };
        if one {
            found = true;
        }
    }
    found
}

/// Keeps the least fault of loops that have no bound, no turns by their form, and no certain pause.
/// One walk over the text judges each statement once; the form of a `for` is looked for in its body,
/// which costs a look at it for each `for` round it.
pub fn judge_loops(pauses: &Pauses<'_>, items: &[Item], least: &mut Option<Fault>)
    ensures { least.new ≡ least_from least.old (loops_faults (judge_text pauses.now)
        (all_loops (map plain.plain_item items.now))) }
{
    for item in items {
        match item {
            Item::Global { .. } => {}
            Item::Function { function } => {
                let _ = judge_statements(pauses, function.body.as_slice(), least);
            }
        }
    }
}
