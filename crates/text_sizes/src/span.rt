//! How many words the threads of a program take, and at least how many statements nest,
//! up to the greatest `u64`, without it being made: each function is looked at once, after those that it
//! calls or starts.

ghost use Rattle.std.specs.Prelude.{◌≡◌, ◌+◌, ◌-◌, ◌^◌, suc, min, map};
ghost use Rattle.forec_tree.specs.Plain as plain;
ghost use Rattle.forec_tree.specs.Terms as tree;
ghost use Rattle.forec_tree.specs.Plain.{perhaps_of};
ghost use Rattle.text_sizes.specs.TermCounts as counts;
ghost use Rattle.text_sizes.specs.Spans as of;

use crate::tally::add;
use forec_tree::{Expr, Local, Stmt, StmtKind};
use loop_check::value_at;
use text_kernel::slots_of;

/// The words of a function that is inlined, after its parameters, and those of the widest thread
/// below it; how many statements nest in it, and in the deepest thread below it.
#[derive(Clone, Copy)]
pub struct Span {
    pub slots: u64,
    pub widest: u64,
    pub levels: u64,
    pub deepest: u64,
}

/// What is inlined where there is no function.
pub fn no_span() -> Span
    ensures { result ≡ of.no_span }
{
    Span {
        slots: 0,
        widest: 0,
        levels: 0,
        deepest: 0,
    }
}

/// What is known of the function of a number; one that isn't known is inlined as `nop`.
pub fn span_of(table: &[Span], id: u32) -> Span
    ensures { result ≡ of.span_at table.now id }
{
    value_at(table, id, no_span())
}

/// The words of a declaration.
fn locals_slots(locals: &[Local]) -> u64
    ensures { result ≡ min (counts.locals_slots (map plain.declared locals.now)) (2 ^ 64 - 1) }
{
    let mut total = 0;
    for local in locals {
        total = add(total, u64::from(slots_of(local.length)));
    }
    total
}

/// How many arguments there are.
pub fn arguments(args: &[Expr]) -> u64
    ensures { result ≡ tree.count_terms (plain.terms args.now) }
{
    args.len() as u64
}

/// The words that a statement takes.
#[cycle(slots)]
fn slots(table: &[Span], s: &Stmt) -> u64
    ensures { result ≡ min (counts.slots (of.slots_at table.now) (plain.statement s.now)) (2 ^ 64 - 1) }
{
    match &s.what {
        StmtKind::Group { body } => all_slots(table, body.as_slice()),
        StmtKind::Declare { locals } => locals_slots(locals.as_slice()),
        StmtKind::Call { name, args } => {
            add(arguments(args.as_slice()), span_of(table, name.id).slots)
        }
        StmtKind::If { yes, no, .. } => add(slots(table, yes), optional_slots(table, no)),
        StmtKind::While { body, .. } => slots(table, body),
        StmtKind::For {
            start,
            step,
            body,
            ..
        } => {
            let head = optional_slots(table, start);
            add(head, add(optional_slots(table, step), slots(table, body)))
        }
        StmtKind::Abort { body, .. } => all_slots(table, body.as_slice()),
        _ => 0,
    }
}

#[cycle(slots)]
fn optional_slots(table: &[Span], s: &Option<Box<Stmt>>) -> u64
    ensures { result ≡ min (counts.slots_perhaps (of.slots_at table.now) (perhaps_of s.now)) (2 ^ 64 - 1) }
{
    match s {
        None => 0,
        Some(there) => slots(table, there),
    }
}

/// The words that statements take.
#[cycle(slots)]
pub fn all_slots(table: &[Span], list: &[Stmt]) -> u64
    ensures { result ≡ min (counts.slots_all (of.slots_at table.now) (plain.statements list.now)) (2 ^ 64 - 1) }
{
    let mut total = 0;
    for s in list {
        total = add(total, slots(table, s));
    }
    total
}

/// The levels of a sequence of so many statements, of which one has so many.
fn sequence_levels(len: usize, most: u64) -> u64
    ensures { result ≡ min (of.sequence_levels len most) (2 ^ 64 - 1) }
{
    if len <= 1 {
        return most;
    }
    add(1, most)
}

/// The levels of a call that is inlined: the arguments are set one by one before the body.
fn call_levels(args: &[Expr], body: u64) -> u64
    ensures { result ≡ min (of.sequence_levels (suc (tree.count_terms (plain.terms args.now))) body) (2 ^ 64 - 1) }
{
    if args.is_empty() {
        return body;
    }
    add(1, body)
}

/// How many statements nest.
#[cycle(levels)]
fn levels(table: &[Span], s: &Stmt) -> u64
    ensures { result ≡ min (of.levels (of.levels_at table.now) (plain.statement s.now)) (2 ^ 64 - 1) }
{
    match &s.what {
        StmtKind::Group { body } => block_levels(table, body.as_slice()),
        StmtKind::Call { name, args } => {
            call_levels(args.as_slice(), span_of(table, name.id).levels)
        }
        StmtKind::If { yes, no, .. } => {
            let yes = levels(table, yes);
            add(1, yes.max(optional_levels(table, no)))
        }
        StmtKind::While { body, .. } => add(1, levels(table, body)),
        StmtKind::For {
            start,
            step,
            body,
            ..
        } => {
            let step = optional_levels(table, step);
            let turned = add(1, step.max(levels(table, body)));
            turned.max(optional_levels(table, start))
        }
        StmtKind::Abort { body, .. } => add(1, block_levels(table, body.as_slice())),
        _ => 0,
    }
}

#[cycle(levels)]
fn optional_levels(table: &[Span], s: &Option<Box<Stmt>>) -> u64
    ensures { result ≡ min (of.levels_perhaps (of.levels_at table.now) (perhaps_of s.now)) (2 ^ 64 - 1) }
{
    match s {
        None => 0,
        Some(there) => levels(table, there),
    }
}

#[cycle(levels)]
fn all_levels(table: &[Span], list: &[Stmt]) -> u64
    ensures { result ≡ min (of.levels_all (of.levels_at table.now) (plain.statements list.now)) (2 ^ 64 - 1) }
{
    let mut most = 0;
    for s in list {
        most = most.max(levels(table, s));
    }
    most
}

/// How many statements nest in statements as one.
#[cycle(levels)]
pub fn block_levels(table: &[Span], list: &[Stmt]) -> u64
    ensures { result ≡ min (of.block_levels (of.levels_at table.now) (plain.statements list.now)) (2 ^ 64 - 1) }
{
    sequence_levels(list.len(), all_levels(table, list))
}
