//! Rules 15, 16, 22, 23 and 24 of globals and functions, and rules 1, 2, 17, 18 and 21 there.

ghost use Rattle.std.specs.Prelude.{◌≡◌, ◌+◌, ◌<◌, ◌^◌, ◌&&◌, ◌==◌, ◌++◌, not, nat_lt, nat_le, length, take};
ghost use Rattle.forec_tree.specs.Plain as plain;
ghost use Rattle.forec_tree.specs.Rules as rules;
ghost use Rattle.forec_tree.specs.Faults as faults;
ghost use Rattle.fault_order.specs.Least.{least_from};
ghost use Rattle.loop_check.specs.Views.{indexed_text};
ghost use Rattle.program_walk.specs.Items.{is_extra, JudgesGlobal, JudgesHead};

use crate::rules::declarations::{is_long, judge_length, too_many};
use crate::walk::item_counts::ItemCounts;
use fault_order::keep_fault;
use forec_base::{Labels, MAX_FUNCTIONS, MAX_INPUTS, MAX_OUTPUTS, MAX_PARAMS};
use forec_tree::{Combine, Fault, Function, Global, GlobalKind, Item, Stmt, StmtKind, rule};
use loop_check::Index;

#[cycle(returns)]
fn returns(s: &Stmt) -> bool
    ensures { result ≡ rules.always_returns (plain.statement s.now) }
{
    match &s.what {
        StmtKind::Group { body } => any_returns(body.as_slice()),
        StmtKind::If { yes, no, .. } => {
            if !returns(yes) {
                return false;
            }
            match no {
                None => false,
                Some(other) => returns(other),
            }
        }
        StmtKind::Return { .. } => true,
        _ => false,
    }
}

#[cycle(returns)]
fn any_returns(body: &[Stmt]) -> bool
    ensures { result ≡ rules.some_always_returns (plain.statements body.now) }
{
    for s in body {
        if returns(s) {
            return true;
        }
    }
    false
}

fn may_end(f: &Function) -> bool
    ensures { result ≡ (f.now.gives && not (rules.some_always_returns (plain.statements f.now.body))) }
{
    if !f.gives {
        return false;
    }
    !any_returns(f.body.as_slice())
}

fn combines(f: &Function) -> bool
    ensures { result ≡ (f.now.gives && (length f.now.params == 2)) }
{
    f.gives && f.params.len() == 2
}

fn judge_combine(index: &Index<'_>, combine: Option<Combine>, least: &mut Option<Fault>)
    ensures { least.new ≡ least_from least.old (faults.combine_faults (indexed_text index.now) combine) }
{
    match combine {
        None => {}
        Some(c) => match index.find(c.with.id) {
            None => keep_fault(least, true, c.with.place, rule::NAME_UNDECLARED),
            Some(Item::Global { .. }) => keep_fault(least, true, c.with.place, rule::COMBINE_FORM),
            Some(Item::Function { function }) => keep_fault(
                least,
                !combines(function),
                c.with.place,
                rule::COMBINE_FORM,
            ),
        },
    }
}

/// Whether a global is an input.
pub fn is_input(kind: GlobalKind) -> bool
    ensures { result ≡ rules.is_input kind }
{
    match kind {
        GlobalKind::Input => true,
        _ => false,
    }
}

/// An output, plain or shared.
fn is_output(kind: GlobalKind) -> bool
    ensures { result ≡ rules.is_output kind }
{
    match kind {
        GlobalKind::Output | GlobalKind::SharedOutput => true,
        _ => false,
    }
}

/// How many outputs a global is: of an array, each element is one.
pub fn output_count(g: &Global) -> u32
    ensures { result ≡ faults.output_count (plain.plain_global g.now) }
{
    if is_output(g.kind) { g.width() } else { 0 }
}

/// Whether the last of some more outputs is past the most that there may be.
fn runs_over(before: u128, more: u32) -> bool
    ensures { result ≡ faults.runs_over MAX_OUTPUTS before more }
{
    let most = MAX_OUTPUTS as u128;
    more > 0 && (most <= before || most - before < u128::from(more))
}

fn extra(counts: ItemCounts, kind: GlobalKind, outputs: u32) -> bool
    ensures { result ≡ is_extra counts kind outputs }
{
    if is_input(kind) && MAX_INPUTS <= counts.inputs {
        return true;
    }
    runs_over(counts.outputs, outputs)
}

/// Judges a global, and keeps the least fault.
pub fn judge_global(
    index: &Index<'_>,
    names: &Labels,
    at: usize,
    counts: ItemCounts,
    g: &Global,
    least: &mut Option<Fault>,
)
    ensures { JudgesGlobal (indexed_text index.now) names.now at counts g.now least.old least.new }
{
    keep_fault(
        least,
        index.named_before(g.name.id, at),
        g.name.place,
        rule::NAME_TWICE,
    );
    judge_length(g.length, least);
    keep_fault(
        least,
        too_many(g.length, g.values.len()),
        g.name.place,
        rule::TOO_MANY_VALUES,
    );
    keep_fault(
        least,
        is_long(names, g.name.id),
        g.name.place,
        rule::LONG_NAME,
    );
    judge_combine(index, g.combine, least);
    keep_fault(
        least,
        extra(counts, g.kind, output_count(g)),
        g.name.place,
        rule::TOO_MANY_INPUTS_OR_OUTPUTS,
    );
}

/// Judges a function but its parameters and body, and keeps the least fault.
pub fn judge_head(
    index: &Index<'_>,
    names: &Labels,
    at: usize,
    counts: ItemCounts,
    f: &Function,
    least: &mut Option<Fault>,
)
    ensures { JudgesHead (indexed_text index.now) names.now at counts f.now least.old least.new }
{
    keep_fault(
        least,
        index.named_before(f.name.id, at),
        f.name.place,
        rule::NAME_TWICE,
    );
    keep_fault(
        least,
        is_long(names, f.name.id),
        f.name.place,
        rule::LONG_NAME,
    );
    keep_fault(
        least,
        MAX_PARAMS < f.params.len(),
        f.name.place,
        rule::TOO_MANY_PARAMS,
    );
    keep_fault(
        least,
        MAX_FUNCTIONS <= counts.functions,
        f.name.place,
        rule::TOO_MANY_FUNCTIONS,
    );
    keep_fault(least, may_end(f), f.name.place, rule::INT_WITHOUT_VALUE);
}
