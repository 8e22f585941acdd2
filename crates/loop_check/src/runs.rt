//! The number of turns of a `for` that its form tells.

ghost use Rattle.std.specs.Prelude.{◌≡◌, ◌≤◌, ◌<◌, ◌*◌, ◌-◌, ◌^◌, ◌≤ℤ◌, ◌<ℤ◌, ◌+ℤ◌, ◌-ℤ◌, map, pos, negsuc, neg_ℤ, int_lt, FitsSigned};
ghost use Rattle.std.specs.Int.{w32};
ghost use Rattle.forec_tree.specs.Plain as plain;
ghost use Rattle.forec_tree.specs.Turns as form;
ghost use Rattle.loop_check.specs.Forms.{fits_way, FormOf, run_form, HasForm};

use crate::parts::{Form, LoopStep, Start, Test};
use crate::reads::{start_of, step_of, test_of};
use crate::touch::touches;
use forec_base::{Binary, MAX_TURNS};
use forec_tree::{Item, Program, Stmt, StmtKind};

fn same_way(test: Binary, step: Binary) -> bool
    ensures { result ≡ fits_way test step }
{
    match test {
        Binary::Lt | Binary::Le => step == Binary::Add,
        Binary::Gt | Binary::Ge => step == Binary::Sub,
        _ => false,
    }
}

fn joined(start: Start, test: Test, step: LoopStep, body: &Stmt) -> Option<Form>
    ensures { FormOf result start test step (plain.statement body.now) }
{
    if start.id != test.id || test.id != step.id {
        return None;
    }
    if !same_way(test.op, step.op) {
        return None;
    }
    if step.by < 1 || touches(start.id, body) {
        return None;
    }
    Some(Form {
        id: start.id,
        number: start.number,
        test: test.op,
        bound: test.number,
        by: step.by as u32,
    })
}

/// How far `high` is above `low`.
fn gap(low: i64, high: i64) -> u64
    requires less { low <ℤ high }
    requires low { negsuc 4294967295 ≤ℤ low }
    requires high { high ≤ℤ pos 4294967295 }
    ensures { low +ℤ pos result ≡ high }
{
    (high - low) as u64
}

/// How many steps it takes to get as far as `distance`.
fn steps(distance: u64, by: u32) -> u64
    requires by { 1 ≤ by }
    requires some { 1 ≤ distance }
    requires small { distance < 2 ^ 34 }
    ensures some { 1 ≤ result }
    ensures reach { distance ≤ result * by }
    ensures last { (result - 1) * by < distance }
{
    let by = by as u64;
    (distance + (by - 1)) / by
}

/// How many values pass that rise from `from` by `by`, and lie below `limit`.
fn run_up(from: i64, limit: i64, by: u32) -> Option<u32>
    requires by { 1 ≤ by }
    requires from { FitsSigned w32 from }
    requires low { negsuc 2147483648 ≤ℤ limit }
    requires high { limit ≤ℤ pos 2147483648 }
    ensures { result ≡ form.values_passed form.most_values (λ v. int_lt v limit) (pos by) from }
{
    if limit <= from {
        return Some(0);
    }
    let turns = steps(gap(from, limit), by);
    if turns > MAX_TURNS as u64 {
        return None;
    }
    let last = (turns * (by as u64)) as i64;
    if from + last > 2147483647 {
        return None;
    }
    Some(turns as u32)
}

/// How many values pass that fall from `from` by `by`, and lie above `limit`.
fn run_down(from: i64, limit: i64, by: u32) -> Option<u32>
    requires by { 1 ≤ by }
    requires from { FitsSigned w32 from }
    requires low { negsuc 2147483648 ≤ℤ limit }
    requires high { limit ≤ℤ pos 2147483648 }
    ensures { result ≡ form.values_passed form.most_values (λ v. int_lt limit v) (neg_ℤ (pos by)) from }
{
    if from <= limit {
        return Some(0);
    }
    let turns = steps(gap(limit, from), by);
    if turns > MAX_TURNS as u64 {
        return None;
    }
    let last = (turns * (by as u64)) as i64;
    if from - last < -2147483648 {
        return None;
    }
    Some(turns as u32)
}

fn above(n: i32) -> i64
    ensures { result ≡ n +ℤ pos 1 }
{
    n as i64 + 1
}

fn below(n: i32) -> i64
    ensures { result ≡ n -ℤ pos 1 }
{
    n as i64 - 1
}

/// How often the test holds; none where a value on the way has more than 32 bits, or past `MAX_TURNS`.
pub fn run(form: Form) -> Option<u32>
    ensures { result ≡ run_form form }
{
    match form.test {
        Binary::Lt => run_up(form.number as i64, form.bound as i64, form.by),
        Binary::Le => run_up(form.number as i64, above(form.bound), form.by),
        Binary::Gt => run_down(form.number as i64, form.bound as i64, form.by),
        Binary::Ge => run_down(form.number as i64, below(form.bound), form.by),
        _ => None,
    }
}

/// The form of a `for`, but that a global of the name may stand in its way.
pub fn form_of(s: &Stmt) -> Option<Form>
    ensures { HasForm result (plain.statement s.now) }
{
    match &s.what {
        StmtKind::For {
            start,
            test,
            step,
            body,
            ..
        } => {
            match (start_of(start), test_of(test), step_of(step)) {
                (Some(start), Some(test), Some(step)) => joined(start, test, step, body),
                _ => None,
            }
        }
        _ => None,
    }
}

fn global_named(items: &[Item], id: u32) -> bool
    ensures { result ≡ form.global_named id (map plain.plain_item items.now) }
{
    for item in items {
        match item {
            Item::Global { global } => {
                if global.name.id == id {
                    return true;
                }
            }
            Item::Function { .. } => {}
        }
    }
    false
}

/// The number of turns that the form of a `for` tells: of a start, a test and a step by numbers
/// alone over one local that the body neither assigns nor declares, and of whose name there is no
/// global. `None` for any other statement, where a value on the way has more than 32 bits, and past
/// 1,000,000 turns. Takes the time of one look at the loop and at the program's items.
pub fn turns(program: &Program, stmt: &Stmt) -> Option<u32>
    ensures { result ≡ form.inferred (plain.program program.now) (plain.statement stmt.now) }
{
    match form_of(stmt) {
        None => None,
        Some(form) => {
            if global_named(program.items.as_slice(), form.id) {
                None
            } else {
                run(form)
            }
        }
    }
}
