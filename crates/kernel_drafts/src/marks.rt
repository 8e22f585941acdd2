//! The variables that bodies of the kernel name.

ghost use Rattle.std.specs.Prelude.{◌≡◌, map};
ghost use Rattle.forec_kernel.specs.Plain as kernel;
ghost use Rattle.forec_kernel.specs.WellFormed.{count_up};
ghost use Rattle.text_kernel.specs.Lowering as lowering;
ghost use Rattle.kernel_drafts.specs.Marks.{Marks};
ghost use Rattle.std.specs.Prelude.{◌∷◌, []};

use forec_kernel::{Expression, Launch, Spot, Statement};

/// Sets the mark of a variable.
fn mark(marks: &mut [bool], variable: usize)
    ensures { Marks marks.old marks.new (variable ∷ []) }
{
    if variable < marks.len() {
        marks[variable] = true;
    }
}

/// Sets the marks of the variables of a shared array, by its first variable and its length.
fn mark_array(marks: &mut [bool], variable: u32, length: u32)
    ensures { Marks marks.old marks.new (count_up variable length) }
{
    let first = variable as usize;
    for i in 0..length {
        mark(marks, first + i as usize);
    }
}

/// Marks the variables of an expression.
#[cycle(mark_expression)]
fn mark_expression(marks: &mut [bool], e: &Expression)
    ensures { Marks marks.old marks.new (lowering.vars_in (kernel.expr e.now)) }
{
    match e {
        Expression::Number { .. } => {}
        Expression::Local { .. } => {}
        Expression::Variable { variable } => mark(marks, *variable as usize),
        Expression::LocalAt { index, .. } => mark_expression(marks, index),
        Expression::SharedAt {
            variable,
            length,
            index,
            ..
        } => {
            mark_array(marks, *variable, *length);
            mark_expression(marks, index);
        }
        Expression::TableAt { index, .. } => mark_expression(marks, index),
        Expression::Unary { of, .. } => mark_expression(marks, of),
        Expression::Binary { left, right, .. } => {
            mark_expression(marks, left);
            mark_expression(marks, right);
        }
        Expression::And { left, right } => {
            mark_expression(marks, left);
            mark_expression(marks, right);
        }
        Expression::Or { left, right } => {
            mark_expression(marks, left);
            mark_expression(marks, right);
        }
        Expression::Choose { test, yes, no } => {
            mark_expression(marks, test);
            mark_expression(marks, yes);
            mark_expression(marks, no);
        }
        Expression::Call { args, .. } => mark_all(marks, args.as_slice()),
    }
}

#[cycle(mark_expression)]
fn mark_all(marks: &mut [bool], list: &[Expression])
    ensures { Marks marks.old marks.new (lowering.vars_all (kernel.exprs list.now)) }
{
    for e in list {
        mark_expression(marks, e);
    }
}

fn mark_launches(marks: &mut [bool], launches: &[Launch])
    ensures { Marks marks.old marks.new (lowering.vars_launches (map kernel.branch launches.now)) }
{
    for launch in launches {
        mark_all(marks, launch.args.as_slice());
    }
}

fn mark_spot(marks: &mut [bool], spot: Spot)
    ensures { Marks marks.old marks.new (lowering.vars_spot spot) }
{
    match spot {
        Spot::Local { .. } => {}
        Spot::Variable { variable } => mark(marks, variable as usize),
    }
}

/// Marks the variables of a statement.
#[cycle(mark_statement)]
pub fn mark_statement(marks: &mut [bool], s: &Statement)
    ensures { Marks marks.old marks.new (lowering.vars_of (kernel.stmt s.now)) }
{
    match s {
        Statement::Nop => {}
        Statement::Clear { .. } => {}
        Statement::Pause => {}
        Statement::Set { to, value } => {
            mark_spot(marks, *to);
            mark_expression(marks, value);
        }
        Statement::Return { value } => mark_expression(marks, value),
        Statement::SetAt { index, value, .. } => {
            mark_expression(marks, index);
            mark_expression(marks, value);
        }
        Statement::PutAt {
            variable,
            length,
            index,
            value,
            ..
        } => {
            mark_array(marks, *variable, *length);
            mark_expression(marks, index);
            mark_expression(marks, value);
        }
        Statement::Sequence { list } => mark_list(marks, list.as_slice()),
        Statement::If { test, yes, no } => {
            mark_expression(marks, test);
            mark_statement(marks, yes);
            mark_statement(marks, no);
        }
        Statement::While { test, body, .. } => {
            mark_expression(marks, test);
            mark_statement(marks, body);
        }
        Statement::Enter { test, body, .. } => {
            mark_expression(marks, test);
            mark_statement(marks, body);
        }
        Statement::Par { branches } => mark_launches(marks, branches.as_slice()),
    }
}

#[cycle(mark_statement)]
fn mark_list(marks: &mut [bool], list: &[Statement])
    ensures { Marks marks.old marks.new (lowering.vars_list (kernel.stmts list.now)) }
{
    for s in list {
        mark_statement(marks, s);
    }
}
