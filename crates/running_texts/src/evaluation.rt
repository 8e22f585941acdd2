//! Expressions and int functions, evaluated under an allowance of units.

ghost use Rattle.std.specs.Prelude.{◌≡◌, ◌<◌, ◌+◌, ℕ, ℤ};
ghost use Rattle.forec_kernel.specs.Plain.{expr, exprs, stmt, stmts};
ghost use Rattle.forec_kernel.specs.Shapes.{plain_kernel};
ghost use Rattle.forec_kernel.specs.Terms.{And, Or};
ghost use Rattle.forec_kernel.specs.Values.{val, vals, flow, flows, call_within, words_alone};
ghost use Rattle.running_texts.specs.Metered.{IsMetered, value_kind, values_kind, flowing, setting_within, sight_of, bounded_flow};

use crate::functions::{
    Element, Ran, after_set, after_set_at, as_return, as_value, clear, function_word_count,
    words_from,
};
use crate::meter::{Halt, give, pay, tested};
use crate::operators::{
    after_binary, after_shared_index, after_table_index, after_unary, after_word_index, as_truth,
    copy_value, table_at, word_at,
};
use forec_base::{Place, Trap};
use forec_kernel::{Expression, KernelParts, Statement, VarCopy};
use std::alloc::Global;

/// What an expression reads: the words of its thread or int function, and the thread's copies of the
/// variables that it uses.
#[derive(Clone, Copy)]
pub struct ThreadValues<'a> {
    pub words: &'a [i32],
    pub uses: &'a [u32],
    pub copies: &'a [VarCopy],
}

/// The words of an int function, which reads nothing else.
fn only_words(words: &[i32]) -> ThreadValues<'_>
    ensures { sight_of result ≡ words_alone words.now }
{
    ThreadValues {
        words,
        uses: &[],
        copies: &[],
    }
}

/// A loop whose turns are bounded.
#[derive(Clone, Copy)]
struct BoundedLoop<'k> {
    test: &'k Expression,
    bound: u32,
    body: &'k Statement,
    place: Place,
}

/// The number of an expression, by rewriting under the allowance.
#[cycle(evaluation)]
pub fn evaluate(
    alloc: Global,
    kernel: &KernelParts,
    deep: usize,
    values: &ThreadValues<'_>,
    e: &Expression,
    left: &mut u64,
) -> Result<i32, Halt>
    ensures { IsMetered value_kind left.old left.new result
        (val (setting_within (plain_kernel kernel.now) deep) (sight_of values.now) (expr e.now)) }
{
    match e {
        Expression::Number { value } => give(*value, left),
        Expression::Local { slot } => give(word_at(values.words, *slot as usize), left),
        Expression::Variable { variable } => {
            give(copy_value(values.uses, values.copies, *variable), left)
        },
        Expression::LocalAt {
            slot,
            length,
            index,
            place,
        } => {
            let part = evaluate(alloc, kernel, deep, values, index, left);
            after_word_index(values.words, *slot, *length, *place, part, left)
        }
        Expression::SharedAt {
            variable,
            length,
            index,
            place,
        } => {
            let part = evaluate(alloc, kernel, deep, values, index, left);
            after_shared_index(
                values.uses,
                values.copies,
                *variable,
                *length,
                *place,
                part,
                left,
            )
        }
        Expression::TableAt {
            table,
            index,
            place,
        } => {
            let part = evaluate(alloc, kernel, deep, values, index, left);
            after_table_index(table_at(&kernel.shape.tables, *table), *place, part, left)
        }
        Expression::Unary { op, of } => {
            let part = evaluate(alloc, kernel, deep, values, of, left);
            after_unary(*op, part, left)
        }
        Expression::Binary {
            op,
            left: first,
            right,
            place,
        } => match evaluate(alloc, kernel, deep, values, first, left) {
            Ok(a) => {
                let part = evaluate(alloc, kernel, deep, values, right, left);
                after_binary(*op, a, part, *place, left)
            }
            Err(halt) => Err(halt),
        },
        Expression::And { left: first, right } => {
            evaluate_and(alloc, kernel, deep, values, first, right, left)
        }
        Expression::Or { left: first, right } => {
            evaluate_or(alloc, kernel, deep, values, first, right, left)
        }
        Expression::Choose { test, yes, no } => {
            let test = evaluate(alloc, kernel, deep, values, test, left);
            match tested(test, left) {
                Ok(n) => {
                    if n == 0 {
                        return evaluate(alloc, kernel, deep, values, no, left);
                    }
                    evaluate(alloc, kernel, deep, values, yes, left)
                }
                Err(halt) => Err(halt),
            }
        }
        Expression::Call { function, args } => {
            match evaluate_all(alloc, kernel, deep, values, args, left) {
                Ok(numbers) => match pay(1, left) {
                    Ok(()) => call_function(alloc, kernel, deep, *function, &numbers, left),
                    Err(halt) => Err(halt),
                },
                Err(halt) => Err(halt),
            }
        }
    }
}

/// Both sides, the right one only where the left one isn't 0.
#[cycle(evaluation)]
fn evaluate_and(
    alloc: Global,
    kernel: &KernelParts,
    deep: usize,
    values: &ThreadValues<'_>,
    first: &Expression,
    second: &Expression,
    left: &mut u64,
) -> Result<i32, Halt>
    ensures { IsMetered value_kind left.old left.new result
        (val (setting_within (plain_kernel kernel.now) deep) (sight_of values.now)
        (And (expr first.now) (expr second.now))) }
{
    let test = evaluate(alloc, kernel, deep, values, first, left);
    match tested(test, left) {
        Ok(n) => {
            if n == 0 {
                return Ok(0);
            }
            let part = evaluate(alloc, kernel, deep, values, second, left);
            as_truth(part)
        }
        Err(halt) => Err(halt),
    }
}

/// Either side, the right one only where the left one is 0.
#[cycle(evaluation)]
fn evaluate_or(
    alloc: Global,
    kernel: &KernelParts,
    deep: usize,
    values: &ThreadValues<'_>,
    first: &Expression,
    second: &Expression,
    left: &mut u64,
) -> Result<i32, Halt>
    ensures { IsMetered value_kind left.old left.new result
        (val (setting_within (plain_kernel kernel.now) deep) (sight_of values.now)
        (Or (expr first.now) (expr second.now))) }
{
    let test = evaluate(alloc, kernel, deep, values, first, left);
    match tested(test, left) {
        Ok(n) => {
            if n != 0 {
                return Ok(1);
            }
            let part = evaluate(alloc, kernel, deep, values, second, left);
            as_truth(part)
        }
        Err(halt) => Err(halt),
    }
}

/// The numbers of some expressions, in order.
#[cycle(evaluation)]
pub fn evaluate_all(
    alloc: Global,
    kernel: &KernelParts,
    deep: usize,
    values: &ThreadValues<'_>,
    list: &[Expression],
    left: &mut u64,
) -> Result<Vec<i32>, Halt>
    ensures { IsMetered values_kind left.old left.new result
        (vals (setting_within (plain_kernel kernel.now) deep) (sight_of values.now) (exprs list.now)) }
{
    let mut numbers = Vec::new(alloc);
    for e in list {
        match evaluate(alloc, kernel, deep, values, e, left) {
            Ok(n) => {
                if numbers.push(n).is_err() {
                    return Err(Halt::OutOfMemory);
                }
            }
            Err(halt) => return Err(halt),
        }
    }
    Ok(numbers)
}

/// What an int function gives, where at most so many calls are inside one another.
#[cycle(evaluation)]
pub(crate) fn call_function(
    alloc: Global,
    kernel: &KernelParts,
    deep: usize,
    function: u32,
    args: &[i32],
    left: &mut u64,
) -> Result<i32, Halt>
    ensures { IsMetered value_kind left.old left.new result
        (call_within (plain_kernel kernel.now) deep function args.now) }
{
    if deep == 0 {
        return Ok(0);
    }
    let at = function as usize;
    if kernel.functions.len() <= at {
        return Ok(0);
    }
    let count = function_word_count(&kernel.shape.functions, function);
    match words_from(alloc, args, count) {
        Ok(words) => {
            let part = run(alloc, kernel, deep - 1, words, &kernel.functions[at], left);
            as_value(part)
        }
        Err(_) => Err(Halt::OutOfMemory),
    }
}

#[cycle(evaluation)]
fn run(
    alloc: Global,
    kernel: &KernelParts,
    deep: usize,
    words: Vec<i32>,
    s: &Statement,
    left: &mut u64,
) -> Result<Ran, Halt>
    ensures { IsMetered flowing left.old left.new result (flow (setting_within (plain_kernel kernel.now) deep)
        (stmt s.now) words.items) }
{
    match s {
        Statement::Set { to, value } => {
            let part = evaluate(alloc, kernel, deep, &only_words(&words), value, left);
            after_set(words, *to, part, left)
        }
        Statement::SetAt {
            slot,
            length,
            index,
            value,
            place,
        } => match evaluate(alloc, kernel, deep, &only_words(&words), index, left) {
            Ok(at) => {
                let part = evaluate(alloc, kernel, deep, &only_words(&words), value, left);
                let element = Element {
                    slot: *slot,
                    length: *length,
                    index: at,
                    place: *place,
                };
                after_set_at(words, element, part, left)
            }
            Err(halt) => Err(halt),
        },
        Statement::Clear { slot, length } => clear(words, *slot, *length, left),
        Statement::Sequence { list } => run_all(alloc, kernel, deep, words, list, left),
        Statement::If { test, yes, no } => {
            let test = evaluate(alloc, kernel, deep, &only_words(&words), test, left);
            match tested(test, left) {
                Ok(n) => {
                    if n == 0 {
                        return run(alloc, kernel, deep, words, no, left);
                    }
                    run(alloc, kernel, deep, words, yes, left)
                }
                Err(halt) => Err(halt),
            }
        }
        Statement::While {
            test,
            bound,
            body,
            place,
        } => match bound {
            Some(turns) => {
                let bounded = BoundedLoop {
                    test,
                    bound: *turns,
                    body,
                    place: *place,
                };
                run_turns(alloc, kernel, deep, words, &bounded, left)
            }
            None => Ok(Ran::Continues(words)),
        },
        Statement::Return { value } => {
            let part = evaluate(alloc, kernel, deep, &only_words(&words), value, left);
            as_return(part)
        }
        _ => Ok(Ran::Continues(words)),
    }
}

#[cycle(evaluation)]
fn run_all(
    alloc: Global,
    kernel: &KernelParts,
    deep: usize,
    mut words: Vec<i32>,
    list: &[Statement],
    left: &mut u64,
) -> Result<Ran, Halt>
    ensures { IsMetered flowing left.old left.new result (flows (setting_within (plain_kernel kernel.now) deep)
        (stmts list.now) words.items) }
{
    for s in list {
        match run(alloc, kernel, deep, words, s, left) {
            Ok(Ran::Continues(next)) => words = next,
            Ok(Ran::Returns(n)) => return Ok(Ran::Returns(n)),
            Err(halt) => return Err(halt),
        }
    }
    Ok(Ran::Continues(words))
}

/// A loop with so many turns left.
#[cycle(evaluation)]
fn run_turns(
    alloc: Global,
    kernel: &KernelParts,
    deep: usize,
    mut words: Vec<i32>,
    bounded: &BoundedLoop<'_>,
    left: &mut u64,
) -> Result<Ran, Halt>
    ensures { IsMetered flowing left.old left.new result (bounded_flow (plain_kernel kernel.now) deep bounded.now
        words.items) }
{
    let mut turns_left = bounded.bound;
    'turns: loop {
        let part = evaluate(alloc, kernel, deep, &only_words(&words), bounded.test, left);
        match tested(part, left) {
            Ok(n) => {
                if n == 0 {
                    return Ok(Ran::Continues(words));
                }
                if turns_left == 0 {
                    return Err(Halt::Trapped {
                        place: bounded.place,
                        trap: Trap::Turns,
                    });
                }
                turns_left -= 1;
                match run(alloc, kernel, deep, words, bounded.body, left) {
                    Ok(Ran::Continues(next)) => words = next,
                    Ok(Ran::Returns(n)) => return Ok(Ran::Returns(n)),
                    Err(halt) => return Err(halt),
                }
            }
            Err(halt) => return Err(halt),
        }
    }
}
