//! What statements are made of that hold no statements in them: simple statements, declarators, heads of loops.

ghost use Rattle.std.specs.Prelude.{◌≡◌, [], ◌∷◌, map, Option, Bool};
ghost use Rattle.forec_tree.specs.declared.tree.Number.{Number};
ghost use Rattle.forec_tree.specs.declared.tree.OpAt.{OpAt};
ghost use Rattle.forec_tree.specs.Parts.{written_at};
ghost use Rattle.forec_tree.specs.Plain.{term, statement, declared, written_target};
ghost use Rattle.expr_parser.specs.Boxes.{term_in};
ghost use Rattle.expr_parser.specs.Input.{Reads, max_level};
ghost use Rattle.expr_parser.specs.Reading.{separated};
ghost use Rattle.statement_parser.specs.Statements as spec;
ghost use Rattle.statement_parser.specs.Views.{optional_term_in, statement_in, perhaps_in, launch_of, head_view};

use crate::meaning::{Act, Change, act_of, change_of, step_of, update_of};
use crate::parts::{self, ForHead};
use expr_parser::{Fault, Fixed, Tokens};
use forec_base::Binary;
use forec_tree::{Branch, Expr, Local, Name, Number, OpAt, Stmt, Target};
use sqlite_items::Items;
use std::alloc::Global;

/// More than the levels that an expression has.
const EXPR_DEPTH: usize = 129;

/// An expression of its own.
#[tactic(auto, unfolding(crate::specs::Statements::whole_expression))]
pub fn value(alloc: Global, tokens: &mut Tokens<'_>) -> Result<Box<Expr>, Fault>
    ensures { Reads term_in (spec.whole_expression max_level tokens.old) result tokens.new }
{
    expr_parser::value(alloc, tokens, EXPR_DEPTH)
}

#[tactic(auto, unfolding(crate::specs::Statements::values))]
fn values(alloc: Global, tokens: &mut Tokens<'_>) -> Result<Items<Expr>, Fault>
    ensures { Reads (map term) (spec.values max_level tokens.old) result tokens.new }
{
    expr_parser::values(alloc, tokens, EXPR_DEPTH)
}

/// An expression between round brackets.
#[tactic(auto, unfolding(crate::specs::Statements::bracketed_expression))]
pub fn bracketed(alloc: Global, tokens: &mut Tokens<'_>) -> Result<Box<Expr>, Fault>
    ensures { Reads term_in (spec.bracketed_expression max_level tokens.old) result tokens.new }
{
    expr_parser::bracketed(alloc, tokens, EXPR_DEPTH)
}

#[tactic(auto, unfolding(crate::specs::Statements::index_expression))]
fn indexed(alloc: Global, tokens: &mut Tokens<'_>) -> Result<Box<Expr>, Fault>
    ensures { Reads term_in (spec.index_expression max_level tokens.old) result tokens.new }
{
    expr_parser::indexed(alloc, tokens, EXPR_DEPTH)
}

#[tactic(auto, unfolding(crate::specs::Statements::passed_expressions))]
fn passed(alloc: Global, tokens: &mut Tokens<'_>) -> Result<Items<Expr>, Fault>
    ensures { Reads (map term) (spec.passed_expressions max_level tokens.old) result tokens.new }
{
    expr_parser::passed(alloc, tokens, EXPR_DEPTH)
}

/// Takes the next token as an operator, where it is one.
fn operator(tokens: &mut Tokens<'_>, op: Option<Binary>) -> Result<OpAt, Fault>
    ensures { Reads (λ (o : OpAt). o) (spec.op_by op tokens.old) result tokens.new }
{
    match op {
        Some(op) => {
            let token = tokens.take()?;
            Ok(OpAt {
                op,
                place: token.place,
            })
        }
        None => Err(tokens.refuse()),
    }
}

#[tactic(auto, unfolding(crate::specs::Statements::update))]
fn update(tokens: &mut Tokens<'_>) -> Result<OpAt, Fault>
    ensures { Reads (λ (o : OpAt). o) (spec.update tokens.old) result tokens.new }
{
    let op = update_of(tokens.kind());
    operator(tokens, op)
}

#[tactic(auto, unfolding(crate::specs::Statements::step_mark))]
fn step_mark(tokens: &mut Tokens<'_>) -> Result<OpAt, Fault>
    ensures { Reads (λ (o : OpAt). o) (spec.step_mark tokens.old) result tokens.new }
{
    let op = step_of(tokens.kind());
    operator(tokens, op)
}

#[tactic(auto, unfolding(crate::specs::Statements::maybe_index))]
fn maybe_index(alloc: Global, tokens: &mut Tokens<'_>) -> Result<Option<Box<Expr>>, Fault>
    ensures { Reads optional_term_in (spec.maybe_index max_level tokens.old) result tokens.new }
{
    if tokens.next_is(Fixed::LeftSquare) {
        let index = indexed(alloc, tokens)?;
        Ok(Some(index))
    } else {
        Ok(None)
    }
}

#[tactic(auto, unfolding(crate::specs::Statements::target))]
fn target(alloc: Global, tokens: &mut Tokens<'_>) -> Result<Target, Fault>
    ensures { Reads written_target (spec.target max_level tokens.old) result tokens.new }
{
    let name = tokens.name()?;
    let index = maybe_index(alloc, tokens)?;
    Ok(parts::target(name, index))
}

/// What is done to the target of this name and index.
#[tactic(auto, unfolding(crate::specs::Statements::changed))]
fn changed(
    alloc: Global,
    tokens: &mut Tokens<'_>,
    name: Name,
    index: Option<Box<Expr>>,
) -> Result<Stmt, Fault>
    ensures { Reads statement (spec.changed max_level (written_at name (optional_term_in index)) tokens.old) result
        tokens.new }
{
    match change_of(tokens.kind()) {
        Change::Sets => {
            tokens.close(Fixed::Assign)?;
            let value = value(alloc, tokens)?;
            Ok(parts::assign(parts::target(name, index), None, value))
        }
        Change::Updates => {
            let op = update(tokens)?;
            let value = value(alloc, tokens)?;
            Ok(parts::assign(parts::target(name, index), Some(op), value))
        }
        Change::Increments => {
            let op = step_mark(tokens)?;
            Ok(parts::step(name.place, parts::target(name, index), op))
        }
        Change::Nothing => Err(tokens.refuse()),
    }
}

#[tactic(auto, unfolding(crate::specs::Statements::invoked))]
fn invoked(alloc: Global, tokens: &mut Tokens<'_>, name: Name) -> Result<Stmt, Fault>
    ensures { Reads statement (spec.invoked max_level name tokens.old) result tokens.new }
{
    let args = passed(alloc, tokens)?;
    Ok(parts::invoke(name, args))
}

#[tactic(auto, unfolding(crate::specs::Statements::assign_statement))]
fn assigned(alloc: Global, tokens: &mut Tokens<'_>, name: Name) -> Result<Stmt, Fault>
    ensures { Reads statement (spec.assign_statement max_level name tokens.old) result tokens.new }
{
    let index = maybe_index(alloc, tokens)?;
    changed(alloc, tokens, name, index)
}

#[tactic(auto, unfolding(crate::specs::Statements::named_statement))]
fn named(alloc: Global, tokens: &mut Tokens<'_>) -> Result<Stmt, Fault>
    ensures { Reads statement (spec.named_statement max_level tokens.old) result tokens.new }
{
    let name = tokens.name()?;
    if tokens.next_is(Fixed::LeftRound) {
        invoked(alloc, tokens, name)
    } else {
        assigned(alloc, tokens, name)
    }
}

#[tactic(auto, unfolding(crate::specs::Statements::stepped))]
fn stepped(alloc: Global, tokens: &mut Tokens<'_>) -> Result<Stmt, Fault>
    ensures { Reads statement (spec.stepped max_level tokens.old) result tokens.new }
{
    let op = step_mark(tokens)?;
    let found = target(alloc, tokens)?;
    Ok(parts::step(op.place, found, op))
}

/// An assignment or a call, without what ends it.
#[tactic(auto, unfolding(crate::specs::Statements::simple))]
fn action(alloc: Global, tokens: &mut Tokens<'_>) -> Result<Stmt, Fault>
    ensures { Reads statement (spec.simple max_level tokens.old) result tokens.new }
{
    match act_of(tokens.kind()) {
        Act::Named => named(alloc, tokens),
        Act::Increments => stepped(alloc, tokens),
        Act::Nothing => Err(tokens.refuse()),
    }
}

/// An assignment or a call in a box of its own, without what ends it.
fn simple(alloc: Global, tokens: &mut Tokens<'_>) -> Result<Box<Stmt>, Fault>
    ensures { Reads statement_in (spec.simple max_level tokens.old) result tokens.new }
{
    let found = action(alloc, tokens)?;
    Ok(parts::boxed(alloc, found)?)
}

/// An array's length, with its square brackets.
#[tactic(auto, unfolding(crate::specs::Statements::length_part))]
pub fn array_length(tokens: &mut Tokens<'_>) -> Result<Number, Fault>
    ensures { Reads (λ (n : Number). n) (spec.length_part max_level tokens.old) result tokens.new }
{
    let outer = tokens.level();
    tokens.enter(Fixed::LeftSquare)?;
    let length = tokens.number()?;
    tokens.close(Fixed::RightSquare)?;
    tokens.leave(outer);
    Ok(length)
}

/// An array's length, if there is one.
#[tactic(auto, unfolding(crate::specs::Statements::maybe_length))]
pub fn maybe_length(tokens: &mut Tokens<'_>) -> Result<Option<Number>, Fault>
    ensures { Reads (λ (n : Option Number). n) (spec.maybe_length max_level tokens.old) result tokens.new }
{
    if tokens.next_is(Fixed::LeftSquare) {
        let length = array_length(tokens)?;
        Ok(Some(length))
    } else {
        Ok(None)
    }
}

#[tactic(auto, unfolding(crate::specs::Statements::listed_values))]
fn listed_values(alloc: Global, tokens: &mut Tokens<'_>) -> Result<Items<Expr>, Fault>
    ensures { Reads (map term) (spec.listed_values max_level tokens.old) result tokens.new }
{
    let outer = tokens.level();
    tokens.enter(Fixed::LeftCurly)?;
    let found = values(alloc, tokens)?;
    tokens.close(Fixed::RightCurly)?;
    tokens.leave(outer);
    Ok(found)
}

/// The initial values of an array, or of a scalar.
#[tactic(auto, unfolding(crate::specs::Statements::initial))]
fn initial(
    alloc: Global,
    tokens: &mut Tokens<'_>,
    length: Option<Number>,
) -> Result<Items<Expr>, Fault>
    ensures { Reads (map term) (spec.initial max_level length tokens.old) result tokens.new }
{
    let mut found = Items::new(alloc);
    if !tokens.next_is(Fixed::Assign) {
        return Ok(found);
    }
    tokens.close(Fixed::Assign)?;
    match length {
        None => {
            found.push(Box::into_inner(value(alloc, tokens)?))?;
            Ok(found)
        }
        Some(_) => listed_values(alloc, tokens),
    }
}

/// One declarator of a local.
#[tactic(auto, unfolding(crate::specs::Statements::local))]
fn local(alloc: Global, tokens: &mut Tokens<'_>) -> Result<Local, Fault>
    ensures { Reads declared (spec.local max_level tokens.old) result tokens.new }
{
    let name = tokens.name()?;
    let length = maybe_length(tokens)?;
    let values = initial(alloc, tokens, length)?;
    Ok(parts::local(name, length, values))
}

#[tactic(auto, unfolding(expr_parser::specs::Reading::separated, expr_parser::specs::Reading::separated_from))]
fn locals(alloc: Global, tokens: &mut Tokens<'_>) -> Result<Items<Local>, Fault>
    ensures { Reads (map declared) (separated (spec.local max_level) tokens.old) result tokens.new }
{
    let mut found = Items::new(alloc);
    for _turn in 0..tokens.left() {
        found.push(local(alloc, tokens)?)?;
        if !tokens.next_is(Fixed::Comma) {
            return Ok(found);
        }
        tokens.take()?;
    }
    Err(tokens.refuse())
}

/// The bound of a loop, if it has one.
#[tactic(auto, unfolding(crate::specs::Statements::bound))]
pub fn bound(tokens: &mut Tokens<'_>) -> Result<Option<Number>, Fault>
    ensures { Reads (λ (n : Option Number). n) (spec.bound max_level tokens.old) result tokens.new }
{
    if tokens.next_is(Fixed::Hash) {
        tokens.close(Fixed::Hash)?;
        let turns = tokens.number()?;
        Ok(Some(turns))
    } else {
        Ok(None)
    }
}

/// Takes this token if it is there, and tells whether it was.
#[tactic(auto, unfolding(crate::specs::Statements::flag))]
pub fn flag(tokens: &mut Tokens<'_>, fixed: Fixed) -> Result<bool, Fault>
    ensures { Reads (λ (b : Bool). b) (spec.flag fixed tokens.old) result tokens.new }
{
    if tokens.next_is(fixed) {
        tokens.close(fixed)?;
        Ok(true)
    } else {
        Ok(false)
    }
}

#[tactic(auto, unfolding(crate::specs::Statements::first_local))]
fn first_local(alloc: Global, tokens: &mut Tokens<'_>) -> Result<Option<Box<Stmt>>, Fault>
    ensures { Reads perhaps_in (spec.first_local max_level tokens.old) result tokens.new }
{
    let token = tokens.close(Fixed::Int)?;
    let name = tokens.name()?;
    tokens.close(Fixed::Assign)?;
    let value = value(alloc, tokens)?;
    let first = parts::first_local(alloc, token.place, name, value)?;
    Ok(Some(parts::boxed(alloc, first)?))
}

#[tactic(auto, unfolding(crate::specs::Statements::some_start))]
fn some_start(alloc: Global, tokens: &mut Tokens<'_>) -> Result<Option<Box<Stmt>>, Fault>
    ensures { Reads perhaps_in (spec.some_start max_level tokens.old) result tokens.new }
{
    if tokens.next_is(Fixed::Int) {
        first_local(alloc, tokens)
    } else {
        let first = simple(alloc, tokens)?;
        Ok(Some(first))
    }
}

#[tactic(auto, unfolding(crate::specs::Statements::start_part))]
fn start(alloc: Global, tokens: &mut Tokens<'_>) -> Result<Option<Box<Stmt>>, Fault>
    ensures { Reads perhaps_in (spec.start_part max_level tokens.old) result tokens.new }
{
    if tokens.next_is(Fixed::Semicolon) {
        Ok(None)
    } else {
        some_start(alloc, tokens)
    }
}

#[tactic(auto, unfolding(crate::specs::Statements::loop_test))]
fn test(alloc: Global, tokens: &mut Tokens<'_>) -> Result<Option<Box<Expr>>, Fault>
    ensures { Reads optional_term_in (spec.loop_test max_level tokens.old) result tokens.new }
{
    if tokens.next_is(Fixed::Semicolon) {
        Ok(None)
    } else {
        let test = value(alloc, tokens)?;
        Ok(Some(test))
    }
}

#[tactic(auto, unfolding(crate::specs::Statements::step_part))]
fn step(alloc: Global, tokens: &mut Tokens<'_>) -> Result<Option<Box<Stmt>>, Fault>
    ensures { Reads perhaps_in (spec.step_part max_level tokens.old) result tokens.new }
{
    if tokens.next_is(Fixed::RightRound) {
        Ok(None)
    } else {
        let last = simple(alloc, tokens)?;
        Ok(Some(last))
    }
}

/// What stands between the brackets after `for`, with the brackets.
#[tactic(auto, unfolding(crate::specs::Statements::head, crate::specs::Statements::head_parts))]
pub fn head(alloc: Global, tokens: &mut Tokens<'_>) -> Result<ForHead, Fault>
    ensures { Reads head_view (spec.head max_level tokens.old) result tokens.new }
{
    let outer = tokens.level();
    tokens.enter(Fixed::LeftRound)?;
    let start = start(alloc, tokens)?;
    tokens.close(Fixed::Semicolon)?;
    let test = test(alloc, tokens)?;
    tokens.close(Fixed::Semicolon)?;
    let step = step(alloc, tokens)?;
    tokens.close(Fixed::RightRound)?;
    tokens.leave(outer);
    Ok(ForHead { start, test, step })
}

/// A declaration of locals.
#[tactic(auto, unfolding(crate::specs::Statements::declaring))]
pub fn declaring(alloc: Global, tokens: &mut Tokens<'_>) -> Result<Stmt, Fault>
    ensures { Reads statement (spec.declaring max_level tokens.old) result tokens.new }
{
    let token = tokens.close(Fixed::Int)?;
    let found = locals(alloc, tokens)?;
    tokens.close(Fixed::Semicolon)?;
    Ok(parts::declare(token.place, found))
}

/// A simple statement and what ends it.
#[tactic(auto, unfolding(crate::specs::Statements::acting))]
pub fn acting(alloc: Global, tokens: &mut Tokens<'_>) -> Result<Stmt, Fault>
    ensures { Reads statement (spec.acting max_level tokens.old) result tokens.new }
{
    let found = simple(alloc, tokens)?;
    tokens.close(Fixed::Semicolon)?;
    Ok(Box::into_inner(found))
}

/// `pause ;`
#[tactic(auto, unfolding(crate::specs::Statements::pausing))]
pub fn pausing(tokens: &mut Tokens<'_>) -> Result<Stmt, Fault>
    ensures { Reads statement (spec.pausing max_level tokens.old) result tokens.new }
{
    let token = tokens.close(Fixed::Pause)?;
    tokens.close(Fixed::Semicolon)?;
    Ok(parts::pause(token.place))
}

/// `return` and its value.
#[tactic(auto, unfolding(crate::specs::Statements::return_statement))]
pub fn return_statement(alloc: Global, tokens: &mut Tokens<'_>) -> Result<Stmt, Fault>
    ensures { Reads statement (spec.return_statement max_level tokens.old) result tokens.new }
{
    let token = tokens.close(Fixed::Return)?;
    let found = value(alloc, tokens)?;
    tokens.close(Fixed::Semicolon)?;
    Ok(parts::give(token.place, found))
}

#[tactic(auto, unfolding(crate::specs::Statements::maybe_passed))]
fn maybe_passed(alloc: Global, tokens: &mut Tokens<'_>) -> Result<Items<Expr>, Fault>
    ensures { Reads (map term) (spec.maybe_passed max_level tokens.old) result tokens.new }
{
    if tokens.next_is(Fixed::LeftRound) {
        passed(alloc, tokens)
    } else {
        Ok(Items::new(alloc))
    }
}

/// A branch that is a function.
#[tactic(auto, unfolding(crate::specs::Statements::call_launch))]
pub fn called(alloc: Global, tokens: &mut Tokens<'_>) -> Result<Branch, Fault>
    ensures { Reads launch_of (spec.call_launch max_level tokens.old) result tokens.new }
{
    let name = tokens.name()?;
    let args = maybe_passed(alloc, tokens)?;
    Ok(parts::start_call(name, args))
}
