//! Expressions, by precedence climbing. `depth` bounds how deep calls nest; the level of the tokens ends a text first.

ghost use Rattle.std.specs.Prelude.{◌≡◌, nat_lt, map, IfErr};
ghost use Rattle.forec_tree.specs.Plain.{term};
ghost use Rattle.expr_parser.specs.Boxes.{term_in};
ghost use Rattle.expr_parser.specs.Input.{Reads, RefusesAt, max_level};
ghost use Rattle.expr_parser.specs.Reading as spec;

use crate::fault::Fault;
use crate::fixed::Fixed;
use crate::meaning::{Behind, Infix, Start, after_of, binds, infix_of, level_of, start_of};
use crate::nodes;
use crate::tokens::Tokens;
use forec_tree::Expr;
use sqlite_items::Items;
use std::alloc::Global;

/// Whether no operator of level `least` or above follows.
fn ends(tokens: &Tokens<'_>, least: u8) -> bool
    ensures { result ≡ nat_lt (spec.binding_ahead tokens.now) least }
{
    binds(infix_of(tokens.kind())) < least
}

/// An expression that goes on with operators of level `least` and above.
#[cycle(expr)]
#[tactic(auto, unfolding(crate::specs::Reading::read_expression))]
pub fn expr(
    alloc: Global,
    tokens: &mut Tokens<'_>,
    depth: usize,
    least: u8,
) -> Result<Box<Expr>, Fault>
    ensures read { Reads term_in (spec.read_expression max_level depth least tokens.old) result tokens.new }
    ensures stands { IfErr result (λ e. RefusesAt e tokens.new) }
{
    if depth == 0 {
        return Err(tokens.too_deep());
    }
    climbing(alloc, tokens, depth - 1, least)
}

#[cycle(expr)]
#[tactic(auto, unfolding(crate::specs::Reading::climbing, crate::specs::Reading::operations, crate::specs::Reading::climb))]
fn climbing(
    alloc: Global,
    tokens: &mut Tokens<'_>,
    depth: usize,
    least: u8,
) -> Result<Box<Expr>, Fault>
    ensures read { Reads term_in (spec.climbing max_level (spec.read_expression max_level depth) least tokens.old)
        result tokens.new }
    ensures stands { IfErr result (λ e. RefusesAt e tokens.new) }
{
    let mut left = prefix(alloc, tokens, depth)?;
    for _turn in 0..tokens.left() {
        if ends(tokens, least) {
            return Ok(left);
        }
        left = operation(alloc, tokens, depth, left)?;
    }
    if ends(tokens, least) {
        return Ok(left);
    }
    Err(tokens.refuse())
}

#[cycle(expr)]
#[tactic(auto, unfolding(crate::specs::Reading::operation, crate::specs::Reading::choose_term))]
fn operation(
    alloc: Global,
    tokens: &mut Tokens<'_>,
    depth: usize,
    left: Box<Expr>,
) -> Result<Box<Expr>, Fault>
    ensures read { Reads term_in (spec.operation max_level (spec.read_expression max_level depth) (term_in left)
        tokens.old) result tokens.new }
    ensures stands { IfErr result (λ e. RefusesAt e tokens.new) }
{
    match infix_of(tokens.kind()) {
        Infix::Joins { op } => {
            let token = tokens.raise()?;
            let right = expr(alloc, tokens, depth, level_of(op) + 1)?;
            let node = nodes::join(token.place, op, left, right);
            Ok(nodes::boxed(alloc, node)?)
        }
        Infix::Question => {
            let token = tokens.raise()?;
            let yes = expr(alloc, tokens, depth, 1)?;
            tokens.close(Fixed::Colon)?;
            let no = expr(alloc, tokens, depth, 1)?;
            let node = nodes::choose(token.place, left, yes, no);
            Ok(nodes::boxed(alloc, node)?)
        }
        Infix::Nothing => Err(tokens.refuse()),
    }
}

#[cycle(expr)]
#[tactic(auto, unfolding(crate::specs::Reading::prefix))]
fn prefix(alloc: Global, tokens: &mut Tokens<'_>, depth: usize) -> Result<Box<Expr>, Fault>
    ensures read { Reads term_in (spec.prefix max_level (spec.read_expression max_level depth) tokens.old)
        result tokens.new }
    ensures stands { IfErr result (λ e. RefusesAt e tokens.new) }
{
    match start_of(tokens.kind()) {
        Start::Literal => {
            let number = tokens.number()?;
            Ok(nodes::boxed(alloc, nodes::number(number))?)
        }
        Start::Named => named(alloc, tokens, depth),
        Start::Sign { op } => {
            let token = tokens.raise()?;
            let part = expr(alloc, tokens, depth, 12)?;
            Ok(nodes::boxed(alloc, nodes::unary(token.place, op, part))?)
        }
        Start::Round => bracketed(alloc, tokens, depth),
        Start::Nothing => Err(tokens.refuse()),
    }
}

#[cycle(expr)]
#[tactic(auto, unfolding(crate::specs::Reading::named_term))]
fn named(alloc: Global, tokens: &mut Tokens<'_>, depth: usize) -> Result<Box<Expr>, Fault>
    ensures read { Reads term_in (spec.named_term max_level (spec.read_expression max_level depth) tokens.old)
        result tokens.new }
    ensures stands { IfErr result (λ e. RefusesAt e tokens.new) }
{
    let name = tokens.name()?;
    match after_of(tokens.kind()) {
        Behind::Index => {
            let index = indexed(alloc, tokens, depth)?;
            Ok(nodes::boxed(alloc, nodes::element(name, index))?)
        }
        Behind::Arguments => {
            let args = passed(alloc, tokens, depth)?;
            Ok(nodes::boxed(alloc, nodes::call(name, args))?)
        }
        Behind::Nothing => Ok(nodes::boxed(alloc, nodes::read(name))?),
    }
}

/// An expression between two brackets.
#[cycle(expr)]
fn enclosed(
    alloc: Global,
    tokens: &mut Tokens<'_>,
    depth: usize,
    left: Fixed,
    right: Fixed,
) -> Result<Box<Expr>, Fault>
    ensures read { Reads term_in (spec.enclosed max_level left right (λ _ inner. inner)
        (spec.read_expression max_level depth 1) tokens.old) result tokens.new }
    ensures stands { IfErr result (λ e. RefusesAt e tokens.new) }
{
    let outer = tokens.level();
    tokens.enter(left)?;
    let inner = expr(alloc, tokens, depth, 1)?;
    tokens.close(right)?;
    tokens.leave(outer);
    Ok(inner)
}

/// An expression between round brackets.
#[cycle(expr)]
#[tactic(auto, unfolding(crate::specs::Reading::bracketed))]
pub fn bracketed(alloc: Global, tokens: &mut Tokens<'_>, depth: usize) -> Result<Box<Expr>, Fault>
    ensures read { Reads term_in (spec.bracketed max_level (spec.read_expression max_level depth) tokens.old)
        result tokens.new }
    ensures stands { IfErr result (λ e. RefusesAt e tokens.new) }
{
    enclosed(alloc, tokens, depth, Fixed::LeftRound, Fixed::RightRound)
}

/// An index, with its square brackets.
#[cycle(expr)]
#[tactic(auto, unfolding(crate::specs::Reading::indexed))]
pub fn indexed(alloc: Global, tokens: &mut Tokens<'_>, depth: usize) -> Result<Box<Expr>, Fault>
    ensures read { Reads term_in (spec.indexed max_level (spec.read_expression max_level depth) tokens.old)
        result tokens.new }
    ensures stands { IfErr result (λ e. RefusesAt e tokens.new) }
{
    enclosed(alloc, tokens, depth, Fixed::LeftSquare, Fixed::RightSquare)
}

/// The arguments of a call, with their brackets.
#[cycle(expr)]
#[tactic(auto, unfolding(crate::specs::Reading::passed, crate::specs::Reading::read_arguments))]
pub fn passed(alloc: Global, tokens: &mut Tokens<'_>, depth: usize) -> Result<Items<Expr>, Fault>
    ensures read { Reads (map term) (spec.passed max_level (spec.read_expression max_level depth) tokens.old)
        result tokens.new }
    ensures stands { IfErr result (λ e. RefusesAt e tokens.new) }
{
    let outer = tokens.level();
    tokens.enter(Fixed::LeftRound)?;
    let args = arguments(alloc, tokens, depth)?;
    tokens.close(Fixed::RightRound)?;
    tokens.leave(outer);
    Ok(args)
}

#[cycle(expr)]
#[tactic(auto, unfolding(crate::specs::Reading::read_arguments))]
fn arguments(alloc: Global, tokens: &mut Tokens<'_>, depth: usize) -> Result<Items<Expr>, Fault>
    ensures read { Reads (map term) (spec.read_arguments max_level (spec.read_expression max_level depth) tokens.old)
        result tokens.new }
    ensures stands { IfErr result (λ e. RefusesAt e tokens.new) }
{
    if tokens.next_is(Fixed::RightRound) {
        return Ok(Items::new(alloc));
    }
    values(alloc, tokens, depth)
}

/// One expression or more, with a comma between each two.
#[cycle(expr)]
#[tactic(auto, unfolding(crate::specs::Reading::separated, crate::specs::Reading::separated_from))]
pub fn values(alloc: Global, tokens: &mut Tokens<'_>, depth: usize) -> Result<Items<Expr>, Fault>
    ensures read { Reads (map term) (spec.separated (spec.value max_level (spec.read_expression max_level depth))
        tokens.old) result tokens.new }
    ensures stands { IfErr result (λ e. RefusesAt e tokens.new) }
{
    let mut found = Items::new(alloc);
    for _turn in 0..tokens.left() {
        found.push(Box::into_inner(value(alloc, tokens, depth)?))?;
        if !tokens.next_is(Fixed::Comma) {
            return Ok(found);
        }
        tokens.take()?;
    }
    Err(tokens.refuse())
}

/// An expression of its own.
#[cycle(expr)]
#[tactic(auto, unfolding(crate::specs::Reading::value))]
pub fn value(alloc: Global, tokens: &mut Tokens<'_>, depth: usize) -> Result<Box<Expr>, Fault>
    ensures read { Reads term_in (spec.value max_level (spec.read_expression max_level depth) tokens.old)
        result tokens.new }
    ensures stands { IfErr result (λ e. RefusesAt e tokens.new) }
{
    let outer = tokens.level();
    let found = expr(alloc, tokens, depth, 1)?;
    tokens.leave(outer);
    Ok(found)
}
