//! The initial values of globals.

ghost use Rattle.std.specs.Prelude.{List};
ghost use Rattle.forec_tree.specs.declared.tree.Number.{Number};
ghost use Rattle.expr_parser.specs.Input.{Reads, max_level};
ghost use Rattle.expr_parser.specs.Reading.{separated};
ghost use Rattle.forec_parser.specs.Items as spec;

use expr_parser::{Fault, Fixed, Tokens};
use forec_base::{Unary, unary};
use forec_tree::Number;
use sqlite_items::Items;
use std::alloc::Global;

#[tactic(auto, unfolding(crate::specs::Items::negative_number))]
fn negative(tokens: &mut Tokens<'_>) -> Result<Number, Fault>
    ensures { Reads (λ (n : Number). n) (spec.negative_number tokens.old) result tokens.new }
{
    let token = tokens.close(Fixed::Minus)?;
    let number = tokens.number()?;
    Ok(Number {
        value: unary(Unary::Minus, number.value),
        place: token.place,
    })
}

/// A number with or without a sign.
#[tactic(auto, unfolding(crate::specs::Items::signed))]
fn signed(tokens: &mut Tokens<'_>) -> Result<Number, Fault>
    ensures { Reads (λ (n : Number). n) (spec.signed tokens.old) result tokens.new }
{
    if tokens.next_is(Fixed::Minus) {
        negative(tokens)
    } else {
        tokens.number()
    }
}

#[tactic(auto, unfolding(crate::specs::Items::one_value))]
fn one_value(alloc: Global, tokens: &mut Tokens<'_>) -> Result<Items<Number>, Fault>
    ensures { Reads (λ (ns : List Number). ns) (spec.one_value tokens.old) result tokens.new }
{
    tokens.close(Fixed::Assign)?;
    let number = signed(tokens)?;
    let mut found = Items::new(alloc);
    found.push(number)?;
    Ok(found)
}

/// `=` and a number, if they are there.
#[tactic(auto, unfolding(crate::specs::Items::maybe_value))]
pub fn maybe_value(alloc: Global, tokens: &mut Tokens<'_>) -> Result<Items<Number>, Fault>
    ensures { Reads (λ (ns : List Number). ns) (spec.maybe_value tokens.old) result tokens.new }
{
    if tokens.next_is(Fixed::Assign) {
        one_value(alloc, tokens)
    } else {
        Ok(Items::new(alloc))
    }
}

#[tactic(auto, unfolding(expr_parser::specs::Reading::separated, expr_parser::specs::Reading::separated_from))]
fn signed_values(alloc: Global, tokens: &mut Tokens<'_>) -> Result<Items<Number>, Fault>
    ensures { Reads (λ (ns : List Number). ns) (separated spec.signed tokens.old) result tokens.new }
{
    let mut found = Items::new(alloc);
    for _turn in 0..tokens.left() {
        found.push(signed(tokens)?)?;
        if !tokens.next_is(Fixed::Comma) {
            return Ok(found);
        }
        tokens.take()?;
    }
    Err(tokens.refuse())
}

#[tactic(auto, unfolding(crate::specs::Items::table_values))]
fn table_values(alloc: Global, tokens: &mut Tokens<'_>) -> Result<Items<Number>, Fault>
    ensures { Reads (λ (ns : List Number). ns) (spec.table_values max_level tokens.old) result tokens.new }
{
    let outer = tokens.level();
    tokens.enter(Fixed::LeftCurly)?;
    let found = signed_values(alloc, tokens)?;
    tokens.close(Fixed::RightCurly)?;
    tokens.leave(outer);
    Ok(found)
}

#[tactic(auto, unfolding(crate::specs::Items::many_values))]
fn many_values(alloc: Global, tokens: &mut Tokens<'_>) -> Result<Items<Number>, Fault>
    ensures { Reads (λ (ns : List Number). ns) (spec.many_values max_level tokens.old) result tokens.new }
{
    tokens.close(Fixed::Assign)?;
    table_values(alloc, tokens)
}

/// `=` and a number, or the numbers of an array between curly brackets.
pub fn values_by(
    alloc: Global,
    tokens: &mut Tokens<'_>,
    length: Option<Number>,
) -> Result<Items<Number>, Fault>
    ensures { Reads (λ (ns : List Number). ns) (spec.values_by max_level length tokens.old) result tokens.new }
{
    match length {
        None => one_value(alloc, tokens),
        Some(_) => many_values(alloc, tokens),
    }
}

/// The same, if it is there.
#[tactic(auto, unfolding(crate::specs::Items::maybe_values))]
pub fn maybe_values(
    alloc: Global,
    tokens: &mut Tokens<'_>,
    length: Option<Number>,
) -> Result<Items<Number>, Fault>
    ensures { Reads (λ (ns : List Number). ns) (spec.maybe_values max_level length tokens.old) result tokens.new }
{
    if tokens.next_is(Fixed::Assign) {
        values_by(alloc, tokens, length)
    } else {
        Ok(Items::new(alloc))
    }
}
