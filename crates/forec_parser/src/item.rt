//! Globals and functions.

ghost use Rattle.std.specs.Prelude.{◌≡◌, map};
ghost use Rattle.forec_base.specs.declared.Policy.{Policy};
ghost use Rattle.forec_tree.specs.declared.tree.Combine.{Combine};
ghost use Rattle.forec_tree.specs.declared.tree.Name.{Name};
ghost use Rattle.std.specs.Prelude.{List};
ghost use Rattle.forec_tree.specs.Plain.{plain_item};
ghost use Rattle.expr_parser.specs.Input.{Reads, max_level};
ghost use Rattle.forec_parser.specs.Items as spec;
ghost use Rattle.expr_parser.specs.Reading.{separated};

use crate::values::{maybe_value, maybe_values, values_by};
use expr_parser::{Fault, Fixed, Tokens};
use forec_base::Policy;
use forec_tree::{Combine, Global as Variable, GlobalKind, Item, Name};
use sqlite_items::Items;
use statement_parser::{
    Declarator, Opening, block, function_item, maybe_length, opening_of, policy_of,
};
use std::alloc::Global;

/// More than the levels that the statements of a function have.
const BLOCK_DEPTH: usize = 129;

/// A constant, or a table of constants.
#[tactic(auto, unfolding(crate::specs::Items::table))]
fn table(alloc: Global, tokens: &mut Tokens<'_>) -> Result<Item, Fault>
    ensures { Reads plain_item (spec.table max_level tokens.old) result tokens.new }
{
    let name = tokens.name()?;
    let length = maybe_length(tokens)?;
    let values = values_by(alloc, tokens, length)?;
    Ok(Item::Global {
        global: Variable {
            name,
            kind: GlobalKind::Const,
            length,
            values,
            combine: None,
        },
    })
}

/// One declarator of a global.
#[tactic(auto, unfolding(crate::specs::Items::declared_item))]
fn declared(alloc: Global, tokens: &mut Tokens<'_>, declarator: Declarator) -> Result<Item, Fault>
    ensures { Reads plain_item (spec.declared_item max_level declarator tokens.old) result tokens.new }
{
    match declarator {
        Declarator::Table => table(alloc, tokens),
        Declarator::Bare => {
            let name = tokens.name()?;
            Ok(Item::Global {
                global: Variable {
                    name,
                    kind: GlobalKind::Input,
                    length: None,
                    values: Items::new(alloc),
                    combine: None,
                },
            })
        }
        Declarator::Valued { kind } => {
            let name = tokens.name()?;
            let values = maybe_value(alloc, tokens)?;
            Ok(Item::Global {
                global: Variable {
                    name,
                    kind,
                    length: None,
                    values,
                    combine: None,
                },
            })
        }
    }
}

#[tactic(auto, unfolding(expr_parser::specs::Reading::separated, expr_parser::specs::Reading::separated_from))]
fn declared_list(
    alloc: Global,
    tokens: &mut Tokens<'_>,
    declarator: Declarator,
) -> Result<Items<Item>, Fault>
    ensures { Reads (map plain_item) (separated (spec.declared_item max_level declarator) tokens.old)
        result tokens.new }
{
    let mut found = Items::new(alloc);
    for _turn in 0..tokens.left() {
        found.push(declared(alloc, tokens, declarator)?)?;
        if !tokens.next_is(Fixed::Comma) {
            return Ok(found);
        }
        tokens.take()?;
    }
    Err(tokens.refuse())
}

#[tactic(auto, unfolding(crate::specs::Items::globals))]
fn globals(
    alloc: Global,
    tokens: &mut Tokens<'_>,
    declarator: Declarator,
) -> Result<Items<Item>, Fault>
    ensures { Reads (map plain_item) (spec.globals max_level declarator tokens.old) result tokens.new }
{
    let found = declared_list(alloc, tokens, declarator)?;
    tokens.close(Fixed::Semicolon)?;
    Ok(found)
}

/// Globals from `int` on.
#[tactic(auto, unfolding(crate::specs::Items::ints))]
fn ints(
    alloc: Global,
    tokens: &mut Tokens<'_>,
    declarator: Declarator,
) -> Result<Items<Item>, Fault>
    ensures { Reads (map plain_item) (spec.ints max_level declarator tokens.old) result tokens.new }
{
    tokens.close(Fixed::Int)?;
    globals(alloc, tokens, declarator)
}

#[tactic(auto, unfolding(crate::specs::Items::policy))]
fn policy(tokens: &mut Tokens<'_>) -> Result<Policy, Fault>
    ensures { Reads (λ (p : Policy). p) (spec.policy tokens.old) result tokens.new }
{
    match policy_of(tokens.kind()) {
        Some(policy) => {
            tokens.take()?;
            Ok(policy)
        }
        None => Err(tokens.refuse()),
    }
}

#[tactic(auto, unfolding(crate::specs::Items::combines))]
fn combines(tokens: &mut Tokens<'_>) -> Result<Combine, Fault>
    ensures { Reads (λ (c : Combine). c) (spec.combines tokens.old) result tokens.new }
{
    tokens.close(Fixed::Combine)?;
    let policy = policy(tokens)?;
    tokens.close(Fixed::With)?;
    let with = tokens.name()?;
    Ok(Combine { policy, with })
}

/// A shared variable or array from `int` on.
#[tactic(auto, unfolding(crate::specs::Items::shared))]
fn shared(alloc: Global, tokens: &mut Tokens<'_>, kind: GlobalKind) -> Result<Items<Item>, Fault>
    ensures { Reads (map plain_item) (spec.shared max_level kind tokens.old) result tokens.new }
{
    tokens.close(Fixed::Int)?;
    let name = tokens.name()?;
    let length = maybe_length(tokens)?;
    let values = maybe_values(alloc, tokens, length)?;
    let combine = combines(tokens)?;
    tokens.close(Fixed::Semicolon)?;
    let mut found = Items::new(alloc);
    found.push(Item::Global {
        global: Variable {
            name,
            kind,
            length,
            values,
            combine: Some(combine),
        },
    })?;
    Ok(found)
}

#[tactic(auto, unfolding(crate::specs::Items::output_shared))]
fn output_shared(alloc: Global, tokens: &mut Tokens<'_>) -> Result<Items<Item>, Fault>
    ensures { Reads (map plain_item) (spec.output_shared max_level tokens.old) result tokens.new }
{
    tokens.close(Fixed::Shared)?;
    shared(alloc, tokens, GlobalKind::SharedOutput)
}

#[tactic(auto, unfolding(crate::specs::Items::shared_output))]
fn shared_output(alloc: Global, tokens: &mut Tokens<'_>) -> Result<Items<Item>, Fault>
    ensures { Reads (map plain_item) (spec.shared_output max_level tokens.old) result tokens.new }
{
    tokens.close(Fixed::Output)?;
    let kind = GlobalKind::SharedOutput;
    shared(alloc, tokens, kind)
}

#[tactic(auto, unfolding(crate::specs::Items::param))]
fn param(tokens: &mut Tokens<'_>) -> Result<Name, Fault>
    ensures { Reads (λ (n : Name). n) (spec.param tokens.old) result tokens.new }
{
    tokens.close(Fixed::Int)?;
    tokens.name()
}

#[tactic(auto, unfolding(expr_parser::specs::Reading::separated, expr_parser::specs::Reading::separated_from))]
fn listed_params(alloc: Global, tokens: &mut Tokens<'_>) -> Result<Items<Name>, Fault>
    ensures { Reads (λ (ns : List Name). ns) (separated spec.param tokens.old) result tokens.new }
{
    let mut found = Items::new(alloc);
    for _turn in 0..tokens.left() {
        found.push(param(tokens)?)?;
        if !tokens.next_is(Fixed::Comma) {
            return Ok(found);
        }
        tokens.take()?;
    }
    Err(tokens.refuse())
}

#[tactic(auto, unfolding(crate::specs::Items::some_params))]
fn some_params(alloc: Global, tokens: &mut Tokens<'_>) -> Result<Items<Name>, Fault>
    ensures { Reads (λ (ns : List Name). ns) (spec.some_params tokens.old) result tokens.new }
{
    if tokens.next_is(Fixed::Void) {
        tokens.close(Fixed::Void)?;
        let none = Items::new(alloc);
        Ok(none)
    } else {
        listed_params(alloc, tokens)
    }
}

#[tactic(auto, unfolding(crate::specs::Items::params))]
fn params(alloc: Global, tokens: &mut Tokens<'_>) -> Result<Items<Name>, Fault>
    ensures { Reads (λ (ns : List Name). ns) (spec.params tokens.old) result tokens.new }
{
    if tokens.next_is(Fixed::RightRound) {
        Ok(Items::new(alloc))
    } else {
        some_params(alloc, tokens)
    }
}

/// Parameters, with their brackets.
#[tactic(auto, unfolding(crate::specs::Items::parameters))]
fn parameters(alloc: Global, tokens: &mut Tokens<'_>) -> Result<Items<Name>, Fault>
    ensures { Reads (λ (ns : List Name). ns) (spec.parameters max_level tokens.old) result tokens.new }
{
    let outer = tokens.level();
    tokens.enter(Fixed::LeftRound)?;
    let found = params(alloc, tokens)?;
    tokens.close(Fixed::RightRound)?;
    tokens.leave(outer);
    Ok(found)
}

/// A function from its parameters on.
#[tactic(auto, unfolding(crate::specs::Items::function))]
fn function(
    alloc: Global,
    tokens: &mut Tokens<'_>,
    gives: bool,
    name: Name,
) -> Result<Items<Item>, Fault>
    ensures { Reads (map plain_item) (spec.function max_level gives name tokens.old) result tokens.new }
{
    let params = parameters(alloc, tokens)?;
    let block = block(alloc, tokens, BLOCK_DEPTH)?;
    let mut found = Items::new(alloc);
    found.push(function_item(name, gives, params, block))?;
    Ok(found)
}

#[tactic(auto, unfolding(crate::specs::Items::more_globals))]
fn more_globals(alloc: Global, tokens: &mut Tokens<'_>) -> Result<Items<Item>, Fault>
    ensures { Reads (map plain_item) (spec.more_globals max_level tokens.old) result tokens.new }
{
    if tokens.next_is(Fixed::Comma) {
        tokens.close(Fixed::Comma)?;
        let plain = Declarator::Valued {
            kind: GlobalKind::Plain,
        };
        declared_list(alloc, tokens, plain)
    } else {
        Ok(Items::new(alloc))
    }
}

/// Plain globals after the first name.
#[tactic(auto, unfolding(crate::specs::Items::plain_globals))]
fn plain_globals(alloc: Global, tokens: &mut Tokens<'_>, name: Name) -> Result<Items<Item>, Fault>
    ensures { Reads (map plain_item) (spec.plain_globals max_level name tokens.old) result tokens.new }
{
    let values = maybe_value(alloc, tokens)?;
    let more = more_globals(alloc, tokens)?;
    tokens.close(Fixed::Semicolon)?;
    let mut found = Items::new(alloc);
    found.push(Item::Global {
        global: Variable {
            name,
            kind: GlobalKind::Plain,
            length: None,
            values,
            combine: None,
        },
    })?;
    found.append(more)?;
    Ok(found)
}

/// An item that begins with `output`.
#[tactic(auto, unfolding(crate::specs::Items::outputs))]
fn outputs(alloc: Global, tokens: &mut Tokens<'_>) -> Result<Items<Item>, Fault>
    ensures { Reads (map plain_item) (spec.outputs max_level tokens.old) result tokens.new }
{
    tokens.close(Fixed::Output)?;
    if tokens.next_is(Fixed::Shared) {
        output_shared(alloc, tokens)
    } else {
        let output = Declarator::Valued {
            kind: GlobalKind::Output,
        };
        ints(alloc, tokens, output)
    }
}

/// An item that begins with `shared`.
#[tactic(auto, unfolding(crate::specs::Items::shared_globals))]
fn shared_globals(alloc: Global, tokens: &mut Tokens<'_>) -> Result<Items<Item>, Fault>
    ensures { Reads (map plain_item) (spec.shared_globals max_level tokens.old) result tokens.new }
{
    tokens.close(Fixed::Shared)?;
    if tokens.next_is(Fixed::Output) {
        shared_output(alloc, tokens)
    } else {
        shared(alloc, tokens, GlobalKind::Shared)
    }
}

/// An item that begins with `int`.
#[tactic(auto, unfolding(crate::specs::Items::int_item))]
fn numbers(alloc: Global, tokens: &mut Tokens<'_>) -> Result<Items<Item>, Fault>
    ensures { Reads (map plain_item) (spec.int_item max_level tokens.old) result tokens.new }
{
    tokens.close(Fixed::Int)?;
    let name = tokens.name()?;
    if tokens.next_is(Fixed::LeftRound) {
        function(alloc, tokens, true, name)
    } else {
        plain_globals(alloc, tokens, name)
    }
}

/// The items of one declaration.
#[tactic(auto, unfolding(crate::specs::Items::item))]
fn item(alloc: Global, tokens: &mut Tokens<'_>) -> Result<Items<Item>, Fault>
    ensures { Reads (map plain_item) (spec.item max_level tokens.old) result tokens.new }
{
    match opening_of(tokens.kind()) {
        Opening::Const => {
            tokens.close(Fixed::Const)?;
            ints(alloc, tokens, Declarator::Table)
        }
        Opening::Input => {
            tokens.close(Fixed::Input)?;
            ints(alloc, tokens, Declarator::Bare)
        }
        Opening::Output => outputs(alloc, tokens),
        Opening::Shared => shared_globals(alloc, tokens),
        Opening::Int => numbers(alloc, tokens),
        Opening::Void => {
            tokens.close(Fixed::Void)?;
            let name = tokens.name()?;
            function(alloc, tokens, false, name)
        }
        Opening::Nothing => Err(tokens.refuse()),
    }
}

/// Items up to the end of the tokens.
#[tactic(auto, unfolding(crate::specs::Items::items, crate::specs::Items::items_from))]
pub fn items(alloc: Global, tokens: &mut Tokens<'_>) -> Result<Items<Item>, Fault>
    ensures { Reads (map plain_item) (spec.items max_level tokens.old) result tokens.new }
{
    let mut found = Items::new(alloc);
    for _turn in 0..tokens.left() {
        if tokens.at_end() {
            return Ok(found);
        }
        found.append(item(alloc, tokens)?)?;
    }
    if tokens.at_end() {
        return Ok(found);
    }
    Err(tokens.refuse())
}
