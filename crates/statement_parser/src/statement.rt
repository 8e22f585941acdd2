//! Statements, by recursive descent. `depth` bounds how deep calls nest; the level of the tokens ends a text first.

ghost use Rattle.std.specs.Prelude.{◌≡◌, map};
ghost use Rattle.forec_tree.specs.Plain.{statement};
ghost use Rattle.expr_parser.specs.Boxes.{term_in};
ghost use Rattle.expr_parser.specs.Input.{Reads, max_level};
ghost use Rattle.statement_parser.specs.Statements as spec;
ghost use Rattle.statement_parser.specs.Views.{statement_in, launch_of, block_statements};

use crate::meaning::{Sort, ends_body, sort_of};
use crate::parts::{self, Block};
use crate::simple::{
    acting, bound, bracketed, called, declaring, flag, head, pausing, return_statement,
};
use expr_parser::{Fault, Fixed, Tokens};
use forec_tree::{Branch, Expr, Stmt, Token};
use sqlite_items::Items;
use std::alloc::Global;

/// A statement in which others nest no deeper than `depth`.
#[cycle(stmt)]
#[tactic(auto, unfolding(crate::specs::Statements::read_statement))]
pub fn stmt(alloc: Global, tokens: &mut Tokens<'_>, depth: usize) -> Result<Stmt, Fault>
    ensures { Reads statement (spec.read_statement max_level depth tokens.old) result tokens.new }
{
    if depth == 0 {
        return Err(tokens.too_deep());
    }
    one(alloc, tokens, depth - 1)
}

#[cycle(stmt)]
#[tactic(auto, unfolding(crate::specs::Statements::one_statement, crate::specs::Statements::group))]
fn one(alloc: Global, tokens: &mut Tokens<'_>, depth: usize) -> Result<Stmt, Fault>
    ensures { Reads statement (spec.one_statement max_level (spec.read_statement max_level depth) tokens.old)
        result tokens.new }
{
    match sort_of(tokens.kind()) {
        Sort::Empty => {
            let token = tokens.close(Fixed::Semicolon)?;
            Ok(parts::nothing(token.place))
        }
        Sort::Curly => {
            let block = block(alloc, tokens, depth)?;
            Ok(parts::group(block))
        }
        Sort::Declares => declaring(alloc, tokens),
        Sort::If => if_statement(alloc, tokens, depth),
        Sort::While => while_statement(alloc, tokens, depth),
        Sort::For => for_statement(alloc, tokens, depth),
        Sort::Pause => pausing(tokens),
        Sort::Par => par_statement(alloc, tokens, depth),
        Sort::Weak => {
            tokens.close(Fixed::Weak)?;
            abort_statement(alloc, tokens, depth, true)
        }
        Sort::Abort => abort_statement(alloc, tokens, depth, false),
        Sort::Return => return_statement(alloc, tokens),
        Sort::Simple => acting(alloc, tokens),
        Sort::Nothing => Err(tokens.refuse()),
    }
}

/// A statement in a box of its own.
#[cycle(stmt)]
fn nested(alloc: Global, tokens: &mut Tokens<'_>, depth: usize) -> Result<Box<Stmt>, Fault>
    ensures { Reads statement_in (spec.read_statement max_level depth tokens.old) result tokens.new }
{
    let found = stmt(alloc, tokens, depth)?;
    Ok(parts::boxed(alloc, found)?)
}

/// Statements up to the bracket that closes them, or the end.
#[cycle(stmt)]
#[tactic(auto, unfolding(crate::specs::Statements::body, crate::specs::Statements::body_from))]
fn body(alloc: Global, tokens: &mut Tokens<'_>, depth: usize) -> Result<Items<Stmt>, Fault>
    ensures { Reads (map statement) (spec.body max_level (spec.read_statement max_level depth) tokens.old)
        result tokens.new }
{
    let mut found = Items::new(alloc);
    for _turn in 0..tokens.left() {
        if ends_body(tokens.kind()) {
            return Ok(found);
        }
        found.push(stmt(alloc, tokens, depth)?)?;
    }
    if ends_body(tokens.kind()) {
        return Ok(found);
    }
    Err(tokens.refuse())
}

/// Statements between curly brackets.
#[cycle(stmt)]
#[tactic(auto, unfolding(crate::specs::Statements::block))]
pub fn block(alloc: Global, tokens: &mut Tokens<'_>, depth: usize) -> Result<Block, Fault>
    ensures { Reads block_statements (spec.block max_level (spec.read_statement max_level depth) tokens.old)
        result tokens.new }
{
    let outer = tokens.level();
    let token = tokens.enter(Fixed::LeftCurly)?;
    let body = body(alloc, tokens, depth)?;
    tokens.close(Fixed::RightCurly)?;
    tokens.leave(outer);
    Ok(Block {
        place: token.place,
        body,
    })
}

#[cycle(stmt)]
#[tactic(auto, unfolding(crate::specs::Statements::if_statement))]
fn if_statement(alloc: Global, tokens: &mut Tokens<'_>, depth: usize) -> Result<Stmt, Fault>
    ensures { Reads statement (spec.if_statement max_level (spec.read_statement max_level depth) tokens.old)
        result tokens.new }
{
    let outer = tokens.level();
    let token = tokens.enter(Fixed::If)?;
    let test = bracketed(alloc, tokens)?;
    let yes = nested(alloc, tokens, depth)?;
    let found = if tokens.next_is(Fixed::Else) {
        otherwise(alloc, tokens, depth, token, test, yes)?
    } else {
        parts::if_of(token.place, test, yes, None)
    };
    tokens.leave(outer);
    Ok(found)
}

/// An `if` from its `else` on.
#[cycle(stmt)]
#[tactic(auto, unfolding(crate::specs::Statements::otherwise))]
fn otherwise(
    alloc: Global,
    tokens: &mut Tokens<'_>,
    depth: usize,
    token: Token,
    test: Box<Expr>,
    yes: Box<Stmt>,
) -> Result<Stmt, Fault>
    ensures { Reads statement (spec.otherwise max_level (spec.read_statement max_level depth) token (term_in test)
        (statement_in yes) tokens.old) result tokens.new }
{
    tokens.enter(Fixed::Else)?;
    let no = nested(alloc, tokens, depth)?;
    Ok(parts::if_of(token.place, test, yes, Some(no)))
}

#[cycle(stmt)]
#[tactic(auto, unfolding(crate::specs::Statements::while_statement))]
fn while_statement(alloc: Global, tokens: &mut Tokens<'_>, depth: usize) -> Result<Stmt, Fault>
    ensures { Reads statement (spec.while_statement max_level (spec.read_statement max_level depth) tokens.old) result
        tokens.new }
{
    let outer = tokens.level();
    let token = tokens.enter(Fixed::While)?;
    let test = bracketed(alloc, tokens)?;
    let turns = bound(tokens)?;
    let body = nested(alloc, tokens, depth)?;
    tokens.leave(outer);
    Ok(parts::while_of(token.place, test, turns, body))
}

#[cycle(stmt)]
#[tactic(auto, unfolding(crate::specs::Statements::for_statement))]
fn for_statement(alloc: Global, tokens: &mut Tokens<'_>, depth: usize) -> Result<Stmt, Fault>
    ensures { Reads statement (spec.for_statement max_level (spec.read_statement max_level depth) tokens.old)
        result tokens.new }
{
    let outer = tokens.level();
    let token = tokens.enter(Fixed::For)?;
    let head = head(alloc, tokens)?;
    let turns = bound(tokens)?;
    let body = nested(alloc, tokens, depth)?;
    tokens.leave(outer);
    Ok(parts::for_of(token.place, head, turns, body))
}

#[cycle(stmt)]
#[tactic(auto, unfolding(crate::specs::Statements::launch))]
fn launch(alloc: Global, tokens: &mut Tokens<'_>, depth: usize) -> Result<Branch, Fault>
    ensures { Reads launch_of (spec.launch max_level (spec.read_statement max_level depth) tokens.old)
        result tokens.new }
{
    if tokens.next_is(Fixed::LeftCurly) {
        let block = block(alloc, tokens, depth)?;
        Ok(parts::start_block(block))
    } else {
        called(alloc, tokens)
    }
}

#[cycle(stmt)]
#[tactic(auto, unfolding(crate::specs::Statements::launches, expr_parser::specs::Reading::separated, expr_parser::specs::Reading::separated_from))]
fn launches(alloc: Global, tokens: &mut Tokens<'_>, depth: usize) -> Result<Items<Branch>, Fault>
    ensures { Reads (map launch_of) (spec.launches max_level (spec.read_statement max_level depth) tokens.old)
        result tokens.new }
{
    let mut found = Items::new(alloc);
    for _turn in 0..tokens.left() {
        found.push(launch(alloc, tokens, depth)?)?;
        if !tokens.next_is(Fixed::Comma) {
            return Ok(found);
        }
        tokens.take()?;
    }
    Err(tokens.refuse())
}

#[cycle(stmt)]
#[tactic(auto, unfolding(crate::specs::Statements::par_statement))]
fn par_statement(alloc: Global, tokens: &mut Tokens<'_>, depth: usize) -> Result<Stmt, Fault>
    ensures { Reads statement (spec.par_statement max_level (spec.read_statement max_level depth) tokens.old)
        result tokens.new }
{
    let token = tokens.close(Fixed::Par)?;
    let outer = tokens.level();
    tokens.enter(Fixed::LeftRound)?;
    let branches = launches(alloc, tokens, depth)?;
    tokens.close(Fixed::RightRound)?;
    tokens.leave(outer);
    tokens.close(Fixed::Semicolon)?;
    Ok(parts::fork(token.place, branches))
}

/// An abort from the word `abort` on.
#[cycle(stmt)]
#[tactic(auto, unfolding(crate::specs::Statements::abort_statement))]
fn abort_statement(
    alloc: Global,
    tokens: &mut Tokens<'_>,
    depth: usize,
    weak: bool,
) -> Result<Stmt, Fault>
    ensures { Reads statement (spec.abort_statement max_level (spec.read_statement max_level depth) weak tokens.old)
        result tokens.new }
{
    let outer = tokens.level();
    let token = tokens.enter(Fixed::Abort)?;
    let block = block(alloc, tokens, depth)?;
    tokens.close(Fixed::When)?;
    let immediate = flag(tokens, Fixed::Immediate)?;
    let test = bracketed(alloc, tokens)?;
    tokens.close(Fixed::Semicolon)?;
    tokens.leave(outer);
    Ok(parts::abort(token.place, weak, immediate, test, block))
}
