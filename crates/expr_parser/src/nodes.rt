//! The nodes of expressions.

ghost use Rattle.std.specs.Prelude.{◌≡◌, IfOk, map};
ghost use Rattle.forec_tree.specs.Terms as plain;
ghost use Rattle.forec_tree.specs.Plain.{term};
ghost use Rattle.forec_tree.specs.Spelling.{operator_term, listed};
ghost use Rattle.expr_parser.specs.Boxes.{term_in};

use forec_base::{Place, Unary};
use forec_tree::{Expr, ExprKind, Name, Number, Operator};
use sqlite_items::Items;
use std::alloc::{AllocError, Global};

/// A node in a box of its own.
pub fn boxed(alloc: Global, node: Expr) -> Result<Box<Expr>, AllocError>
    ensures { IfOk result (λ b. term_in b ≡ term node) }
{
    Ok(Box::new(alloc, node)?)
}

/// A number.
pub fn number(number: Number) -> Expr
    ensures { term result ≡ plain.Num number.place number.value }
{
    Expr {
        place: number.place,
        what: ExprKind::Number {
            value: number.value,
        },
    }
}

/// A variable that is read.
pub fn read(name: Name) -> Expr
    ensures { term result ≡ plain.Read name.place name }
{
    Expr {
        place: name.place,
        what: ExprKind::Read { name },
    }
}

/// An element of an array that is read.
pub fn element(name: Name, index: Box<Expr>) -> Expr
    ensures { term result ≡ plain.Element name.place name (term_in index) }
{
    Expr {
        place: name.place,
        what: ExprKind::Element { name, index },
    }
}

/// A call of a function that gives a number.
pub fn call(name: Name, args: Items<Expr>) -> Expr
    ensures { term result ≡ plain.Call name.place name (listed (map term args)) }
{
    Expr {
        place: name.place,
        what: ExprKind::Call { name, args },
    }
}

/// A unary operator, at its place, before its operand.
pub fn unary(place: Place, op: Unary, part: Box<Expr>) -> Expr
    ensures { term result ≡ plain.Un place op (term_in part) }
{
    Expr {
        place,
        what: ExprKind::Unary { op, of: part },
    }
}

/// An operator, at its place, between its operands.
pub fn join(place: Place, op: Operator, left: Box<Expr>, right: Box<Expr>) -> Expr
    ensures { term result ≡ operator_term op place (term_in left) (term_in right) }
{
    let what = match op {
        Operator::Or => ExprKind::Or { left, right },
        Operator::And => ExprKind::And { left, right },
        Operator::Computes { op } => ExprKind::Binary { op, left, right },
    };
    Expr { place, what }
}

/// `test ? yes : no`, at the place of the question mark.
pub fn choose(place: Place, test: Box<Expr>, yes: Box<Expr>, no: Box<Expr>) -> Expr
    ensures { term result ≡ plain.Choose place (term_in test) (term_in yes) (term_in no) }
{
    Expr {
        place,
        what: ExprKind::Choose { test, yes, no },
    }
}
