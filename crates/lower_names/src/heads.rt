//! The heads of statements that have a body: what stands before it in the text.

use forec_base::Place;
use forec_tree::{Expr, Number, Stmt};

/// The head of a `while`: its place, its test, and its bound where it has one.
#[derive(Clone, Copy)]
pub struct WhileHead<'p> {
    pub place: Place,
    pub test: &'p Expr,
    pub bound: Option<Number>,
}

/// The head of a `for`: its place, its start, its test and its step, and its bound where it has one.
#[derive(Clone, Copy)]
pub struct ForHead<'p> {
    pub place: Place,
    pub start: &'p Option<Box<Stmt>>,
    pub test: &'p Option<Expr>,
    pub step: &'p Option<Box<Stmt>>,
    pub bound: Option<Number>,
}

/// The head of an abort: whether it is weak, whether it is immediate, and its test.
#[derive(Clone, Copy)]
pub struct AbortHead<'p> {
    pub weak: bool,
    pub immediate: bool,
    pub test: &'p Expr,
}
