//! Texts and the programs that they spell.

use forec_base::Binary;
use forec_lexer::lex;
use forec_parser::parse;
use forec_tree::{ExprKind, Item, Program, Stmt, StmtKind};
use std::alloc::Global;
use std::test::Fail;

/// Texts, each with the number of items of the program that it spells, if it spells one.
const ROWS: [(&str, Option<usize>); 55] = [
    ("", Some(0)),
    ("const int a = -1, b[2] = {1, -2};", Some(2)),
    ("input int a, b, c;", Some(3)),
    ("output int a, b = 1;", Some(2)),
    ("int a = 1, b, c = -3;", Some(3)),
    ("int a; int f() { return 1; }", Some(2)),
    ("shared int a = 1 combine all with f;", Some(1)),
    ("shared output int a combine new with f;", Some(1)),
    (
        "output shared int a combine mod with f; void f(void) { }",
        Some(2),
    ),
    ("shared int a[2] combine all with f;", Some(1)),
    (
        "shared output int a[2] = {1, -2} combine new with f;",
        Some(1),
    ),
    ("output shared int a[2] combine mod with f; int b;", Some(2)),
    ("void f() { ; }", Some(1)),
    ("void f(void) { { pause; } }", Some(1)),
    (
        "void f(int a, int b) { int x, y = 1, z[2], w[2] = {1, a + b}; }",
        Some(1),
    ),
    ("void f() { x[1 + 2] = 3; }", Some(1)),
    ("void f() { x <<= 3; }", Some(1)),
    ("void f() { x--; }", Some(1)),
    ("void f() { ++x[1]; }", Some(1)),
    ("void f() { g(); }", Some(1)),
    ("void f() { g(1, h(a[2])); }", Some(1)),
    ("void f() { if (a) if (b) ; else x = 1; }", Some(1)),
    ("void f() { while (1) #3 pause; }", Some(1)),
    ("void f() { for (;;) pause; }", Some(1)),
    ("void f() { for (int i = 0; i < 3; i++) #3 ; }", Some(1)),
    ("void f() { for (i = 0; 1; g()) ; }", Some(1)),
    ("void f() { par(g, h(1), { pause; }); }", Some(1)),
    (
        "void f() { weak abort { pause; } when immediate (a); }",
        Some(1),
    ),
    ("void f() { abort { } when (a); }", Some(1)),
    (
        "int f() { return a ? b : c ? -d : ~!e && 1 || 2; }",
        Some(1),
    ),
    (";", None),
    ("int a[2];", None),
    ("shared int a[] combine all with f;", None),
    ("shared int a[-1] combine all with f;", None),
    ("shared int a[2] = 1 combine all with f;", None),
    ("shared int a[2] = {} combine all with f;", None),
    ("shared int a = {1} combine all with f;", None),
    ("shared int a[2], b combine all with f;", None),
    ("shared int a[2];", None),
    ("input int a[2];", None),
    ("output int a[2];", None),
    ("const int a;", None),
    ("input int a = 1;", None),
    ("shared int a, b combine all with f;", None),
    ("void f(void int a) { }", None),
    ("void f() { else ; }", None),
    ("void f() { if (a) ; else ; else ; }", None),
    ("void f() { a + 1; }", None),
    ("void f() { a = b = c; }", None),
    ("void f() { int a[1] = 2; }", None),
    ("void f() { par(); }", None),
    ("void f() { for (; ) ; }", None),
    ("void f() { abort ; when (a); }", None),
    ("void f() { return; }", None),
    ("void f() { { }", None),
];

/// The program that a text spells, if it spells one.
pub fn program(alloc: Global, text: &str) -> Result<Option<Program>, Fail> {
    if text.len() > 1_048_576 {
        return Ok(None);
    }
    let lexed = lex(alloc, text.as_bytes())?;
    if lexed.tokens.len() > 200_000 {
        return Ok(None);
    }
    match parse(alloc, lexed.tokens.as_slice()) {
        Ok(program) => Ok(Some(program)),
        Err(_) => Ok(None),
    }
}

/// The first statement of a program's first function.
pub fn first_statement(program: &Program) -> Option<&Stmt> {
    match program.items.as_slice().first() {
        Some(Item::Function { function }) => function.body.as_slice().first(),
        _ => None,
    }
}

#[test]
fn spelled_or_not(rt: HostRuntime) -> Result<(), Fail> {
    for (text, wanted) in ROWS {
        let items = match program(rt.alloc(), text)? {
            Some(program) => Some(program.items.len()),
            None => None,
        };
        assert_eq!(rt; items, wanted, "{text}");
    }
    Ok(())
}

/// The operator of an assigned value, and the columns of its parts and of itself.
fn operator(statement: &Stmt) -> Option<(Binary, u32, u32, u32)> {
    match &statement.what {
        StmtKind::Assign { value, .. } => match &value.what {
            ExprKind::Binary { op, left, right } => {
                Some((
                    *op,
                    left.place.column,
                    value.place.column,
                    right.place.column,
                ))
            }
            _ => None,
        },
        _ => None,
    }
}

#[test]
fn groups_to_the_left(rt: HostRuntime) -> Result<(), Fail> {
    let program = program(rt.alloc(), "void f() { x = a - b - c; }")?;
    let found = match &program {
        Some(program) => match first_statement(program) {
            Some(statement) => operator(statement),
            None => None,
        },
        None => None,
    };
    assert!(rt; found == Some((Binary::Sub, 18, 22, 24)));
    Ok(())
}
