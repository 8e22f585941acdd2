//! Worked loops.

ghost use Rattle.std.specs.Prelude.{◌≡◌, []};

use crate::parsed::{first_statement, program};
use forec_base::OutOfMemory;
use forec_tree::{Program, Stmt};
use loop_check::{certain, turns};
use sqlite_items::Items;
use std::alloc::Global;
use std::test::Fail;

/// Programs of one loop, each with the turns that its form tells, and whether it is certain to pause.
const ROWS: [(&str, Option<u32>, bool); 14] = [
    (
        "void f() { for (int i = 0; i < 10; i += 3) pause; }",
        Some(4),
        true,
    ),
    (
        "void f() { for (int i = 5; i > 5; i -= 1) pause; }",
        Some(0),
        false,
    ),
    (
        "void f() { for (int i = 0; i <= 2147483647; i += 1) pause; }",
        None,
        false,
    ),
    (
        "void f() { for (int i = 5; i > 5; i--) pause; }",
        Some(0),
        false,
    ),
    (
        "void f() { for (int i = 0; i <= 2147483647; i++) pause; }",
        None,
        false,
    ),
    (
        "void f() { for (int i = 0; i < 1000000; i++) pause; }",
        Some(1_000_000),
        true,
    ),
    (
        "void f() { for (int i = 0; i <= 1000000; i++) pause; }",
        None,
        false,
    ),
    (
        "void f() { for (int i = -2147483648; i < 2147483646; i += 2147483647) ; }",
        Some(2),
        false,
    ),
    (
        "void f() { for (int i = 9; i < 10; i -= 1) pause; }",
        None,
        false,
    ),
    (
        "void f() { for (int i = 9; i < 10; i += 0) pause; }",
        None,
        false,
    ),
    ("void f() { for (;;) pause; }", None, true),
    ("void f() { while (1) pause; }", None, true),
    ("void f() { while (4294967295) pause; }", None, true),
    ("void f() { while (0) pause; }", None, false),
];

fn nothing(alloc: Global) -> Program
    ensures { result.items ≡ [] }
{
    Program {
        items: Items::new(alloc),
    }
}

/// The turns of a loop in a program of nothing else, and whether it is certain to pause.
fn judged(alloc: Global, stmt: &Stmt) -> Result<(Option<u32>, bool), OutOfMemory> {
    let program = nothing(alloc);
    let told = turns(&program, stmt);
    Ok((told, certain(alloc, &program, stmt)?))
}

#[test]
fn turns_and_pauses(rt: HostRuntime) -> Result<(), Fail> {
    let alloc = rt.alloc();
    for (text, told, pauses) in ROWS {
        let program = program(alloc, text)?;
        let found = match &program {
            Some(program) => first_statement(program),
            None => None,
        };
        match found {
            Some(stmt) => assert!(rt; judged(alloc, stmt)? == (told, pauses), "{text}"),
            None => assert!(rt; false, "{text}"),
        }
    }
    Ok(())
}
