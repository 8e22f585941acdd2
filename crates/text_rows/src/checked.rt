//! A program that is accepted, and one that is refused.

ghost use Rattle.std.specs.Prelude.{◌≡◌, ◌∷◌, [], length, IfOk};
ghost use Rattle.forec_tree.specs.Plain as plain;
ghost use Rattle.forec_check.specs.Faultless.{IdsBelow};

use forec_base::{Labels, OutOfMemory, Place};
use forec_check::{CheckFault, check};
use forec_tree::{Function, Item, Name, Program};
use sqlite_items::Items;
use std::alloc::{AllocError, Global};
use std::test::Fail;

const AT: Place = Place { line: 2, column: 6 };

/// The one name `main`.
fn names(alloc: Global) -> Result<Labels, OutOfMemory>
    ensures { IfOk result (λ names. length names ≡ 1) }
{
    let mut names = Labels::new(alloc)?;
    names.push("main")?;
    Ok(names)
}

/// A function `main` without parameters and statements, which may give a number.
fn program(alloc: Global, gives: bool) -> Result<Program, AllocError>
    ensures { IfOk result (λ p. IdsBelow (plain.program p) 1) }
{
    let main = Function {
        name: Name { id: 0, place: AT },
        gives,
        params: Items::new(alloc),
        body: Items::new(alloc),
    };
    let mut items = Vec::new(alloc);
    items.push(Item::Function { function: main })?;
    Ok(Program {
        items: Items::from_vec(items),
    })
}

#[test]
fn accepted_and_refused(rt: HostRuntime) -> Result<(), Fail> {
    let alloc = rt.alloc();
    let names = names(alloc)?;
    match check(alloc, program(alloc, false)?, &names) {
        Ok(checked) => {
            assert_eq!(rt; checked.threads(alloc), Ok(1));
            assert_eq!(rt; (checked.inputs(), checked.outputs()), (0, 0));
        }
        Err(_) => assert!(rt; false, "void main is refused"),
    }
    match check(alloc, program(alloc, true)?, &names) {
        Err(CheckFault::Broken { place, rule }) => assert_eq!(rt; (place, rule), (AT, 3)),
        _ => assert!(rt; false, "int main is not refused"),
    }
    Ok(())
}
