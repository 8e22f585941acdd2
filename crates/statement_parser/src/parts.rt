//! Parts of statements, and the nodes that are made of them.

ghost use Rattle.std.specs.Prelude.{◌≡◌, [], ◌∷◌, IfOk, map, pos};
ghost use Rattle.forec_tree.specs.Terms as plain;
ghost use Rattle.forec_tree.specs.Plain.{term, statement, declared, written_target, optional_term, plain_item};
ghost use Rattle.forec_tree.specs.Terms.{IsFunction};
ghost use Rattle.forec_tree.specs.Spelling.{listed};
ghost use Rattle.forec_tree.specs.Parts.{written_at, declared_as, in_order, launched, Calls, Blocks};
ghost use Rattle.expr_parser.specs.Boxes.{term_in};
ghost use Rattle.statement_parser.specs.Views.{optional_term_in, statement_in, perhaps_in, launch_of};

use forec_base::Place;
use forec_tree::{
    Branch, Expr, ExprKind, Function, Item, Local, Name, Number, OpAt, Stmt, StmtKind, Target,
};
use sqlite_items::Items;
use std::alloc::{AllocError, Global};

/// Statements between curly brackets; the place is that of the first bracket.
#[derive(Drop)]
pub struct Block {
    pub place: Place,
    pub body: Items<Stmt>,
}

/// What stands between the brackets after `for`.
#[derive(Drop)]
pub struct ForHead {
    pub start: Option<Box<Stmt>>,
    pub test: Option<Box<Expr>>,
    pub step: Option<Box<Stmt>>,
}

/// A statement in a box of its own.
pub fn boxed(alloc: Global, found: Stmt) -> Result<Box<Stmt>, AllocError>
    ensures { IfOk result (λ b. statement_in b ≡ statement found) }
{
    Ok(Box::new(alloc, found)?)
}

fn unboxed(found: Option<Box<Expr>>) -> Option<Expr>
    ensures { optional_term result ≡ optional_term_in found }
{
    match found {
        None => None,
        Some(expr) => Some(Box::into_inner(expr)),
    }
}

/// `;`
pub fn nothing(place: Place) -> Stmt
    ensures { statement result ≡ plain.Nothing place }
{
    Stmt {
        place,
        what: StmtKind::Nothing,
    }
}

/// A block as a statement.
pub fn group(block: Block) -> Stmt
    ensures { statement result ≡ plain.Group block.place (in_order (map statement block.body)) }
{
    let Block { place, body } = block;
    Stmt {
        place,
        what: StmtKind::Group { body },
    }
}

/// A declaration of locals, at the place of `int`.
pub fn declare(place: Place, locals: Items<Local>) -> Stmt
    ensures { statement result ≡ plain.Declare place (map declared locals) }
{
    Stmt {
        place,
        what: StmtKind::Declare { locals },
    }
}

/// One declarator of a local.
pub fn local(name: Name, length: Option<Number>, values: Items<Expr>) -> Local
    ensures { declared result ≡ declared_as name length (map term values) }
{
    Local {
        name,
        length,
        values,
    }
}

/// `int x = e`, as a `for` starts.
pub fn first_local(
    alloc: Global,
    place: Place,
    name: Name,
    value: Box<Expr>,
) -> Result<Stmt, AllocError>
    ensures { IfOk result (λ s. statement s ≡ plain.Declare place (declared_as name None (term_in value ∷ []) ∷ [])) }
{
    let mut values = Items::new(alloc);
    values.push(Box::into_inner(value))?;
    let mut locals = Items::new(alloc);
    locals.push(Local {
        name,
        length: None,
        values,
    })?;
    Ok(declare(place, locals))
}

/// What is written to: a variable, or an element of an array.
pub fn target(name: Name, index: Option<Box<Expr>>) -> Target
    ensures { written_target result ≡ written_at name (optional_term_in index) }
{
    Target {
        name,
        index: unboxed(index),
    }
}

/// An assignment, with the operator of `+=` and its kin if it is one.
pub fn assign(target: Target, op: Option<OpAt>, value: Box<Expr>) -> Stmt
    ensures { statement result ≡ plain.Assign target.name.place (written_target target) op (term_in value) }
{
    Stmt {
        place: target.name.place,
        what: StmtKind::Assign {
            target,
            op,
            value: Box::into_inner(value),
        },
    }
}

/// `x++` and its kin, which add or subtract the number 1.
pub fn step(place: Place, target: Target, op: OpAt) -> Stmt
    ensures { statement result ≡ plain.Assign place (written_target target) (Some op) (plain.Num op.place (pos 1)) }
{
    let one = Expr {
        place: op.place,
        what: ExprKind::Number { value: 1 },
    };
    Stmt {
        place,
        what: StmtKind::Assign {
            target,
            op: Some(op),
            value: one,
        },
    }
}

/// A call of a void function.
pub fn invoke(name: Name, args: Items<Expr>) -> Stmt
    ensures { statement result ≡ plain.Invoke name.place name (listed (map term args)) }
{
    Stmt {
        place: name.place,
        what: StmtKind::Call { name, args },
    }
}

/// `if`, with what stands after `else` if there is one.
pub fn if_of(place: Place, test: Box<Expr>, yes: Box<Stmt>, no: Option<Box<Stmt>>) -> Stmt
    ensures { statement result ≡ plain.If place (term_in test) (statement_in yes) (perhaps_in no) }
{
    Stmt {
        place,
        what: StmtKind::If {
            test: Box::into_inner(test),
            yes,
            no,
        },
    }
}

/// `while`
pub fn while_of(place: Place, test: Box<Expr>, bound: Option<Number>, body: Box<Stmt>) -> Stmt
    ensures { statement result ≡ plain.While place (term_in test) bound (statement_in body) }
{
    Stmt {
        place,
        what: StmtKind::While {
            test: Box::into_inner(test),
            bound,
            body,
        },
    }
}

/// `for`
pub fn for_of(place: Place, head: ForHead, bound: Option<Number>, body: Box<Stmt>) -> Stmt
    ensures { statement result ≡ plain.For place (perhaps_in head.start) (optional_term_in head.test)
        (perhaps_in head.step) bound (statement_in body) }
{
    let ForHead { start, test, step } = head;
    Stmt {
        place,
        what: StmtKind::For {
            start,
            test: unboxed(test),
            step,
            bound,
            body,
        },
    }
}

/// `pause`
pub fn pause(place: Place) -> Stmt
    ensures { statement result ≡ plain.Pause place }
{
    Stmt {
        place,
        what: StmtKind::Pause,
    }
}

/// `par`
pub fn fork(place: Place, branches: Items<Branch>) -> Stmt
    ensures { statement result ≡ plain.Par place (launched (map launch_of branches)) }
{
    Stmt {
        place,
        what: StmtKind::Par { branches },
    }
}

/// A branch that is a function.
pub fn start_call(name: Name, args: Items<Expr>) -> Branch
    ensures { launch_of result ≡ Calls name (listed (map term args)) }
{
    Branch::Call { name, args }
}

/// A branch that is a block.
pub fn start_block(block: Block) -> Branch
    ensures { launch_of result ≡ Blocks block.place (in_order (map statement block.body)) }
{
    let Block { place, body } = block;
    Branch::Group { place, body }
}

/// `abort`, at the place of this word.
pub fn abort(place: Place, weak: bool, immediate: bool, test: Box<Expr>, block: Block) -> Stmt
    ensures { statement result ≡ plain.Abort place weak immediate (term_in test) (in_order (map statement block.body)) }
{
    let Block { place: _, body } = block;
    Stmt {
        place,
        what: StmtKind::Abort {
            weak,
            immediate,
            test: Box::into_inner(test),
            body,
        },
    }
}

/// `return`
pub fn give(place: Place, value: Box<Expr>) -> Stmt
    ensures { statement result ≡ plain.Return place (term_in value) }
{
    Stmt {
        place,
        what: StmtKind::Return {
            value: Box::into_inner(value),
        },
    }
}

/// A function; it gives a number or is void.
pub fn function_item(name: Name, gives: bool, params: Items<Name>, block: Block) -> Item
    ensures { plain_item result ≡ IsFunction (record {
      name = name;
      gives = gives;
      params = params;
      body = in_order (map statement block.body);
    }) }
{
    let Block { place: _, body } = block;
    Item::Function {
        function: Function {
            name,
            gives,
            params,
            body,
        },
    }
}
