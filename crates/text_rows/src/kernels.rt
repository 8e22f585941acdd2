//! Texts and their kernels.

ghost use Rattle.std.specs.Prelude.{◌≤◌, length};

use forec_base::Policy;
use forec_check::check;
use forec_kernel::{
    Expression, FunctionShape, Kernel, Shape, Spot, Statement, ThreadShape, Variable,
};
use forec_lexer::lex;
use forec_parser::parse;
use kernel_lower::lower;
use std::alloc::Global;
use std::test::Fail;

/// The kernel of a text that breaks no rule and passes no limit.
pub fn lowered(alloc: Global, text: &[u8]) -> Result<Box<Kernel>, Fail>
    requires { length text.now ≤ 1048576 }
{
    let lexed = lex(alloc, text)?;
    let program = parse(alloc, &lexed.tokens)?;
    let checked = check(alloc, program, &lexed.names)?;
    Ok(Box::new(alloc, lower(alloc, &checked, checked.names())?)?)
}

const WORK: &[u8] = b"const int t[3] = { 4, 5 };
input int i;
shared output int s = 2 combine new with plus;
int plus(int a, int b) { return a + b; }
void work(int n) { int k = n; s = k; pause; }
void main(void) { par(work(i), { s = t[i]; }); }
";

/// A thread's parent, its `par`, how many of its words are parameters, and its words.
type ThreadNumbers = (Option<u32>, Option<u32>, u32, u32);

fn is_thread(
    thread: &ThreadShape,
    counts: ThreadNumbers,
    uses: &[u32],
    name: Option<&[u8]>,
) -> bool {
    (thread.parent, thread.par, thread.params, thread.words) == counts
        && thread.uses.as_slice() == uses
        && thread.name.as_deref() == name
}

fn are_threads(threads: &[ThreadShape]) -> bool {
    match threads {
        [main, work, block] => {
            is_thread(main, (None, None, 0, 0), &[0, 1], Some(b"main"))
                && is_thread(work, (Some(0), Some(0), 1, 2), &[1], Some(b"work"))
                && is_thread(block, (Some(0), Some(0), 0, 0), &[0, 1], None)
        }
        _ => false,
    }
}

const VARIABLES: [Variable; 2] = [
    Variable {
        policy: Policy::Mod,
        combine: None,
        start: 0,
        input: true,
    },
    Variable {
        policy: Policy::New,
        combine: Some(0),
        start: 2,
        input: false,
    },
];

const PLUS: FunctionShape = FunctionShape {
    params: 2,
    words: 2,
};

fn is_shape(shape: &Shape) -> bool {
    are_threads(&shape.threads)
        && shape.variables.as_slice() == VARIABLES.as_slice()
        && shape.functions.as_slice() == [PLUS].as_slice()
        && shape.inputs.as_slice() == [0].as_slice()
        && shape.outputs.as_slice() == [1].as_slice()
}

fn is_table(tables: &[Vec<i32>]) -> bool {
    match tables {
        [table] => table.as_slice() == [4, 5, 0].as_slice(),
        _ => false,
    }
}

/// Whether the body is that of `work`.
fn is_work(body: &Statement) -> bool {
    let Statement::Sequence { list } = body else {
        return false;
    };
    match list.as_slice() {
        [
            Statement::Set {
                to: Spot::Local { slot: 1 },
                value: Expression::Local { slot: 0 },
            },
            Statement::Set {
                to: Spot::Variable { variable: 1 },
                value: Expression::Local { slot: 1 },
            },
            Statement::Pause,
        ] => true,
        _ => false,
    }
}

fn is_kernel(kernel: &Kernel) -> bool {
    let shape = kernel.shape();
    is_shape(shape)
        && is_table(&shape.tables)
        && shape.names.len() == 2
        && (shape.names.get(0), shape.names.get(1)) == ("i", "s")
        && kernel.parts().threads.get(1).is_some_and(is_work)
}

#[test]
fn a_kernel(rt: HostRuntime) -> Result<(), Fail> {
    let kernel = lowered(rt.alloc(), WORK)?;
    assert!(rt; is_kernel(&kernel));
    Ok(())
}

/// Each element of a shared array is a variable.
const ALL_VARIABLES: &[u8] = b"shared output int h[64] = { 3 } combine mod with plus;
shared int g[4031] combine mod with plus;
int o;
int plus(int x, int y) { return x + y; }
void main(void) { g[o] = h[1]; }
";

/// The start values of the first variables, how many outputs there are, and the names at the ends.
fn has_elements(kernel: &Kernel) -> bool {
    let shape = kernel.shape();
    let starts = match shape.variables.as_slice() {
        [first, second, ..] => (first.start, second.start) == (3, 0),
        _ => false,
    };
    starts
        && shape.outputs.len() == 64
        && shape.names.len() == 4096
        && (shape.names.get(0), shape.names.get(63)) == ("h[0]", "h[63]")
        && (shape.names.get(64), shape.names.get(4095)) == ("g[0]", "o")
}

#[test]
fn elements_are_variables(rt: HostRuntime) -> Result<(), Fail> {
    let kernel = lowered(rt.alloc(), ALL_VARIABLES)?;
    assert!(rt; has_elements(&kernel));
    Ok(())
}
