//! The most words and the greatest depth of the threads and int functions of a kernel.

ghost use Rattle.std.specs.Prelude.{◌≡◌, ◌+◌, ◌-◌, ◌^◌, ◌<◌, ℕ, min, map, length, IfOk};
ghost use Rattle.forec_kernel.specs.WellFormed.{Ranked};
ghost use Rattle.text_kernel.specs.Limits as limits;
ghost use Rattle.text_kernel.specs.declared.limits.Quantity.TheVariants as quantity;
ghost use Rattle.kernel_drafts.specs.Measures.{plain_draft, CallsLow, IsConsistent, words_of_shape, depth_of_body, HasChains, HasWords};

use crate::depths::statement_depth;
use crate::functions::Functions;
use crate::reach::{body_calls, chains, greatest, numbers, thread_calls};
use forec_base::OutOfMemory;
use forec_kernel::{FunctionShape, Statement, ThreadShape, Variable};
use std::alloc::Global;
use text_sizes::add;

/// The parts of a kernel on which words and depth depend, and for each thread the marks of the variables
/// of which it has copies.
#[derive(Drop)]
pub struct Draft {
    pub threads: Vec<ThreadShape>,
    pub texts: Vec<Statement>,
    pub variables: Vec<Variable>,
    pub functions: Functions,
    pub rows: Vec<Vec<bool>>,
}

/// Words, and how many statements and expressions nest.
#[derive(Clone, Copy)]
pub struct Peak {
    pub words: u64,
    pub depth: u64,
}

/// The greatest sums along chains of calls, by function.
#[derive(Drop)]
pub struct Chains {
    pub words: Vec<u64>,
    pub depths: Vec<u64>,
}

fn function_words(alloc: Global, shapes: &[FunctionShape]) -> Result<Vec<u64>, OutOfMemory>
    ensures { IfOk result (λ list. list.items ≡ map words_of_shape shapes.now) }
{
    let mut list = Vec::new(alloc);
    for shape in shapes {
        list.push(u64::from(shape.words))?;
    }
    Ok(list)
}

fn function_depths(alloc: Global, bodies: &[Statement]) -> Result<Vec<u64>, OutOfMemory>
    ensures { IfOk result (λ list. list.items ≡ map depth_of_body bodies.now) }
{
    let mut list = Vec::new(alloc);
    for body in bodies {
        list.push(statement_depth(body))?;
    }
    Ok(list)
}

fn chains_of(alloc: Global, draft: &Draft) -> Result<Chains, OutOfMemory>
    requires ranked { Ranked (plain_draft draft.now) }
    requires low { CallsLow (plain_draft draft.now) }
    requires fits { IsConsistent draft.now }
    ensures { IfOk result (λ c. HasChains (plain_draft draft.now) c) }
{
    let bodies = draft.functions.bodies.as_slice();
    let lists = body_calls(alloc, bodies)?;
    let words = function_words(alloc, draft.functions.shapes.as_slice())?;
    let depths = function_depths(alloc, bodies)?;
    let words = chains(alloc, &words, &lists)?;
    let depths = chains(alloc, &depths, &lists)?;
    Ok(Chains { words, depths })
}

/// The words along the chains of calls of int functions, by the number of the function where each begins.
pub fn words_along(alloc: Global, draft: &Draft) -> Result<Vec<u64>, OutOfMemory>
    requires ranked { Ranked (plain_draft draft.now) }
    requires low { CallsLow (plain_draft draft.now) }
    requires fits { IsConsistent draft.now }
    ensures { IfOk result (λ list. HasWords (plain_draft draft.now) list.items) }
{
    let chains = chains_of(alloc, draft)?;
    Ok(chains.words)
}

/// The words and the depth of a thread, with those along the chains of calls from it.
fn thread_most(alloc: Global, draft: &Draft, chains: &Chains, t: usize) -> Result<Peak, OutOfMemory>
    requires low { CallsLow (plain_draft draft.now) }
    requires fits { IsConsistent draft.now }
    requires chains { HasChains (plain_draft draft.now) chains.now }
    requires there { t < length draft.now.texts.items }
    ensures words { IfOk result (λ m. m.words ≡ min (limits.thread_words (plain_draft draft.now) t) (2 ^ 64 - 1)) }
    ensures depth { IfOk result (λ m. m.depth ≡ min (limits.thread_depth (plain_draft draft.now) t) (2 ^ 64 - 1)) }
{
    let shape = &draft.threads[t];
    let text = &draft.texts[t];
    let rows = draft.rows.as_slice();
    let variables = draft.variables.as_slice();
    let calls = thread_calls(alloc, rows, variables, shape.uses.as_slice(), text)?;
    Ok(Peak {
        words: add(u64::from(shape.words), greatest(&chains.words, &calls)),
        depth: add(statement_depth(text), greatest(&chains.depths, &calls)),
    })
}

/// The most words of a thread, and the greatest depth of a thread or int function.
pub fn most(alloc: Global, draft: &Draft) -> Result<Peak, OutOfMemory>
    requires ranked { Ranked (plain_draft draft.now) }
    requires low { CallsLow (plain_draft draft.now) }
    requires fits { IsConsistent draft.now }
    ensures words { IfOk result (λ m. m.words ≡ min (limits.amount quantity.Words (plain_draft draft.now))
        (2 ^ 64 - 1)) }
    ensures depth { IfOk result (λ m. m.depth ≡ min (limits.amount quantity.Depth (plain_draft draft.now))
        (2 ^ 64 - 1)) }
{
    let chains = chains_of(alloc, draft)?;
    let mut most = Peak { words: 0, depth: 0 };
    for t in 0..draft.texts.len() {
        let here = thread_most(alloc, draft, &chains, t)?;
        most = Peak {
            words: most.words.max(here.words),
            depth: most.depth.max(here.depth),
        };
    }
    let functions = numbers(alloc, draft.functions.bodies.len())?;
    let depth = most.depth.max(greatest(&chains.depths, &functions));
    Ok(Peak {
        words: most.words,
        depth,
    })
}
