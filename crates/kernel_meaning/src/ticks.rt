//! Ticks.

ghost use Rattle.std.specs.Prelude.{◌≡◌, ◌<◌, ◌+◌, ◌≤◌, ℕ, ℤ, Bool, cond, true, false, length, List, [], get_or, pos, IfOk, OnErr};
ghost use Rattle.forec_kernel.specs.Shapes.{PlainKernel, plain_kernel};
ghost use Rattle.forec_kernel.specs.Texts.{uses_of, is_running, text_of, body_of, words_of, Running};
ghost use Rattle.forec_kernel.specs.Values.{fresh_words};
ghost use Rattle.forec_kernel.specs.Ticks as ticks;
ghost use Rattle.forec_kernel.specs.Ticks.{begin, start_copies, unmarked, with_row, values_of, outcome_of};
ghost use Rattle.running_threads.specs.Views.{plain_running_thread, plain_status};
ghost use Rattle.running_steps.specs.Waking.{WokenTo};
ghost use Rattle.kernel_meaning.specs.States.{plain_state, Advances, CarriesOn, tick_of_state, told_tick, is_told};

use crate::orders::{add_path, steppable};
use forec_base::OutOfMemory;
use forec_kernel::{Kernel, KernelParts, Outcome, VarCopy, Variable};
use running_steps::{set_copy, start_body, thread_step, wake_thread};
use running_texts::{Halt, copy_value, thread_uses, thread_words, words_from};
use running_threads::{Status, Thread, duplicate_thread, runs};
use std::alloc::{AllocError, Global};

/// A program between two ticks.
#[derive(Drop)]
pub struct State<'k> {
    main: Option<Thread<'k>>,
}

fn duplicate_state<'k>(alloc: Global, state: &State<'k>) -> Result<State<'k>, AllocError>
    ensures { IfOk result (λ x. plain_state x ≡ plain_state state.now) }
{
    match &state.main {
        None => Ok(State { main: None }),
        Some(main) => Ok(State {
            main: Some(duplicate_thread(alloc, main)?),
        }),
    }
}

fn start_copy(variable: &Variable) -> VarCopy
    ensures { result ≡ record { value = variable.now.start; modified = false } }
{
    VarCopy {
        value: variable.start,
        modified: false,
    }
}

/// The variables' values at the start of a program.
fn first_copies(alloc: Global, variables: &[Variable]) -> Result<Vec<VarCopy>, AllocError>
    ensures { IfOk result (λ v. v.items ≡ start_copies variables.now) }
{
    let mut list = Vec::new(alloc);
    for variable in variables {
        list.push(start_copy(variable))?;
    }
    Ok(list)
}

fn without_marks(alloc: Global, copies: &[VarCopy]) -> Result<Vec<VarCopy>, AllocError>
    ensures { IfOk result (λ v. v.items ≡ unmarked copies.now) }
{
    let mut list = Vec::new(alloc);
    for copy in copies {
        list.push(VarCopy {
            value: copy.value,
            modified: false,
        })?;
    }
    Ok(list)
}

/// An input's copy for a row.
fn input_at(row: &[i32], at: usize) -> VarCopy
    requires { at < length row.now }
    ensures { result ≡ record { value = get_or row.now at (pos 0); modified = false } }
{
    VarCopy {
        value: row[at],
        modified: false,
    }
}

/// The inputs get the values of the row.
fn take_row(uses: &[u32], inputs: &[u32], row: &[i32], copies: &mut Vec<VarCopy>)
    ensures { copies.new.items ≡ with_row uses.now inputs.now row.now copies.old.items }
{
    let count = inputs.len().min(row.len());
    for i in 0..count {
        set_copy(uses, copies, inputs[i] as usize, input_at(row, i));
    }
}

/// Thread 0 at the start of a program.
fn first_thread<'k>(
    alloc: Global,
    kernel: &'k KernelParts,
    copies: Vec<VarCopy>,
) -> Result<Thread<'k>, AllocError>
    ensures { IfOk result (λ x. plain_running_thread x ≡ record {
      number = 0;
      text = text_of (body_of (plain_kernel kernel.now) 0);
      words = fresh_words [] (words_of (plain_kernel kernel.now) 0);
      copies = copies.items;
      status = Running;
    }) }
{
    let mut frames = Vec::new(alloc);
    let focus = start_body(kernel, 0, &mut frames)?;
    let words = words_from(alloc, &[], thread_words(kernel, 0))?;
    Ok(Thread {
        number: 0,
        frames,
        focus,
        words,
        copies,
        status: Status::Running,
    })
}

/// Thread 0 at the start of a tick.
fn begin_tick<'k>(
    alloc: Global,
    kernel: &'k KernelParts,
    state: &State<'k>,
    row: &[i32],
    left: &mut u64,
) -> Result<Thread<'k>, Halt>
    ensures { WokenTo left.old left.new result (begin (plain_kernel kernel.now) (plain_state state.now) row.now) }
{
    let uses = thread_uses(kernel, 0);
    let inputs = kernel.shape.inputs.as_slice();
    match &state.main {
        None => {
            let mut copies = first_copies(alloc, &kernel.shape.variables)?;
            take_row(uses, inputs, row, &mut copies);
            Ok(first_thread(alloc, kernel, copies)?)
        }
        Some(main) => {
            let mut copies = without_marks(alloc, &main.copies)?;
            take_row(uses, inputs, row, &mut copies);
            wake_thread(alloc, kernel, uses, main, copies, left)
        }
    }
}

/// The path to the thread that the order picks, or to the first that can step.
fn next_path(
    alloc: Global,
    order: &[u32],
    at: usize,
    from: &Thread<'_>,
) -> Result<Vec<u32>, AllocError> {
    let mut path = Vec::new(alloc);
    if at < order.len() {
        let count = steppable(from);
        if count != 0 {
            add_path(from, order[at] % count, &mut path)?;
        }
    }
    Ok(path)
}

/// The next step of thread 0, along the path that the order picks.
fn advance<'k>(
    alloc: Global,
    kernel: &'k KernelParts,
    order: &[u32],
    at: usize,
    main: &mut Thread<'k>,
    left: &mut u64,
) -> Result<(), Halt>
    ensures { Advances (plain_kernel kernel.now) (plain_running_thread main.old) (plain_running_thread main.new)
        left.old left.new result }
{
    match next_path(alloc, order, at, main) {
        Ok(path) => thread_step(alloc, kernel, &path, main, left),
        Err(_) => Err(Halt::OutOfMemory),
    }
}

/// Steps that cost nothing, up to one that costs units or to the end.
fn run_free<'k>(
    alloc: Global,
    kernel: &'k KernelParts,
    order: &[u32],
    at: &mut usize,
    main: &mut Thread<'k>,
    left: &mut u64,
) -> Result<(), Halt>
    ensures on { CarriesOn (plain_kernel kernel.now) (plain_running_thread main.old) (plain_running_thread main.new)
        left.old left.new result }
    ensures paid { IfOk result (λ _. (left.new ≤ left.old) × (is_running (plain_status main.new.status) ≡ true
        → left.new < left.old)) }
{
    let before = *left;
    'free: while runs(main.status) {
        let place = *at;
        *at = place.saturating_add(1);
        match advance(alloc, kernel, order, place, main, left) {
            Ok(()) => {
                if *left < before {
                    return Ok(());
                }
            }
            Err(halt) => return Err(halt),
        }
    }
    Ok(())
}

/// All steps of a tick.
fn run_tick<'k>(
    alloc: Global,
    kernel: &'k KernelParts,
    order: &[u32],
    main: &mut Thread<'k>,
    left: &mut u64,
) -> Result<(), Halt>
    ensures on { CarriesOn (plain_kernel kernel.now) (plain_running_thread main.old) (plain_running_thread main.new)
        left.old left.new result }
    ensures stopped { IfOk result (λ _. is_running (plain_status main.new.status) ≡ false) }
{
    let mut at = 0;
    'steps: while runs(main.status) {
        match run_free(alloc, kernel, order, &mut at, main, left) {
            Ok(()) => {}
            Err(halt) => return Err(halt),
        }
    }
    Ok(())
}

/// Thread 0 at the end of a tick; none where the units pass the budget.
fn tick_of<'k>(
    alloc: Global,
    kernel: &'k KernelParts,
    state: &State<'k>,
    row: &[i32],
    order: &[u32],
    budget: u64,
) -> Result<Option<Thread<'k>>, OutOfMemory>
    ensures { IfOk result (λ o. tick_of_state kernel.now budget state.now row.now
        ≡ told_tick (plain_kernel kernel.now) (plain_state state.now) o) }
{
    let mut left = budget;
    match begin_tick(alloc, kernel, state, row, &mut left) {
        Ok(mut main) => match run_tick(alloc, kernel, order, &mut main, &mut left) {
            Ok(()) => Ok(Some(main)),
            Err(Halt::Over) => Ok(None),
            Err(_) => Err(OutOfMemory),
        },
        Err(Halt::Over) => Ok(None),
        Err(_) => Err(OutOfMemory),
    }
}

fn outcome(status: Status) -> Outcome
    ensures { result ≡ outcome_of (plain_status status) }
{
    match status {
        Status::Running => Outcome::Over,
        Status::Paused => Outcome::Paused,
        Status::Ended | Status::Gone => Outcome::Ended,
        Status::Trapped { place, trap } => Outcome::Trapped { place, trap },
    }
}

fn tells(outcome: Outcome) -> bool
    ensures { result ≡ is_told outcome }
{
    matches!(outcome, Outcome::Paused | Outcome::Ended)
}

fn write_outputs(uses: &[u32], copies: &[VarCopy], variables: &[u32], outputs: &mut [i32])
    requires { length outputs.old ≡ length variables.now }
    ensures { outputs.new ≡ values_of uses.now copies.now variables.now }
{
    for i in 0..variables.len() {
        outputs[i] = copy_value(uses, copies, variables[i]);
    }
}

/// How a tick ended; its outputs are written where the program goes on or has ended.
fn tell(kernel: &KernelParts, main: &Thread<'_>, outputs: &mut [i32]) -> Outcome
    requires { length outputs.old ≡ length kernel.now.shape.outputs.items }
    ensures outcome { result ≡ outcome_of (plain_status main.now.status) }
    ensures outputs { outputs.new ≡ cond (is_told (outcome_of (plain_status main.now.status)))
        (values_of (uses_of (plain_kernel kernel.now) 0) main.now.copies.items kernel.now.shape.outputs.items)
        outputs.old }
{
    let outcome = outcome(main.status);
    if tells(outcome) {
        let list = kernel.shape.outputs.as_slice();
        write_outputs(thread_uses(kernel, 0), &main.copies, list, outputs);
        return outcome;
    }
    outcome
}

impl<'k> State<'k> {
    /// The state before the first tick: nothing has run.
    pub fn first(alloc: Global, kernel: &'k Kernel) -> Result<State<'k>, OutOfMemory>
        ensures { IfOk result (λ s. plain_state s ≡ ticks.Fresh) }
    {
        Ok(State { main: None })
    }
}

/// One tick of a kernel by rewriting its texts, with the outcome and the state after it.
///
/// At step i the thread steps that `order[i]`, modulo the number of threads that can step, picks in
/// preorder; past the list it is the first one. The answer is the same for every order.
pub fn rewrite_tick<'k>(
    alloc: Global,
    kernel: &'k Kernel,
    state: &State<'k>,
    row: &[i32],
    order: &[u32],
    budget: u64,
    outputs: &mut [i32],
) -> Result<(Outcome, State<'k>), OutOfMemory>
    requires { length outputs.old ≡ length kernel.now.shape.outputs.items }
    ensures outcome { IfOk result (λ p. p.0 ≡ (tick_of_state kernel.now budget state.now row.now).outcome) }
    ensures state { IfOk result (λ p. plain_state p.1 ≡ (tick_of_state kernel.now budget state.now row.now).state) }
    ensures outputs { IfOk result (λ p. outputs.new ≡ cond (is_told p.0)
        (tick_of_state kernel.now budget state.now row.now).outputs outputs.old) }
    ensures err { OnErr result (outputs.new ≡ outputs.old) }
{
    let parts = kernel.parts();
    match tick_of(alloc, parts, state, row, order, budget)? {
        None => Ok((Outcome::Over, duplicate_state(alloc, state)?)),
        Some(main) => {
            let outcome = tell(parts, &main, outputs);
            Ok((outcome, State { main: Some(main) }))
        }
    }
}
