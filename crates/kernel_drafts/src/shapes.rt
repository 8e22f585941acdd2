//! What a kernel says of the threads of a program.

ghost use Rattle.std.specs.Prelude.{◌≡◌, ◌<◌, ◌-◌, ◌∷◌, min, max, ◌++◌, [], ℕ, Option, None, Some, Bool, true, map, length, slice_index_or, IfOk, OnOk};
ghost use Rattle.forec_kernel.specs.Shapes.{plain_thread, plain_name};
ghost use Rattle.forec_tree.specs.Rules.{spelling_of_name};
ghost use Rattle.lower_names.specs.Views.{of_thread};
ghost use Rattle.kernel_drafts.specs.Drafts.{vars_bare, named_from, optional_name_bytes, bare_shapes, main_shape, marked_from};
ghost use Rattle.kernel_drafts.specs.Marks.{MarksOf, row_uses, shape_uses, with_uses};

use crate::expand::Bodies;
use crate::marks::mark_statement;
use forec_base::{Labels, OutOfMemory};
use forec_kernel::ThreadShape;
use lower_names::Thread;
use std::alloc::Global;

/// No mark of so many variables.
fn no_marks(alloc: Global, count: u32) -> Result<Vec<bool>, OutOfMemory>
    ensures { IfOk result (λ marks. MarksOf count [] marks.items) }
{
    let mut marks = Vec::new(alloc);
    for _ in 0..count {
        marks.push(false)?;
    }
    Ok(marks)
}

/// The marks of the variables that the bodies of some threads name.
fn marks_of(alloc: Global, count: u32, threads: &[Thread]) -> Result<Vec<bool>, OutOfMemory>
    ensures { IfOk result (λ marks. MarksOf count (vars_bare (map of_thread threads.now)) marks.items) }
{
    let mut marks = no_marks(alloc, count)?;
    for thread in threads {
        mark_statement(&mut marks, &thread.body);
    }
    Ok(marks)
}

/// The place after a thread and those below it in a list of so many threads, from the number of the
/// thread after them.
fn end_of(after: u32, at: usize, count: usize) -> usize
    ensures { result ≡ min (max (after - 1) at) count }
{
    let last = after as usize;
    if last <= at {
        if at < count { at } else { count }
    } else if last - 1 < count {
        last - 1
    } else {
        count
    }
}

/// The marks of the variables that a thread and those below it name, by its place in the list.
fn marks_at(
    alloc: Global,
    count: u32,
    threads: &[Thread],
    at: usize,
) -> Result<Vec<bool>, OutOfMemory>
    requires { at < length threads.now }
    ensures { IfOk result (λ marks. MarksOf count (named_from (map of_thread threads.now) at) marks.items) }
{
    let end = end_of(threads[at].behind, at, threads.len());
    let marks = marks_of(alloc, count, &threads[at..end])?;
    Ok(marks)
}

/// The variables whose marks are set.
fn marked(alloc: Global, marks: &[bool]) -> Result<Vec<u32>, OutOfMemory>
    ensures { IfOk result (λ list. list.items ≡ marked_from 0 marks.now) }
{
    let mut list = Vec::new(alloc);
    for (variable, mark) in marks.iter().enumerate() {
        if *mark {
            match u32::try_from(variable) {
                Err(_) => return Err(OutOfMemory),
                Ok(number) => list.push(number)?,
            }
        }
    }
    Ok(list)
}

/// The bytes of a name; there are none where the number has no name.
fn bytes(alloc: Global, names: &Labels, id: u32) -> Result<Vec<u8>, OutOfMemory>
    ensures { IfOk result (λ v. v.items ≡ spelling_of_name names.now id) }
{
    if id >= names.len() {
        return Ok(Vec::new(alloc));
    }
    match Vec::from_slice(alloc, names.get(id).as_bytes()) {
        Err(_) => Err(OutOfMemory),
        Ok(v) => Ok(v),
    }
}

fn label(alloc: Global, names: &Labels, id: Option<u32>) -> Result<Option<Vec<u8>>, OutOfMemory>
    ensures { IfOk result (λ name. plain_name name ≡ optional_name_bytes names.now id) }
{
    match id {
        None => Ok(None),
        Some(id) => {
            let v = bytes(alloc, names, id)?;
            Ok(Some(v))
        }
    }
}

/// What a kernel says of a thread below thread 0 that has copies of the marked variables.
fn shaped(
    alloc: Global,
    names: &Labels,
    marks: &[bool],
    thread: &Thread,
) -> Result<ThreadShape, OutOfMemory>
    ensures { IfOk result (λ s. plain_thread s ≡ with_uses names.now (of_thread thread.now) (marked_from 0 marks.now)) }
{
    let name = label(alloc, names, thread.name)?;
    let uses = marked(alloc, marks)?;
    Ok(ThreadShape {
        parent: Some(thread.parent),
        par: Some(thread.par),
        name,
        params: thread.params,
        words: thread.words,
        uses,
    })
}

/// All marks of so many variables.
fn all_marks(alloc: Global, count: u32) -> Result<Vec<bool>, OutOfMemory>
    ensures { IfOk result (λ marks. (length marks.items ≡ count)
        × ((v : ℕ) → v < count → slice_index_or marks.items v true ≡ true)) }
{
    let mut marks = Vec::new(alloc);
    for _ in 0..count {
        marks.push(true)?;
    }
    Ok(marks)
}

/// What a kernel says of its threads, and for each the marks of the variables of which it has copies.
#[derive(Drop)]
pub struct Threads {
    pub shapes: Vec<ThreadShape>,
    pub rows: Vec<Vec<bool>>,
}

/// Thread 0 runs the function of a name, and has a copy of each variable.
fn main_thread(
    alloc: Global,
    names: &Labels,
    count: u32,
    first: u32,
    words: u32,
) -> Result<Threads, OutOfMemory>
    ensures shapes { IfOk result (λ t. map plain_thread t.shapes.items ≡ main_shape names.now count first words ∷ []) }
    ensures rows { IfOk result (λ t. map row_uses t.rows.items ≡ map shape_uses t.shapes.items) }
{
    let row = all_marks(alloc, count)?;
    let uses = marked(alloc, &row)?;
    let name = bytes(alloc, names, first)?;
    let mut shapes = Vec::new(alloc);
    shapes.push(ThreadShape {
        parent: None,
        par: None,
        name: Some(name),
        params: 0,
        words,
        uses,
    })?;
    let mut rows = Vec::new(alloc);
    rows.push(row)?;
    Ok(Threads { shapes, rows })
}

/// What a kernel of so many variables says of its threads.
pub fn threads_of(
    alloc: Global,
    names: &Labels,
    count: u32,
    first: u32,
    bodies: &Bodies,
) -> Result<Threads, OutOfMemory>
    ensures shapes { IfOk result (λ t. map plain_thread t.shapes.items
        ≡ main_shape names.now count first bodies.now.words
        ∷ bare_shapes names.now count (map of_thread bodies.now.threads.items) 0
        (map of_thread bodies.now.threads.items)) }
    ensures rows { IfOk result (λ t. map row_uses t.rows.items ≡ map shape_uses t.shapes.items) }
{
    let mut all = main_thread(alloc, names, count, first, bodies.words)?;
    let threads = bodies.threads.as_slice();
    for (at, thread) in threads.iter().enumerate() {
        let row = marks_at(alloc, count, threads, at)?;
        let shape = shaped(alloc, names, &row, thread)?;
        all.shapes.push(shape)?;
        all.rows.push(row)?;
    }
    Ok(all)
}
