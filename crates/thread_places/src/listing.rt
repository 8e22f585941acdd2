//! The lines that list a kernel's threads.

ghost use Rattle.std.specs.Prelude.{◌≡◌, ◌<◌, ◌++◌, ℕ, List, length, decimal, OnOk, IfOk};
ghost use Rattle.forec_kernel.specs.Shapes.{plain_kernel, plain_name};
ghost use Rattle.thread_places.specs.Lines.{parent_word, name_word, thread_line, lines_to, bound_line, thread_lines};

use core_alloc::Placement;
use forec_base::OutOfMemory;
use forec_kernel::{Kernel, ThreadShape};
use itoa::Buffer;
use std::alloc::Global;
use tick_bounds::tick_bound;

fn add(text: &mut Vec<u8>, bytes: &[u8]) -> Result<(), OutOfMemory>
    ensures { OnOk result (text.new.items ≡ text.old.items ++ bytes.now) }
{
    text.extend_from_slice(bytes)?;
    Ok(())
}

fn add_number(text: &mut Vec<u8>, number: u64) -> Result<(), OutOfMemory>
    ensures { OnOk result (text.new.items ≡ text.old.items ++ decimal number) }
{
    add(text, Buffer::new().format(number).as_bytes())
}

fn add_parent(text: &mut Vec<u8>, parent: Option<u32>) -> Result<(), OutOfMemory>
    ensures { OnOk result (text.new.items ≡ text.old.items ++ parent_word parent) }
{
    match parent {
        None => add(text, b"-"),
        Some(thread) => add_number(text, u64::from(thread)),
    }
}

fn add_name(text: &mut Vec<u8>, name: &Option<Vec<u8>>) -> Result<(), OutOfMemory>
    ensures { OnOk result (text.new.items ≡ text.old.items ++ name_word (plain_name name.now)) }
{
    match name {
        None => add(text, b"{}"),
        Some(name) => add(text, name),
    }
}

/// A thread of a number, with its core and its weight.
#[derive(Clone, Copy)]
struct Row<'k> {
    number: u32,
    shape: &'k ThreadShape,
    core: u32,
    weight: u64,
}

fn add_row(text: &mut Vec<u8>, row: Row<'_>) -> Result<(), OutOfMemory>
    ensures { OnOk result (text.new.items ≡ text.old.items
        ++ thread_line row.entry.number row.entry.shape.now.parent (plain_name row.entry.shape.now.name) row.entry.core
        row.entry.weight) }
{
    add(text, b"thread ")?;
    add_number(text, u64::from(row.number))?;
    add(text, b" parent ")?;
    add_parent(text, row.shape.parent)?;
    add(text, b" name ")?;
    add_name(text, &row.shape.name)?;
    add(text, b" core ")?;
    add_number(text, u64::from(row.core))?;
    add(text, b" weight ")?;
    add_number(text, row.weight)?;
    add(text, b"\n")?;
    Ok(())
}

/// Adds the line of the bound of ticks.
#[tactic(auto, unfolding(crate::specs::Lines::bound_line))]
fn add_bound(text: &mut Vec<u8>, bound: Option<u64>) -> Result<(), OutOfMemory>
    ensures { OnOk result (text.new.items ≡ text.old.items ++ bound_line bound) }
{
    match bound {
        None => add(text, b"bound none\n"),
        Some(units) => {
            add(text, b"bound ")?;
            add_number(text, units)?;
            add(text, b"\n")
        }
    }
}

/// A line for each thread of a kernel, in the order of their numbers.
fn thread_rows(
    alloc: Global,
    kernel: &Kernel,
    placement: &Placement,
) -> Result<Vec<u8>, OutOfMemory>
    requires { length placement.now.places ≡ length (plain_kernel kernel.now).threads }
    ensures { IfOk result (λ text. text.items
        ≡ lines_to (plain_kernel kernel.now) placement.now.places (length (plain_kernel kernel.now).threads)) }
{
    let shapes = kernel.shape().threads.as_slice();
    let mut text = Vec::new(alloc);
    for number in 0..shapes.len() {
        let row = Row {
            number: number as u32,
            shape: &shapes[number],
            core: placement.core(number as u32),
            weight: kernel.weight(number as u32),
        };
        add_row(&mut text, row)?;
    }
    Ok(text)
}

/// A line for each thread of a kernel, in the order of their numbers: its parent, its name (`{}` for a block), its
/// core and its weight. Then the line of the most units that a tick can take.
///
/// # Errors
///
/// Out of memory.
pub fn thread_list(
    alloc: Global,
    kernel: &Kernel,
    placement: &Placement,
) -> Result<Vec<u8>, OutOfMemory>
    requires { length placement.now.places ≡ length (plain_kernel kernel.now).threads }
    ensures { IfOk result (λ text. text.items ≡ thread_lines (plain_kernel kernel.now) placement.now.places) }
{
    let bound = tick_bound(alloc, kernel)?;
    let mut text = thread_rows(alloc, kernel, placement)?;
    add_bound(&mut text, bound)?;
    Ok(text)
}
