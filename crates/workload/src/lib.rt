//! The text of a workload: a tree of threads of which the leaves count.
#![tactic(auto)]

ghost use Rattle.std.specs.Prelude.{◌≡◌, ◌≤◌, ◌++◌, ◌+◌, ◌*◌, codes, decimal, OnOk, IfOk};
ghost use Rattle.workload.specs.Text.{head_lines, pair_line, single_line, leaf_line, workload_thread_line, workload_lines_to, workload_text};

use forec_base::OutOfMemory;
use itoa::Buffer;
use std::alloc::Global;

/// Adds bytes to a text.
fn add(text: &mut Vec<u8>, bytes: &[u8]) -> Result<(), OutOfMemory>
    ensures { OnOk result (text.new.items ≡ text.old.items ++ bytes.now) }
{
    text.extend_from_slice(bytes)?;
    Ok(())
}

/// Adds a number in decimal.
fn add_number(text: &mut Vec<u8>, number: u32) -> Result<(), OutOfMemory>
    ensures { OnOk result (text.new.items ≡ text.old.items ++ decimal number) }
{
    add(text, Buffer::new().format(number).as_bytes())
}

/// Adds the line of a thread with two branches.
fn add_pair(text: &mut Vec<u8>, thread: u32) -> Result<(), OutOfMemory>
    requires { thread ≤ 255 }
    ensures { OnOk result (text.new.items ≡ text.old.items ++ pair_line thread) }
{
    add(text, b"void t")?;
    add_number(text, thread)?;
    add(text, b"(void) { par(t")?;
    add_number(text, 2 * thread)?;
    add(text, b", t")?;
    add_number(text, 2 * thread + 1)?;
    add(text, b"); }\n")?;
    Ok(())
}

/// Adds the line of a thread with one branch.
fn add_single(text: &mut Vec<u8>, thread: u32) -> Result<(), OutOfMemory>
    requires { thread ≤ 255 }
    ensures { OnOk result (text.new.items ≡ text.old.items ++ single_line thread) }
{
    add(text, b"void t")?;
    add_number(text, thread)?;
    add(text, b"(void) { par(t")?;
    add_number(text, 2 * thread)?;
    add(text, b"); }\n")?;
    Ok(())
}

/// Adds the line of a thread without branches, which counts in steps of its own number.
fn add_leaf(text: &mut Vec<u8>, thread: u32) -> Result<(), OutOfMemory>
    ensures { OnOk result (text.new.items ≡ text.old.items ++ leaf_line thread) }
{
    add(text, b"void t")?;
    add_number(text, thread)?;
    add(text, b"(void) { int i = ")?;
    add_number(text, thread)?;
    add(text, b"; while (1) { s = i; i = i + ")?;
    add_number(text, thread)?;
    add(text, b"; pause; } }\n")?;
    Ok(())
}

/// Adds the line of a thread of so many.
fn add_thread(text: &mut Vec<u8>, threads: u32, thread: u32) -> Result<(), OutOfMemory>
    requires { thread ≤ 255 }
    ensures { OnOk result (text.new.items ≡ text.old.items ++ workload_thread_line threads thread) }
{
    if 2 * thread < threads {
        add_pair(text, thread)
    } else if 2 * thread == threads {
        add_single(text, thread)
    } else {
        add_leaf(text, thread)
    }
}

/// The text of the workload of so many threads, at most 255, `main` apart: thread k forks threads 2k and 2k + 1
/// where there are such, and each without branches gives a multiple of its number in each tick.
///
/// # Errors
///
/// Out of memory.
pub fn workload_text(alloc: Global, threads: u32) -> Result<Vec<u8>, OutOfMemory>
    requires { threads ≤ 255 }
    ensures { IfOk result (λ text. text.items ≡ workload_text threads) }
{
    let mut text = Vec::new(alloc);
    add(
        &mut text,
        b"shared output int s = 0 combine mod with plus;\n",
    )?;
    add(&mut text, b"int plus(int a, int b) { return a + b; }\n")?;
    for thread in 1..threads + 1 {
        add_thread(&mut text, threads, thread)?;
    }
    add(&mut text, b"void main(void) { par(t1); }\n")?;
    Ok(text)
}
