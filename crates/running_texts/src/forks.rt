//! What a kernel says of a thread, and what a thread starts with.

ghost use Rattle.std.specs.Prelude.{◌≡◌, ◌<◌, ◌+◌, ℕ, ℤ, IfOk, map, length};
ghost use Rattle.forec_kernel.specs.Shapes.{plain_kernel};
ghost use Rattle.forec_kernel.specs.Texts.{handed_down, uses_of, words_of, params_of};
ghost use Rattle.running_texts.specs.Starting.{first_words};

use crate::functions::words_from;
use crate::lookup::Lookup;
use forec_kernel::{KernelParts, VarCopy};
use std::alloc::{AllocError, Global};

/// The variables that a thread uses; none where there is no such thread.
pub fn thread_uses(kernel: &KernelParts, thread: u32) -> &[u32]
    ensures { result.now ≡ uses_of (plain_kernel kernel.now) thread }
{
    let shapes = kernel.shape.threads.as_slice();
    if (thread as usize) < shapes.len() {
        &shapes[thread as usize].uses
    } else {
        &[]
    }
}

/// How many words a thread has.
pub fn thread_words(kernel: &KernelParts, thread: u32) -> u32
    ensures { result ≡ words_of (plain_kernel kernel.now) thread }
{
    let shapes = kernel.shape.threads.as_slice();
    if (thread as usize) < shapes.len() {
        shapes[thread as usize].words
    } else {
        0
    }
}

fn thread_params(kernel: &KernelParts, thread: u32) -> u32
    ensures { result ≡ params_of (plain_kernel kernel.now) thread }
{
    let shapes = kernel.shape.threads.as_slice();
    if (thread as usize) < shapes.len() {
        shapes[thread as usize].params
    } else {
        0
    }
}

/// Copies of some variables, unmarked, with the present values of a parent.
pub fn copies_below(
    alloc: Global,
    uses: &[u32],
    copies: &[VarCopy],
    variables: &[u32],
) -> Result<Vec<VarCopy>, AllocError>
    ensures { IfOk result (λ v. v.items ≡ handed_down uses.now copies.now variables.now) }
{
    let parent = Lookup::new(uses, copies);
    let mut list = Vec::new(alloc);
    for variable in variables {
        list.push(VarCopy {
            value: parent.value(*variable),
            modified: false,
        })?;
    }
    Ok(list)
}

/// The words of a thread that starts: its arguments, no more than it has parameters, and zeros.
pub fn started_words(
    alloc: Global,
    kernel: &KernelParts,
    thread: u32,
    args: &[i32],
) -> Result<Vec<i32>, AllocError>
    ensures { IfOk result (λ v. v.items ≡ first_words (plain_kernel kernel.now) thread args.now) }
{
    let count = args.len().min(thread_params(kernel, thread) as usize);
    words_from(alloc, &args[..count], thread_words(kernel, thread))
}
