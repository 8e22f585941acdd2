//! From a checked program to its kernel.

ghost use Rattle.std.specs.Prelude.{◌≡◌, ◌≤◌, ◌-◌, ◌^◌, min, IfOk, IfErr, OnOk};
ghost use Rattle.forec_kernel.specs.Shapes.{plain_kernel};
ghost use Rattle.forec_check.specs.Checked.{checked_text, names_of};
ghost use Rattle.text_kernel.specs.Kernels.{kernel_of};
ghost use Rattle.text_kernel.specs.Limits.{WithinLimits, amount, limit_of};
ghost use Rattle.text_kernel.specs.declared.limits.Quantity.TheVariants.{Threads};
ghost use Rattle.bound_laws.specs.Paced.{Paced};
ghost use Rattle.kernel_lower.specs.Refusals.{HasLowerCause};

use crate::beyond::{Outlook, beyond, foresee};
use crate::judge::{Amounts, judge, within};
use crate::lower_fault::LowerFault;
use forec_base::{Labels, MAX_DEPTH, MAX_GLOBALS, MAX_TERMS, OutOfMemory};
use forec_check::Checked;
use forec_kernel::{Kernel, KernelParts};
use kernel_drafts::{
    arrays, complete, draft, int_functions, most, table_words, variable_total, variables,
};
use lower_names::Source;
use std::alloc::Global;
use text_kernel::Quantity;
use text_sizes::program_terms;

/// Whether a program in which so many statements nest may be made where `deepest` is the most.
fn fits(levels: u64, deepest: u64) -> Result<(), OutOfMemory>
    ensures { OnOk result (levels ≤ deepest) }
{
    if deepest < levels {
        return Err(OutOfMemory);
    }
    Ok(())
}

/// The parts of the kernel of a program of so many threads, in none of which more than `deepest` statements nest.
fn parts_of(
    alloc: Global,
    checked: &Checked<'_>,
    names: &Labels,
    threads: u64,
    deepest: u64,
) -> Result<KernelParts, LowerFault>
    requires names { names.now ≡ names_of checked.now }
    requires threads { threads ≡ min (amount Threads (kernel_of (checked_text checked.now) (names_of checked.now)))
        (2 ^ 64 - 1) }
    requires few { threads ≤ limit_of Threads }
    ensures parts { IfOk result
        (λ parts. plain_kernel parts ≡ kernel_of (checked_text checked.now) (names_of checked.now)) }
    ensures within { OnOk result (WithinLimits (kernel_of (checked_text checked.now) (names_of checked.now))) }
    ensures fault { IfErr result (λ e. HasLowerCause e (checked_text checked.now) (names_of checked.now)) }
{
    let items = checked.program().items.as_slice();
    let source = Source::of(alloc, items)?;
    let first = checked.start();
    let functions = int_functions(alloc, &source.globals, names, items)?;
    let terms = program_terms(alloc, &source.globals.index, names, &functions, first)?;
    let levels = foresee(alloc, &source.globals.index, names, first, threads)?;
    let globals = variables(alloc, items)?;
    let variables = variable_total(&globals);
    if MAX_GLOBALS < variables || MAX_TERMS < terms || MAX_DEPTH < levels {
        let known = Outlook {
            first,
            threads,
            variables,
            terms,
            levels,
        };
        beyond(alloc, &source, names, items, &functions, known)?;
        unreachable!();
    }
    fits(levels, deepest)?;
    let draft = draft(alloc, &source, names, items, first)?;
    let peak = most(alloc, &draft)?;
    let arrays = arrays(alloc, items)?;
    judge(Amounts {
        threads,
        words: peak.words,
        globals: draft.variables.len() as u64,
        tables: table_words(&arrays),
        terms,
        depth: peak.depth,
    })?;
    let parts = complete(alloc, &source, names, items, &arrays, draft)?;
    Ok(parts)
}

/// The kernel of a checked program, whose names are given. A program is refused exactly where a
/// quantity passes its limit, and the first such quantity is reported. The kernel is paced: no loop of it runs on for
/// ever within a tick.
///
/// # Errors
///
/// Out of memory, also where more than `deepest` statements nest in a thread with all functions in place that it calls
/// as statements: they are counted on the text, and nothing that deep is made.
pub fn lower_within(
    alloc: Global,
    checked: &Checked<'_>,
    names: &Labels,
    deepest: u64,
) -> Result<Kernel, LowerFault>
    requires { names.now ≡ names_of checked.now }
    ensures kernel { IfOk result (λ k. plain_kernel k ≡ kernel_of (checked_text checked.now) (names_of checked.now)) }
    ensures within { OnOk result (WithinLimits (kernel_of (checked_text checked.now) (names_of checked.now))) }
    ensures paced { IfOk result (λ k. Paced (plain_kernel k)) }
    ensures fault { IfErr result (λ e. HasLowerCause e (checked_text checked.now) (names_of checked.now)) }
{
    let threads = checked.threads(alloc)?;
    within(Quantity::Threads, threads)?;
    let parts = parts_of(alloc, checked, names, threads, deepest)?;
    Ok(Kernel::of(parts))
}

/// The kernel of a checked program, whose names are given, however deep it is. A program is refused
/// exactly where a quantity passes its limit, and the first such quantity is reported. The kernel is paced.
pub fn lower(alloc: Global, checked: &Checked<'_>, names: &Labels) -> Result<Kernel, LowerFault>
    requires { names.now ≡ names_of checked.now }
    ensures kernel { IfOk result (λ k. plain_kernel k ≡ kernel_of (checked_text checked.now) (names_of checked.now)) }
    ensures within { OnOk result (WithinLimits (kernel_of (checked_text checked.now) (names_of checked.now))) }
    ensures paced { IfOk result (λ k. Paced (plain_kernel k)) }
    ensures fault { IfErr result (λ e. HasLowerCause e (checked_text checked.now) (names_of checked.now)) }
{
    lower_within(alloc, checked, names, MAX_DEPTH)
}
