//! The bounds of int functions, each found once, after those of the functions that it calls.

ghost use Rattle.std.specs.Prelude.{◌≡◌, ℕ, length, false, IfOk, OnOk};
ghost use Rattle.forec_kernel.specs.Shapes.{plain_kernel};
ghost use Rattle.tick_bounds.specs.Known.{has_bound, HoldsBounds, IsRight};

use crate::bodies::statement_bound;
use crate::scope::Scope;
use forec_base::OutOfMemory;
use forec_kernel::Kernel;
use kernel_calls::statement_calls;
use std::alloc::Global;

fn is_known(known: &[Option<u64>], function: usize) -> bool
    ensures { result ≡ has_bound known.now function }
{
    match known.get(function) {
        None => false,
        Some(bound) => bound.is_some(),
    }
}

/// Finds the bound of an int function, unless it is known, and of those that it reaches.
fn visit(
    alloc: Global,
    kernel: &Kernel,
    known: &mut Vec<Option<u64>>,
    function: usize,
) -> Result<(), OutOfMemory>
    requires { IsRight (plain_kernel kernel.now) known.old.items }
    ensures right { OnOk result (IsRight (plain_kernel kernel.now) known.new.items) }
    ensures told { OnOk result (HoldsBounds (plain_kernel kernel.now) known.new.items function) }
    ensures kept { OnOk result ((g : ℕ) → HoldsBounds (plain_kernel kernel.now) known.old.items g
        → HoldsBounds (plain_kernel kernel.now) known.new.items g) }
{
    if function >= known.len() || is_known(known, function) {
        return Ok(());
    }
    let body = &kernel.parts().functions[function];
    let mut calls = Vec::new(alloc);
    statement_calls(&mut calls, body)?;
    for callee in &calls {
        visit(alloc, kernel, known, *callee as usize)?;
    }
    let scope = Scope {
        kernel,
        uses: &[],
        functions: known.as_slice(),
        threads: &[],
    };
    let bound = statement_bound(&scope, body);
    known[function] = Some(bound);
    Ok(())
}

/// A place for each int function's bound.
fn unknown(alloc: Global, count: usize) -> Result<Vec<Option<u64>>, OutOfMemory>
    ensures empty { IfOk result (λ table. (g : ℕ) → has_bound table.items g ≡ false) }
    ensures long { IfOk result (λ table. length table.items ≡ count) }
{
    let mut table = Vec::new(alloc);
    for _ in 0..count {
        table.push(None)?;
    }
    Ok(table)
}

/// The bound of each int function.
pub fn function_bounds(alloc: Global, kernel: &Kernel) -> Result<Vec<Option<u64>>, OutOfMemory>
    ensures { IfOk result (λ table. (g : ℕ) → HoldsBounds (plain_kernel kernel.now) table.items g) }
{
    let count = kernel.parts().functions.len();
    let mut known = unknown(alloc, count)?;
    for function in 0..count {
        visit(alloc, kernel, &mut known, function)?;
    }
    Ok(known)
}
