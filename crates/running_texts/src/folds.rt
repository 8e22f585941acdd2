//! Combining: one fold in progress for each variable, branch by branch.

ghost use Rattle.std.specs.Prelude.{◌≡◌, ◌<◌, ◌+◌, ℕ, ℤ, Option, Some, None, IfOk, length, not, ◌&&◌, ◌||◌, unwrap_or};
ghost use Rattle.forec_base.specs.Numbers.{int_same};
ghost use Rattle.forec_kernel.specs.Shapes.{plain_kernel};
ghost use Rattle.forec_kernel.specs.Combining.{contains, takes_part, variable_of, combine_of};
ghost use Rattle.running_texts.specs.Lookups.{IsLookup};
ghost use Rattle.running_texts.specs.Metered.{IsMetered};
ghost use Rattle.running_texts.specs.Folding.{added, takes, branch_added, branch_folds, first_folds, adding, folding};

use crate::evaluation::call_function;
use crate::lookup::Lookup;
use crate::meter::{Halt, pay};
use forec_base::Policy;
use forec_kernel::{KernelParts, VarCopy, Variable};
use std::alloc::{AllocError, Global};

/// The fold of a variable: the parent's value before it, and what it has come to, none where no
/// branch has taken part.
#[derive(Clone, Copy, Debug, PartialEq, Eq)]
pub struct Fold {
    pub variable: u32,
    pub base: i32,
    pub total: Option<i32>,
}

/// Whether a variable is among those that are used.
pub(crate) fn has(uses: &[u32], variable: u32) -> bool
    ensures { result ≡ contains variable uses.now }
{
    for other in uses {
        if *other == variable {
            return true;
        }
    }
    false
}

fn variable_in(kernel: &KernelParts, variable: u32) -> Variable
    ensures { result ≡ variable_of (plain_kernel kernel.now) variable }
{
    let variables = kernel.shape.variables.as_slice();
    if (variable as usize) < variables.len() {
        variables[variable as usize]
    } else {
        Variable {
            policy: Policy::Mod,
            combine: None,
            start: 0,
            input: false,
        }
    }
}

fn same(a: i32, b: i32) -> bool
    ensures { result ≡ int_same a b }
{
    a == b
}

fn partakes(policy: Policy, base: i32, copy: VarCopy) -> bool
    ensures { result ≡ takes_part policy base copy }
{
    match policy {
        Policy::All => true,
        Policy::New => !same(base, copy.value),
        Policy::Mod => copy.modified,
    }
}

fn takes_its_part(kernel: &KernelParts, branch: &Lookup<'_>, fold: Fold) -> bool
    requires { IsLookup branch.now }
    ensures { result ≡ takes (plain_kernel kernel.now) branch.now.uses.now branch.now.copies.now fold }
{
    match branch.find(fold.variable) {
        Some(copy) => partakes(variable_in(kernel, fold.variable).policy, fold.base, copy),
        None => false,
    }
}

/// The value of one more branch is added to a fold.
fn add_value(
    alloc: Global,
    kernel: &KernelParts,
    combine: Option<u32>,
    total: Option<i32>,
    value: i32,
    left: &mut u64,
) -> Result<Option<i32>, Halt>
    ensures { IsMetered adding left.old left.new result (added (combine_of (plain_kernel kernel.now) combine) total
        value) }
{
    match total {
        None => Ok(Some(value)),
        Some(sum) => match combine {
            None => Ok(Some(sum)),
            Some(function) => match pay(1, left) {
                Ok(()) => {
                    let deep = kernel.functions.as_slice().len();
                    match call_function(alloc, kernel, deep, function, &[sum, value], left) {
                        Ok(n) => Ok(Some(n)),
                        Err(halt) => Err(halt),
                    }
                }
                Err(halt) => Err(halt),
            },
        },
    }
}

fn add_branch(
    alloc: Global,
    kernel: &KernelParts,
    branch: &Lookup<'_>,
    fold: Fold,
    left: &mut u64,
) -> Result<Option<i32>, Halt>
    requires { IsLookup branch.now }
    ensures { IsMetered adding left.old left.new result
        (branch_added (plain_kernel kernel.now) branch.now.uses.now branch.now.copies.now fold) }
{
    if takes_its_part(kernel, branch, fold) {
        let combine = variable_in(kernel, fold.variable).combine;
        let value = branch.value(fold.variable);
        add_value(alloc, kernel, combine, fold.total, value, left)
    } else {
        Ok(fold.total)
    }
}

fn come_to(fold: Fold, total: Option<i32>) -> Fold
    ensures { result ≡ record fold { total = total } }
{
    Fold {
        variable: fold.variable,
        base: fold.base,
        total,
    }
}

/// All folds after one branch.
pub fn fold_branch(
    alloc: Global,
    kernel: &KernelParts,
    uses: &[u32],
    copies: &[VarCopy],
    folds: &[Fold],
    left: &mut u64,
) -> Result<Vec<Fold>, Halt>
    ensures { IsMetered folding left.old left.new result (branch_folds (plain_kernel kernel.now) uses.now copies.now
        folds.now) }
{
    let branch = Lookup::new(uses, copies);
    let mut next = Vec::new(alloc);
    for fold in folds {
        match add_branch(alloc, kernel, &branch, *fold, left) {
            Ok(total) => {
                if next.push(come_to(*fold, total)).is_err() {
                    return Err(Halt::OutOfMemory);
                }
            }
            Err(halt) => return Err(halt),
        }
    }
    Ok(next)
}

fn begin_fold(variable: u32, copy: VarCopy) -> Fold
    ensures { result ≡ record { variable = variable; base = copy.value; total = None } }
{
    Fold {
        variable,
        base: copy.value,
        total: None,
    }
}

/// The folds before the first branch.
pub fn begin_folds(alloc: Global, uses: &[u32], copies: &[VarCopy]) -> Result<Vec<Fold>, AllocError>
    ensures { IfOk result (λ v. v.items ≡ first_folds uses.now copies.now) }
{
    let mut folds = Vec::new(alloc);
    for i in 0..uses.len().min(copies.len()) {
        folds.push(begin_fold(uses[i], copies[i]))?;
    }
    Ok(folds)
}
