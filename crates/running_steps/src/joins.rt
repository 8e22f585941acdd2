//! The step of a fork whose children have all stopped.

ghost use Rattle.std.specs.Prelude.{◌≡◌, ◌<◌, ◌+◌, ◌||◌, ℕ, ℤ, IfOk, length, get_or, unwrap_or, false};
ghost use Rattle.forec_kernel.specs.Shapes.{plain_kernel};
ghost use Rattle.forec_kernel.specs.Combining.{joined_copies, join_cost};
ghost use Rattle.running_texts.specs.Metered.{IsMetered};
ghost use Rattle.running_texts.specs.Folding.{all_folds, folded_copies, folding};
ghost use Rattle.running_threads.specs.Views.{threads};
ghost use Rattle.running_texts.specs.Lookups.{IsLookup};
ghost use Rattle.running_steps.specs.Marks.{AreMarks, marks_it};
ghost use Rattle.running_steps.specs.Moving.{CombiningAnswers, ForkMoved};

use crate::moving::Step;
use forec_kernel::{KernelParts, VarCopy};
use running_texts::{Fold, Halt, Lookup, ThreadValues, begin_folds, fold_branch, thread_uses};
use running_threads::{Children, leftmost_trap, ran};
use std::alloc::{AllocError, Global};

/// All folds after all branches that ran.
fn fold_children(
    alloc: Global,
    kernel: &KernelParts,
    children: &Children<'_>,
    folds: Vec<Fold>,
    left: &mut u64,
) -> Result<Vec<Fold>, Halt>
    ensures { IsMetered folding left.old left.new result (all_folds (plain_kernel kernel.now) (threads children.now)
        folds.items) }
{
    match children {
        Children::Nobody => Ok(folds),
        Children::Child { first, rest } => {
            if !ran(first.status) {
                return fold_children(alloc, kernel, rest, folds, left);
            }
            let uses = thread_uses(kernel, first.number);
            match fold_branch(alloc, kernel, uses, &first.copies, &folds, left) {
                Ok(next) => fold_children(alloc, kernel, rest, next, left),
                Err(halt) => Err(halt),
            }
        }
    }
}

/// Marks each of these variables of which a branch has marked its copy.
fn add_marks(branch: &Lookup<'_>, variables: &[u32], marks: &mut Vec<bool>)
    requires lookup { IsLookup branch.now }
    requires long { length marks.old.items ≡ length variables.now }
    ensures long { length marks.new.items ≡ length variables.now }
    ensures each { (i : ℕ) → i < length variables.now → get_or marks.new.items i false
        ≡ (marks_it branch.now.uses.now branch.now.copies.now (get_or variables.now i 0)
        || get_or marks.old.items i false) }
{
    for i in 0..variables.len() {
        if let Some(copy) = branch.find(variables[i]) {
            marks[i] = copy.modified || marks[i];
        }
    }
}

/// Which of these variables some branch that ran has marked.
#[tactic(auto, using(crate::proofs::Marks::marks_more, crate::proofs::Marks::marks_gone))]
fn marks_of(
    alloc: Global,
    kernel: &KernelParts,
    variables: &[u32],
    children: &Children<'_>,
) -> Result<Vec<bool>, AllocError>
    ensures long { IfOk result (λ m. length m.items ≡ length variables.now) }
    ensures each { IfOk result (λ m. AreMarks (plain_kernel kernel.now) (threads children.now) variables.now m.items) }
{
    match children {
        Children::Nobody => Ok(vec![in alloc; false; variables.len()]?),
        Children::Child { first, rest } => {
            let mut marks = marks_of(alloc, kernel, variables, rest)?;
            if ran(first.status) {
                let branch = Lookup::new(thread_uses(kernel, first.number), &first.copies);
                add_marks(&branch, variables, &mut marks);
            }
            Ok(marks)
        }
    }
}

/// A parent's copy after the last branch; `marked` says whether some branch has marked its own.
fn end_fold(copy: VarCopy, fold: Fold, marked: bool) -> VarCopy
    ensures { result ≡ record { value = unwrap_or fold.total copy.value; modified = copy.modified || marked } }
{
    VarCopy {
        value: fold.total.unwrap_or(copy.value),
        modified: copy.modified || marked,
    }
}

/// The parent's copies after the last branch.
fn end_folds(
    alloc: Global,
    kernel: &KernelParts,
    children: &Children<'_>,
    uses: &[u32],
    copies: &[VarCopy],
    folds: &[Fold],
) -> Result<Vec<VarCopy>, AllocError>
    ensures { IfOk result (λ v. v.items ≡ folded_copies (plain_kernel kernel.now) (threads children.now) uses.now
        copies.now folds.now) }
{
    let some = uses.len().min(folds.len());
    let marks = marks_of(alloc, kernel, uses, children)?;
    let mut list = Vec::new(alloc);
    for i in 0..copies.len() {
        if some <= i {
            list.push(copies[i])?;
            continue;
        }
        list.push(end_fold(copies[i], folds[i], marks[i]))?;
    }
    Ok(list)
}

/// The parent's copies, with those of the children combined.
fn join_copies(
    alloc: Global,
    kernel: &KernelParts,
    uses: &[u32],
    copies: &[VarCopy],
    children: &Children<'_>,
    left: &mut u64,
) -> Result<Vec<VarCopy>, Halt>
    ensures { CombiningAnswers left.old left.new result
        (joined_copies (plain_kernel kernel.now) (threads children.now) uses.now copies.now)
        (join_cost (plain_kernel kernel.now) (threads children.now) uses.now copies.now) }
{
    let folds = begin_folds(alloc, uses, copies)?;
    match fold_children(alloc, kernel, children, folds, left) {
        Ok(folds) => Ok(end_folds(alloc, kernel, children, uses, copies, &folds)?),
        Err(halt) => Err(halt),
    }
}

/// The step of a fork none of whose children is running.
pub(crate) fn join_step<'k>(
    alloc: Global,
    kernel: &KernelParts,
    values: &ThreadValues<'_>,
    children: &Children<'_>,
    left: &mut u64,
) -> Result<Step<'k>, Halt>
    ensures { ForkMoved kernel.now values.now (threads children.now) left.old left.new result }
{
    match leftmost_trap(children) {
        Some((place, trap)) => Err(Halt::Trapped { place, trap }),
        None => {
            match join_copies(alloc, kernel, values.uses, values.copies, children, left) {
                Ok(copies) => Ok(Step::Joins { copies }),
                Err(halt) => Err(halt),
            }
        }
    }
}
