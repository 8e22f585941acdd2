//! Combining the copies of branches, one copy after the other.

ghost use Rattle.std.specs.Prelude.{◌≡◌, ◌<◌, false, true, length, map, replicate, slice_set, IfOk};
ghost use Rattle.forec_kernel.specs.Combining.{takes_part};
ghost use Rattle.combine_tree.specs.Joins.{blank_fold, fold_at, begun, offered_copy, pair_of, fold_value, is_touched, result_of};

use forec_base::{OutOfMemory, Policy};
use forec_kernel::VarCopy;
use std::alloc::Global;
use std::marker::Model;

/// Whether a branch's copy of a variable takes part when a `par` combines the copies. `base` is the value
/// that the branch had when it started or woke.
pub fn take_part(policy: Policy, base: i32, copy: VarCopy) -> bool
    ensures { result ≡ takes_part policy base copy }
{
    match policy {
        Policy::All => true,
        Policy::New => base != copy.value,
        Policy::Mod => copy.modified,
    }
}

/// The copies of one variable, combined so far.
#[derive(Clone, Copy)]
struct Fold {
    /// The parent's copy.
    base: VarCopy,
    /// Whether a branch's copy was marked.
    marked: bool,
    /// The fold of the values that have taken part; None where none has.
    total: Option<i32>,
    /// Whether a pair was given, and its number is still to come.
    waits: bool,
}

/// The copies of a parent's variables while those of its branches are combined with them, in memory that
/// is made once. A variable goes by its place among the parent's.
///
/// A join begins with the parent's copies. Then each branch's copies are offered, in the order of the
/// `par`. Where two values are to be combined they are given to the caller, who folds their number in.
#[derive(Drop)]
pub struct Joining {
    folds: Vec<Fold>,
}

impl Model for Joining {
    ghost use Rattle.std.specs.Prelude.{List};
    ghost use Rattle.combine_tree.specs.declared.joining.Fold.{Fold};

    ghost Value = { List Fold };

    ghost view = { λ j. j.folds.items };
}

impl Joining {
    /// Room for so many variables.
    ///
    /// # Errors
    ///
    /// Out of memory.
    pub fn new(alloc: Global, uses: usize) -> Result<Joining, OutOfMemory>
        ensures { IfOk result (λ j. j ≡ replicate uses blank_fold) }
    {
        let blank = Fold {
            base: VarCopy {
                value: 0,
                modified: false,
            },
            marked: false,
            total: None,
            waits: false,
        };
        Ok(Joining {
            folds: vec![in alloc; blank; uses]?,
        })
    }

    /// Begins a join with the parent's copies, whatever was left of the one before.
    pub fn begin(&mut self, base: &[VarCopy])
        requires { length base.now ≡ length self.old }
        ensures { self.new ≡ map begun base.now }
    {
        for (at, copy) in base.iter().enumerate() {
            self.folds[at] = Fold {
                base: *copy,
                marked: false,
                total: None,
                waits: false,
            };
        }
    }

    /// Begins the join of one variable alone, with the parent's copy of it.
    pub fn begin_at(&mut self, at: usize, base: VarCopy)
        requires { at < length self.old }
        ensures { self.new ≡ slice_set self.old at (begun base) }
    {
        self.folds[at] = Fold {
            base,
            marked: false,
            total: None,
            waits: false,
        };
    }

    /// Offers the next branch's copy of a variable. Gives the fold so far and the copy's value, to be
    /// combined, exactly where the copy takes part and is not the first that does.
    pub fn offer(&mut self, at: usize, policy: Policy, copy: VarCopy) -> Option<(i32, i32)>
        requires inside { at < length self.old }
        requires free { (fold_at self.old at).waits ≡ false }
        ensures state { self.new ≡ slice_set self.old at (offered_copy policy copy (fold_at self.old at)) }
        ensures pair { result ≡ pair_of policy copy (fold_at self.old at) }
    {
        let fold = &mut self.folds[at];
        fold.marked |= copy.modified;
        if !take_part(policy, fold.base.value, copy) {
            return None;
        }
        let Some(total) = fold.total else {
            fold.total = Some(copy.value);
            return None;
        };
        fold.waits = true;
        Some((total, copy.value))
    }

    /// Folds in the number of the pair that the last offer of this variable gave.
    pub fn fold(&mut self, at: usize, value: i32)
        requires inside { at < length self.old }
        requires waits { (fold_at self.old at).waits ≡ true }
        ensures { self.new ≡ slice_set self.old at (fold_value value (fold_at self.old at)) }
    {
        let fold = &mut self.folds[at];
        fold.total = Some(value);
        fold.waits = false;
    }

    /// Whether a copy that was offered has taken part or was marked. Where none has, the result is the parent's copy.
    pub fn is_touched(&self, at: usize) -> bool
        requires { at < length self.now }
        ensures touched { result ≡ is_touched (fold_at self.now at) }
        ensures same { result ≡ false → result_of (fold_at self.now at) ≡ (fold_at self.now at).base }
    {
        let fold = &self.folds[at];
        fold.marked || fold.total.is_some()
    }

    /// The parent's copy of a variable, combined with all that were offered.
    pub fn result(&self, at: usize) -> VarCopy
        requires { at < length self.now }
        ensures { result ≡ result_of (fold_at self.now at) }
    {
        let fold = self.folds[at];
        VarCopy {
            value: fold.total.unwrap_or(fold.base.value),
            modified: fold.base.modified || fold.marked,
        }
    }
}
