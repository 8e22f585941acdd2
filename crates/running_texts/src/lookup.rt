//! A thread's copies, looked up by their variables.

ghost use Rattle.std.specs.Prelude.{◌≡◌, true, get_or, cond, Some, None};
ghost use Rattle.forec_kernel.specs.Combining.{contains};
ghost use Rattle.forec_kernel.specs.Values.{copy_of};
ghost use Rattle.running_texts.specs.Lookups.{absent_copy, IsAscending, IsLookup, IsLowerBound};

use crate::folds::has;
use crate::operators::copy_in;
use forec_kernel::VarCopy;

/// Whether no variable of a list is below one before it.
#[tactic(auto, using(crate::proofs::Lookups::ascend_more))]
fn ascends(uses: &[u32]) -> bool
    ensures { result ≡ true → IsAscending uses.now }
{
    for i in 1..uses.len() {
        if uses[i] < uses[i - 1] {
            return false;
        }
    }
    true
}

/// Where the first variable stands that isn't below this one.
#[tactic(auto, using(crate::proofs::Lookups::lower_found, crate::proofs::Lookups::search_higher, crate::proofs::Lookups::search_lower))]
fn lower_bound(uses: &[u32], variable: u32) -> usize
    requires { IsAscending uses.now }
    ensures { IsLowerBound variable uses.now result }
{
    let mut low = 0;
    let mut high = uses.len();
    while low < high {
        let middle = low + (high - low) / 2;
        if uses[middle] < variable {
            low = middle + 1;
        } else {
            high = middle;
        }
    }
    low
}

fn copy_at(copies: &[VarCopy], at: usize) -> VarCopy
    ensures { result ≡ get_or copies.now at absent_copy }
{
    match copies.get(at) {
        Some(copy) => *copy,
        None => VarCopy {
            value: 0,
            modified: false,
        },
    }
}

/// The copy of a variable in a list of variables that ascends, none where it isn't there.
#[tactic(auto, using(crate::proofs::Lookups::copy_found, crate::proofs::Lookups::is_there, crate::proofs::Lookups::not_there))]
fn search(uses: &[u32], copies: &[VarCopy], variable: u32) -> Option<VarCopy>
    requires { IsAscending uses.now }
    ensures { result ≡ cond (contains variable uses.now) (Some (copy_of uses.now copies.now variable)) None }
{
    let at = lower_bound(uses, variable);
    if at < uses.len() && uses[at] == variable {
        Some(copy_at(copies, at))
    } else {
        None
    }
}

/// A thread's copies beside the variables that it uses. Where these ascend, as those of a kernel do, a copy is found by
/// binary search, elsewhere by a scan.
#[derive(Clone, Copy)]
pub struct Lookup<'a> {
    pub uses: &'a [u32],
    pub copies: &'a [VarCopy],
    pub ascending: bool,
}

impl<'a> Lookup<'a> {
    /// The copies of these variables.
    pub fn new(uses: &'a [u32], copies: &'a [VarCopy]) -> Lookup<'a>
        ensures sound { IsLookup result }
        ensures uses { result.uses.now ≡ uses.now }
        ensures copies { result.copies.now ≡ copies.now }
    {
        Lookup {
            uses,
            copies,
            ascending: ascends(uses),
        }
    }

    /// The copy of a variable, none where the thread doesn't use it.
    pub fn find(&self, variable: u32) -> Option<VarCopy>
        requires { IsLookup self.now }
        ensures { result ≡ cond (contains variable self.now.uses.now)
            (Some (copy_of self.now.uses.now self.now.copies.now variable)) None }
    {
        if self.ascending {
            search(self.uses, self.copies, variable)
        } else if has(self.uses, variable) {
            Some(copy_in(self.uses, self.copies, variable as usize))
        } else {
            None
        }
    }

    /// The value of a variable's copy, 0 where there is none.
    #[tactic(auto, using(crate::proofs::Lookups::copy_missing))]
    pub fn value(&self, variable: u32) -> i32
        requires { IsLookup self.now }
        ensures { result ≡ (copy_of self.now.uses.now self.now.copies.now variable).value }
    {
        match self.find(variable) {
            Some(copy) => copy.value,
            None => 0,
        }
    }
}
