//! The check of a program.

ghost use Rattle.std.specs.Prelude.{◌≡◌, length, IfOk, IfErr};
ghost use Rattle.forec_tree.specs.Plain as plain;
ghost use Rattle.forec_check.specs.Faultless.{Distinct, IdsBelow};
ghost use Rattle.forec_check.specs.Checked.{checked_text, names_of, HasCheckCause};

use crate::check_fault::CheckFault;
use crate::checked::Checked;
use crate::rules::least_fault;
use forec_base::Labels;
use forec_tree::Program;
use std::alloc::Global;

/// Judges a program by the rules of the language: it is accepted exactly where it breaks none, and
/// else refused by the least fault by place, then rule. Rules 10 and 20 count only where no other
/// rule is broken. A refusal drops the program. Takes time in proportion to the program.
pub fn check<'n>(
    alloc: Global,
    program: Program,
    names: &'n Labels,
) -> Result<Checked<'n>, CheckFault>
    requires distinct { Distinct names.now }
    requires below { IdsBelow (plain.program program) (length names.now) }
    ensures program { IfOk result (λ c. checked_text c ≡ plain.program program) }
    ensures names { IfOk result (λ c. names_of c ≡ names.now) }
    ensures fault { IfErr result (λ e. HasCheckCause e (plain.program program) names.now) }
{
    match least_fault(alloc, &program, names) {
        Err(_) => Err(CheckFault::OutOfMemory),
        Ok(None) => Ok(Checked::of(program, names)),
        Ok(Some(fault)) => Err(CheckFault::Broken {
            place: fault.place,
            rule: fault.rule,
        }),
    }
}
