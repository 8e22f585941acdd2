//! A program that breaks no rule.

ghost use Rattle.std.specs.Prelude.{◌≡◌, length};
ghost use Rattle.forec_tree.specs.Plain as plain;
ghost use Rattle.forec_check.specs.Faultless.{Faultless, Distinct, IdsBelow};

use forec_base::Labels;
use forec_tree::Program;

/// A program that breaks no rule, with the names that its numbers stand for. The type keeps that no
/// two of the names are spelled alike, and that each name's number is less than how many names there are.
#[derive(Drop)]
pub struct Checked<'n> {
    program: Program,
    names: &'n Labels,
    ghost faultless: { Faultless (plain.program program) names.now },
    ghost distinct: { Distinct names.now },
    ghost below: { IdsBelow (plain.program program) (length names.now) },
}

impl<'n> Checked<'n> {
    pub(crate) fn of(program: Program, names: &'n Labels) -> Checked<'n>
        requires faultless { Faultless (plain.program program) names.now }
        requires distinct { Distinct names.now }
        requires below { IdsBelow (plain.program program) (length names.now) }
        ensures program { result.program ≡ program }
        ensures names { result.names.now ≡ names.now }
    {
        Checked { program, names }
    }

    /// The program.
    pub fn program(&self) -> &Program
        ensures { result.now ≡ self.now.program }
    {
        &self.program
    }

    /// The names.
    pub fn names(&self) -> &'n Labels
        ensures { result.now ≡ self.now.names.now }
    {
        self.names
    }
}
