//! The walk over a function: its parameters, then its body.

ghost use Rattle.std.specs.Prelude.{◌≡◌, OnOk};
ghost use Rattle.forec_tree.specs.Scopes.{with_params};
ghost use Rattle.loop_check.specs.Views.{indexed_text};
ghost use Rattle.program_walk.specs.Views.{scope_of, ExtendsScope, SameScope};
ghost use Rattle.program_walk.specs.WalkParts.{WalksParameters, WalksFunction};

use crate::rules::declarations::judge_declared;
use crate::scopes::scope::Scope;
use crate::walk::context::Context;
use crate::walk::effects::Notes;
use forec_base::{Labels, OutOfMemory};
use forec_tree::{Function, Name};
use loop_check::Index;

impl Context<'_, '_> {
    fn parameters(
        &self,
        scope: &mut Scope,
        all: &[Name],
        notes: &mut Notes,
    ) -> Result<(), OutOfMemory>
        ensures notes { OnOk result (WalksParameters self.now (scope_of scope.old) all.now notes.old notes.new) }
        ensures scope { OnOk result (scope_of scope.new ≡ with_params (scope_of scope.old) all.now) }
        ensures frame { OnOk result (ExtendsScope scope.old scope.new) }
    {
        for name in all {
            let again = scope.is_here(name.id);
            judge_declared(self, *name, again, None, 0, &mut notes.least);
            scope.declare(name.id, false)?;
        }
        Ok(())
    }
}

/// Judges a function's parameters and body: keeps the least fault, and records the effects.
pub fn body(
    index: &Index<'_>,
    names: &Labels,
    scope: &mut Scope,
    f: &Function,
    notes: &mut Notes,
) -> Result<(), OutOfMemory>
    ensures notes { OnOk result (WalksFunction (indexed_text index.now) names.now f.now notes.old notes.new) }
    ensures same { OnOk result (SameScope scope.old scope.new) }
{
    let context = Context {
        index,
        names,
        gives: f.gives,
    };
    let outer = scope.hide();
    context.parameters(scope, f.params.as_slice(), notes)?;
    context.statements(scope, f.body.as_slice(), notes)?;
    scope.leave(outer);
    Ok(())
}
