//! The walk over an expression and the names that it uses.

ghost use Rattle.std.specs.Prelude.{◌≡◌, OnOk};
ghost use Rattle.program_walk.specs.Views.{scope_of};
ghost use Rattle.program_walk.specs.Walk.{effect_of};
ghost use Rattle.program_walk.specs.WalkParts.{WalksUse, WalksExpression};

use crate::rules::uses::judge_use;
use crate::scopes::meaning;
use crate::scopes::scope::Scope;
use crate::walk::context::Context;
use crate::walk::effects::{Effect, Notes};
use forec_base::OutOfMemory;
use forec_tree::{Expr, ExprKind, How, Meaning, Name};

fn effect(how: How, id: u32, means: Meaning) -> Option<Effect>
    ensures { result ≡ effect_of how id means }
{
    match means {
        Meaning::Function { .. } => match how {
            How::Computes { .. } => Some(Effect::Computes { id }),
            How::Runs { .. } => Some(Effect::Runs { id }),
            How::Starts { .. } => Some(Effect::Starts { id }),
            _ => None,
        },
        Meaning::Global { .. } => Some(Effect::Accesses { id }),
        _ => None,
    }
}

impl Context<'_, '_> {
    /// Judges one use of a name: keeps the least fault, and records the effect.
    pub fn use_name(
        &self,
        scope: &Scope,
        how: How,
        name: Name,
        notes: &mut Notes,
    ) -> Result<(), OutOfMemory>
        ensures { OnOk result (WalksUse self.now (scope_of scope.now) how name notes.old notes.new) }
    {
        let means = meaning(self.index, scope, name.id);
        judge_use(self, how, name, means, &mut notes.least);
        if let Some(effect) = effect(how, name.id, means) {
            notes.effects.push(effect)?;
        }
        Ok(())
    }

    /// Judges the names of an expression, from left to right, as [`Context::use_name`] does.
    pub fn expression(&self, scope: &Scope, e: &Expr, notes: &mut Notes) -> Result<(), OutOfMemory>
        ensures { OnOk result (WalksExpression self.now (scope_of scope.now) e.now notes.old notes.new) }
    {
        match &e.what {
            ExprKind::Number { .. } => Ok(()),
            ExprKind::Read { name } => self.use_name(scope, How::Reads, *name, notes),
            ExprKind::Element { name, index: at } => {
                self.use_name(scope, How::Indexes, *name, notes)?;
                self.expression(scope, at, notes)
            }
            ExprKind::Unary { of, .. } => self.expression(scope, of, notes),
            ExprKind::Binary { left, right, .. } => {
                self.expression(scope, left, notes)?;
                self.expression(scope, right, notes)
            }
            ExprKind::And { left, right } => {
                self.expression(scope, left, notes)?;
                self.expression(scope, right, notes)
            }
            ExprKind::Or { left, right } => {
                self.expression(scope, left, notes)?;
                self.expression(scope, right, notes)
            }
            ExprKind::Choose { test, yes, no } => {
                self.expression(scope, test, notes)?;
                self.expression(scope, yes, notes)?;
                self.expression(scope, no, notes)
            }
            ExprKind::Call { name, args } => {
                self.use_name(scope, How::Computes { args: args.len() }, *name, notes)?;
                for arg in args.as_slice() {
                    self.expression(scope, arg, notes)?;
                }
                Ok(())
            }
        }
    }
}
