//! The walk over a statement; with rule 12, an int function takes time, and rule 14, a void function returns a value.

ghost use Rattle.std.specs.Prelude.{◌≡◌, [], ◌∷◌, map, OnOk};
ghost use Rattle.forec_tree.specs.Plain as plain;
ghost use Rattle.forec_tree.specs.Plain.{perhaps_of};
ghost use Rattle.forec_tree.specs.Scopes.{after, after_perhaps, with_locals, with_name, is_array};
ghost use Rattle.forec_tree.specs.Findings.{in_bound, Synchronous, Gives, Opens, Closes};
ghost use Rattle.forec_tree.specs.Scopes as scopes;
ghost use Rattle.program_walk.specs.Views.{judging_in, scope_of, ExtendsScope, SameScope};
ghost use Rattle.program_walk.specs.Walk.{notes_of, walked};
ghost use Rattle.program_walk.specs.WalkParts.{WalksExpressions, WalksOptionalExpression, WalksTarget, WalksLocal, WalksLocals, WalksStatement, WalksOptionalStatement, WalksStatements, WalksBranches};

use crate::rules::declarations::{judge_bound, judge_declared};
use crate::scopes::scope::Scope;
use crate::walk::context::Context;
use crate::walk::effects::{Effect, Notes};
use fault_order::keep_fault;
use forec_base::{OutOfMemory, Place};
use forec_tree::{Branch, Expr, How, Local, Number, Stmt, StmtKind, Target, rule};

impl Context<'_, '_> {
    fn expressions(
        &self,
        scope: &Scope,
        list: &[Expr],
        notes: &mut Notes,
    ) -> Result<(), OutOfMemory>
        ensures { OnOk result (WalksExpressions self.now (scope_of scope.now) list.now notes.old notes.new) }
    {
        for e in list {
            self.expression(scope, e, notes)?;
        }
        Ok(())
    }

    fn optional_expression(
        &self,
        scope: &Scope,
        e: &Option<Expr>,
        notes: &mut Notes,
    ) -> Result<(), OutOfMemory>
        ensures { OnOk result (WalksOptionalExpression self.now (scope_of scope.now) e.now notes.old notes.new) }
    {
        match e {
            None => Ok(()),
            Some(test) => {
                self.expression(scope, test, notes)?;
                Ok(())
            }
        }
    }

    fn target(&self, scope: &Scope, to: &Target, notes: &mut Notes) -> Result<(), OutOfMemory>
        ensures { OnOk result (WalksTarget self.now (scope_of scope.now) to.now notes.old notes.new) }
    {
        match &to.index {
            None => {
                self.use_name(scope, How::Writes, to.name, notes)?;
                Ok(())
            }
            Some(at) => {
                self.use_name(scope, How::WritesAt, to.name, notes)?;
                self.expression(scope, at, notes)?;
                Ok(())
            }
        }
    }

    fn judge_synchronous(&self, place: Place, notes: &mut Notes)
        ensures { notes_of notes.new ≡ walked (judging_in self.now) (Synchronous place ∷ []) (notes_of notes.old) }
    {
        keep_fault(&mut notes.least, self.gives, place, rule::INT_TAKES_TIME);
    }

    fn judge_return(&self, place: Place, notes: &mut Notes)
        ensures { notes_of notes.new ≡ walked (judging_in self.now) (Gives place ∷ []) (notes_of notes.old) }
    {
        keep_fault(
            &mut notes.least,
            !self.gives,
            place,
            rule::VOID_RETURNS_VALUE,
        );
    }

    fn bound(&self, bound: Option<Number>, notes: &mut Notes)
        ensures { notes_of notes.new ≡ walked (judging_in self.now) (in_bound bound) (notes_of notes.old) }
    {
        judge_bound(self, bound, &mut notes.least);
    }

    fn open_branch(&self, notes: &mut Notes) -> Result<(), OutOfMemory>
        ensures { OnOk result (notes_of notes.new ≡ walked (judging_in self.now) (Opens ∷ []) (notes_of notes.old)) }
    {
        notes.effects.push(Effect::Opens)?;
        Ok(())
    }

    fn close_branch(&self, notes: &mut Notes) -> Result<(), OutOfMemory>
        ensures { OnOk result (notes_of notes.new ≡ walked (judging_in self.now) (Closes ∷ []) (notes_of notes.old)) }
    {
        notes.effects.push(Effect::Closes)?;
        Ok(())
    }

    fn local(&self, scope: &mut Scope, l: &Local, notes: &mut Notes) -> Result<(), OutOfMemory>
        ensures notes { OnOk result (WalksLocal self.now (scope_of scope.old) l.now notes.old notes.new) }
        ensures scope { OnOk result (scope_of scope.new ≡ with_name (scope_of scope.old) l.now.name.id
            (is_array l.now.length)) }
        ensures frame { OnOk result (ExtendsScope scope.old scope.new) }
    {
        let again = scope.is_here(l.name.id);
        judge_declared(
            self,
            l.name,
            again,
            l.length,
            l.values.len(),
            &mut notes.least,
        );
        self.expressions(scope, l.values.as_slice(), notes)?;
        scope.declare(l.name.id, l.length.is_some())?;
        Ok(())
    }

    fn locals(
        &self,
        scope: &mut Scope,
        list: &[Local],
        notes: &mut Notes,
    ) -> Result<(), OutOfMemory>
        ensures notes { OnOk result (WalksLocals self.now (scope_of scope.old) list.now notes.old notes.new) }
        ensures scope { OnOk result (scope_of scope.new ≡ with_locals (scope_of scope.old)
            (map plain.declared list.now)) }
        ensures frame { OnOk result (ExtendsScope scope.old scope.new) }
    {
        for l in list {
            self.local(scope, l, notes)?;
        }
        Ok(())
    }

    #[cycle(statement)]
    fn statement(&self, scope: &mut Scope, s: &Stmt, notes: &mut Notes) -> Result<(), OutOfMemory>
        ensures notes { OnOk result (WalksStatement self.now (scope_of scope.old) s.now notes.old notes.new) }
        ensures scope { OnOk result (scope_of scope.new ≡ after (scope_of scope.old) (plain.statement s.now)) }
        ensures frame { OnOk result (ExtendsScope scope.old scope.new) }
    {
        match &s.what {
            StmtKind::Nothing => Ok(()),
            StmtKind::Group { body } => self.block(scope, body.as_slice(), notes),
            StmtKind::Declare { locals: list } => self.locals(scope, list.as_slice(), notes),
            StmtKind::Assign {
                target: to,
                value,
                ..
            } => {
                self.target(scope, to, notes)?;
                self.expression(scope, value, notes)
            }
            StmtKind::Call { name, args } => {
                self.use_name(scope, How::Runs { args: args.len() }, *name, notes)?;
                self.expressions(scope, args.as_slice(), notes)
            }
            StmtKind::If { test, yes, no } => {
                self.expression(scope, test, notes)?;
                self.scoped_statement(scope, yes, notes)?;
                self.optional_scoped_statement(scope, no, notes)
            }
            StmtKind::While { test, bound, body } => {
                self.bound(*bound, notes);
                self.expression(scope, test, notes)?;
                self.scoped_statement(scope, body, notes)
            }
            StmtKind::For {
                start,
                test,
                step,
                bound,
                body,
            } => {
                self.bound(*bound, notes);
                let outer = scope.enter();
                self.optional_statement(scope, start, notes)?;
                self.optional_expression(scope, test, notes)?;
                self.optional_statement(scope, step, notes)?;
                self.scoped_statement(scope, body, notes)?;
                scope.leave(outer);
                Ok(())
            }
            StmtKind::Pause => {
                self.judge_synchronous(s.place, notes);
                Ok(())
            }
            StmtKind::Par { branches: list } => {
                self.judge_synchronous(s.place, notes);
                self.branches(scope, list.as_slice(), notes)
            }
            StmtKind::Abort { test, body, .. } => {
                self.judge_synchronous(s.place, notes);
                self.expression(scope, test, notes)?;
                self.block(scope, body.as_slice(), notes)
            }
            StmtKind::Return { value } => {
                self.judge_return(s.place, notes);
                self.expression(scope, value, notes)
            }
        }
    }

    #[cycle(statement)]
    fn optional_statement(
        &self,
        scope: &mut Scope,
        s: &Option<Box<Stmt>>,
        notes: &mut Notes,
    ) -> Result<(), OutOfMemory>
        ensures notes { OnOk result (WalksOptionalStatement self.now (scope_of scope.old) s.now notes.old notes.new) }
        ensures scope { OnOk result (scope_of scope.new ≡ after_perhaps (scope_of scope.old) (perhaps_of s.now)) }
        ensures frame { OnOk result (ExtendsScope scope.old scope.new) }
    {
        match s {
            None => Ok(()),
            Some(there) => {
                self.statement(scope, there, notes)?;
                Ok(())
            }
        }
    }

    /// An optional statement in a scope of its own.
    #[cycle(statement)]
    fn optional_scoped_statement(
        &self,
        scope: &mut Scope,
        s: &Option<Box<Stmt>>,
        notes: &mut Notes,
    ) -> Result<(), OutOfMemory>
        ensures notes { OnOk result (WalksOptionalStatement self.now (scopes.inner_scope (scope_of scope.old)) s.now
            notes.old notes.new) }
        ensures same { OnOk result (SameScope scope.old scope.new) }
    {
        match s {
            None => Ok(()),
            Some(there) => {
                self.scoped_statement(scope, there, notes)?;
                Ok(())
            }
        }
    }

    /// A statement in a scope of its own.
    #[cycle(statement)]
    fn scoped_statement(
        &self,
        scope: &mut Scope,
        s: &Stmt,
        notes: &mut Notes,
    ) -> Result<(), OutOfMemory>
        ensures notes { OnOk result (WalksStatement self.now (scopes.inner_scope (scope_of scope.old)) s.now notes.old
            notes.new) }
        ensures same { OnOk result (SameScope scope.old scope.new) }
    {
        let outer = scope.enter();
        self.statement(scope, s, notes)?;
        scope.leave(outer);
        Ok(())
    }

    /// Statements in the scope that stands.
    #[cycle(statement)]
    pub fn statements(
        &self,
        scope: &mut Scope,
        body: &[Stmt],
        notes: &mut Notes,
    ) -> Result<(), OutOfMemory>
        ensures notes { OnOk result (WalksStatements self.now (scope_of scope.old) body.now notes.old notes.new) }
        ensures frame { OnOk result (ExtendsScope scope.old scope.new) }
    {
        for s in body {
            self.statement(scope, s, notes)?;
        }
        Ok(())
    }

    /// Statements in a scope of their own.
    #[cycle(statement)]
    fn block(&self, scope: &mut Scope, body: &[Stmt], notes: &mut Notes) -> Result<(), OutOfMemory>
        ensures notes { OnOk result (WalksStatements self.now (scopes.inner_scope (scope_of scope.old)) body.now
            notes.old notes.new) }
        ensures same { OnOk result (SameScope scope.old scope.new) }
    {
        let outer = scope.enter();
        self.statements(scope, body, notes)?;
        scope.leave(outer);
        Ok(())
    }

    /// Statements in a scope that sees global names alone.
    #[cycle(statement)]
    fn branch_block(
        &self,
        scope: &mut Scope,
        body: &[Stmt],
        notes: &mut Notes,
    ) -> Result<(), OutOfMemory>
        ensures notes { OnOk result (WalksStatements self.now scopes.no_scope body.now notes.old notes.new) }
        ensures same { OnOk result (SameScope scope.old scope.new) }
    {
        let outer = scope.hide();
        self.statements(scope, body, notes)?;
        scope.leave(outer);
        Ok(())
    }

    #[cycle(statement)]
    fn branch(&self, scope: &mut Scope, one: &Branch, notes: &mut Notes) -> Result<(), OutOfMemory>
        ensures notes { OnOk result (WalksBranches self.now (scope_of scope.old) (one.now ∷ []) notes.old notes.new) }
        ensures same { OnOk result (SameScope scope.old scope.new) }
    {
        match one {
            Branch::Call { name, args } => {
                self.use_name(scope, How::Starts { args: args.len() }, *name, notes)?;
                self.expressions(scope, args.as_slice(), notes)
            }
            Branch::Group { body, .. } => {
                self.open_branch(notes)?;
                self.branch_block(scope, body.as_slice(), notes)?;
                self.close_branch(notes)
            }
        }
    }

    #[cycle(statement)]
    fn branches(
        &self,
        scope: &mut Scope,
        all: &[Branch],
        notes: &mut Notes,
    ) -> Result<(), OutOfMemory>
        ensures notes { OnOk result (WalksBranches self.now (scope_of scope.old) all.now notes.old notes.new) }
        ensures same { OnOk result (SameScope scope.old scope.new) }
    {
        for one in all {
            self.branch(scope, one, notes)?;
        }
        Ok(())
    }
}
