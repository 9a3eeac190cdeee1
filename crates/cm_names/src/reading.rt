//! The parts of statements that declare nothing.
ghost use Rattle.std.specs.Prelude.{◌≡◌, ◌∷◌, [], ℕ, IfOk, if◌then◌else◌};
ghost use Rattle.cm_syntax.specs.Resolution as resolution;
ghost use Rattle.cm_syntax.specs.Resolution.{mention_of, resolve_mark, expression_uses, resolve_expression, optional_uses, resolve_optional, target_uses, resolve_target, call_uses, resolve_call};
ghost use Rattle.cm_syntax.specs.Text.{is_same};
ghost use Rattle.cm_syntax.specs.declared.expr.Expr.TheVariants as expressions;
ghost use Rattle.cm_names.specs.Role.{role_of};
ghost use Rattle.cm_names.specs.Passing.{Reads, Steps, IsAt};
ghost use Rattle.cm_names.specs.Finding.{after_use};

use crate::expression::Resolver;
use crate::finding::{FaultKind, Findings};
use crate::pass::{Pass, is_since};
use crate::role::Role;
use cm_syntax::{Call, Expr, Mark, Name, Target};
use cm_text::Memory;

impl<'a> Resolver<'a> {
    /// An expression of a statement.
    pub(crate) fn value(&self, pass: &mut Pass, value: &Expr<Name>) -> Result<Expr<u32>, Memory>
        ensures { IfOk result (λ e. Reads self.now.functions.now self.now.function.now pass.old pass.new e
            (λ visible. resolve_expression self.now.functions.now visible value.now) (λ visible. expression_uses visible value.now)) }
    {
        let value = self.expression(&pass.variables, &mut pass.found, value)?;
        Ok(value)
    }

    /// An expression of a statement that may not be there.
    pub(crate) fn optional_value(
        &self,
        pass: &mut Pass,
        value: &Option<Expr<Name>>,
    ) -> Result<Option<Expr<u32>>, Memory>
        ensures { IfOk result (λ e. Reads self.now.functions.now self.now.function.now pass.old pass.new e
            (λ visible. resolve_optional self.now.functions.now visible value.now) (λ visible. optional_uses visible value.now)) }
    {
        let value = self.optional(&pass.variables, &mut pass.found, value)?;
        Ok(value)
    }

    /// What an assignment writes.
    pub(crate) fn written(
        &self,
        pass: &mut Pass,
        target: &Target<Name>,
    ) -> Result<Target<u32>, Memory>
        ensures { IfOk result (λ t. Reads self.now.functions.now self.now.function.now pass.old pass.new t
            (λ visible. resolve_target self.now.functions.now visible target.now) (λ visible. target_uses visible target.now)) }
    {
        let target = self.target(&pass.variables, &mut pass.found, target)?;
        Ok(target)
    }

    /// A call that is a statement or is spawned, and whether its value is wanted.
    pub(crate) fn called(
        &self,
        pass: &mut Pass,
        call: &Call<Name>,
        wanted: bool,
    ) -> Result<Call<u32>, Memory>
        ensures { IfOk result (λ c. Reads self.now.functions.now self.now.function.now pass.old pass.new c
            (λ visible. resolve_call self.now.functions.now visible (expressions.Call call.now)) (λ visible. call_uses visible wanted (expressions.Call call.now))) }
    {
        let call = self.call(&pass.variables, &mut pass.found, call, wanted)?;
        Ok(call)
    }

    /// A variable's name.
    pub(crate) fn mentioned(&self, pass: &mut Pass, x: &Mark<Name>, role: Role) -> Mark<u32>
        ensures { Reads self.now.functions.now self.now.function.now pass.old pass.new result
            (λ visible. resolve_mark visible x.now) (λ visible. mention_of visible x.now (role_of role) ∷ []) }
    {
        self.mention(&pass.variables, &mut pass.found, x, role)
    }

    /// Notes an item whose name its scope has already. The scope has the slots from `base` on.
    pub(crate) fn note_second(&self, pass: &mut Pass, base: u32, name: &Mark<Name>)
        ensures { (scope : resolution.Scope) → IsAt pass.old base scope
            → Steps self.now.functions.now self.now.function.now base [] (resolution.redeclaration_uses scope name.now) scope pass.old pass.new }
    {
        if is_since(pass.variables.lookup(&name.name), base) {
            self.redeclaration(&mut pass.found, name.at);
        }
    }

    /// Notes the right part of a split, where it has the name of the left part.
    pub(crate) fn note_same(&self, pass: &mut Pass, left: &Mark<Name>, right: &Mark<Name>)
        ensures { (base : ℕ) (scope : resolution.Scope) → IsAt pass.old base scope
            → Steps self.now.functions.now self.now.function.now base []
            (if is_same left.now.name right.now.name then resolution.redeclaration right.now.at ∷ [] else []) scope pass.old pass.new }
    {
        if left.name == right.name {
            self.redeclaration(&mut pass.found, right.at);
        }
    }

    /// Notes that a name stands a second time.
    fn redeclaration(&self, found: &mut Findings, at: u32)
        ensures { found.new ≡ after_use self.now.functions.now self.now.function.now found.old (resolution.redeclaration at) }
    {
        found.note_where(true, at, FaultKind::Twice);
    }

    /// Notes the word `spawn` or `sync`.
    pub(crate) fn parallel_keyword(&self, found: &mut Findings, at: u32)
        ensures { found.new ≡ after_use self.now.functions.now self.now.function.now found.old (resolution.parallel_keyword at) }
    {
        found.note_where(!self.function.cilk, at, FaultKind::Kind);
    }

    /// Notes the word `return`, and whether a value follows.
    pub(crate) fn return_keyword(&self, found: &mut Findings, at: u32, has_value: bool)
        ensures { found.new ≡ after_use self.now.functions.now self.now.function.now found.old (resolution.return_keyword at has_value) }
    {
        found.note_where(self.function.gives != has_value, at, FaultKind::Kind);
    }
}
