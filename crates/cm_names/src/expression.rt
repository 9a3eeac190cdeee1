//! Expressions: what their names stand for, and what is faulty in them.
ghost use Rattle.std.specs.Prelude.{◌≡◌, Option, option_map, IfOk, OnOk, map};
ghost use Rattle.cm_syntax.specs.Resolution as resolution;
ghost use Rattle.cm_syntax.specs.Resolution.{mention_of, call_use};
ghost use Rattle.cm_syntax.specs.Fault as fault;
ghost use Rattle.cm_syntax.specs.declared.expr.Expr.TheVariants as expressions;
ghost use Rattle.cm_names.specs.Visible.{Shows, Sight, kept_of};
ghost use Rattle.cm_names.specs.Role.{role_of};
ghost use Rattle.cm_names.specs.Finding.{after_use, after_uses};
ghost use Rattle.cm_names.specs.Argument.{form_of, bare_of, uses_of_arguments};

use crate::finding::{FaultKind, Findings};
use crate::functions::Functions;
use crate::role::{Role, is_fit};
use crate::variable::{Variable, Variables};
use cm_syntax::{Arg, Call, Expr, Function, Item, Mark, Name, Slot, Target};
use cm_text::{List, Memory};
use sqlite_items::Boxed;
use std::alloc::Global;

/// What stays the same while the names of a function are resolved.
#[derive(Clone, Copy)]
pub(crate) struct Resolver<'a> {
    /// The memory.
    pub alloc: Global,
    /// The functions of the tree.
    pub functions: &'a Functions<'a>,
    /// The function whose names are resolved.
    pub function: &'a Function<Name>,
}

/// What an argument is by its form.
#[derive(Clone, Copy, Debug, PartialEq, Eq)]
pub(crate) enum Form {
    /// A value.
    Value,
    /// A slice.
    Slice,
    /// A bare name that stands for nothing, which fits every parameter.
    Any,
}

impl<'a> Resolver<'a> {
    /// Resolves an expression that may not be there.
    pub(crate) fn optional(
        &self,
        variables: &Variables,
        found: &mut Findings,
        value: &Option<Expr<Name>>,
    ) -> Result<Option<Expr<u32>>, Memory>
        ensures resolved { (visible : Sight) → Shows variables.now visible
            → IfOk result (λ e. e ≡ resolution.resolve_optional self.now.functions.now visible value.now) }
        ensures found { (visible : Sight) → Shows variables.now visible
            → OnOk result (found.new ≡ after_uses self.now.functions.now self.now.function.now found.old (resolution.optional_uses visible value.now)) }
    {
        match value {
            None => Ok(None),
            Some(value) => Ok(Some(self.expression(variables, found, value)?)),
        }
    }

    /// Resolves what an assignment writes.
    pub(crate) fn target(
        &self,
        variables: &Variables,
        found: &mut Findings,
        target: &Target<Name>,
    ) -> Result<Target<u32>, Memory>
        ensures resolved { (visible : Sight) → Shows variables.now visible
            → IfOk result (λ t. t ≡ resolution.resolve_target self.now.functions.now visible target.now) }
        ensures found { (visible : Sight) → Shows variables.now visible
            → OnOk result (found.new ≡ after_uses self.now.functions.now self.now.function.now found.old (resolution.target_uses visible target.now)) }
    {
        match target {
            Target::Scalar(name) => {
                let name = self.mention(variables, found, name, Role::ValueWrite);
                Ok(Target::Scalar(name))
            }
            Target::Index(name, index) => {
                let name = self.mention(variables, found, name, Role::ElementWrite);
                let index = self.expression(variables, found, index)?;
                Ok(Target::Index(name, index))
            }
        }
    }

    /// Resolves an expression.
    #[cycle(expression)]
    pub(crate) fn expression(
        &self,
        variables: &Variables,
        found: &mut Findings,
        value: &Expr<Name>,
    ) -> Result<Expr<u32>, Memory>
        ensures resolved { (visible : Sight) → Shows variables.now visible
            → IfOk result (λ e. e ≡ resolution.resolve_expression self.now.functions.now visible value.now) }
        ensures found { (visible : Sight) → Shows variables.now visible
            → OnOk result (found.new ≡ after_uses self.now.functions.now self.now.function.now found.old (resolution.expression_uses visible value.now)) }
    {
        match value {
            Expr::Number(number) => Ok(Expr::Number(*number)),
            Expr::Scalar(name) => {
                let name = self.mention(variables, found, name, Role::ValueRead);
                Ok(Expr::Scalar(name))
            }
            Expr::Index(name, index) => {
                let name = self.mention(variables, found, name, Role::ElementRead);
                let index = self.boxed(variables, found, index.get())?;
                Ok(Expr::Index(name, index))
            }
            Expr::Len(name) => {
                let name = self.mention(variables, found, name, Role::LengthRead);
                Ok(Expr::Len(name))
            }
            Expr::Input(index) => {
                let index = self.boxed(variables, found, index.get())?;
                Ok(Expr::Input(index))
            }
            Expr::Inputs => Ok(Expr::Inputs),
            Expr::Unary(op, operand) => {
                let operand = self.boxed(variables, found, operand.get())?;
                Ok(Expr::Unary(*op, operand))
            }
            Expr::Binary(op, left, right) => {
                let left = self.boxed(variables, found, left.get())?;
                let right = self.boxed(variables, found, right.get())?;
                Ok(Expr::Binary(*op, left, right))
            }
            Expr::Call(call) => {
                let call = self.call(variables, found, call, true)?;
                Ok(Expr::Call(call))
            }
        }
    }

    /// Resolves an expression, and puts it into a box.
    #[cycle(expression)]
    fn boxed(
        &self,
        variables: &Variables,
        found: &mut Findings,
        value: &Expr<Name>,
    ) -> Result<Boxed<Expr<u32>>, Memory>
        ensures resolved { (visible : Sight) → Shows variables.now visible
            → IfOk result (λ e. e ≡ resolution.resolve_expression self.now.functions.now visible value.now) }
        ensures found { (visible : Sight) → Shows variables.now visible
            → OnOk result (found.new ≡ after_uses self.now.functions.now self.now.function.now found.old (resolution.expression_uses visible value.now)) }
    {
        let value = self.expression(variables, found, value)?;
        let value = Boxed::new(self.alloc, value)?;
        Ok(value)
    }

    /// Resolves a call, and notes whether a value of it is wanted where it gives none.
    #[cycle(expression)]
    pub(crate) fn call(
        &self,
        variables: &Variables,
        found: &mut Findings,
        call: &Call<Name>,
        wanted: bool,
    ) -> Result<Call<u32>, Memory>
        ensures resolved { (visible : Sight) → Shows variables.now visible
            → IfOk result (λ c. c ≡ resolution.resolve_call self.now.functions.now visible (expressions.Call call.now)) }
        ensures found { (visible : Sight) → Shows variables.now visible
            → OnOk result (found.new ≡ after_uses self.now.functions.now self.now.function.now found.old (resolution.call_uses visible wanted (expressions.Call call.now))) }
    {
        self.note_call(variables, found, call, wanted);
        let arguments = self.arguments(variables, found, call.arguments.items())?;
        Ok(Call {
            function: self.function_mark(&call.function),
            arguments,
        })
    }

    /// Resolves the arguments of a call.
    #[cycle(expression)]
    fn arguments(
        &self,
        variables: &Variables,
        found: &mut Findings,
        arguments: &[Arg<Name>],
    ) -> Result<List<Arg<u32>>, Memory>
        ensures resolved { (visible : Sight) → Shows variables.now visible
            → IfOk result (λ list. list ≡ map (resolution.resolve_argument self.now.functions.now visible) arguments.now) }
        ensures found { (visible : Sight) → Shows variables.now visible
            → OnOk result (found.new ≡ after_uses self.now.functions.now self.now.function.now found.old (uses_of_arguments visible arguments.now)) }
    {
        let mut resolved = List::new(self.alloc);
        for argument in arguments {
            let argument = self.argument(variables, found, argument)?;
            resolved.push(argument)?;
        }
        Ok(resolved)
    }

    /// Resolves an argument.
    #[cycle(expression)]
    fn argument(
        &self,
        variables: &Variables,
        found: &mut Findings,
        argument: &Arg<Name>,
    ) -> Result<Arg<u32>, Memory>
        ensures resolved { (visible : Sight) → Shows variables.now visible
            → IfOk result (λ a. a ≡ resolution.resolve_argument self.now.functions.now visible argument.now) }
        ensures found { (visible : Sight) → Shows variables.now visible
            → OnOk result (found.new ≡ after_uses self.now.functions.now self.now.function.now found.old (resolution.argument_uses visible argument.now)) }
    {
        match argument {
            Arg::Value(value) => match bare_name(value) {
                Some(name) => Ok(self.bare(variables, found, name)),
                None => Ok(Arg::Value(self.expression(variables, found, value)?)),
            },
            Arg::Slice(name) => {
                let name = self.mention(variables, found, name, Role::BareArgument);
                Ok(Arg::Slice(name))
            }
            Arg::Address(name) => {
                let name = self.mention(variables, found, name, Role::Reference);
                Ok(Arg::Address(name))
            }
        }
    }

    /// Resolves a bare name that is an argument: an array or a slice is passed as a slice.
    fn bare(&self, variables: &Variables, found: &mut Findings, name: &Mark<Name>) -> Arg<u32>
        ensures resolved { (visible : Sight) → Shows variables.now visible
            → result ≡ resolution.resolve_bare visible name.now (resolution.variable_form (resolution.lookup visible name.now.name)) }
        ensures found { (visible : Sight) → Shows variables.now visible
            → found.new ≡ after_use self.now.functions.now self.now.function.now found.old (mention_of visible name.now resolution.bare_argument) }
    {
        let form = variable_form(variables.lookup(&name.name));
        let name = self.mention(variables, found, name, Role::BareArgument);
        match form {
            Form::Slice => Arg::Slice(name),
            Form::Value | Form::Any => Arg::Value(Expr::Scalar(name)),
        }
    }

    /// Resolves a mention of a variable: its number is its slot, and 0 where it stands for nothing.
    pub(crate) fn mention(
        &self,
        variables: &Variables,
        found: &mut Findings,
        name: &Mark<Name>,
        role: Role,
    ) -> Mark<u32>
        ensures resolved { (visible : Sight) → Shows variables.now visible
            → result ≡ resolution.resolve_mark visible name.now }
        ensures found { (visible : Sight) → Shows variables.now visible
            → found.new ≡ after_use self.now.functions.now self.now.function.now found.old (mention_of visible name.now (role_of role)) }
    {
        let number = match variables.lookup(&name.name) {
            None => {
                found.note_mention(true, name.at, FaultKind::Unknown);
                0
            }
            Some(variable) => {
                found.note_mention(!is_fit(role, variable.kind), name.at, FaultKind::Kind);
                variable.slot
            }
        };
        Mark {
            name: number,
            at: name.at,
        }
    }

    /// Resolves the name of a function in a call: its number is its index, and 0 where it stands for nothing.
    fn function_mark(&self, name: &Mark<Name>) -> Mark<u32>
        ensures { result ≡ resolution.resolve_function_mark self.now.functions.now name.now }
    {
        Mark {
            name: self.functions.number(&name.name).unwrap_or(0),
            at: name.at,
        }
    }

    /// Notes what is faulty in a call by its function.
    fn note_call(
        &self,
        variables: &Variables,
        found: &mut Findings,
        call: &Call<Name>,
        wanted: bool,
    )
        ensures { (visible : Sight) → Shows variables.now visible
            → found.new ≡ after_use self.now.functions.now self.now.function.now found.old
            (call_use call.now.function (map (resolution.argument_form visible) call.now.arguments) wanted) }
    {
        let at = call.function.at;
        match self.functions.find(&call.function.name) {
            None => found.note_mention(true, at, FaultKind::Unknown),
            Some(callee) => {
                let arguments = call.arguments.items();
                let parameters = callee.parameters.items();
                let is_wrong_count = arguments.len() != parameters.len();
                let is_wrong_kind = has_misfit(variables, arguments, parameters)
                    || (wanted && !callee.gives);
                found.note_mention(is_wrong_count, at, FaultKind::Arity);
                found.note_mention(is_wrong_kind, at, FaultKind::Kind);
            }
        }
    }
}

/// The name that an expression is, where it is nothing else.
fn bare_name(value: &Expr<Name>) -> Option<&Mark<Name>>
    ensures { option_map (λ name. name.now) result ≡ bare_of value.now }
{
    match value {
        Expr::Scalar(name) => Some(name),
        _ => None,
    }
}

/// Whether some argument is of another kind than its parameter.
fn has_misfit(variables: &Variables, arguments: &[Arg<Name>], parameters: &[Item<Name>]) -> bool
    ensures { (visible : Sight) → Shows variables.now visible
        → result ≡ fault.has_misfit (map (resolution.argument_form visible) arguments.now) (map (λ item. item.slot) parameters.now) }
{
    for (index, argument) in arguments.iter().enumerate() {
        let Some(parameter) = parameters.get(index) else {
            return false;
        };
        if is_misfit(argument_form(variables, argument), parameter.slot) {
            return true;
        }
    }
    false
}

/// Whether an argument is of another kind than its parameter.
fn is_misfit(form: Form, parameter: Slot) -> bool
    ensures { result ≡ fault.is_misfit (form_of form) parameter }
{
    match form {
        Form::Value => match parameter {
            Slot::Slice => true,
            Slot::Scalar | Slot::Array(_) => false,
        },
        Form::Slice => match parameter {
            Slot::Scalar => true,
            Slot::Array(_) | Slot::Slice => false,
        },
        Form::Any => match parameter {
            Slot::Scalar | Slot::Array(_) | Slot::Slice => false,
        },
    }
}

/// What an argument is by its form.
fn argument_form(variables: &Variables, argument: &Arg<Name>) -> Form
    ensures { (visible : Sight) → Shows variables.now visible
        → form_of result ≡ resolution.argument_form visible argument.now }
{
    match argument {
        Arg::Value(value) => match bare_name(value) {
            Some(name) => variable_form(variables.lookup(&name.name)),
            None => Form::Value,
        },
        Arg::Slice(_) => Form::Slice,
        Arg::Address(_) => Form::Slice,
    }
}

/// What a variable is as an argument.
fn variable_form(variable: Option<Variable>) -> Form
    ensures { (v : Option resolution.Variable) → variable ≡ option_map kept_of v → form_of result ≡ resolution.variable_form v }
{
    match variable {
        None => Form::Any,
        Some(variable) => {
            if is_fit(Role::ValueRead, variable.kind) {
                Form::Value
            } else {
                Form::Slice
            }
        }
    }
}
