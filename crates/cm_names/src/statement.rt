//! Statements: their names, the scopes that they make, and the slots of what they declare.
ghost use Rattle.std.specs.Prelude.{IfOk};
ghost use Rattle.cm_syntax.specs.declared.stmt.Stmt.TheVariants as statements;
ghost use Rattle.cm_names.specs.Passing.{DoesItem, DoesItems, DoesStatement, DoesOwn, DoesBody, PassesStatement, PassesInner, PassesBlock, PassesParts};

use crate::expression::Resolver;
use crate::pass::{Pass, show_again, take_back, take_back_body};
use crate::role::Role;
use cm_syntax::{Call, Expr, Item, Mark, Name, Op, Slot, Stmt, Target};
use cm_text::{List, Memory};
use sqlite_items::Boxed;

/// The parts of a split, and its block.
#[derive(Drop)]
pub(crate) struct Parts {
    /// The left part.
    pub left: Mark<u32>,
    /// The right part.
    pub right: Mark<u32>,
    /// The statements of the block.
    pub body: List<Stmt<u32>>,
}

impl<'a> Resolver<'a> {
    /// Items of a scope that has the slots from `base` on.
    pub(crate) fn items(
        &self,
        pass: &mut Pass,
        base: u32,
        items: &[Item<Name>],
    ) -> Result<List<Item<u32>>, Memory>
        ensures { IfOk result (λ resolved. DoesItems self.now.functions.now self.now.function.now base items.now pass.old pass.new resolved) }
    {
        let mut resolved = List::new(self.alloc);
        for item in items {
            let next = self.item(pass, base, item)?;
            resolved.push(next)?;
        }
        Ok(resolved)
    }

    /// An item, which is known behind its value.
    fn item(&self, pass: &mut Pass, base: u32, item: &Item<Name>) -> Result<Item<u32>, Memory>
        ensures { IfOk result (λ resolved. DoesItem self.now.functions.now self.now.function.now base item.now pass.old pass.new resolved) }
    {
        self.note_second(pass, base, &item.name);
        let first = self.optional_value(pass, &item.first)?;
        let slot = pass.declare(self.alloc, &item.name.name, item.slot)?;
        Ok(Item {
            name: Mark {
                name: slot,
                at: item.name.at,
            },
            slot: item.slot,
            first,
        })
    }

    /// Statements of a scope that has the slots from `base` on.
    #[cycle(statement)]
    pub(crate) fn body(
        &self,
        pass: &mut Pass,
        base: u32,
        body: &[Stmt<Name>],
    ) -> Result<List<Stmt<u32>>, Memory>
        ensures { IfOk result (λ resolved. DoesBody self.now.functions.now self.now.function.now base body.now pass.old pass.new resolved) }
    {
        let mut resolved = List::new(self.alloc);
        for statement in body {
            resolved.push(self.statement(pass, base, statement)?)?;
        }
        Ok(resolved)
    }

    /// A block: its statements are in a scope of their own.
    #[cycle(statement)]
    fn block(&self, pass: &mut Pass, body: &[Stmt<Name>]) -> Result<List<Stmt<u32>>, Memory>
        ensures { IfOk result (λ resolved. PassesBlock self.now.functions.now self.now.function.now body.now pass.old pass.new resolved) }
    {
        let base = pass.next_slot()?;
        let resolved = self.body(pass, base, body)?;
        take_back_body(&mut pass.variables, body);
        Ok(resolved)
    }

    /// A statement in a scope of its own.
    #[cycle(statement)]
    fn inner(&self, pass: &mut Pass, statement: &Stmt<Name>) -> Result<Boxed<Stmt<u32>>, Memory>
        ensures { IfOk result (λ resolved. PassesInner self.now.functions.now self.now.function.now statement.now pass.old pass.new resolved) }
    {
        let base = pass.next_slot()?;
        let resolved = self.passing(pass, base, statement)?;
        Ok(resolved)
    }

    /// A statement of a scope that has the slots from `base` on. What it declares is taken back.
    #[cycle(statement)]
    fn passing(
        &self,
        pass: &mut Pass,
        base: u32,
        statement: &Stmt<Name>,
    ) -> Result<Boxed<Stmt<u32>>, Memory>
        ensures { IfOk result (λ resolved. PassesStatement self.now.functions.now self.now.function.now base statement.now pass.old pass.new resolved) }
    {
        let resolved = Boxed::new(self.alloc, self.statement(pass, base, statement)?)?;
        take_back(&mut pass.variables, statement);
        Ok(resolved)
    }

    /// A statement of a scope that has the slots from `base` on.
    #[cycle(statement)]
    fn statement(
        &self,
        pass: &mut Pass,
        base: u32,
        statement: &Stmt<Name>,
    ) -> Result<Stmt<u32>, Memory>
        ensures { IfOk result (λ resolved. DoesStatement self.now.functions.now self.now.function.now base statement.now pass.old pass.new resolved) }
    {
        match statement {
            Stmt::Empty => Ok(Stmt::Empty),
            Stmt::Declare(items) => {
                let items = self.items(pass, base, items.items())?;
                Ok(Stmt::Declare(items))
            }
            Stmt::Assign { target, op, value } => self.assignment(pass, target, *op, value),
            Stmt::Call(call) => {
                let call = self.called(pass, call, false)?;
                Ok(Stmt::Call(call))
            }
            Stmt::Spawn { at, target, call } => self.spawn(pass, *at, target, call),
            Stmt::Sync { at } => {
                self.parallel_keyword(&mut pass.found, *at);
                Ok(Stmt::Sync { at: *at })
            }
            Stmt::If { test, then, other } => self.choice(pass, test, then, other),
            Stmt::While { test, body } => self.while_loop(pass, test, body),
            Stmt::For {
                first,
                test,
                step,
                body,
            } => self.for_loop(pass, first, test, step, body),
            Stmt::Split {
                whole,
                place,
                left,
                right,
                body,
                close,
            } => self.split(pass, whole, place, left, right, body, *close),
            Stmt::Return { at, value } => self.return_statement(pass, *at, value),
            Stmt::Print(value) => {
                let value = self.value(pass, value)?;
                Ok(Stmt::Print(value))
            }
            Stmt::Block(body) => {
                let body = self.block(pass, body.items())?;
                Ok(Stmt::Block(body))
            }
        }
    }

    /// An assignment.
    fn assignment(
        &self,
        pass: &mut Pass,
        target: &Target<Name>,
        op: Option<Op>,
        value: &Expr<Name>,
    ) -> Result<Stmt<u32>, Memory>
        ensures { IfOk result (λ resolved. DoesOwn self.now.functions.now self.now.function.now (statements.Assign target.now op value.now) pass.old pass.new resolved) }
    {
        let target = self.written(pass, target)?;
        let value = self.value(pass, value)?;
        Ok(Stmt::Assign { target, op, value })
    }

    /// A spawn.
    fn spawn(
        &self,
        pass: &mut Pass,
        at: u32,
        target: &Option<Mark<Name>>,
        call: &Call<Name>,
    ) -> Result<Stmt<u32>, Memory>
        ensures { IfOk result (λ resolved. DoesOwn self.now.functions.now self.now.function.now (statements.Spawn at target.now call.now) pass.old pass.new resolved) }
    {
        match target {
            None => {
                self.parallel_keyword(&mut pass.found, at);
                let call = self.called(pass, call, false)?;
                Ok(Stmt::Spawn {
                    at,
                    target: None,
                    call,
                })
            }
            Some(target) => {
                let target = self.mentioned(pass, target, Role::SpawnDestination);
                self.parallel_keyword(&mut pass.found, at);
                let call = self.called(pass, call, true)?;
                Ok(Stmt::Spawn {
                    at,
                    target: Some(target),
                    call,
                })
            }
        }
    }

    /// A return.
    fn return_statement(
        &self,
        pass: &mut Pass,
        at: u32,
        value: &Option<Expr<Name>>,
    ) -> Result<Stmt<u32>, Memory>
        ensures { IfOk result (λ resolved. DoesOwn self.now.functions.now self.now.function.now (statements.Return at value.now) pass.old pass.new resolved) }
    {
        self.return_keyword(&mut pass.found, at, value.is_some());
        let value = self.optional_value(pass, value)?;
        Ok(Stmt::Return { at, value })
    }

    /// An `if`.
    #[cycle(statement)]
    fn choice(
        &self,
        pass: &mut Pass,
        test: &Expr<Name>,
        then: &Boxed<Stmt<Name>>,
        other: &Option<Boxed<Stmt<Name>>>,
    ) -> Result<Stmt<u32>, Memory>
        ensures { IfOk result (λ resolved. DoesOwn self.now.functions.now self.now.function.now (statements.If test.now then.now other.now) pass.old pass.new resolved) }
    {
        let test = self.value(pass, test)?;
        let then = self.inner(pass, then.get())?;
        match other {
            None => Ok(Stmt::If {
                test,
                then,
                other: None,
            }),
            Some(other) => {
                let other = self.inner(pass, other.get())?;
                Ok(Stmt::If {
                    test,
                    then,
                    other: Some(other),
                })
            }
        }
    }

    /// A `while`.
    #[cycle(statement)]
    fn while_loop(
        &self,
        pass: &mut Pass,
        test: &Expr<Name>,
        body: &Boxed<Stmt<Name>>,
    ) -> Result<Stmt<u32>, Memory>
        ensures { IfOk result (λ resolved. DoesOwn self.now.functions.now self.now.function.now (statements.While test.now body.now) pass.old pass.new resolved) }
    {
        let test = self.value(pass, test)?;
        let body = self.inner(pass, body.get())?;
        Ok(Stmt::While { test, body })
    }

    /// A `for`: its first part and its body are in scopes of their own.
    #[cycle(statement)]
    fn for_loop(
        &self,
        pass: &mut Pass,
        first: &Boxed<Stmt<Name>>,
        test: &Option<Expr<Name>>,
        step: &Boxed<Stmt<Name>>,
        body: &Boxed<Stmt<Name>>,
    ) -> Result<Stmt<u32>, Memory>
        ensures { IfOk result (λ resolved. DoesOwn self.now.functions.now self.now.function.now (statements.For first.now test.now step.now body.now) pass.old pass.new resolved) }
    {
        let base = pass.next_slot()?;
        let header = Boxed::new(self.alloc, self.statement(pass, base, first.get())?)?;
        let test = self.optional_value(pass, test)?;
        let step = self.passing(pass, base, step.get())?;
        let body = self.inner(pass, body.get())?;
        take_back(&mut pass.variables, first.get());
        Ok(Stmt::For {
            first: header,
            test,
            step,
            body,
        })
    }

    /// A split, in whose block the parts are visible and the whole isn't. The parts are slices, whatever the whole is.
    #[cycle(statement)]
    fn split(
        &self,
        pass: &mut Pass,
        whole: &Mark<Name>,
        place: &Expr<Name>,
        left: &Mark<Name>,
        right: &Mark<Name>,
        body: &List<Stmt<Name>>,
        close: u32,
    ) -> Result<Stmt<u32>, Memory>
        ensures { IfOk result (λ resolved. DoesOwn self.now.functions.now self.now.function.now
            (statements.Split whole.now place.now left.now right.now body.now close) pass.old pass.new resolved) }
    {
        let mention = self.mentioned(pass, whole, Role::SplitWhole);
        let place = self.value(pass, place)?;
        self.note_same(pass, left, right);
        let parts = self.parts(pass, whole, left, right, body.items())?;
        Ok(Stmt::Split {
            whole: mention,
            place,
            left: parts.left,
            right: parts.right,
            body: parts.body,
            close,
        })
    }

    /// The parts of a split, and its block.
    #[cycle(statement)]
    fn parts(
        &self,
        pass: &mut Pass,
        whole: &Mark<Name>,
        left: &Mark<Name>,
        right: &Mark<Name>,
        body: &[Stmt<Name>],
    ) -> Result<Parts, Memory>
        ensures { IfOk result (λ parts. PassesParts self.now.functions.now self.now.function.now whole.now left.now right.now body.now pass.old pass.new parts) }
    {
        let hidden = pass.variables.pop(&whole.name);
        let first = pass.declare(self.alloc, &left.name, Slot::Slice)?;
        let second = pass.declare(self.alloc, &right.name, Slot::Slice)?;
        let resolved = self.block(pass, body)?;
        pass.variables.pop(&right.name);
        pass.variables.pop(&left.name);
        show_again(self.alloc, &mut pass.variables, &whole.name, hidden)?;
        Ok(Parts {
            left: Mark {
                name: first,
                at: left.at,
            },
            right: Mark {
                name: second,
                at: right.at,
            },
            body: resolved,
        })
    }
}
