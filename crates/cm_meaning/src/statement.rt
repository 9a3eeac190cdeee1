//! The steps of statements.
ghost use Rattle.std.specs.Prelude.{◌≡◌, ◌∷◌, [], Some, ℕ, IfOk, OnOk};
ghost use Rattle.cm_syntax.specs.declared.stmt.Slot.TheVariants as slots;
ghost use Rattle.cm_syntax.specs.declared.stmt.Stmt.TheVariants as statements;
ghost use Rattle.cm_syntax.specs.Rest as rest;
ghost use Rattle.cm_syntax.specs.Stack.{Stack};
ghost use Rattle.cm_syntax.specs.Step as step;
ghost use Rattle.cm_meaning.specs.declared.work.Hand.TheVariants as hands;
ghost use Rattle.cm_meaning.specs.declared.work.Outcome.TheVariants as outcomes;
ghost use Rattle.cm_meaning.specs.declared.work.Purpose.TheVariants as purposes;
ghost use Rattle.cm_meaning.specs.declared.work.Work.TheVariants as works;
ghost use Rattle.cm_meaning.specs.Doing.{IsSteady, DoesItem, Writes, IsBegun, IsOpen, written_value};
ghost use Rattle.cm_meaning.specs.Evaluator.{IsReady, Does, Puts, optional_of};
ghost use Rattle.cm_meaning.specs.Layout.{calls_in, IsWordAt, IsLaidOut, Shows};
ghost use Rattle.cm_meaning.specs.Typing.{IsUpdate};

use crate::ended::Trap;
use crate::evaluator::Evaluator;
use crate::expression::is_index;
use crate::operator::binary;
use crate::work::{Hand, Outcome, Purpose, Work};
use cm_syntax::{Call, Expr, Item, Mark, Op, Slot, Stmt, Target};
use cm_text::Memory;
use sqlite_items::Boxed;

impl<'a> Evaluator<'a> {
    /// Begins a statement.
    pub(crate) fn statement(&mut self, statement: &'a Stmt<u32>) -> Result<Outcome, Memory>
        requires { IsReady self.old (works.Perform statement) }
        ensures { IfOk result (λ outcome. Does self.old (works.Perform statement.entry) outcome self.new) }
    {
        match statement {
            Stmt::Empty | Stmt::Sync { .. } => self.idle(),
            Stmt::Declare(items) => self.go(Work::Declare(items.items())),
            Stmt::Assign { target, op, value } => self.assignment(target, *op, value),
            Stmt::Call(call) => self.then(arguments_of(Purpose::Called, call), Work::Discard),
            Stmt::Spawn { target, call, .. } => self.go(arguments_of(spawned(target), call)),
            Stmt::If { test, then, other } => {
                let branch = Work::Branch(then.get(), held_by(other));
                self.then(Work::Evaluate(test), branch)
            }
            Stmt::While { test, body } => self.go(Work::Turn(Some(test), None, body.get())),
            Stmt::For {
                first,
                test,
                step,
                body,
            } => {
                let turn = Work::Turn(test.as_ref(), Some(step.get()), body.get());
                self.then(Work::Perform(first.get()), turn)
            }
            Stmt::Split {
                whole,
                place,
                left,
                right,
                body,
                ..
            } => {
                let part = Work::Part(whole.name, left.name, right.name, body.items());
                self.then(Work::Evaluate(place), part)
            }
            Stmt::Return { value, .. } => self.leave(value),
            Stmt::Print(value) => self.print(value),
            Stmt::Block(body) => self.go(Work::Sequence(body.items())),
        }
    }

    /// Begins an assignment.
    fn assignment(
        &mut self,
        target: &'a Target<u32>,
        op: Option<Op>,
        value: &'a Expr<u32>,
    ) -> Result<Outcome, Memory>
        requires { IsSteady self.old }
        ensures { IfOk result (λ outcome. DoesItem self.old (rest.perform (statements.Assign target.now op value.now)) outcome self.new) }
    {
        match target {
            Target::Scalar(x) => match op {
                None => self.then(Work::Evaluate(value), Work::Assign(x.name)),
                Some(op) => self.then(Work::Evaluate(value), Work::Update(x.name, op)),
            },
            Target::Index(a, place) => {
                self.then(Work::Evaluate(place), Work::Locate(a.name, op, value))
            }
        }
    }

    /// Begins a `return`.
    fn leave(&mut self, value: &'a Option<Expr<u32>>) -> Result<Outcome, Memory>
        requires { IsSteady self.old }
        ensures { IfOk result (λ outcome. (at : ℕ) → DoesItem self.old (rest.perform (statements.Return at value.now)) outcome self.new) }
    {
        match value {
            None => self.go(Work::Exit),
            Some(value) => self.then(Work::Evaluate(value), Work::Exit),
        }
    }

    /// Begins to print a value, which takes a tick when it is known.
    fn print(&mut self, value: &'a Expr<u32>) -> Result<Outcome, Memory>
        ensures going { IfOk result (λ outcome. outcome ≡ outcomes.Going) }
        ensures put { OnOk result (Puts self.old (works.Evaluate value.entry ∷ works.Tick ∷ works.Show ∷ []) hands.Idle self.new) }
    {
        self.hand = Hand::Idle;
        self.rest.push(Work::Show)?;
        self.rest.push(Work::Tick)?;
        self.rest.push(Work::Evaluate(value))?;
        Ok(Outcome::Going)
    }

    /// The statements of a block, one after another.
    pub(crate) fn sequence(&mut self, statements: &'a [Stmt<u32>]) -> Result<Outcome, Memory>
        requires { IsReady self.old (works.Sequence statements) }
        ensures { IfOk result (λ outcome. Does self.old (works.Sequence statements.entry) outcome self.new) }
    {
        match statements.split_first() {
            None => self.idle(),
            Some((first, more)) => self.then(Work::Perform(first), Work::Sequence(more)),
        }
    }

    /// The statements of a function's body, one after another.
    pub(crate) fn body(&mut self, statements: &'a [Stmt<u32>]) -> Result<Outcome, Memory>
        requires { IsReady self.old (works.Body statements) }
        ensures { IfOk result (λ outcome. Does self.old (works.Body statements.entry) outcome self.new) }
    {
        match statements.split_first() {
            None => self.idle(),
            Some((first, more)) => self.then(Work::Perform(first), Work::Body(more)),
        }
    }

    /// The items of a declaration, one after another: a scalar is 0 or its value, an array is all 0.
    pub(crate) fn declare(&mut self, items: &'a [Item<u32>]) -> Result<Outcome, Memory>
        requires { IsReady self.old (works.Declare items) }
        ensures { IfOk result (λ outcome. Does self.old (works.Declare items.entry) outcome self.new) }
    {
        let Some((item, more)) = items.split_first() else {
            return self.idle();
        };
        match item.slot {
            Slot::Scalar => self.declare_scalar(item, more),
            Slot::Array(_) => {
                self.frames.clear(item.name.name);
                self.go(Work::Declare(more))
            }
            Slot::Slice => unreachable!(),
        }
    }

    /// A declared scalar, with the items behind it.
    fn declare_scalar(
        &mut self,
        item: &'a Item<u32>,
        more: &'a [Item<u32>],
    ) -> Result<Outcome, Memory>
        requires steady { IsSteady self.old }
        requires scalar { item.now.slot ≡ slots.Scalar }
        requires there { IsWordAt self.old.frames (step.top (calls_in self.old.frames)) item.now.name.name 0 }
        ensures { IfOk result (λ outcome. DoesItem self.old (rest.declare (item.now ∷ more.now)) outcome self.new) }
    {
        let slot = item.name.name;
        match &item.first {
            None => {
                let depth = self.top();
                self.frames.set_word(depth, slot, 0, 0);
                self.go(Work::Declare(more))
            }
            Some(value) => self.begin_scalar(slot, value, more),
        }
    }

    /// A declared scalar with a value.
    fn begin_scalar(
        &mut self,
        slot: u32,
        value: &'a Expr<u32>,
        more: &'a [Item<u32>],
    ) -> Result<Outcome, Memory>
        ensures going { IfOk result (λ outcome. outcome ≡ outcomes.Going) }
        ensures put { OnOk result (Puts self.old (works.Evaluate value.entry ∷ works.Assign slot ∷ works.Declare more.entry ∷ []) hands.Idle self.new) }
    {
        self.hand = Hand::Idle;
        self.rest.push(Work::Declare(more))?;
        self.rest.push(Work::Assign(slot))?;
        self.rest.push(Work::Evaluate(value))?;
        Ok(Outcome::Going)
    }

    /// The value at hand goes into a scalar.
    pub(crate) fn assign(&mut self, slot: u32) -> Result<Outcome, Memory>
        requires { IsReady self.old (works.Assign slot) }
        ensures { IfOk result (λ outcome. Does self.old (works.Assign slot) outcome self.new) }
    {
        let value = self.value();
        let depth = self.top();
        self.write(depth, slot, 0, None, value)
    }

    /// The value at hand updates a scalar.
    pub(crate) fn update(&mut self, slot: u32, op: Op) -> Result<Outcome, Memory>
        requires { IsReady self.old (works.Update slot op) }
        ensures { IfOk result (λ outcome. Does self.old (works.Update slot op) outcome self.new) }
    {
        let value = self.value();
        let depth = self.top();
        self.write(depth, slot, 0, Some(op), value)
    }

    /// The index of an element that is written is at hand. One that is outside traps, before the value is evaluated.
    pub(crate) fn locate(
        &mut self,
        slot: u32,
        op: Option<Op>,
        value: &'a Expr<u32>,
    ) -> Result<Outcome, Memory>
        requires { IsReady self.old (works.Locate slot op value) }
        ensures { IfOk result (λ outcome. Does self.old (works.Locate slot op value.entry) outcome self.new) }
    {
        let index = self.value();
        let row = self.frames.row(slot);
        if !is_index(index, row.length) {
            return Ok(Outcome::Trapped(Trap::Index));
        }
        self.then(Work::Evaluate(value), Work::Store(slot, index as u32, op))
    }

    /// The value for an element is at hand.
    pub(crate) fn store(&mut self, slot: u32, index: u32, op: Option<Op>) -> Result<Outcome, Memory>
        requires { IsReady self.old (works.Store slot index op) }
        ensures { IfOk result (λ outcome. Does self.old (works.Store slot index op) outcome self.new) }
    {
        let value = self.value();
        let row = self.frames.row(slot);
        self.write(row.depth, row.slot, row.start + index, op, value)
    }

    /// A value goes into a word: as it is, or the word becomes what the operator gives of the old word and the value.
    fn write(
        &mut self,
        depth: u32,
        slot: u32,
        index: u32,
        op: Option<Op>,
        value: i32,
    ) -> Result<Outcome, Memory>
        requires steady { IsSteady self.old }
        requires there { IsWordAt self.old.frames depth slot index }
        requires update { IsUpdate op }
        ensures { IfOk result (λ outcome. Writes self.old depth slot index op value outcome self.new) }
    {
        match self.written(depth, slot, index, op, value) {
            None => Ok(Outcome::Trapped(Trap::Divide)),
            Some(value) => {
                self.frames.set_word(depth, slot, index, value);
                self.idle()
            }
        }
    }

    /// What is written to a word: the value, or what the operator gives of the old word and the value. None where it
    /// divides by 0.
    fn written(&self, depth: u32, slot: u32, index: u32, op: Option<Op>, value: i32) -> Option<i32>
        requires laid { IsLaidOut self.now.frames }
        requires there { IsWordAt self.now.frames depth slot index }
        ensures { (h : Stack) → Shows self.now.frames h → IsOpen op (h.words depth slot index) → result ≡ written_value op (h.words depth slot index) value }
    {
        match op {
            None => Some(value),
            Some(op) => binary(op, self.frames.word(depth, slot, index), value),
        }
    }

    /// The condition of an `if` is at hand.
    pub(crate) fn branch(
        &mut self,
        chosen: &'a Stmt<u32>,
        other: Option<&'a Stmt<u32>>,
    ) -> Result<Outcome, Memory>
        requires { IsReady self.old (works.Branch chosen other) }
        ensures { IfOk result (λ outcome. Does self.old (works.Branch chosen.entry other.entry) outcome self.new) }
    {
        if self.value() != 0 {
            return self.go(Work::Perform(chosen));
        }
        match other {
            None => self.idle(),
            Some(other) => self.go(Work::Perform(other)),
        }
    }

    /// A loop before its condition.
    pub(crate) fn turn(
        &mut self,
        test: Option<&'a Expr<u32>>,
        step: Option<&'a Stmt<u32>>,
        body: &'a Stmt<u32>,
    ) -> Result<Outcome, Memory>
        requires { IsReady self.old (works.Turn test step body) }
        ensures { IfOk result (λ outcome. Does self.old (works.Turn test.entry step.entry body.entry) outcome self.new) }
    {
        match test {
            Some(test) => self.then(Work::Evaluate(test), Work::Test(test, step, body)),
            None => self.round(None, step, body),
        }
    }

    /// What is done behind a turn of a loop.
    pub(crate) fn behind(&mut self, step: Option<&'a Stmt<u32>>) -> Result<Outcome, Memory>
        requires { IsReady self.old (works.Behind step) }
        ensures { IfOk result (λ outcome. Does self.old (works.Behind step.entry) outcome self.new) }
    {
        match step {
            None => self.idle(),
            Some(step) => self.statement(step),
        }
    }

    /// The condition of a loop is at hand.
    pub(crate) fn test(
        &mut self,
        test: &'a Expr<u32>,
        step: Option<&'a Stmt<u32>>,
        body: &'a Stmt<u32>,
    ) -> Result<Outcome, Memory>
        requires { IsReady self.old (works.Test test step body) }
        ensures { IfOk result (λ outcome. Does self.old (works.Test test.entry step.entry body.entry) outcome self.new) }
    {
        if self.value() == 0 {
            self.idle()
        } else {
            self.round(Some(test), step, body)
        }
    }

    /// A turn of a loop: its tick, its body, what is done behind it, and the loop again.
    fn round(
        &mut self,
        test: Option<&'a Expr<u32>>,
        step: Option<&'a Stmt<u32>>,
        body: &'a Stmt<u32>,
    ) -> Result<Outcome, Memory>
        ensures going { IfOk result (λ outcome. outcome ≡ outcomes.Going) }
        ensures put { OnOk result (Puts self.old (works.Tick ∷ works.Perform body.entry ∷ works.Behind step.entry ∷ works.Turn test.entry step.entry body.entry ∷ []) hands.Idle self.new) }
    {
        self.hand = Hand::Idle;
        self.rest.push(Work::Turn(test, step, body))?;
        self.rest.push(Work::Behind(step))?;
        self.rest.push(Work::Perform(body))?;
        self.rest.push(Work::Tick)?;
        Ok(Outcome::Going)
    }

    /// Where a row is split is at hand. A place outside of it traps.
    pub(crate) fn part(
        &mut self,
        whole: u32,
        left: u32,
        right: u32,
        body: &'a [Stmt<u32>],
    ) -> Result<Outcome, Memory>
        requires { IsReady self.old (works.Part whole left right body) }
        ensures { IfOk result (λ outcome. Does self.old (works.Part whole left right body.entry) outcome self.new) }
    {
        let place = self.value();
        let row = self.frames.row(whole);
        if !is_split(place, row.length) {
            return Ok(Outcome::Trapped(Trap::Index));
        }
        self.frames.set_parts(left, right, row, place as u32);
        self.go(Work::Sequence(body))
    }

    /// The value at hand is printed.
    pub(crate) fn show(&mut self) -> Result<Outcome, Memory>
        requires { IsReady self.old works.Show }
        ensures { IfOk result (λ outcome. Does self.old works.Show outcome self.new) }
    {
        let value = self.value();
        self.hand = Hand::Idle;
        Ok(Outcome::Printed(value))
    }
}

/// A spawn with this destination.
fn spawned(target: &Option<Mark<u32>>) -> Purpose
    ensures { result ≡ purposes.Spawned (step.destination_slot target.now) }
{
    match target {
        None => Purpose::Spawned(None),
        Some(x) => Purpose::Spawned(Some(x.name)),
    }
}

/// The statement that a box holds, if there is one.
fn held_by<'a>(other: &'a Option<Boxed<Stmt<u32>>>) -> Option<&'a Stmt<u32>>
    ensures { optional_of result ≡ other.now }
{
    match other {
        None => None,
        Some(other) => Some(other.get()),
    }
}

/// The arguments of a call, none of which is known yet.
fn arguments_of<'a>(purpose: Purpose, call: &'a Call<u32>) -> Work<'a>
    ensures { IsBegun result purpose call.now }
{
    Work::Arguments(purpose, call.function.name, 0, call.arguments.items())
}

/// Whether so many words may be split there.
fn is_split(place: i32, count: u32) -> bool
    ensures { result ≡ step.is_split place count }
{
    0 <= place && place as u32 <= count
}
