//! The evaluator: what it holds, and the single step. A step is constant work but for the words of an array that it
//! clears, and what a `return` leaves was put there once.
ghost use Rattle.std.specs.Prelude.{◌≡◌, IfOk, OnOk, [], ◌∷◌};
ghost use Rattle.cm_syntax.specs.Step as step;
ghost use Rattle.cm_meaning.specs.Layout.{calls_in, IsLaidOut};
ghost use Rattle.cm_meaning.specs.declared.work.Outcome.TheVariants as outcomes;
ghost use Rattle.cm_meaning.specs.declared.work.Hand.TheVariants as hands;
ghost use Rattle.cm_meaning.specs.declared.work.Work.TheVariants as works;
ghost use Rattle.cm_meaning.specs.Evaluator.{IsReady, IsAtHand, IsPlain, IsValue, IsRunning, Does, Steps, Puts};

use crate::frames::Frames;
use crate::reference::Argument;
use crate::work::{Hand, Outcome, Work};
use cm_syntax::Program;
use cm_text::Memory;

/// A run of a program.
#[derive(Debug, Drop)]
pub(crate) struct Evaluator<'a> {
    /// The program.
    pub(crate) program: &'a Program,
    /// The numbers of the input.
    pub(crate) input: &'a [i32],
    /// The bytes of a page.
    pub(crate) page: u32,
    /// The bytes that are left of the stack account.
    pub(crate) account: u32,
    /// What is at hand.
    pub(crate) hand: Hand,
    /// What is still to do, the next last.
    pub(crate) rest: Vec<Work<'a>>,
    /// The arguments of the calls that are to come, the next one's last.
    pub(crate) passed: Vec<Argument>,
    /// The frames.
    pub(crate) frames: Frames<'a>,
}

impl<'a> Evaluator<'a> {
    /// Does one step.
    pub(crate) fn step(&mut self) -> Result<Outcome, Memory>
        requires { IsAtHand self.old }
        ensures { IfOk result (λ outcome. Steps self.old outcome self.new) }
    {
        match self.hand {
            Hand::Entering(function, count) => {
                self.hand = Hand::Framing(function, count);
                Ok(Outcome::Tick)
            }
            Hand::Framing(function, count) => self.call(function, count),
            Hand::Idle | Hand::Value(_) | Hand::Returned(_) => self.next(),
        }
    }

    /// Does the first item of the rest; with nothing left to do the run is at its end.
    fn next(&mut self) -> Result<Outcome, Memory>
        requires ready { IsAtHand self.old }
        requires plain { IsPlain self.old.hand }
        ensures { IfOk result (λ outcome. Steps self.old outcome self.new) }
    {
        match self.rest.pop() {
            Some(work) => self.perform(work),
            None => match self.hand {
                Hand::Returned(Some(value)) => Ok(Outcome::Ended(value)),
                _ => unreachable!(),
            },
        }
    }

    /// Does a piece of work.
    fn perform(&mut self, work: Work<'a>) -> Result<Outcome, Memory>
        requires { IsReady self.old work }
        ensures { IfOk result (λ outcome. Does self.old work.entry outcome self.new) }
    {
        match work {
            Work::Evaluate(e) => self.evaluate(e),
            Work::Right(op, right) => self.right(op, right),
            Work::Apply(op, left) => self.apply(op, left),
            Work::Prefix(op) => self.prefix(op),
            Work::Both(right) => self.both(right),
            Work::Either(right) => self.either(right),
            Work::Truth => self.truth(),
            Work::Element(slot) => self.element(slot),
            Work::Read => self.read(),
            Work::Arguments(purpose, function, count, more) => {
                self.arguments(purpose, function, count, more)
            }
            Work::Pass(purpose, function, count, more) => self.pass(purpose, function, count, more),
            Work::TakeBack => self.take_back(),
            Work::Discard => self.discard(),
            Work::Deliver(destination) => self.deliver(destination),
            Work::Perform(statement) => self.statement(statement),
            Work::Sequence(statements) => self.sequence(statements),
            Work::Body(statements) => self.body(statements),
            Work::Declare(items) => self.declare(items),
            Work::Assign(slot) => self.assign(slot),
            Work::Update(slot, op) => self.update(slot, op),
            Work::Locate(slot, op, value) => self.locate(slot, op, value),
            Work::Store(slot, index, op) => self.store(slot, index, op),
            Work::Branch(chosen, other) => self.branch(chosen, other),
            Work::Turn(test, step, body) => self.turn(test, step, body),
            Work::Behind(step) => self.behind(step),
            Work::Test(test, step, body) => self.test(test, step, body),
            Work::Part(whole, left, right, body) => self.part(whole, left, right, body),
            Work::Tick => Ok(Outcome::Tick),
            Work::Show => self.show(),
            Work::Exit => self.exit(),
            Work::Fall => self.fall(),
            Work::Join => Ok(Outcome::Going),
            Work::End => self.end(),
        }
    }

    /// The value at hand.
    pub(crate) fn value(&self) -> i32
        requires { IsValue self.now.hand }
        ensures { self.now.hand ≡ hands.Value result }
    {
        match self.hand {
            Hand::Value(value) => value,
            _ => unreachable!(),
        }
    }

    /// The depth of the running function's frame.
    pub(crate) fn top(&self) -> u32
        requires laid { IsLaidOut self.now.frames }
        requires running { IsRunning self.now }
        ensures { result ≡ step.top (calls_in self.now.frames) }
    {
        self.frames.depth() - 1
    }

    /// Goes on with nothing at hand.
    pub(crate) fn idle(&mut self) -> Result<Outcome, Memory>
        ensures going { IfOk result (λ outcome. outcome ≡ outcomes.Going) }
        ensures put { OnOk result (Puts self.old [] hands.Idle self.new) }
    {
        self.hand = Hand::Idle;
        Ok(Outcome::Going)
    }

    /// Goes on with a value at hand.
    pub(crate) fn hold(&mut self, value: i32) -> Result<Outcome, Memory>
        ensures going { IfOk result (λ outcome. outcome ≡ outcomes.Going) }
        ensures put { OnOk result (Puts self.old [] (hands.Value value) self.new) }
    {
        self.hand = Hand::Value(value);
        Ok(Outcome::Going)
    }

    /// Goes on with this work, and nothing at hand.
    pub(crate) fn go(&mut self, work: Work<'a>) -> Result<Outcome, Memory>
        ensures going { IfOk result (λ outcome. outcome ≡ outcomes.Going) }
        ensures put { OnOk result (Puts self.old (work.entry ∷ []) hands.Idle self.new) }
    {
        self.hand = Hand::Idle;
        self.rest.push(work)?;
        Ok(Outcome::Going)
    }

    /// Goes on with this work and then the other, and nothing at hand.
    pub(crate) fn then(&mut self, first: Work<'a>, second: Work<'a>) -> Result<Outcome, Memory>
        ensures going { IfOk result (λ outcome. outcome ≡ outcomes.Going) }
        ensures put { OnOk result (Puts self.old (first.entry ∷ second.entry ∷ []) hands.Idle self.new) }
    {
        self.hand = Hand::Idle;
        self.rest.push(second)?;
        self.rest.push(first)?;
        Ok(Outcome::Going)
    }
}
