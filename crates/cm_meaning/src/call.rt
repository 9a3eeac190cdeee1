//! The steps of calls, and of their ends.
ghost use Rattle.std.specs.Prelude.{◌≡◌, IfOk, OnOk, IsSome, [], ◌∷◌, slice_get};
ghost use Rattle.cm_syntax.specs.Step as step;
ghost use Rattle.cm_meaning.specs.Layout.{IsLaidOut, calls_in};
ghost use Rattle.cm_meaning.specs.declared.work.Outcome.TheVariants as outcomes;
ghost use Rattle.cm_meaning.specs.declared.work.Hand.TheVariants as hands;
ghost use Rattle.cm_meaning.specs.declared.work.Work.TheVariants as works;
ghost use Rattle.cm_meaning.specs.Evaluator.{IsAtHand, IsReady, IsKept, IsRunning, Does, Steps, Puts, delivery, work_count};

use crate::ended::Trap;
use crate::evaluator::Evaluator;
use crate::reference::{Argument, Reference};
use crate::work::{Hand, Outcome, Purpose, Scalar, Work};
use cm_syntax::{Arg, Stmt};
use cm_text::Memory;

impl<'a> Evaluator<'a> {
    /// The arguments of a call, one after another. With all of them known the call is at hand; a spawn is a call whose
    /// value goes to its destination.
    pub(crate) fn arguments(
        &mut self,
        purpose: Purpose,
        function: u32,
        count: usize,
        more: &'a [Arg<u32>],
    ) -> Result<Outcome, Memory>
        requires { IsReady self.old (works.Arguments purpose function count more) }
        ensures { IfOk result (λ outcome. Does self.old (works.Arguments purpose function count more.entry) outcome self.new) }
    {
        let Some((argument, more)) = more.split_first() else {
            return self.enter(purpose, function, count);
        };
        let slice = match argument {
            Arg::Value(e) => {
                return self.then(
                    Work::Evaluate(e),
                    Work::Pass(purpose, function, count, more),
                );
            }
            Arg::Slice(a) => self.frames.row(a.name),
            Arg::Address(x) => Reference {
                depth: self.top(),
                slot: x.name,
                start: 0,
                length: 1,
            },
        };
        self.passed.push(Argument::Slice(slice))?;
        self.go(Work::Arguments(purpose, function, count.saturating_add(1), more))
    }

    /// The next argument is the value at hand.
    pub(crate) fn pass(
        &mut self,
        purpose: Purpose,
        function: u32,
        count: usize,
        more: &'a [Arg<u32>],
    ) -> Result<Outcome, Memory>
        requires { IsReady self.old (works.Pass purpose function count more) }
        ensures { IfOk result (λ outcome. Does self.old (works.Pass purpose function count more.entry) outcome self.new) }
    {
        let value = self.value();
        self.passed.push(Argument::Word(value))?;
        self.go(Work::Arguments(purpose, function, count.saturating_add(1), more))
    }

    /// All arguments are known: the call is at hand.
    fn enter(&mut self, purpose: Purpose, function: u32, count: usize) -> Result<Outcome, Memory>
        requires laid { IsLaidOut self.old.frames }
        requires running { IsRunning self.old }
        ensures going { IfOk result (λ outcome. outcome ≡ outcomes.Going) }
        ensures put { OnOk result (Puts self.old (delivery purpose (step.top (calls_in self.old.frames))) (hands.Entering function count) self.new) }
    {
        if let Purpose::Spawned(slot) = purpose {
            let depth = self.top();
            let destination = slot.map(|slot| Scalar { depth, slot });
            self.rest.push(Work::Deliver(destination))?;
        }
        self.hand = Hand::Entering(function, count);
        Ok(Outcome::Going)
    }

    /// A call behind its tick: it gets its frame where the account has the bytes, and else it traps.
    pub(crate) fn call(&mut self, index: u32, count: usize) -> Result<Outcome, Memory>
        requires ready { IsAtHand self.old }
        requires hand { self.old.hand ≡ hands.Framing index count }
        ensures { IfOk result (λ outcome. Steps self.old outcome self.new) }
    {
        let program = self.program;
        let function = &program.functions.items()[index as usize];
        let bytes = self.call_bytes(index);
        if self.account < bytes {
            return Ok(Outcome::Trapped(Trap::Stack));
        }
        self.account -= bytes;
        let known = self.passed.len().saturating_sub(count);
        self.frames.push(index, &self.passed[known..])?;
        self.passed.truncate(known);
        self.begin(function.body.items())
    }

    /// The work of a function whose frame is there.
    fn begin(&mut self, statements: &'a [Stmt<u32>]) -> Result<Outcome, Memory>
        ensures going { IfOk result (λ outcome. outcome ≡ outcomes.Going) }
        ensures put { OnOk result (Puts self.old (works.Body statements.entry ∷ works.Fall ∷ works.Join ∷ works.End ∷ []) hands.Idle self.new) }
    {
        self.hand = Hand::Idle;
        self.rest.push(Work::End)?;
        self.rest.push(Work::Join)?;
        self.rest.push(Work::Fall)?;
        self.rest.push(Work::Body(statements))?;
        Ok(Outcome::Going)
    }

    /// What a call of a function takes of the account: the bytes of its frame, and a page where it is marked `cilk`.
    fn call_bytes(&self, index: u32) -> u32
        requires kept { IsKept self.now }
        requires there { IsSome (slice_get self.now.program.now.functions index) }
        ensures { result ≡ step.call_bytes_in self.now.page (slice_get self.now.program.now.functions index) }
    {
        let bytes = self.frames.frame_bytes(index);
        if self.program.functions.items()[index as usize].cilk {
            bytes + self.page
        } else {
            bytes
        }
    }

    /// What a call came back with is a value of an expression.
    pub(crate) fn take_back(&mut self) -> Result<Outcome, Memory>
        requires { IsReady self.old works.TakeBack }
        ensures { IfOk result (λ outcome. Does self.old works.TakeBack outcome self.new) }
    {
        match self.hand {
            Hand::Returned(Some(value)) => self.hold(value),
            _ => unreachable!(),
        }
    }

    /// What a call came back with is dropped.
    pub(crate) fn discard(&mut self) -> Result<Outcome, Memory>
        requires { IsReady self.old works.Discard }
        ensures { IfOk result (λ outcome. Does self.old works.Discard outcome self.new) }
    {
        self.idle()
    }

    /// What a call came back with goes to the destination of its spawn, where there are both.
    pub(crate) fn deliver(&mut self, destination: Option<Scalar>) -> Result<Outcome, Memory>
        requires { IsReady self.old (works.Deliver destination) }
        ensures { IfOk result (λ outcome. Does self.old (works.Deliver destination) outcome self.new) }
    {
        if let Hand::Returned(Some(value)) = self.hand {
            if let Some(x) = destination {
                self.frames.set_word(x.depth, x.slot, 0, value);
            }
        }
        self.idle()
    }

    /// A completed `return` goes to the join of its function, with what is at hand.
    pub(crate) fn exit(&mut self) -> Result<Outcome, Memory>
        requires { IsReady self.old works.Exit }
        ensures { IfOk result (λ outcome. Does self.old works.Exit outcome self.new) }
    {
        while let Some(work) = self.rest.pop() {
            if let Work::Join = work {
                self.rest.push(work)?;
                return Ok(Outcome::Going);
            }
            let kept = self.passed.len().saturating_sub(work.count());
            self.passed.truncate(kept);
        }
        unreachable!()
    }

    /// A body falls off its end: an `int` function gives 0, a `void` one nothing.
    pub(crate) fn fall(&mut self) -> Result<Outcome, Memory>
        requires { IsReady self.old works.Fall }
        ensures { IfOk result (λ outcome. Does self.old works.Fall outcome self.new) }
    {
        let index = self.frames.function();
        if self.program.functions.items()[index as usize].gives {
            self.hold(0)
        } else {
            self.idle()
        }
    }

    /// A call ends: its frame goes, and the account has the bytes again.
    pub(crate) fn end(&mut self) -> Result<Outcome, Memory>
        requires { IsReady self.old works.End }
        ensures { IfOk result (λ outcome. Does self.old works.End outcome self.new) }
    {
        let index = self.frames.function();
        self.account += self.call_bytes(index);
        self.frames.pop();
        self.hand = match self.hand {
            Hand::Value(value) => Hand::Returned(Some(value)),
            _ => Hand::Returned(None),
        };
        Ok(Outcome::Going)
    }
}

impl Work<'_> {
    /// How many arguments it holds.
    fn count(&self) -> usize
        ensures { result ≡ work_count self.now }
    {
        match self {
            Work::Arguments(_, _, count, _) | Work::Pass(_, _, count, _) => *count,
            _ => 0,
        }
    }
}
