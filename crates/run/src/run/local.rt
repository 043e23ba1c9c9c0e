//! The rules of statements in which no other call and no new object takes part, and of a call's other moves.
ghost use Rattle.std.specs.Prelude.{◌≡◌, false};
ghost use Rattle.steps.specs.Configurations.{call_at};
ghost use Rattle.steps.specs.Local.{assign_step, await_step, branch_step, get_step};
ghost use Rattle.steps.specs.Outcomes.{Observation, silent};
ghost use Rattle.steps.specs.Returning.{return_step, store_step};
ghost use Rattle.steps.specs.Rules as rule;
ghost use Rattle.run_state.specs.Consistent.{is_ended_at};
ghost use Rattle.run.specs.Choices.{Stands};
ghost use Rattle.run.specs.Rules.{activation};

use crate::run::Run;
use crate::run::evaluating::statement_at;
use evaluation::value::Value;
use steps::refusal::Refusal;
use steps::state::CallState;
use syntax::nodes::Parts;
use syntax::statements::Statement;

impl<'a> Run<'a> {
    /// Skip: the call goes on.
    pub(crate) fn skip(&mut self, number: u16, next: u16) -> Result<(), Refusal>
        ensures model { self.new.model ≡ self.old.model }
        ensures stands { Stands (λ m c n x. silent (rule.skip c n x next)) self.old number result self.new }
    {
        if self.state.call(number).is_none() {
            return Err(Refusal::NoSuchCall);
        }
        self.set_statement(number, next);
        Ok(())
    }

    /// The call goes on at one statement where the test is True, else at the other.
    pub(crate) fn branch(
        &mut self,
        number: u16,
        test: u16,
        next: u16,
        other: u16,
    ) -> Result<(), Refusal>
        ensures model { self.new.model ≡ self.old.model }
        ensures stands { Stands (λ m c n x. branch_step m c n x test next other) self.old number result self.new }
    {
        let test = self.evaluate(number, test)?;
        self.set_statement(number, if test.truth() { next } else { other });
        Ok(())
    }

    /// The call is queued at the next statement.
    pub(crate) fn suspend(&mut self, number: u16, next: u16) -> Result<(), Refusal>
        requires runs { is_ended_at (call_at self.old.at number) ≡ false }
        ensures model { self.new.model ≡ self.old.model }
        ensures stands { Stands (λ m c n x. silent (rule.suspend c n x next)) self.old number result self.new }
    {
        let Some(_call) = self.state.call(number) else {
            return Err(Refusal::NoSuchCall);
        };
        self.set_state(number, CallState::Queued);
        self.set_statement(number, next);
        Ok(())
    }

    /// The call reaches its object's queue.
    pub(crate) fn bind(&mut self, number: u16) -> Result<(), Refusal>
        requires runs { is_ended_at (call_at self.old.at number) ≡ false }
        ensures model { self.new.model ≡ self.old.model }
        ensures stands { Stands (λ m c n x. silent (rule.bind c n x)) self.old number result self.new }
    {
        if self.state.call(number).is_none() {
            return Err(Refusal::NoSuchCall);
        }
        self.set_state(number, CallState::Queued);
        Ok(())
    }

    /// The target takes the value of an expression.
    pub(crate) fn assign(
        &mut self,
        number: u16,
        target: Option<u16>,
        value: u16,
        next: u16,
    ) -> Result<(), Refusal>
        ensures model { self.new.model ≡ self.old.model }
        ensures stands { Stands (λ m c n x. assign_step m c n x target value next) self.old number result self.new }
    {
        let value = self.evaluate(number, value)?;
        self.store(number, target, value, next);
        Ok(())
    }

    /// The target takes the value of a future.
    pub(crate) fn get(
        &mut self,
        number: u16,
        target: Option<u16>,
        future: u16,
        next: u16,
    ) -> Result<(), Refusal>
        ensures model { self.new.model ≡ self.old.model }
        ensures stands { Stands (λ m c n x. get_step m c n x target future next) self.old number result self.new }
    {
        let Value::Future(future) = self.evaluate(number, future)? else {
            return Err(Refusal::NullFuture);
        };
        let Some(value) = self.state.value_of(future) else {
            return Err(Refusal::Unresolved);
        };
        self.store(number, target, value, next);
        Ok(())
    }

    /// The call returns, and its caller goes on, if it has one.
    pub(crate) fn return_value(&mut self, number: u16, value: u16) -> Result<(), Refusal>
        requires runs { is_ended_at (call_at self.old.at number) ≡ false }
        ensures model { self.new.model ≡ self.old.model }
        ensures stands { Stands (λ m c n x. return_step m c n x value) self.old number result self.new }
    {
        let answer = self.evaluate(number, value)?;
        let Some(call) = self.state.call(number) else {
            return Err(Refusal::NoSuchCall);
        };
        let caller = call.caller;
        self.end_call(number, answer, false);
        self.resume(number, caller);
        Ok(())
    }

    /// The result of a synchronous call is stored.
    pub(crate) fn store_result(&mut self, number: u16, callee: u16) -> Result<(), Refusal>
        requires runs { is_ended_at (call_at self.old.at number) ≡ false }
        ensures model { self.new.model ≡ self.old.model }
        ensures stands { Stands (λ m c n x. store_step m c n x callee) self.old number result self.new }
    {
        let Some(call) = self.state.call(number) else {
            return Err(Refusal::NoSuchCall);
        };
        let statement = call.statement;
        let Some(value) = self.state.value_of(callee) else {
            return Err(Refusal::Unresolved);
        };
        let Some(Statement::Call { target, next, .. }) = statement_at(
            self.model.tables(),
            statement,
        ) else {
            return Err(Refusal::NoSuchCall);
        };
        self.set_state(number, CallState::Active(None));
        self.store(number, target, value, next);
        Ok(())
    }

    /// A queued call becomes active.
    pub(crate) fn activate(&mut self, number: u16) -> Result<(), Refusal>
        requires runs { is_ended_at (call_at self.old.at number) ≡ false }
        ensures model { self.new.model ≡ self.old.model }
        ensures stands { (seen : Observation) → Stands (activation seen) self.old number result self.new }
    {
        let Some(call) = self.state.call(number) else {
            return Err(Refusal::NoSuchCall);
        };
        let this = call.object;
        if self.state.is_busy(self.state.group_of(this)) {
            return Err(Refusal::GroupBusy);
        }
        if self.at_false_await(number) {
            return Err(Refusal::FalseGuard);
        }
        self.set_state(number, CallState::Active(None));
        Ok(())
    }

    /// The call goes on if its guard is true, else it is queued where it stands.
    pub(crate) fn await_slots(
        &mut self,
        number: u16,
        slots: Parts,
        next: u16,
    ) -> Result<(), Refusal>
        requires runs { is_ended_at (call_at self.old.at number) ≡ false }
        ensures model { self.new.model ≡ self.old.model }
        ensures stands { Stands (λ m c n x. await_step m c n x slots next) self.old number result self.new }
    {
        if self.state.call(number).is_none() {
            return Err(Refusal::NoSuchCall);
        }
        if self.guard(number, slots) {
            self.set_statement(number, next);
        } else {
            self.set_state(number, CallState::Queued);
        }
        Ok(())
    }
}
