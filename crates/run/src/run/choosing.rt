//! Making a choice.
ghost use Rattle.std.specs.Prelude.{◌≡◌, false};
ghost use Rattle.steps.specs.Configurations.{call_at};
ghost use Rattle.steps.specs.Observing.{observation};
ghost use Rattle.steps.specs.Steps.{move_step};
ghost use Rattle.run_state.specs.Consistent.{is_ended_at};
ghost use Rattle.run.specs.Choices.{Advances, AdvancesAs};
ghost use Rattle.run.specs.Rules.{performance};
ghost use Rattle.run.specs.Runs.{Chooses, IsSound};

use crate::run::Run;
use crate::run::evaluating::statement_at;
use outside::outside::Outside;
use steps::refusal::Refusal;
use steps::state::CallState;
use syntax::statements::Statement;

impl<'a> Run<'a> {
    /// An active call performs its statement. A refusal may leave cells behind the earlier ones.
    fn perform<O: Outside>(&mut self, outside: &mut O, number: u16) -> Result<(), Refusal>
        requires runs { is_ended_at (call_at self.old.at number) ≡ false }
        ensures model { self.new.model ≡ self.old.model }
        ensures advances { Advances O.Outside performance self.old outside.old number result self.new outside.new }
    {
        let Some(call) = self.state.call(number) else {
            return Err(Refusal::NoSuchCall);
        };
        let row = call.statement;
        let Some(statement) = statement_at(self.model.tables(), row) else {
            return Err(Refusal::NoSuchCall);
        };
        match statement {
            Statement::Skip { next } => self.skip(number, next),
            Statement::Assign {
                target,
                value,
                next,
            } => self.assign(number, target, value, next),
            Statement::Branch { test, next, other } => self.branch(number, test, next, other),
            Statement::Suspend { next } => self.suspend(number, next),
            Statement::Await { slots, next } => self.await_slots(number, slots, next),
            Statement::Get {
                target,
                future,
                next,
            } => self.get(number, target, future, next),
            Statement::New {
                target,
                creation,
                next,
            } => self.create(number, target, creation, next),
            Statement::Call { target, call, next } => self.call(
                outside, number, target, call, next,
            ),
            Statement::Return { value } => self.return_value(number, value),
        }
    }

    /// The call moves. A refusal may leave cells behind the earlier ones.
    fn move_call<O: Outside>(&mut self, outside: &mut O, number: u16) -> Result<(), Refusal>
        ensures model { self.new.model ≡ self.old.model }
        ensures advances { AdvancesAs O.Outside (move_step self.old.model self.old.at (observation O.Outside outside.old) number (call_at self.old.at number)) self.old.at outside.old result self.new.at outside.new }
    {
        let Some(call) = self.state.call(number) else {
            return Err(Refusal::NoSuchCall);
        };
        match call.state {
            CallState::Sent => self.bind(number),
            CallState::Queued => self.activate(number),
            CallState::Active(None) => self.perform(outside, number),
            CallState::Active(Some(callee)) => self.store_result(number, callee),
            CallState::Calling(_) => Err(Refusal::Calling),
            CallState::Ended | CallState::Outside => Err(Refusal::Finished),
        }
    }

    /// Makes a choice.
    fn make_choice<O: Outside>(&mut self, outside: &mut O, choice: u16) -> Result<u16, Refusal>
        ensures model { self.new.model ≡ self.old.model }
        ensures chosen { Chooses O.Outside self.old outside.old choice result self.new outside.new }
    {
        if choice == 0 {
            return self.reply(outside);
        }
        let cells = self.work.cells();
        match self.move_call(outside, choice) {
            Ok(()) => Ok(choice),
            Err(refusal) => {
                self.work.cut_cells(cells);
                Err(refusal)
            }
        }
    }

    /// Makes a choice: 0 delivers the reply that comes next, and any other number moves that call. The answer is the call that moved or
    /// was answered. A refused choice leaves the run and the outside as they were. A run that is sound over its outside stays so.
    pub fn choose<O: Outside>(&mut self, outside: &mut O, choice: u16) -> Result<u16, Refusal>
        ensures model { self.new.model ≡ self.old.model }
        ensures chosen { Chooses O.Outside self.old outside.old choice result self.new outside.new }
        ensures sound { IsSound O.Outside self.old outside.old → IsSound O.Outside self.new outside.new }
    {
        self.make_choice(outside, choice)
    }
}
