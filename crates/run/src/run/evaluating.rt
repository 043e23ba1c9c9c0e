//! What expressions are worth where a call stands.
ghost use Rattle.std.specs.Prelude.{◌≡◌};
ghost use Rattle.tables.specs.Layout.{content};
ghost use Rattle.syntax.specs.Nodes.{parts};
ghost use Rattle.syntax.specs.Statements.{statement_of};
ghost use Rattle.evaluation.specs.Plans.{ask};
ghost use Rattle.evaluation.specs.Rules.{all_of};
ghost use Rattle.steps.specs.Calling.{message};
ghost use Rattle.steps.specs.Configurations.{call_environment, statement_at};
ghost use Rattle.run.specs.Choices.{Gives, values_given};
ghost use Rattle.run.specs.Messages.{message_answer};

use crate::message::{Message, evaluate_message};
use crate::run::Run;
use evaluation::evaluator::Evaluator;
use evaluation::value::{Value, Values};
use steps::refusal::Refusal;
use syntax::nodes::Parts;
use syntax::statements::Statement;
use tables::rows::StatementRow;
use tables::tables::Tables;

/// What the row says, if its kind is known.
fn statement_of(row: StatementRow) -> Option<Statement>
    ensures says { result ≡ statement_of row }
{
    Statement::try_from(row).ok()
}

/// The statement in a row.
pub fn statement_at(t: &Tables, row: u16) -> Option<Statement>
    ensures says { result ≡ statement_at (content t.now) row }
{
    let row = t.statements.get(row as usize).copied()?;
    statement_of(row)
}

impl<'a> Run<'a> {
    /// The value of an expression where the call stands.
    pub(crate) fn evaluate(&mut self, number: u16, row: u16) -> Result<Value, Refusal>
        ensures model { self.new.model ≡ self.old.model }
        ensures gives { Gives (λ c x. ask row (call_environment c x)) self.old number result self.new }
    {
        let Some(call) = self.state.call(number) else {
            return Err(Refusal::NoSuchCall);
        };
        let this = call.object;
        self.work
            .enter(call.slots.as_slice(), self.state.fields(this));
        let evaluator = Evaluator {
            t: self.model.tables(),
            this,
        };
        let value = evaluator.evaluate(&mut self.work, row)?;
        Ok(value)
    }

    /// The values of expressions where the call stands, one after another.
    pub(crate) fn evaluate_all(&mut self, number: u16, rows: Parts) -> Result<Values, Refusal>
        ensures model { self.new.model ≡ self.old.model }
        ensures gives { Gives (λ c x. all_of (parts rows) (call_environment c x)) self.old number (values_given result) self.new }
    {
        let Some(call) = self.state.call(number) else {
            return Err(Refusal::NoSuchCall);
        };
        let this = call.object;
        self.work
            .enter(call.slots.as_slice(), self.state.fields(this));
        let evaluator = Evaluator {
            t: self.model.tables(),
            this,
        };
        let values = evaluator.evaluate_all(&mut self.work, rows.as_slice())?;
        Ok(values)
    }

    /// The message of a call, where its maker stands.
    pub(crate) fn message(
        &mut self,
        number: u16,
        object: Option<u16>,
        rows: Parts,
    ) -> Result<Option<Message>, Refusal>
        ensures model { self.new.model ≡ self.old.model }
        ensures gives { Gives (λ c x. message x.object object (parts rows) (call_environment c x)) self.old number (message_answer result) self.new }
    {
        let Some(call) = self.state.call(number) else {
            return Err(Refusal::NoSuchCall);
        };
        let this = call.object;
        self.work
            .enter(call.slots.as_slice(), self.state.fields(this));
        let evaluator = Evaluator {
            t: self.model.tables(),
            this,
        };
        let message = evaluate_message(&evaluator, &mut self.work, object, rows.as_slice())?;
        Ok(message)
    }
}
