//! Guards of awaits.
ghost use Rattle.std.specs.Prelude.{◌≡◌, true, List};
ghost use Rattle.std.specs.List.{list_all};
ghost use Rattle.evaluation.specs.Values.{Data};
ghost use Rattle.steps.specs.Changes.{with_cells};
ghost use Rattle.steps.specs.Configurations.{call_at};
ghost use Rattle.steps.specs.Guards.{lets_pass};
ghost use Rattle.run.specs.Guarding.{call_guard, call_at_false_await, slot_passes};

use crate::run::Run;
use crate::run::evaluating::statement_at;
use evaluation::value::Value;
use evaluation::workspace::Workspace;
use run_state::state::RunState;
use syntax::nodes::Parts;
use syntax::statements::Statement;

/// Whether the value lets an await pass.
fn lets_pass(state: &RunState, value: Value) -> bool
    ensures passes { (cells : List Data) → result ≡ lets_pass (with_cells state.now cells) value }
{
    match value {
        Value::Bool(b) => b,
        Value::Future(future) => state.value_of(future).is_some(),
        _ => false,
    }
}

/// Whether the slot lets an await pass.
fn slot_passes(work: &Workspace<'_>, state: &RunState, slot: u16) -> bool
    ensures passes { result ≡ slot_passes work.now state.now slot }
{
    match work.find(0, slot) {
        Some(value) => lets_pass(state, value),
        None => false,
    }
}

/// Whether each slot lets an await pass.
fn all_pass(work: &Workspace<'_>, state: &RunState, slots: &[u16]) -> bool
    ensures passes { result ≡ list_all (λ slot. slot_passes work.now state.now slot) slots.now }
{
    for slot in slots {
        if !slot_passes(work, state, *slot) {
            return false;
        }
    }
    true
}

impl<'a> Run<'a> {
    /// Whether the guard of an await is true.
    pub(crate) fn guard(&mut self, number: u16, slots: Parts) -> bool
        ensures run { self.new ≡ self.old }
        ensures guard { result ≡ call_guard self.old.at slots (call_at self.old.at number) }
    {
        let Some(call) = self.state.call(number) else {
            return false;
        };
        let this = call.object;
        self.work
            .enter(call.slots.as_slice(), self.state.fields(this));
        all_pass(&self.work, &self.state, slots.as_slice())
    }

    /// Whether the call stands at an await whose guard is false.
    pub(crate) fn at_false_await(&mut self, number: u16) -> bool
        ensures run { self.new ≡ self.old }
        ensures at { result ≡ call_at_false_await self.old.model self.old.at (call_at self.old.at number) }
    {
        let Some(call) = self.state.call(number) else {
            return false;
        };
        let statement = call.statement;
        match statement_at(self.model.tables(), statement) {
            Some(Statement::Await { slots, .. }) => !self.guard(number, slots),
            _ => false,
        }
    }
}
