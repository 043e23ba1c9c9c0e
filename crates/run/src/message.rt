//! Messages: the object that is called, with the arguments.
ghost use Rattle.std.specs.Prelude.{◌≡◌, ◌≤◌, length};
ghost use Rattle.tables.specs.Layout.{content};
ghost use Rattle.evaluation.specs.Carried.{Evaluates};
ghost use Rattle.evaluation.specs.Refusals.{answered};
ghost use Rattle.steps.specs.Calling.{message, message_to};
ghost use Rattle.run.specs.Messages.{message_given, object_in};

use evaluation::evaluator::Evaluator;
use evaluation::refusal::EvaluationRefusal;
use evaluation::value::{Value, Values};
use evaluation::workspace::Workspace;

/// The object that a call goes to, and its arguments.
#[derive(Clone, Copy)]
pub struct Message {
    pub object: u16,
    pub arguments: Values,
}

/// The object that a value is, if it is one.
fn object_in(value: Value) -> Option<u16>
    ensures object { result ≡ object_in value }
{
    match value {
        Value::Object(object) => Some(object),
        _ => None,
    }
}

/// The message to an object.
fn message_to(
    evaluator: &Evaluator<'_>,
    work: &mut Workspace<'_>,
    object: u16,
    rows: &[u16],
) -> Result<Option<Message>, EvaluationRefusal>
    requires few { length rows.now ≤ 4 }
    ensures evaluates { Evaluates (content evaluator.now.t.now) evaluator.now.this (message_to object rows.now work.old.bindings) work.old (answered message_given result) work.new }
{
    match evaluator.evaluate_all(work, rows) {
        Ok(arguments) => Ok(Some(Message { object, arguments })),
        Err(refusal) => Err(refusal),
    }
}

/// The message of a call: its object, if that is not null, and then its arguments. A refusal leaves the cells as they were.
pub fn evaluate_message(
    evaluator: &Evaluator<'_>,
    work: &mut Workspace<'_>,
    object: Option<u16>,
    rows: &[u16],
) -> Result<Option<Message>, EvaluationRefusal>
    requires few { length rows.now ≤ 4 }
    ensures evaluates { Evaluates (content evaluator.now.t.now) evaluator.now.this (message evaluator.now.this object rows.now work.old.bindings) work.old (answered message_given result) work.new }
{
    let Some(row) = object else {
        return message_to(evaluator, work, evaluator.this, rows);
    };
    let cells = work.cells();
    let value = match evaluator.evaluate(work, row) {
        Ok(value) => value,
        Err(refusal) => return Err(refusal),
    };
    let Some(object) = object_in(value) else {
        return Ok(None);
    };
    match message_to(evaluator, work, object, rows) {
        Ok(message) => Ok(message),
        Err(refusal) => {
            work.cut_cells(cells);
            Err(refusal)
        }
    }
}
