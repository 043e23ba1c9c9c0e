//! Reads many small models as text from standard input, and prints what the body of function 0 of each is worth.
//!
//! A blank line and a line that begins with `#` are passed over. Any other line is a case, `NAME: ITEMS`, with spaces between the
//! items: they spell the bytes of an input, as the crate `spelling` says. The body is evaluated in an empty environment, for object
//! 0, with all visits of a choice and no cell in use. What is printed of a case is a line
//!
//! - `NAME: WORTH visits V cells C`: the body has this worth, made V visits and left C cells in use. A worth is `unit`, `false`,
//!   `true`, a number, `null`, `object N` and `future N` with their numbers, `data row N` with the constructor's row (data without
//!   parts), or `cell N` (data with parts);
//! - `NAME: refused NUMBER visits V cells C`: the evaluation is refused by this number;
//! - `NAME: no function`: the model has no function;
//! - `NAME: not accepted`: the model breaks a rule;
//! - `NAME: not a case`: the line is not of this form.
#![tactic(auto)]

ghost use Rattle.std.specs.Prelude.{IfOk};
ghost use Rattle.tables.specs.Layout.{content};
ghost use Rattle.worths.specs.Worths.{IsEvaluationOf, IsAnswerOf, KeepsType, HasItsType};

mod answer;

use answer::{Answer, Evaluation};
use anyhow::anyhow;
use evaluation::cells::Cells;
use evaluation::evaluator::Evaluator;
use evaluation::value::Value;
use evaluation::workspace::{BINDINGS, UNBOUND, Workspace};
use loading::accepted::AcceptedModel;
use loading::load::{LoadError, load_input};
use mapping::mapping::Binding;
use model::input::Input;
use spelling::text::{SpellError, spelled};
use std::alloc::Global;
use std::io::{BufRead, BufReader};
use tables::tables::Tables;

/// What the node in this row is worth, where nothing is bound.
fn evaluation_of(
    heap: Global,
    memory: &mut [Binding<Value>],
    t: &Tables,
    row: u16,
) -> anyhow::Result<Evaluation>
    ensures evaluation { IfOk result (IsEvaluationOf (content t.now) row) }
    ensures keeps_type { IfOk result (λ e. KeepsType (content t.now) row e.worth) }
{
    let cells = Cells::new(heap)?;
    let Ok(mut work) = Workspace::new(memory, cells) else {
        return Err(anyhow!("too few bindings for the visits of a choice"));
    };
    work.enter(&[], &[]);
    let all = work.left();
    let worth = Evaluator { t, this: 0 }.evaluate(&mut work, row);
    Ok(Evaluation {
        worth,
        visits: all.saturating_sub(work.left()),
        cells: work.cells(),
    })
}

/// What is printed of an accepted model.
fn answer_of(
    heap: Global,
    memory: &mut [Binding<Value>],
    model: &AcceptedModel,
) -> anyhow::Result<Answer>
    ensures answer { IfOk result (IsAnswerOf (content model.now.model.tables)) }
    ensures has_its_type { IfOk result (HasItsType (content model.now.model.tables)) }
{
    let t = model.tables();
    match t.functions.first().copied() {
        Some(function) => {
            let evaluation = evaluation_of(heap, memory, t, function.body)?;
            Ok(Answer::Evaluated(evaluation))
        }
        None => Ok(Answer::NoFunction),
    }
}

/// What is printed of an input of these bytes.
fn answer_to_input(
    heap: Global,
    memory: &mut [Binding<Value>],
    bytes: &[u8],
) -> anyhow::Result<Answer> {
    let mut input = Input::new(heap)?;
    input.absorb(bytes)?;
    match load_input(heap, input) {
        Ok(model) => answer_of(heap, memory, &model),
        Err(LoadError::Refused(_)) => Ok(Answer::NotAccepted),
        Err(LoadError::NoMemory) => Err(anyhow!("no memory for the model")),
    }
}

/// What is printed of the input that the items spell.
fn answer_to(heap: Global, memory: &mut [Binding<Value>], items: &str) -> anyhow::Result<Answer> {
    match spelled(heap, items) {
        Ok(bytes) => answer_to_input(heap, memory, bytes.as_slice()),
        Err(SpellError::NotAnItem) => Ok(Answer::NotACase),
        Err(SpellError::NoMemory) => Err(anyhow!("no memory for the bytes of a case")),
    }
}

/// Prints the answer to the case in this line, if there is a case in it.
fn print_answer(rt: &HostRuntime, memory: &mut [Binding<Value>], line: &str) -> anyhow::Result<()> {
    if line.is_empty() || line.starts_with('#') {
        return Ok(());
    }
    let (name, answer) = match line.split_once(':') {
        Some((name, items)) => (name, answer_to(rt.alloc(), memory, items)?),
        None => (line, Answer::NotACase),
    };
    println!(rt; "{name}: {answer}")?;
    Ok(())
}

fn run(rt: &HostRuntime) -> anyhow::Result<()> {
    let mut memory = vec![in rt.alloc(); UNBOUND; BINDINGS]?;
    for line in BufReader::new(rt.alloc(), rt.stdin())?.lines(rt.alloc()) {
        print_answer(rt, memory.as_mut_slice(), line?.trim())?;
    }
    Ok(())
}

fn main(rt: HostRuntime) -> anyhow::Result<()> {
    run(&rt)
}
