//! Reads a model from standard input, evaluates the body of its function 0 a thousand times, and prints what that came to and how
//! many visits one evaluation made. It is there to be timed.
#![tactic(auto)]

use anyhow::anyhow;
use evaluation::cells::Cells;
use evaluation::evaluator::Evaluator;
use evaluation::refusal::EvaluationRefusal;
use evaluation::value::Value;
use evaluation::workspace::{BINDINGS, UNBOUND, Workspace};
use loading::load::{LoadError, load_input};
use model::input::Input;
use std::io::Read;
use tables::tables::Tables;

/// How often the body is evaluated.
const EVALUATIONS: usize = 1000;

/// What an evaluation came to, and how many visits it made.
#[derive(Drop)]
struct Outcome {
    worth: Result<Value, EvaluationRefusal>,
    visits: usize,
}

/// Takes in all of standard input.
fn take_in(rt: &HostRuntime, input: &mut Input) -> anyhow::Result<()> {
    let mut buffer = vec![in rt.alloc(); 0u8; 16384]?;
    let mut stdin = rt.stdin();
    // a loop to the end of the input needs a bound, since every loop is proved to end
    for _ in 0..u64::MAX {
        let count = stdin.read(buffer.as_mut_slice())?;
        if count == 0 {
            break;
        }
        input.absorb(&buffer[0..count])?;
    }
    Ok(())
}

/// Evaluates the node in this row with all visits of a choice, where nothing is bound and no cell is in use.
fn evaluated(tables: &Tables, row: u16, work: &mut Workspace<'_>) -> Outcome {
    work.cut_cells(0);
    work.enter(&[], &[]);
    let before = work.left();
    let worth = Evaluator { t: tables, this: 0 }.evaluate(work, row);
    let visits = before.saturating_sub(work.left());
    Outcome { worth, visits }
}

/// The outcome of the last of all evaluations.
fn last_outcome(rt: &HostRuntime, tables: &Tables, row: u16) -> anyhow::Result<Option<Outcome>> {
    let mut memory = vec![in rt.alloc(); UNBOUND; BINDINGS]?;
    let cells = Cells::new(rt.alloc())?;
    let Ok(mut work) = Workspace::new(memory.as_mut_slice(), cells) else {
        return Ok(None);
    };
    let mut last = None;
    for _ in 0..EVALUATIONS {
        last = Some(evaluated(tables, row, &mut work));
    }
    Ok(last)
}

fn timed(rt: &HostRuntime, tables: &Tables) -> anyhow::Result<()> {
    let Some(function) = tables.functions.first() else {
        return Err(anyhow!("the model has no function"));
    };
    let Some(outcome) = last_outcome(rt, tables, function.body)? else {
        return Err(anyhow!("no memory for the bindings"));
    };
    match outcome.worth {
        Ok(worth) => println!(rt; "{worth:?} visits {}", outcome.visits)?,
        Err(refusal) => println!(rt; "refused {} visits {}", refusal.number(), outcome.visits)?,
    }
    Ok(())
}

fn main(rt: HostRuntime) -> anyhow::Result<()> {
    let mut input = Input::new(rt.alloc())?;
    take_in(&rt, &mut input)?;
    match load_input(rt.alloc(), input) {
        Ok(model) => timed(&rt, model.tables()),
        Err(LoadError::Refused(fault)) => Err(anyhow!("the model is refused {fault}")),
        Err(LoadError::NoMemory) => Err(anyhow!("no memory for the model")),
    }
}
