//! A whole run: opened, with all choices made, and closed.
ghost use Rattle.std.specs.Prelude.{◌≡◌, None};
ghost use Rattle.tables.specs.Layout.{content};
ghost use Rattle.run.specs.Playing.{Plays};

use crate::memory::Memory;
use crate::run::Run;
use crate::run::opening::{Account, OpeningError};
use loading::accepted::AcceptedModel;
use outside::outside::Outside;
use std::alloc::Global;
use steps::refusal::{OpeningRefusal, Refusal};

/// The answer to each choice of a whole run, and the account.
#[derive(Drop)]
pub struct Playing {
    pub answers: Vec<Result<u16, Refusal>>,
    pub account: Account,
}

/// Opens a model over an outside in which nothing waits, makes all choices in turn, and closes the run.
fn play_over_empty<O: Outside>(
    heap: Global,
    model: &AcceptedModel,
    outside: &mut O,
    choices: &[u16],
) -> Result<Playing, OpeningError>
    requires nothing_waits { O.upcoming outside.old ≡ None }
    ensures plays { Plays O.Outside (content model.now.model.tables) outside.old choices.now result outside.new }
{
    // all that may lack memory comes first, since a slip has to be given back
    let mut memory = Memory::new(heap)?;
    let mut answers = Vec::with_capacity(heap, choices.len())?;
    let (mut run, slip) = Run::open(heap, model, &mut memory, outside)?;
    for choice in choices {
        answers.push_reserved(run.choose(outside, *choice));
    }
    let account = run.close(slip, outside);
    Ok(Playing { answers, account })
}

/// Opens a model over an outside, makes all choices in turn, whether they are refused or not, and closes the run.
pub fn play<O: Outside>(
    heap: Global,
    model: &AcceptedModel,
    outside: &mut O,
    choices: &[u16],
) -> Result<Playing, OpeningError>
    ensures plays { Plays O.Outside (content model.now.model.tables) outside.old choices.now result outside.new }
{
    if outside.next().is_some() {
        return Err(OpeningError::Refused(OpeningRefusal::CallsWait));
    }
    play_over_empty(heap, model, outside, choices)
}
