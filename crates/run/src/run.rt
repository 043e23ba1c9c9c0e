//! A run of an accepted model.

use evaluation::workspace::Workspace;
use loading::accepted::AcceptedModel;
use run_state::state::RunState;
use std::marker::Model;

pub mod calling;
pub mod changing;
pub mod choosing;
pub mod creating;
pub mod evaluating;
pub mod guarding;
pub mod local;
pub mod opening;
pub mod replying;

/// A run of a model that it borrows: where its calls and objects stand, and the workspace, which holds its cells.
#[derive(Drop)]
pub struct Run<'a> {
    model: &'a AcceptedModel,
    state: RunState,
    work: Workspace<'a>,
}

impl<'a> Model for Run<'a> {
    ghost use Rattle.run.specs.Runs.{RunView};

    ghost Value = { RunView };

    ghost use Rattle.run.specs.Views.{run_seen};

    ghost view = { run_seen };
}
