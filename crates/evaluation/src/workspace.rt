//! What the evaluator works with.
ghost use Rattle.std.specs.Prelude.{◌+◌, ◌*◌, ◌≤◌, length};
ghost use Rattle.mapping.specs.Bindings.{bound, capacity};
ghost use Rattle.evaluation.specs.Carried.{Work};
ghost use Rattle.evaluation.specs.Stores.{held};

use crate::cells::Cells;
use crate::value::Value;
use mapping::mapping::{Binding, Mapping};
use std::marker::Model;

pub mod spending;

/// For how many bindings a choice needs memory: four for each visit, and the sixteen of a statement's environment.
pub const BINDINGS: usize = 40_016;

/// What memory for bindings holds where nothing is bound.
pub const UNBOUND: Binding<Value> = Binding {
    slot: 0,
    entry: Value::Unit,
};

/// The bindings of all activations, over lent memory; the cells of the run; and how many visits are left. A run keeps one from choice
/// to choice.
#[derive(Drop)]
pub struct Workspace<'a> {
    mapping: Mapping<'a, Value>,
    cells: Cells,
    left: usize,
}

/// A visit binds four slots at most: the arguments of a call, or, with the visit of what a case examines, the eight slots that a
/// pattern may bind. So there is memory for all that the visits left may bind, and for all that any choice may bind.
impl<'a> Model for Workspace<'a> {
    ghost Value = { Work };

    ghost view = { λ w. record { bindings = bound w.mapping; state = record { left = w.left; cells = held w.cells }; capacity = capacity w.mapping } };

    ghost invariant = { λ w. (length (bound w.mapping) + 4 * w.left ≤ capacity w.mapping) × (40016 ≤ capacity w.mapping) };
}
