//! Making cells, reading them, and cutting back to earlier ones.
ghost use Rattle.std.specs.Prelude.{◌≡◌, [], length, take, option_copied, IfOk};
ghost use Rattle.std.specs.List.{slice_get};
ghost use Rattle.std.specs.Option.{option_map};
ghost use Rattle.evaluation.specs.Values.{HasParts, data_of};
ghost use Rattle.evaluation.specs.Stores.{held, next_cell, with_cell};

use crate::cells::Cells;
use crate::refusal::EvaluationRefusal;
use crate::value::Cell;
use std::alloc::{AllocError, Global};

/// How many cells a run has.
const MOST: usize = 256;

#[tactic(auto, unfolding(crate::specs::Stores::held))]
impl Cells {
    /// No cell is in use.
    pub fn new(heap: Global) -> Result<Cells, AllocError>
        ensures empty { IfOk result (λ s. held s ≡ []) }
    {
        Ok(Cells {
            cells: Vec::with_capacity(heap, MOST)?,
        })
    }

    /// How many cells are in use.
    pub fn length(&self) -> usize
        ensures length { result ≡ length (held self.now) }
    {
        self.cells.len()
    }

    /// What the cell holds, if it is in use.
    pub fn read(&self, number: u16) -> Option<Cell>
        ensures held { option_map data_of result ≡ slice_get (held self.now) number }
    {
        self.lend(number).copied()
    }

    /// The same, without a copy.
    pub(crate) fn lend(&self, number: u16) -> Option<&Cell>
        ensures held { option_map data_of (option_copied result) ≡ slice_get (held self.now) number }
    {
        self.cells.get(number as usize)
    }

    /// A new cell, and its number; where all are in use, nothing changes.
    pub(crate) fn make(&mut self, cell: Cell) -> Result<u16, EvaluationRefusal>
        requires parts { HasParts (data_of cell) }
        ensures number { result ≡ next_cell (held self.old) }
        ensures made { held self.new ≡ with_cell (held self.old) (data_of cell) }
    {
        let number = self.cells.len();
        if number >= MOST {
            return Err(EvaluationRefusal::NoCell);
        }
        self.cells.push_reserved(cell);
        Ok(number as u16)
    }

    /// Cuts back to the first `earlier` cells.
    pub fn cut(&mut self, earlier: usize)
        ensures earlier { held self.new ≡ take earlier (held self.old) }
    {
        self.cells.truncate(earlier);
    }
}
