//! The cells of a run.
ghost use Rattle.std.specs.Prelude.{◌≤◌, vec_capacity, vec_len};

use crate::value::Cell;

pub mod holding;

/// The data with parts that a run made: 256 cells for the whole run, of which the memory is reserved.
#[derive(Drop)]
pub struct Cells {
    cells: Vec<Cell>,
    ghost reserved: { 256 ≤ vec_capacity cells },
    ghost few: { vec_len cells ≤ 256 },
}
