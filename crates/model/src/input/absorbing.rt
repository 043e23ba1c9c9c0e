//! Taking in an input piece by piece, and the model that it begins with.
ghost use Rattle.std.specs.Prelude.{◌≡◌, ℕ, ◌+◌, ◌^◌, ◌≤◌, List, [], ◌++◌, length, is_ok, IfOk, slice_index};
ghost use Rattle.tables.specs.Layout.{stated_length};
ghost use Rattle.model.specs.Input.{Keeps, Absorbs, GivesModel, GivesBehind, model_in};

use crate::input::Input;
use std::alloc::{AllocError, Global};
use tables::place::{Fault, TableRule};
use tables::read::header_fault;

/// The bytes that are kept: those of the largest model, whose tables are all at their limits, which are 43,477, and of what
/// follows it one more than the longest schedule has, so that a longer one shows.
const KEPT: usize = 51_675;

/// How many of these follow the largest model.
const KEPT_BEHIND: usize = 8_198;

fn byte(bytes: &[u8], at: usize) -> u8
    ensures byte { result ≡ slice_index bytes.now at }
{
    bytes.get(at).copied().unwrap_or(0)
}

fn stated_length(bytes: &[u8]) -> usize
    ensures stated { result ≡ stated_length bytes.now }
    ensures bound { result ≤ 2 ^ 32 }
{
    let at = [
        byte(bytes, 0),
        byte(bytes, 1),
        byte(bytes, 2),
        byte(bytes, 3),
    ];
    u32::from_be_bytes(at) as usize
}

impl Input {
    /// The empty input.
    pub fn new(heap: Global) -> Result<Input, AllocError>
        ensures empty { IfOk result (λ i. Keeps i []) }
    {
        Ok(Input {
            kept: Vec::with_capacity(heap, KEPT)?,
            total: 0,
        })
    }

    /// One piece more of the input; where memory lacks, nothing changes.
    pub fn absorb(&mut self, piece: &[u8]) -> Result<(), AllocError>
        ensures absorbs { Absorbs self.old piece.now result self.new }
    {
        let room = KEPT - self.kept.len();
        self.kept
            .extend_from_slice(&piece[0..room.min(piece.len())])?;
        self.total = self.total.saturating_add(piece.len());
        Ok(())
    }

    /// The bytes of the model that the input begins with, or the fault of a model of which not all bytes are there or kept.
    pub fn model(self) -> Result<Vec<u8>, Fault<TableRule>>
        ensures model { (input : List ℕ) → Keeps self input → GivesModel (model_in input) result }
    {
        let mut kept = self.kept;
        let end = stated_length(kept.as_slice()) + 4;
        if end > self.total {
            return Err(header_fault(TableRule::Length));
        }
        if end <= kept.len() {
            kept.truncate(end);
            return Ok(kept);
        }
        // all of it is there, and it is longer than all that is kept
        if byte(kept.as_slice(), 4) != 1 {
            return Err(header_fault(TableRule::Length));
        }
        Err(header_fault(TableRule::Counts))
    }

    /// The bytes behind the model, or so many of them that more is no schedule: where the model breaks no rule of the tables.
    pub fn behind(&self) -> &[u8]
        ensures behind { (input : List ℕ) → Keeps self.now input → GivesBehind input result.now }
    {
        let kept = self.kept.as_slice();
        let end = kept.len().min(stated_length(kept) + 4);
        let rest = &kept[end..];
        &rest[0..rest.len().min(KEPT_BEHIND)]
    }
}
