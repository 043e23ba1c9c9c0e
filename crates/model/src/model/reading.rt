//! Reading a model: a check on the bytes, which may refuse, and then the move, which cannot.
ghost use Rattle.std.specs.Prelude.{◌≡◌, IfOk, Ok};
ghost use Rattle.tables.specs.Layout.{content};
ghost use Rattle.tables.specs.Limits.{IsWithinLimits};
ghost use Rattle.model.specs.Reading.{Checks, JudgesBytes, ReadsModel, table_faults};
ghost use Rattle.model.specs.Rules.{NoPlaceBreaks};

use crate::model::ReadModel;
use std::alloc::{AllocError, Global};
use tables::place::{Fault, TableRule};
use tables::read::ReadError;
use tables::tables::Tables;

/// The first fault of the tables, rule by rule.
fn first_fault(heap: Global, t: &Tables) -> Result<Option<Fault<TableRule>>, AllocError>
    ensures first { IfOk result (λ v. v ≡ table_faults (content t.now)) }
{
    // not `or_else`: two of the checks may lack memory
    if let Some(missing) = range::first_fault(t) {
        return Ok(Some(missing));
    }
    if let Some(misplaced) = placement::first_fault(heap, t)? {
        return Ok(Some(misplaced));
    }
    if let Some(misshapen) = shape::shape::first_fault(heap, t)? {
        return Ok(Some(misshapen));
    }
    Ok(shape::methods::first_fault(t))
}

/// The tables that the bytes spell, if they keep every rule of the format.
pub fn check(heap: Global, bytes: &[u8]) -> Result<Tables, ReadError>
    ensures checked { Checks bytes.now result }
    ensures least { JudgesBytes bytes.now result }
{
    let tables = Tables::read(heap, bytes)?;
    let found = first_fault(heap, &tables)?;
    match found {
        Some(fault) => Err(ReadError::Refused(fault)),
        None => Ok(tables),
    }
}

impl ReadModel {
    /// The bytes as a read model: for tables that the check of these bytes gave.
    pub fn new(bytes: Vec<u8>, tables: Tables) -> ReadModel
        requires checked { Checks bytes.items (Ok tables) }
        ensures bytes { result.bytes ≡ bytes }
        ensures tables { result.tables ≡ tables }
    {
        ReadModel { bytes, tables }
    }

    /// The model that the bytes spell, or why there is none.
    pub fn read(heap: Global, bytes: Vec<u8>) -> Result<ReadModel, ReadError>
        ensures read { ReadsModel bytes result }
        ensures least { JudgesBytes bytes.items result }
    {
        let tables = check(heap, bytes.as_slice())?;
        Ok(ReadModel::new(bytes, tables))
    }

    /// The bytes that were read.
    pub fn bytes(&self) -> &[u8]
        ensures bytes { result.now ≡ self.now.bytes.items }
    {
        self.bytes.as_slice()
    }

    /// The tables that the bytes spell. No place of them breaks a rule, and they keep their limits.
    pub fn tables(&self) -> &Tables
        ensures tables { result.now ≡ self.now.tables }
        ensures kept { NoPlaceBreaks (content result.now) }
        ensures limits { IsWithinLimits (content result.now) }
    {
        &self.tables
    }
}
