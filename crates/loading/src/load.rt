//! Loading a model: from bytes to an accepted model, or why there is none.
ghost use Rattle.std.specs.Prelude.{◌≡◌, ℕ, List, Some, IfOk};
ghost use Rattle.tables.specs.Texts.{fault_text};
ghost use Rattle.model.specs.Input.{Keeps, model_in};
ghost use Rattle.loading.specs.declared.load.LoadFault.TheVariants.{Reading, Typing};
ghost use Rattle.loading.specs.Errors.{after_reading, after_typing};
ghost use Rattle.loading.specs.Loading.{Loads, JudgesModel, model_number, whole_fault, fault_number};

use crate::accepted::AcceptedModel;
use crate::accepted::accepting::{TypingError, check_types};
use model::input::Input;
use model::model::ReadModel;
use std::alloc::Global;
use std::fmt;
use tables::place::{Fault, Rule, Table, TableRule};
use tables::read::ReadError;
use typing::rule::TypingRule;

/// The fault of a model that is not accepted: that of reading or that of typing, whole.
#[derive(Clone, Copy)]
pub enum LoadFault {
    Reading(Fault<TableRule>),
    Typing(Fault<TypingRule>),
}

impl LoadFault {
    /// The number of the rule that is broken.
    // `number` and no conversion to `u8`, which would not say which number it is
    pub fn number(self) -> u8
        ensures number { result ≡ fault_number self }
    {
        match self {
            LoadFault::Reading(fault) => fault.rule.number(),
            LoadFault::Typing(fault) => fault.rule.number(),
        }
    }

    /// The table in which it is broken.
    pub fn table(self) -> Table
        ensures table { result ≡ (whole_fault self).table }
    {
        match self {
            LoadFault::Reading(fault) => fault.table,
            LoadFault::Typing(fault) => fault.table,
        }
    }

    /// The row at which it is broken.
    pub fn row(self) -> usize
        ensures row { result ≡ (whole_fault self).row }
    {
        match self {
            LoadFault::Reading(fault) => fault.row,
            LoadFault::Typing(fault) => fault.row,
        }
    }
}

impl From<Fault<TableRule>> for LoadFault {
    ghost from_gives = { λ f r. r ≡ Reading f };

    fn from(fault: Fault<TableRule>) -> LoadFault {
        LoadFault::Reading(fault)
    }
}

impl From<Fault<TypingRule>> for LoadFault {
    ghost from_gives = { λ f r. r ≡ Typing f };

    fn from(fault: Fault<TypingRule>) -> LoadFault {
        LoadFault::Typing(fault)
    }
}

/// The numbers of the rule and of the table, and the row.
impl fmt::Display for LoadFault {
    ghost output = { λ f. Some (fault_text model_number (whole_fault f)) };

    fn fmt<W: fmt::Write>(&self, f: &mut fmt::Formatter<W>) -> fmt::Result {
        match self {
            LoadFault::Reading(fault) => write!(f, "{fault}"),
            LoadFault::Typing(fault) => write!(f, "{fault}"),
        }
    }
}

/// Why a model is not loaded.
// No `CheckError`: the fault says from which of two checks it comes, each with rules of its own kind.
#[derive(Clone, Copy)]
pub enum LoadError {
    /// There is no memory for the model.
    NoMemory,
    /// The model breaks a rule.
    Refused(LoadFault),
}

impl From<ReadError> for LoadError {
    ghost from_gives = { λ e r. r ≡ after_reading e };

    fn from(e: ReadError) -> LoadError {
        match e {
            ReadError::NoMemory => LoadError::NoMemory,
            ReadError::Refused(fault) => LoadError::Refused(fault.into()),
        }
    }
}

impl From<TypingError> for LoadError {
    ghost from_gives = { λ e r. r ≡ after_typing e };

    fn from(e: TypingError) -> LoadError {
        match e {
            TypingError::NoMemory => LoadError::NoMemory,
            TypingError::Refused(fault) => LoadError::Refused(fault.into()),
        }
    }
}

/// The accepted model of these bytes, or why there is none.
pub fn load(heap: Global, bytes: Vec<u8>) -> Result<AcceptedModel, LoadError>
    ensures loads { Loads bytes.items result }
    ensures least { JudgesModel bytes.items result }
    ensures moved { IfOk result (λ a. a.model.bytes ≡ bytes) }
{
    let model = ReadModel::read(heap, bytes)?;
    check_types(heap, &model)?;
    Ok(AcceptedModel::new(model))
}

/// The accepted model that the input begins with, or why there is none.
pub fn load_input(heap: Global, input: Input) -> Result<AcceptedModel, LoadError>
    ensures loads { (begun : List ℕ) → Keeps input begun → Loads (model_in begun) result }
    ensures least { (begun : List ℕ) → Keeps input begun → JudgesModel (model_in begun) result }
{
    match input.model() {
        Ok(bytes) => load(heap, bytes),
        Err(fault) => Err(LoadError::Refused(fault.into())),
    }
}
