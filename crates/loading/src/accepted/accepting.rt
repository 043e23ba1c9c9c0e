//! Accepting a model: a check on the read model, which may refuse, and then the move, which cannot.
ghost use Rattle.std.specs.Prelude.{◌≡◌, None};
ghost use Rattle.tables.specs.Layout.{content};
ghost use Rattle.typing.specs.Typing.{typing_verdict};
ghost use Rattle.model.specs.Rules.{NoPlaceBreaks};
ghost use Rattle.loading.specs.Accepted.{IsAccepted};
ghost use Rattle.loading.specs.Accepting.{ChecksTypes, JudgesTypes};
ghost use Rattle.loading.specs.Laws.{WellTyped, Lawful, PassesTyped};

use crate::accepted::AcceptedModel;
use model::model::ReadModel;
use std::alloc::Global;
use tables::check::CheckError;
use tables::tables::Tables;
use typing::judge::first_fault;
use typing::rule::TypingRule;

/// Why a read model is not accepted: there is no memory for the check, or it breaks a typing rule.
pub type TypingError = CheckError<TypingRule>;

/// Whether every function and every placed statement of the model has a type.
pub fn check_types(heap: Global, model: &ReadModel) -> Result<(), TypingError>
    ensures checked { ChecksTypes (content model.now.tables) result }
    ensures least { JudgesTypes (content model.now.tables) result }
    ensures exact { PassesTyped (content model.now.tables) result }
{
    match first_fault(heap, model.tables())? {
        Some(fault) => Err(TypingError::Refused(fault)),
        None => Ok(()),
    }
}

impl AcceptedModel {
    /// The read model as an accepted one: for a model that passed the check.
    #[tactic(auto, using(crate::proofs::Judging::types_kept))]
    pub fn new(model: ReadModel) -> AcceptedModel
        requires checked { typing_verdict (content model.tables) ≡ None }
        ensures model { result.model ≡ model }
    {
        AcceptedModel { model }
    }

    /// The bytes that were read.
    pub fn bytes(&self) -> &[u8]
        ensures bytes { result.now ≡ self.now.model.bytes.items }
    {
        self.model.bytes()
    }

    /// The tables that the bytes spell. No place of them breaks a rule, and they have all that an accepted model has.
    #[tactic(auto, using(crate::proofs::Laws::well_typed, crate::proofs::Laws::lawful))]
    pub fn tables(&self) -> &Tables
        ensures tables { result.now ≡ self.now.model.tables }
        ensures kept { NoPlaceBreaks (content result.now) }
        ensures typed { WellTyped (content result.now) }
        ensures laws { Lawful (content result.now) }
        ensures accepted { IsAccepted (content result.now) }
    {
        self.model.tables()
    }
}
