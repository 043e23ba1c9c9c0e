//! Why a choice is refused, or an opening.
ghost use Rattle.std.specs.Prelude.{◌≡◌};
ghost use Rattle.steps.specs.declared.refusal.Refusal.TheVariants as refusal;
ghost use Rattle.steps.specs.Refusals.{opening_number, refusal_number};

use evaluation::refusal::EvaluationRefusal;

/// Why a choice is refused.
#[derive(Clone, Copy, PartialEq, Eq, Debug)]
pub enum Refusal {
    /// There is no call of this number.
    NoSuchCall,
    /// The call ended, or an outside has taken it.
    Finished,
    /// Another process is active in the group.
    GroupBusy,
    /// The process stands at an await whose guard is false.
    FalseGuard,
    /// The future has no value yet.
    Unresolved,
    /// The process waits for a call inside its group.
    Calling,
    /// Nothing waits outside.
    NothingWaits,
    /// The next reply is not to a call of this run that is outside, or its value has another sort.
    StrangeReply,
    /// There is no object to call.
    NullObject,
    /// There is no future to get a value from.
    NullFuture,
    /// An expression has no value.
    Evaluation(EvaluationRefusal),
    /// All numbers of calls are used up.
    NoCallLeft,
    /// All numbers of objects are used up.
    NoObjectLeft,
    /// The outside refused to take the call.
    NotTaken,
}

/// Why a model is not opened.
#[derive(Clone, Copy, PartialEq, Eq, Debug)]
pub enum OpeningRefusal {
    /// Calls wait in the outside already.
    CallsWait,
}

impl From<EvaluationRefusal> for Refusal {
    ghost from_gives = { λ e r. r ≡ refusal.Evaluation e };

    fn from(e: EvaluationRefusal) -> Refusal {
        Refusal::Evaluation(e)
    }
}

impl Refusal {
    /// The number under which the refusal is reported.
    pub fn number(self) -> u8
        ensures number { result ≡ refusal_number self }
    {
        match self {
            Refusal::NoSuchCall => 10,
            Refusal::Finished => 11,
            Refusal::GroupBusy => 12,
            Refusal::FalseGuard => 13,
            Refusal::Unresolved => 14,
            Refusal::Calling => 15,
            Refusal::NothingWaits => 16,
            Refusal::StrangeReply => 17,
            Refusal::NullObject => 20,
            Refusal::NullFuture => 21,
            Refusal::Evaluation(refusal) => refusal.number(),
            Refusal::NoCallLeft => 25,
            Refusal::NoObjectLeft => 25,
            Refusal::NotTaken => 26,
        }
    }
}

impl OpeningRefusal {
    /// The number under which the refusal is reported.
    pub fn number(self) -> u8
        ensures number { result ≡ opening_number self }
    {
        match self {
            OpeningRefusal::CallsWait => 31,
        }
    }
}
