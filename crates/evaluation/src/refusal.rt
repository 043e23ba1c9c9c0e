ghost use Rattle.std.specs.Prelude.{◌≡◌};
ghost use Rattle.evaluation.specs.Refusals.{evaluation_number};

/// Why an expression has no value.
#[derive(Clone, Copy, PartialEq, Eq, Debug)]
pub enum EvaluationRefusal {
    /// No branch of a case fits what is examined.
    NoBranch,
    /// A divisor is 0.
    ZeroDivisor,
    /// All visits of the choice are made.
    VisitsSpent,
    /// All cells of the run are in use.
    NoCell,
}

impl EvaluationRefusal {
    /// The number under which the refusal is reported.
    pub fn number(self) -> u8
        ensures number { result ≡ evaluation_number self }
    {
        match self {
            EvaluationRefusal::NoBranch => 22,
            EvaluationRefusal::ZeroDivisor => 23,
            EvaluationRefusal::VisitsSpent => 24,
            EvaluationRefusal::NoCell => 25,
        }
    }
}
