//! Worked examples of all that is defined, computed from the definitions.
#![tactic(auto)]

ghost use Rattle.worked_examples.specs.Computations.{AllHold};
ghost use Rattle.worked_examples.specs.Table.{worked_examples};

/// Does nothing; that the worked examples come out is computed from the definitions.
pub fn examples_hold()
    ensures examples { AllHold worked_examples }
{}
