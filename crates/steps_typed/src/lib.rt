//! An accepted choice keeps a configuration typed.
#![tactic(auto)]

ghost use Rattle.tables.specs.Layout.{Content};
ghost use Rattle.loading.specs.Accepted.{IsAccepted};
ghost use Rattle.steps_typed.specs.Laws.{DefaultsAreValues, StepsKeepTypes};

/// The steps of an accepted model keep configurations typed.
pub fn steps_keep_types()
    ensures keep_types { (m : Content) → IsAccepted m → StepsKeepTypes m }
{}

/// In an accepted model the default of a type is a value of it.
pub fn defaults_are_values()
    ensures defaults { (m : Content) → IsAccepted m → DefaultsAreValues m }
{}
