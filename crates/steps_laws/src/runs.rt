//! The laws of whole runs over any outside, each in the contract of a function that does nothing.
ghost use Rattle.tables.specs.Layout.{Content};
ghost use Rattle.loading.specs.Accepted.{IsAccepted};
ghost use Rattle.steps_laws.specs.Runs.{AlwaysHolds, IsDetermined, RefusalsChangeNothing, SameOverBoth};

use outside::outside::Outside;

/// A refused choice changes nothing, inside or outside.
pub fn refusals_change_nothing<O: Outside>()
    ensures unchanged { (m : Content) → RefusalsChangeNothing O.Outside m }
{}

/// Where a run comes to, and its answers, depend on nothing but its choices and what the outside said.
pub fn runs_are_determined<O: Outside>()
    ensures determined { (m : Content) → IsDetermined O.Outside m }
{}

/// Two outsides that say the same give the same run.
pub fn outsides_alike_give_the_same_run<O: Outside, P: Outside>()
    ensures same { (m : Content) → SameOverBoth O.Outside P.Outside m }
{}

/// What holds of every run, at each of its configurations.
pub fn runs_hold<O: Outside>()
    ensures always { (m : Content) → IsAccepted m → AlwaysHolds O.Outside m }
{}
