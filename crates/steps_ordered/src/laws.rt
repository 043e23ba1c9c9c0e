//! The laws of an accepted choice, for configurations in order; each in the contract of a function that does nothing.
ghost use Rattle.steps_ordered.specs.Laws.{CallsEnd, IdentitiesLast, OrderLasts, ValuesLast};

/// A configuration stays in order, and exactly the calls that are out wait outside.
#[tactic(auto, using(crate::proofs::OrderedSteps::order_lasts))]
pub fn order_lasts()
    ensures order { OrderLasts }
{}

/// A future that has a value keeps it.
#[tactic(auto, using(crate::proofs::OrderedSteps::values_last))]
pub fn values_last()
    ensures values { ValuesLast }
{}

/// Calls and objects stay the same under their numbers.
#[tactic(auto, using(crate::proofs::OrderedSteps::identities_last))]
pub fn identities_last()
    ensures identities { IdentitiesLast }
{}

/// A call ends where its process returns or a reply to it comes, and nowhere else.
#[tactic(auto, using(crate::proofs::OrderedSteps::calls_end))]
pub fn calls_end()
    ensures ends { CallsEnd }
{}
