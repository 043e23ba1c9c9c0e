//! Over an outside whose takes and deliveries have one outcome each, a run is determined by its choices.
#![tactic(auto)]

ghost use Rattle.tables.specs.Layout.{Content};
ghost use Rattle.steps_determined.specs.Determined.{HasOneOutcome, RunsAgree};

use outside::house::House;
use outside::outside::Outside;
use outside::script::Script;

/// Does nothing; that two runs by the same choices agree, over an outside that is determined, is proved.
pub fn runs_agree<O: Outside>()
    ensures agree { (m : Content) → RunsAgree O.Outside m }
{}

/// Does nothing, and asks that the outside is determined.
fn ask_determined<O: Outside>(_outside: &O)
    requires one_outcome { HasOneOutcome O.Outside }
{}

/// Does nothing; that a house and a script are determined is proved, since it is asked of both.
pub fn house_and_script_are_determined(house: &House, script: &Script) {
    ask_determined(house);
    ask_determined(script);
}
