//! What is guaranteed of every run, over any outside.
ghost use Rattle.tables.specs.Layout.{Content};
ghost use Rattle.loading.specs.Accepted.{IsAccepted};
ghost use Rattle.steps_guarantee.specs.Guarantee.{AlwaysGuaranteed};
ghost use Rattle.steps_guarantee.specs.WrongTools.{AllowsEarlyRefusals, AllowsIdleChoices, NoCountedRefusal, NoEarlyRefusal, NoIdleChoice, NoIdleReply, NoIdleReturn, NoInventedReply, NoLostCall, NoOtherValue};

use outside::outside::Outside;

/// Does nothing; that every run is as guaranteed, whatever was chosen, is proved.
pub fn runs_are_guaranteed<O: Outside>()
    ensures always { (m : Content) → IsAccepted m → AlwaysGuaranteed O.Outside m }
{}

/// Does nothing; what wrong tools break of the guarantee, and of a linked history, is proved.
pub fn wrong_tools_are_excluded<O: Outside>()
    ensures invented_reply { (m : Content) → NoInventedReply O.Outside m }
    ensures counted_refusal { (m : Content) → NoCountedRefusal O.Outside m }
    ensures lost_call { (m : Content) → NoLostCall O.Outside m }
    ensures other_value { (m : Content) → NoOtherValue O.Outside m }
    ensures idle_reply { (m : Content) → NoIdleReply O.Outside m }
    ensures idle_return { (m : Content) → NoIdleReturn O.Outside m }
    ensures idle_choice { (m : Content) → NoIdleChoice O.Outside m }
    ensures early_refusal { (m : Content) → NoEarlyRefusal O.Outside m }
{}

/// Does nothing; that the guarantee by itself lets some wrong tools pass is proved.
pub fn the_guarantee_alone_allows_too_much<O: Outside>()
    ensures idle_choices { (m : Content) → AllowsIdleChoices O.Outside m }
    ensures early_refusals { (m : Content) → AllowsEarlyRefusals O.Outside m }
{}
