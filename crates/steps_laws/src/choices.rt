//! The laws of openings and of choices, each in the contract of a function that does nothing.
ghost use Rattle.tables.specs.Layout.{Content};
ghost use Rattle.loading.specs.Accepted.{IsAccepted};
ghost use Rattle.steps_laws.specs.Laws.{Balances, ChoicesKeepIdentities, ChoicesKeepSound, ChoicesKeepValues, EveryCallIsTaken, NoneStaysSent, NoReplyIsStrange, OnlyCallsAreMissing, OpensSound, Progresses};

/// Opening over an outside in which nothing waits makes a sound configuration.
pub fn opening_is_sound()
    ensures opens_sound { (m : Content) → IsAccepted m → OpensSound m }
{}

/// A choice that is accepted keeps a configuration sound, over what then waits.
pub fn choices_keep_soundness()
    ensures sound { (m : Content) → IsAccepted m → ChoicesKeepSound m }
{}

/// A future that has a value keeps it.
pub fn choices_keep_values()
    ensures values { (m : Content) → ChoicesKeepValues m }
{}

/// Calls and objects stay the same under their numbers.
pub fn choices_keep_identities()
    ensures identities { (m : Content) → ChoicesKeepIdentities m }
{}

/// The account of a sound configuration balances.
pub fn accounts_balance()
    ensures balances { (m : Content) → Balances m }
{}

/// Where every choice is refused, nothing waits outside, and each unfinished process has its reason.
pub fn refused_runs_are_halted()
    ensures progresses { (m : Content) → IsAccepted m → Progresses m }
{}

/// Where every choice is refused, no call is still sent.
pub fn no_call_stays_sent()
    ensures none_stays_sent { (m : Content) → NoneStaysSent m }
{}

/// No reply is refused as a strange one.
pub fn no_reply_is_strange()
    ensures never { (m : Content) → IsAccepted m → NoReplyIsStrange m }
{}

/// Where nothing waits outside, no call is refused because the outside did not take it.
pub fn every_call_is_taken()
    ensures never { (m : Content) → IsAccepted m → EveryCallIsTaken m }
{}

/// Nothing is missing but a call of a number that no call has.
pub fn only_calls_are_missing()
    ensures exact { (m : Content) → IsAccepted m → OnlyCallsAreMissing m }
{}
