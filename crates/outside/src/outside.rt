//! The trait of the outsides.
ghost use Rattle.std.specs.Prelude.{◌≡◌, ℕ, Bool, true, None, Some, Option, is_some};
ghost use Rattle.outside.specs.declared.value.Reply.{Reply};
ghost use Rattle.outside.specs.declared.value.Sort.{Sort};
ghost use Rattle.outside.specs.Values.{sort_of};
ghost use Rattle.outside.specs.Outsides.{OutgoingCall, Takes, Delivers, call_of};

use crate::value::{PlainValue, Reply, Sort};

/// A call that is handed out: its number, the class and the number of its object, the sort of its result, and its arguments.
#[derive(Clone, Copy)]
pub struct Outgoing<'a> {
    pub call: u16,
    pub class: u16,
    pub object: u16,
    pub sort: Sort,
    pub arguments: &'a [PlainValue],
}

/// An outside holds calls that wait for a reply.
pub trait Outside {
    /// The sort of the result of each call that waits, by the call's number.
    ghost waits: { Self → ℕ → Option Sort };

    /// Whether there is room for a call on an object of a class.
    ghost roomy: { Self → ℕ → Bool };

    /// The reply that comes next.
    ghost upcoming: { Self → Option Reply };

    /// What the outside may be after it took a call.
    ghost after_take: { Self → OutgoingCall → Self → Type 0 };

    /// What the outside may be after the delivery of a call that waited.
    ghost after_delivery: { Self → ℕ → Self → Type 0 };

    /// Whether there is room for a call on an object of the class.
    fn room(&self, class: u16) -> bool
        ensures room { result ≡ roomy self.now class };

    /// Whether the call waits.
    fn waiting(&self, call: u16) -> bool
        ensures waiting { result ≡ is_some (waits self.now call) };

    /// The reply that comes next, which stays the same until the next take or delivery.
    fn next(&self) -> Option<Reply>
        ensures upcoming { result ≡ upcoming self.now };

    /// Takes the call, and says whether it was accepted.
    fn take(&mut self, outgoing: Outgoing) -> bool
        ensures takes { Takes waits roomy after_take self.old (call_of outgoing.entry) result self.new };

    /// Delivers the call, if it waits.
    fn deliver(&mut self, call: u16)
        ensures delivers { Delivers waits after_delivery self.old call self.new };

    /// Where nothing waits, there is room for every class.
    ghost room_if_empty: { (o : Self) → ((n : ℕ) → waits o n ≡ None) → (class : ℕ) → roomy o class ≡ true };

    /// Where nothing waits, no reply comes next.
    ghost none_if_empty: { (o : Self) → ((n : ℕ) → waits o n ≡ None) → upcoming o ≡ None };

    /// Where no reply comes next, nothing waits.
    ghost empty_if_none: { (o : Self) → upcoming o ≡ None → (n : ℕ) → waits o n ≡ None };

    /// The reply that comes next is to a call that waits, with a value of its sort.
    ghost upcoming_waits: { (o : Self) (r : Reply) → upcoming o ≡ Some r → waits o r.call ≡ Some (sort_of r.value) };
}
