//! The calls that wait in an outside: a list of at most `N` calls, each with what the outside keeps of it.
ghost use Rattle.std.specs.Prelude.{◌≡◌, ◌≤◌, ℕ, List, [], ◌∷◌, ◌++◌, IfOk, if◌then◌else◌};
ghost use Rattle.std.specs.List.{slice_get};
ghost use Rattle.std.specs.VecDeque.{deque_len, deque_capacity};
ghost use Rattle.outside.specs.declared.waiting.WaitingCall.{WaitingCall};
ghost use Rattle.outside.specs.Calls.{find_call, room_in, accepts, others, Distinct};

use crate::value::Sort;
use std::alloc::{AllocError, Global};
use std::collections::VecDeque;
use std::marker::Model;

/// A call that waits: its number, the sort of its result, and what is kept of it besides.
#[derive(Clone, Copy)]
pub struct WaitingCall<K> {
    pub call: u16,
    pub sort: Sort,
    pub kept: K,
}

/// Waiting calls in an order, with memory for `N` of them.
#[derive(Drop)]
pub struct WaitingCalls<K, const N: usize> {
    calls: VecDeque<WaitingCall<K>>,
}

/// The list of the calls. At most `N` wait, and their numbers are distinct.
impl<K, const N: usize> Model for WaitingCalls<K, N> {
    ghost Value = { List (WaitingCall K) };

    ghost view = { λ w. w.calls.items };

    ghost invariant = { λ w. (deque_len w.calls ≤ N) × (N ≤ deque_capacity w.calls) × Distinct w.calls.items };
}

impl<K: Copy, const N: usize> WaitingCalls<K, N> {
    /// No calls, and the memory for `N`.
    pub fn new(heap: Global) -> Result<WaitingCalls<K, N>, AllocError>
        ensures empty { IfOk result (λ w. w ≡ []) }
    {
        Ok(WaitingCalls {
            calls: VecDeque::with_capacity(heap, N)?,
        })
    }

    /// Whether there is room for one call more.
    pub fn room(&self) -> bool
        ensures room { result ≡ room_in N self.now }
    {
        self.calls.len() < N
    }

    /// The call with a number, if it waits.
    pub fn find(&self, call: u16) -> Option<WaitingCall<K>>
        ensures call { result ≡ find_call call self.now }
    {
        self.calls.iter().find(|c| c.call == call).copied()
    }

    /// The first call.
    pub fn first(&self) -> Option<WaitingCall<K>>
        ensures first { result ≡ slice_get self.now 0 }
    {
        self.calls.front().copied()
    }

    /// Whether there is room for a call with this number, which does not wait.
    fn accepts(&self, call: u16) -> bool
        ensures answer { result ≡ accepts N call self.now }
    {
        self.room() && self.find(call).is_none()
    }

    /// Puts the call behind the others, and says whether that was accepted.
    #[tactic(auto, using(crate::proofs::Calls::distinct_last))]
    pub fn add_last(&mut self, call: WaitingCall<K>) -> bool
        ensures answer { result ≡ accepts N call.call self.old }
        ensures last { self.new ≡ (if result then (self.old ++ call ∷ []) else self.old) }
    {
        if !self.accepts(call.call) {
            return false;
        }
        self.calls.push_back_reserved(call);
        true
    }

    /// Puts the call before the others, and says whether that was accepted.
    pub fn add_first(&mut self, call: WaitingCall<K>) -> bool
        ensures answer { result ≡ accepts N call.call self.old }
        ensures first { self.new ≡ (if result then (call ∷ self.old) else self.old) }
    {
        if !self.accepts(call.call) {
            return false;
        }
        self.calls.push_front_reserved(call);
        true
    }

    /// Takes the call with a number out, if it waits.
    pub fn remove(&mut self, call: u16) -> Option<WaitingCall<K>>
        ensures call { result ≡ find_call call self.old }
        ensures others { self.new ≡ others call self.old }
    {
        let found = self.find(call);
        self.calls.retain(|c| c.call != call);
        found
    }
}
