//! The script: it holds 8 calls, the newest first, and prepared numbers for its replies.
ghost use Rattle.std.specs.Prelude.{◌≡◌, IfOk, if◌then◌else◌, take};
ghost use Rattle.outside.specs.Calls.{accepts};
ghost use Rattle.outside.specs.Outsides.{call_of};
ghost use Rattle.outside.specs.Scripts.{ScriptState, prepared_script, kept_in_script, number_as, script_with, script_without};

use crate::outside::{Outgoing, Outside};
use crate::value::{PlainValue, Reply, Sort};
use crate::waiting::{WaitingCall, WaitingCalls};
use std::alloc::{AllocError, Global};
use std::collections::VecDeque;
use std::marker::Model;

/// Calls, and the numbers that are prepared for the replies.
#[derive(Drop)]
pub struct Script {
    waiting: WaitingCalls<(), 8>,
    /// The numbers that are not used up.
    prepared: VecDeque<i64>,
}

/// The calls that wait, the newest first, and the numbers that are not used up.
impl Model for Script {
    ghost Value = { ScriptState };

    ghost view = { λ s. record { waiting = s.waiting; prepared = s.prepared.items } };
}

/// What a script keeps of a call.
fn kept(outgoing: Outgoing) -> WaitingCall<()>
    ensures kept { result ≡ kept_in_script (call_of outgoing.entry) }
{
    WaitingCall {
        call: outgoing.call,
        sort: outgoing.sort,
        kept: (),
    }
}

/// The first 64 of the numbers.
#[tactic(auto, using(crate::proofs::Scripts::take_within))]
fn prepare(heap: Global, numbers: &[i64]) -> Result<VecDeque<i64>, AllocError>
    ensures prepared { IfOk result (λ q. q.items ≡ take 64 numbers.now) }
{
    let first = &numbers[..numbers.len().min(64)];
    Ok(VecDeque::from_vec(Vec::from_slice(heap, first)?))
}

/// A number as a value of a sort: itself, or whether it is not 0, or Unit.
fn number_as(number: i64, sort: Sort) -> PlainValue
    ensures value { result ≡ number_as number sort }
{
    match sort {
        Sort::Unit => PlainValue::Unit,
        Sort::Bool => PlainValue::Bool(number != 0),
        Sort::Int => PlainValue::Int(number),
    }
}

impl Script {
    /// A script in which nothing waits, with memory for its calls, and with the first 64 of the numbers.
    pub fn new(heap: Global, numbers: &[i64]) -> Result<Script, AllocError>
        ensures prepared { IfOk result (λ s. s ≡ prepared_script numbers.now) }
    {
        Ok(Script {
            waiting: WaitingCalls::new(heap)?,
            prepared: prepare(heap, numbers)?,
        })
    }

    /// Puts the call before the others, and says whether that was accepted.
    fn add(&mut self, outgoing: Outgoing) -> bool
        ensures answer { result ≡ accepts 8 outgoing.entry.call self.old.waiting }
        ensures state { self.new ≡ (if result then script_with (call_of outgoing.entry) self.old else self.old) }
    {
        self.waiting.add_first(kept(outgoing))
    }

    /// Takes the call out, if it waits, and uses up one number.
    fn remove(&mut self, call: u16)
        ensures state { self.new ≡ script_without call self.old }
    {
        if let Some(_) = self.waiting.remove(call) {
            self.prepared.pop_front();
        }
    }
}

impl Outside for Script {
    ghost use Rattle.std.specs.Prelude.{◌≡◌};
    ghost use Rattle.std.proofs.Common.{refl};
    ghost use Rattle.outside.specs.Calls.{waits_in};
    ghost use Rattle.outside.specs.Laws.{room_in_empty, none_in_empty, empty_without_first, first_reply_waits, number_as_sort};
    ghost use Rattle.outside.specs.Scripts.{script_room, script_next, script_with, script_without, script_reply, next_number};

    ghost waits = { λ s. waits_in s.waiting };

    ghost roomy = { λ s class. script_room s };

    ghost upcoming = { script_next };

    ghost after_take = { λ s c s′. s′ ≡ script_with c s };

    ghost after_delivery = { λ s n s′. s′ ≡ script_without n s };

    fn room(&self, _class: u16) -> bool {
        self.waiting.room()
    }

    fn waiting(&self, call: u16) -> bool {
        self.waiting.find(call).is_some()
    }

    fn next(&self) -> Option<Reply> {
        let newest = self.waiting.first()?;
        let number = self.prepared.front().copied().unwrap_or(0);
        Some(Reply {
            call: newest.call,
            value: number_as(number, newest.sort),
        })
    }

    fn take(&mut self, outgoing: Outgoing) -> bool {
        self.add(outgoing)
    }

    #[tactic(auto, using(crate::proofs::Calls::find_others, crate::proofs::Calls::others_none))]
    fn deliver(&mut self, call: u16) {
        self.remove(call);
    }

    ghost room_if_empty = { λ s none class. room_in_empty 8 refl s.waiting none };

    ghost none_if_empty = { λ s. none_in_empty (script_reply s.prepared) s.waiting };

    ghost empty_if_none = { λ s. empty_without_first (script_reply s.prepared) s.waiting };

    ghost upcoming_waits = { λ s. first_reply_waits (script_reply s.prepared) (λ c. refl) (λ c. number_as_sort (next_number s.prepared) c.sort) s.waiting };
}
