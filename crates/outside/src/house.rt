//! The house: it holds 16 calls, the oldest first, and a level for each object.
ghost use Rattle.std.specs.Prelude.{◌≡◌, IfOk, if◌then◌else◌};
ghost use Rattle.outside.specs.Calls.{accepts};
ghost use Rattle.outside.specs.Outsides.{call_of};
ghost use Rattle.outside.specs.Houses.{HouseState, empty_house, kept_in_house, house_with, house_without};

use crate::house::levels::{level_as, new_level, set_level};
use crate::outside::{Outgoing, Outside};
use crate::value::{PlainValue, Reply};
use crate::waiting::{WaitingCall, WaitingCalls};
use std::alloc::{AllocError, Global};
use std::marker::Model;

pub mod levels;

/// What a house keeps of a call besides its number and the sort of its result.
#[derive(Clone, Copy)]
pub struct Asked {
    pub object: u16,
    /// The first argument.
    pub argument: Option<PlainValue>,
}

/// Calls on objects that have levels.
#[derive(Drop)]
pub struct House {
    waiting: WaitingCalls<Asked, 16>,
    /// The levels of the objects from 1 on.
    levels: [i64; 64],
}

/// The calls that wait, the oldest first, and the levels of the objects.
impl Model for House {
    ghost Value = { HouseState };

    ghost view = { λ h. record { waiting = h.waiting; levels = h.levels } };
}

/// What a house keeps of a call.
fn kept(outgoing: Outgoing) -> WaitingCall<Asked>
    ensures kept { result ≡ kept_in_house (call_of outgoing.entry) }
{
    WaitingCall {
        call: outgoing.call,
        sort: outgoing.sort,
        kept: Asked {
            object: outgoing.object,
            argument: outgoing.arguments.first().copied(),
        },
    }
}

impl House {
    /// A house in which nothing waits and all levels are 0, with memory for its calls.
    pub fn new(heap: Global) -> Result<House, AllocError>
        ensures empty { IfOk result (λ h. h ≡ empty_house) }
    {
        Ok(House {
            waiting: WaitingCalls::new(heap)?,
            levels: [0; 64],
        })
    }

    /// Puts the call behind the others, and says whether that was accepted.
    fn add(&mut self, outgoing: Outgoing) -> bool
        ensures answer { result ≡ accepts 16 outgoing.entry.call self.old.waiting }
        ensures state { self.new ≡ (if result then house_with (call_of outgoing.entry) self.old else self.old) }
    {
        self.waiting.add_last(kept(outgoing))
    }

    /// Takes the call out, if it waits, and sets the level of its object.
    fn remove(&mut self, call: u16)
        ensures state { self.new ≡ house_without call self.old }
    {
        if let Some(found) = self.waiting.remove(call) {
            set_level(&mut self.levels, &found.kept);
        }
    }
}

impl Outside for House {
    ghost use Rattle.std.specs.Prelude.{◌≡◌};
    ghost use Rattle.std.proofs.Common.{refl};
    ghost use Rattle.outside.specs.Calls.{waits_in};
    ghost use Rattle.outside.specs.Houses.{house_room, house_next, house_with, house_without, house_reply, new_level};
    ghost use Rattle.outside.specs.Laws.{room_in_empty, none_in_empty, empty_without_first, first_reply_waits, level_as_sort};

    ghost waits = { λ h. waits_in h.waiting };

    ghost roomy = { λ h class. house_room h };

    ghost upcoming = { house_next };

    ghost after_take = { λ h c h′. h′ ≡ house_with c h };

    ghost after_delivery = { λ h n h′. h′ ≡ house_without n h };

    fn room(&self, _class: u16) -> bool {
        self.waiting.room()
    }

    fn waiting(&self, call: u16) -> bool {
        self.waiting.find(call).is_some()
    }

    fn next(&self) -> Option<Reply> {
        let oldest = self.waiting.first()?;
        let level = new_level(&self.levels, &oldest.kept);
        Some(Reply {
            call: oldest.call,
            value: level_as(level, oldest.sort),
        })
    }

    fn take(&mut self, outgoing: Outgoing) -> bool {
        self.add(outgoing)
    }

    #[tactic(auto, using(crate::proofs::Calls::find_others, crate::proofs::Calls::others_none))]
    fn deliver(&mut self, call: u16) {
        self.remove(call);
    }

    ghost room_if_empty = { λ h none class. room_in_empty 16 refl h.waiting none };

    ghost none_if_empty = { λ h. none_in_empty (house_reply h.levels) h.waiting };

    ghost empty_if_none = { λ h. empty_without_first (house_reply h.levels) h.waiting };

    ghost upcoming_waits = { λ h. first_reply_waits (house_reply h.levels) (λ c. refl) (λ c. level_as_sort (new_level h.levels c.kept) c.sort) h.waiting };
}
