//! Objects and calls.
ghost use Rattle.std.specs.Prelude.{◌≡◌, ◌≤◌, [], ◌∷◌, ◌++◌, length, cond, nat_lt, slice_set};

use crate::state::CallState;
use evaluation::value::Value;
use std::marker::Model;

/// The values of the slots of a call, or of the fields of an object: eight at most.
#[derive(Drop)]
pub struct Slots {
    values: [Value; 8],
    count: usize,
}

impl Model for Slots {
    ghost use Rattle.std.specs.Prelude.{◌≤◌, List, take};
    ghost use Rattle.evaluation.specs.declared.value.Value.{Value as Worth};

    ghost Value = { List Worth };

    ghost view = { λ s. take s.count s.values };

    ghost invariant = { λ s. s.count ≤ 8 };
}

impl Slots {
    /// No value.
    pub fn new() -> Slots
        ensures none { result ≡ [] }
    {
        Slots {
            values: [Value::Unit; 8],
            count: 0,
        }
    }

    /// The values.
    pub fn as_slice(&self) -> &[Value]
        ensures values { result.now ≡ self.now }
        ensures few { length result.now ≤ 8 }
    {
        self.values.get(..self.count).unwrap_or(&self.values)
    }

    /// One value more; where there are eight, nothing changes.
    pub fn push(&mut self, value: Value)
        ensures more { self.new ≡ cond (nat_lt (length self.old) 8) (self.old ++ value ∷ []) self.old }
    {
        if self.count < 8 {
            self.values[self.count] = value;
            self.count += 1;
        }
    }

    /// Another value in a slot, if the slot is there.
    pub fn set(&mut self, slot: u16, value: Value)
        ensures set { self.new ≡ slice_set self.old slot value }
    {
        let slot = slot as usize;
        if slot < self.count {
            self.values[slot] = value;
        }
    }
}

/// An object: its class, its group, if it has one, and its fields.
#[derive(Drop)]
pub struct ObjectRecord {
    pub class: u16,
    pub group: Option<u16>,
    pub fields: Slots,
}

/// A call: its object and its method; its slots, of which the first are the arguments; the statement at which it stands; its state;
/// its caller, if it was made synchronously inside the group of its maker; and the value of its future, once there is one.
#[derive(Drop)]
pub struct CallRecord {
    pub object: u16,
    pub method: u16,
    pub slots: Slots,
    pub statement: u16,
    pub state: CallState,
    pub caller: Option<u16>,
    pub result: Option<Value>,
}
