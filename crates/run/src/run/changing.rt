//! Changes of where a run stands.
ghost use Rattle.std.specs.Prelude.{◌≡◌, ◌<◌, ◌≤◌, false, length};
ghost use Rattle.steps.specs.Changes.{with_field, with_new_call};
ghost use Rattle.steps.specs.Configurations.{call_at, group_of};
ghost use Rattle.steps.specs.Returning.{resume};
ghost use Rattle.steps.specs.States.{is_ended};
ghost use Rattle.run_state.specs.Changes.{call_at_statement, call_in_state, call_with_result, call_with_slot, call_with_target, with_object_made};
ghost use Rattle.run_state.specs.Consistent.{is_ended_at};

use crate::run::Run;
use evaluation::value::Value;
use steps::records::{CallRecord, Slots};
use steps::state::CallState;
use syntax::statements::Group;

impl<'a> Run<'a> {
    /// The call goes on at a statement.
    pub(crate) fn set_statement(&mut self, number: u16, next: u16)
        ensures model { self.new.model ≡ self.old.model }
        ensures statement { self.new.at ≡ call_at_statement self.old.at number next (call_at self.old.at number) }
    {
        self.state.set_statement(number, next);
    }

    /// The call in another state, in which it has not ended.
    pub(crate) fn set_state(&mut self, number: u16, state: CallState)
        requires runs { is_ended_at (call_at self.old.at number) ≡ false }
        requires goes_on { is_ended state ≡ false }
        ensures model { self.new.model ≡ self.old.model }
        ensures state { self.new.at ≡ call_in_state self.old.at number state (call_at self.old.at number) }
    {
        self.state.set_state(number, state);
    }

    /// The call ends, with the value of its future, by a reply or by a return.
    pub(crate) fn end_call(&mut self, number: u16, value: Value, reply: bool)
        requires runs { is_ended_at (call_at self.old.at number) ≡ false }
        ensures model { self.new.model ≡ self.old.model }
        ensures result { self.new.at ≡ call_with_result self.old.at number value reply (call_at self.old.at number) }
    {
        self.state.end_call(number, value, reply);
    }

    /// A value in a slot of the call.
    fn set_slot(&mut self, number: u16, slot: u16, value: Value)
        ensures model { self.new.model ≡ self.old.model }
        ensures slot { self.new.at ≡ call_with_slot self.old.at number slot value (call_at self.old.at number) }
    {
        self.state.set_slot(number, slot, value);
    }

    /// A value in a field of the object.
    fn set_field(&mut self, number: u16, field: u16, value: Value)
        ensures model { self.new.model ≡ self.old.model }
        ensures field { self.new.at ≡ with_field self.old.at number field value }
    {
        self.state.set_field(number, field, value);
    }

    /// The call goes on at a statement, with a value in its target, if it has one.
    pub(crate) fn store(&mut self, number: u16, target: Option<u16>, value: Value, next: u16)
        ensures model { self.new.model ≡ self.old.model }
        ensures target { self.new.at ≡ call_with_target self.old.at number target value next (call_at self.old.at number) }
    {
        let Some(call) = self.state.call(number) else {
            return;
        };
        let this = call.object;
        self.set_statement(number, next);
        let Some(slot) = target else {
            return;
        };
        if slot < 128 {
            self.set_slot(number, slot, value);
        } else {
            self.set_field(this, slot - 128, value);
        }
    }

    /// The caller that waits, if there is one, becomes active, and waits for the result of the call.
    pub(crate) fn resume(&mut self, number: u16, caller: Option<u16>)
        ensures model { self.new.model ≡ self.old.model }
        ensures resumes { self.new.at ≡ resume self.old.at number caller }
    {
        let Some(caller) = caller else {
            return;
        };
        let Some(call) = self.state.call(caller) else {
            return;
        };
        if let CallState::Calling(_) = call.state {
            self.set_state(caller, CallState::Active(Some(number)));
        }
    }

    /// An object more, made by an object.
    pub(crate) fn push_new(
        &mut self,
        class: u16,
        maker: u16,
        group: Group,
        outside: bool,
        fields: Slots,
    )
        requires room { length self.old.at.objects < 64 }
        ensures model { self.new.model ≡ self.old.model }
        ensures pushed { self.new.at ≡ with_object_made self.old.at class (group_of self.old.at maker) group outside fields }
    {
        self.state.push_new(class, maker, group, outside, fields);
    }

    /// A call more, which has not ended, of an object that is there.
    pub(crate) fn push_call(&mut self, call: CallRecord)
        requires room { length self.old.at.calls < 128 }
        requires object { call.object ≤ length self.old.at.objects }
        requires runs { is_ended call.state ≡ false }
        ensures model { self.new.model ≡ self.old.model }
        ensures pushed { self.new.at ≡ with_new_call self.old.at call }
    {
        self.state.push_call(call);
    }
}
