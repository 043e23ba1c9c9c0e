//! The configuration of a run in memory: its calls, its objects, and its counters.
ghost use Rattle.std.specs.Prelude.{◌≡◌, ◌+◌, ◌<◌, ◌≤◌, IfOk, cond, false, length, option_copied};
ghost use Rattle.std.specs.List.{count_by};
ghost use Rattle.syntax.specs.Rows.{given};
ghost use Rattle.steps.specs.Changes.{with_field, with_new_call};
ghost use Rattle.steps.specs.Configurations.{item_at, call_at, object_at, value_at, group_of, fields_of};
ghost use Rattle.steps.specs.States.{is_active, is_ended, is_unfinished};
ghost use Rattle.steps.specs.Steps.{is_busy};
ghost use Rattle.run_state.specs.Changes.{empty_configuration, call_at_statement, call_in_state, call_with_slot, call_with_result, with_new_object, with_object_made, one_more, one_fewer, recount};
ghost use Rattle.run_state.specs.Consistent.{InGroups, is_ended_at};

use evaluation::value::Value;
use std::alloc::{AllocError, Global};
use std::marker::Model;
use steps::records::{CallRecord, ObjectRecord, Slots};
use steps::state::CallState;
use syntax::statements::Group;

/// The calls and the objects of a run, for all of which memory is reserved, and its counters.
#[derive(Drop)]
pub struct RunState {
    calls: Vec<CallRecord>,
    objects: Vec<ObjectRecord>,
    /// How many groups there are.
    groups: u16,
    /// How many calls are active in each group, by its number.
    active: [u16; 65],
    /// How many returns were performed.
    returned: u16,
    /// How many replies came.
    answered: u16,
}

impl Model for RunState {
    ghost use Rattle.steps.specs.Configurations.{Configuration};

    ghost Value = { Configuration };

    ghost use Rattle.run_state.specs.States.{state_seen, IsReserved};

    ghost view = { state_seen };

    ghost invariant = { IsReserved };
}

/// The item with a number, from 1 on.
fn item_at<T>(items: &[T], number: u16) -> Option<&T>
    ensures item { option_copied result ≡ item_at items.now number }
{
    let index = number.checked_sub(1)?;
    items.get(index as usize)
}

/// The group of an object, if it has one.
fn group_of(objects: &[ObjectRecord], number: u16) -> Option<u16>
    ensures group { result ≡ given (item_at objects.now number) (λ y. y.group) }
{
    item_at(objects, number)?.group
}

/// Whether a call in this state is active.
fn is_active(state: CallState) -> bool
    ensures active { result ≡ is_active state }
{
    matches!(state, CallState::Active(_))
}

/// Whether a call in this state is a process that has not returned.
fn is_unfinished(state: CallState) -> bool
    ensures unfinished { result ≡ is_unfinished state }
{
    !matches!(state, CallState::Ended | CallState::Outside)
}

/// How many of the calls are processes that have not returned.
fn unfinished(calls: &[CallRecord]) -> u16
    requires few { length calls.now ≤ 128 }
    ensures unfinished { result ≡ count_by (λ x. is_unfinished x.state) calls.now }
{
    let mut count = 0;
    for call in calls {
        if is_unfinished(call.state) {
            count += 1;
        }
    }
    count
}

fn one_if(new: bool) -> u16
    ensures one { result ≡ cond new 1 0 }
{
    if new { 1 } else { 0 }
}

/// One call more is active in the group.
fn one_more(active: &mut [u16; 65], group: Option<u16>)
    ensures more { active.new ≡ one_more active.old group }
{
    if let Some(group) = group {
        let group = group as usize;
        if group < 65 && active[group] < 1000 {
            active[group] += 1;
        }
    }
}

/// One call fewer is active in the group.
fn one_fewer(active: &mut [u16; 65], group: Option<u16>)
    ensures fewer { active.new ≡ one_fewer active.old group }
{
    if let Some(group) = group {
        let group = group as usize;
        if group < 65 && active[group] > 0 {
            active[group] -= 1;
        }
    }
}

/// A call of the group was active or not, and is now or not.
fn recount(active: &mut [u16; 65], group: Option<u16>, was: bool, is: bool)
    ensures counts { active.new ≡ recount active.old group was is }
{
    match (was, is) {
        (true, false) => one_fewer(active, group),
        (false, true) => one_more(active, group),
        _ => {}
    }
}

impl RunState {
    /// Nothing, with memory for all calls and objects.
    pub fn new(heap: Global) -> Result<RunState, AllocError>
        ensures nothing { IfOk result (λ c. c ≡ empty_configuration) }
    {
        let calls = Vec::with_capacity(heap, 128)?;
        let objects = Vec::with_capacity(heap, 64)?;
        Ok(RunState {
            calls,
            objects,
            groups: 0,
            active: [0; 65],
            returned: 0,
            answered: 0,
        })
    }

    /// The call with a number.
    pub fn call(&self, number: u16) -> Option<&CallRecord>
        ensures call { option_copied result ≡ call_at self.now number }
    {
        item_at(&self.calls, number)
    }

    /// The object with a number.
    pub fn object(&self, number: u16) -> Option<&ObjectRecord>
        ensures object { option_copied result ≡ object_at self.now number }
    {
        item_at(&self.objects, number)
    }

    /// The fields of an object.
    pub fn fields(&self, number: u16) -> &[Value]
        ensures fields { result.now ≡ fields_of (object_at self.now number) }
        ensures few { length result.now ≤ 8 }
    {
        match self.object(number) {
            Some(found) => found.fields.as_slice(),
            None => &[],
        }
    }

    /// The group of an object, if it has one.
    pub fn group_of(&self, number: u16) -> Option<u16>
        ensures group { result ≡ group_of self.now number }
        ensures there { InGroups self.now.groups result }
    {
        let _groups = &self.groups;
        item_at(&self.objects, number)?.group
    }

    /// The value of a future, if it is resolved.
    pub fn value_of(&self, future: u16) -> Option<Value>
        ensures value { result ≡ value_at self.now future }
    {
        self.call(future)?.result
    }

    /// Whether a call is active in the group.
    pub fn is_busy(&self, group: Option<u16>) -> bool
        ensures busy { result ≡ is_busy self.now group }
    {
        match group {
            Some(group) => self.active.get(group as usize).copied().unwrap_or(0) > 0,
            None => false,
        }
    }

    /// How many calls there are.
    pub fn calls(&self) -> u16
        ensures calls { result ≡ length self.now.calls }
        ensures few { result ≤ 128 }
    {
        self.calls.len() as u16
    }

    /// How many objects there are.
    pub fn objects(&self) -> u16
        ensures objects { result ≡ length self.now.objects }
        ensures few { result ≤ 64 }
    {
        self.objects.len() as u16
    }

    /// How many groups there are.
    pub fn groups(&self) -> u16
        ensures groups { result ≡ self.now.groups }
        ensures few { result ≤ length self.now.objects }
    {
        self.groups
    }

    /// How many returns were performed.
    pub fn returned(&self) -> u16
        ensures returned { result ≡ self.now.returned }
    {
        self.returned
    }

    /// How many replies came.
    pub fn answered(&self) -> u16
        ensures answered { result ≡ self.now.answered }
    {
        self.answered
    }

    /// How many processes have not returned.
    pub fn unfinished(&self) -> u16
        ensures unfinished { result ≡ count_by (λ x. is_unfinished x.state) self.now.calls }
    {
        unfinished(&self.calls)
    }

    /// The call goes on at a statement.
    pub fn set_statement(&mut self, number: u16, next: u16)
        ensures statement { self.new ≡ call_at_statement self.old number next (call_at self.old number) }
    {
        let Some(index) = number.checked_sub(1) else {
            return;
        };
        let index = index as usize;
        if index < self.calls.len() {
            self.calls[index].statement = next;
        }
    }

    /// A value in a slot of the call.
    pub fn set_slot(&mut self, number: u16, slot: u16, value: Value)
        ensures slot { self.new ≡ call_with_slot self.old number slot value (call_at self.old number) }
    {
        let Some(index) = number.checked_sub(1) else {
            return;
        };
        let index = index as usize;
        if index < self.calls.len() {
            let call = &mut self.calls[index];
            call.slots.set(slot, value);
        }
    }

    /// A value in a field of the object.
    pub fn set_field(&mut self, number: u16, field: u16, value: Value)
        ensures field { self.new ≡ with_field self.old number field value }
    {
        let Some(index) = number.checked_sub(1) else {
            return;
        };
        let index = index as usize;
        if index < self.objects.len() {
            let object = &mut self.objects[index];
            object.fields.set(field, value);
        }
    }

    /// The call in another state, in which it has not ended.
    pub fn set_state(&mut self, number: u16, state: CallState)
        requires runs { is_ended_at (call_at self.old number) ≡ false }
        requires goes_on { is_ended state ≡ false }
        ensures state { self.new ≡ call_in_state self.old number state (call_at self.old number) }
    {
        let Some(index) = number.checked_sub(1) else {
            return;
        };
        let index = index as usize;
        if index < self.calls.len() {
            let call = &self.calls[index];
            let was = is_active(call.state);
            let group = group_of(&self.objects, call.object);
            self.calls[index].state = state;
            recount(&mut self.active, group, was, is_active(state));
        }
    }

    /// The call ends, with the value of its future, by a reply or by a return.
    pub fn end_call(&mut self, number: u16, value: Value, reply: bool)
        requires runs { is_ended_at (call_at self.old number) ≡ false }
        ensures result { self.new ≡ call_with_result self.old number value reply (call_at self.old number) }
    {
        let Some(index) = number.checked_sub(1) else {
            return;
        };
        let index = index as usize;
        if index < self.calls.len() {
            let call = &self.calls[index];
            let was = is_active(call.state);
            let group = group_of(&self.objects, call.object);
            let ended = &mut self.calls[index];
            ended.state = CallState::Ended;
            ended.result = Some(value);
            recount(&mut self.active, group, was, false);
            let answered = one_if(reply);
            let returned = one_if(!reply);
            self.answered += answered;
            self.returned += returned;
        }
    }

    /// A call more, which has not ended, of an object that is there.
    pub fn push_call(&mut self, call: CallRecord)
        requires room { length self.old.calls < 128 }
        requires object { call.object ≤ length self.old.objects }
        requires runs { is_ended call.state ≡ false }
        ensures pushed { self.new ≡ with_new_call self.old call }
    {
        let group = group_of(&self.objects, call.object);
        recount(&mut self.active, group, false, is_active(call.state));
        self.calls.push_reserved(call);
    }

    /// An object more, and with it a new group or none.
    pub fn push_object(&mut self, object: ObjectRecord, new: bool)
        requires room { length self.old.objects < 64 }
        requires group { InGroups (self.old.groups + cond new 1 0) object.group }
        ensures pushed { self.new ≡ with_new_object self.old object (self.old.groups + cond new 1 0) }
    {
        self.groups += one_if(new);
        self.objects.push_reserved(object);
    }

    /// An object more, made by an object: of an outside class in no group, else in that of its maker or in a new one.
    pub fn push_new(&mut self, class: u16, maker: u16, group: Group, outside: bool, fields: Slots)
        requires room { length self.old.objects < 64 }
        ensures pushed { self.new ≡ with_object_made self.old class (group_of self.old maker) group outside fields }
    {
        let maker = self.group_of(maker);
        let next = self.groups() + 1;
        let (group, new) = match group {
            _ if outside => (None, false),
            Group::Own => (maker, false),
            Group::New => (Some(next), true),
        };
        self.push_object(
            ObjectRecord {
                class,
                group,
                fields,
            },
            new,
        );
    }
}
