//! Calls.
ghost use Rattle.std.specs.Prelude.{◌≡◌, ◌≤◌, ◌<◌, false, true, is_some, length, IfSome};
ghost use Rattle.steps.specs.Calling.{dispatch};
ghost use Rattle.steps.specs.Configurations.{call_at};
ghost use Rattle.run_state.specs.Consistent.{is_ended_at};
ghost use Rattle.run.specs.Changes.{call_made, maker_after_call};
ghost use Rattle.run.specs.Choices.{Advances};
ghost use Rattle.run.specs.Dispatches.{dispatch_given, dispatch_is, receiver_is};
ghost use Rattle.run.specs.Messages.{message_is};
ghost use Rattle.run.specs.Rules.{call_rule, message_rule};

use crate::dispatch::{
    Dispatch, Receiver, class_at, is_outside, method_at, new_call, receiver_of, row_of_method,
    same_group,
};
use crate::message::Message;
use crate::run::Run;
use evaluation::value::Value;
use outside::outside::{Outgoing, Outside};
use run_state::values::{plain_values, sort_at};
use steps::records::CallRecord;
use steps::refusal::Refusal;
use steps::state::CallState;
use syntax::statements::{Call, Manner};

impl<'a> Run<'a> {
    /// What a call of a name on an object reaches.
    fn dispatch(&self, maker: &CallRecord, object: u16, name: u16) -> Option<Dispatch>
        ensures dispatch { dispatch_given result ≡ dispatch self.now.model maker.now self.now.at object name }
        ensures few { IfSome result (λ f. f.method.slots ≤ 8) }
        ensures there { IfSome result (λ f. object ≤ length self.now.at.objects) }
    {
        let called = self.state.object(object)?;
        let t = self.model.tables();
        let class = class_at(t, called.class)?;
        let row = row_of_method(t, &class, name)?;
        let method = method_at(t, row)?;
        let own = same_group(called.group, self.state.group_of(maker.object));
        Some(Dispatch {
            class: called.class,
            receiver: receiver_of(class.outside == 1, own),
            row,
            method,
        })
    }

    /// The maker after its call, which has this number.
    fn set_maker(
        &mut self,
        number: u16,
        manner: Manner,
        receiver: Receiver,
        target: Option<u16>,
        next: u16,
        new: u16,
    )
        requires runs { is_ended_at (call_at self.old.at number) ≡ false }
        ensures model { self.new.model ≡ self.old.model }
        ensures maker { self.new.at ≡ maker_after_call number manner (receiver_is receiver) target next new self.old.at (call_at self.old.at number) }
    {
        match (manner, receiver) {
            (Manner::Asynchronous, _) => self.store(number, target, Value::Future(new), next),
            (Manner::Synchronous, Receiver::OwnGroup) => {
                self.set_state(number, CallState::Calling(new));
            }
            (Manner::Synchronous, _) => self.set_state(number, CallState::Active(Some(new))),
        }
    }

    /// A call more, and its maker after that.
    fn make_call(
        &mut self,
        number: u16,
        target: Option<u16>,
        manner: Manner,
        next: u16,
        message: &Message,
        dispatch: &Dispatch,
    )
        requires runs { is_ended_at (call_at self.old.at number) ≡ false }
        requires there { is_some (call_at self.old.at number) ≡ true }
        requires room { length self.old.at.calls < 128 }
        requires object { message.now.object ≤ length self.old.at.objects }
        requires slots { dispatch.now.method.slots ≤ 8 }
        ensures model { self.new.model ≡ self.old.model }
        ensures call { self.new.at ≡ call_made self.old.model number target manner next (message_is message.now) (dispatch_is dispatch.now) self.old.at (call_at self.old.at number) }
    {
        let new = self.state.calls() + 1;
        let call = new_call(self.model.tables(), message, dispatch, number, manner);
        self.push_call(call);
        self.set_maker(number, manner, dispatch.receiver, target, next, new);
    }

    /// A call by a message. A refusal leaves the run as it was.
    fn call_by_message<O: Outside>(
        &mut self,
        outside: &mut O,
        number: u16,
        target: Option<u16>,
        call: Call,
        next: u16,
        message: Message,
    ) -> Result<(), Refusal>
        requires runs { is_ended_at (call_at self.old.at number) ≡ false }
        requires room { length self.old.at.calls < 128 }
        ensures model { self.new.model ≡ self.old.model }
        ensures advances { Advances O.Outside (message_rule target call next (message_is message)) self.old outside.old number result self.new outside.new }
    {
        let Some(maker) = self.state.call(number) else {
            return Err(Refusal::NoSuchCall);
        };
        let Some(dispatch) = self.dispatch(maker, message.object, call.name) else {
            return Err(Refusal::NoSuchCall);
        };
        if !is_outside(dispatch.receiver) {
            self.make_call(number, target, call.manner, next, &message, &dispatch);
            return Ok(());
        }
        let arguments = plain_values(message.arguments.as_slice());
        let outgoing = Outgoing {
            call: self.state.calls() + 1,
            class: dispatch.class,
            object: message.object,
            sort: sort_at(self.model.tables(), dispatch.method.result),
            arguments: arguments.as_slice(),
        };
        if !outside.take(outgoing) {
            return Err(Refusal::NotTaken);
        }
        self.make_call(number, target, call.manner, next, &message, &dispatch);
        Ok(())
    }

    /// A call. A refusal may leave cells behind the earlier ones.
    pub(crate) fn call<O: Outside>(
        &mut self,
        outside: &mut O,
        number: u16,
        target: Option<u16>,
        call: Call,
        next: u16,
    ) -> Result<(), Refusal>
        requires runs { is_ended_at (call_at self.old.at number) ≡ false }
        ensures model { self.new.model ≡ self.old.model }
        ensures advances { Advances O.Outside (call_rule target call next) self.old outside.old number result self.new outside.new }
    {
        let message = match self.message(number, call.object, call.arguments) {
            Ok(message) => message,
            Err(refusal) => return Err(refusal),
        };
        let Some(message) = message else {
            return Err(Refusal::NullObject);
        };
        if self.state.calls() >= 128 {
            return Err(Refusal::NoCallLeft);
        }
        self.call_by_message(outside, number, target, call, next, message)
    }
}
