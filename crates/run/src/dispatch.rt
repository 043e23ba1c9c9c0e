//! What a message reaches, and the call that it makes.
ghost use Rattle.std.specs.Prelude.{◌≡◌, ◌≤◌, false, IfSome};
ghost use Rattle.std.specs.List.{slice_get};
ghost use Rattle.tables.specs.Layout.{content};
ghost use Rattle.model.specs.Rules.{NoPlaceBreaks};
ghost use Rattle.loading.specs.Accepted.{IsAccepted};
ghost use Rattle.steps.specs.declared.records.CallRecord.{CallRecord};
ghost use Rattle.steps.specs.Calling.{row_of_method, new_call, receiver};
ghost use Rattle.steps.specs.Configurations.{same_group};
ghost use Rattle.steps.specs.States.{is_ended};
ghost use Rattle.run.specs.Dispatches.{is_outside, receiver_is};
ghost use Rattle.run.specs.Messages.{message_is};

use crate::message::Message;
use rules::search::part;
use run_state::values::{method_position, with_defaults};
use steps::records::CallRecord;
use steps::state::CallState;
use syntax::statements::Manner;
use tables::rows::{ClassRow, MethodRow};
use tables::tables::Tables;

/// Where an object stands that is called.
#[derive(Clone, Copy, PartialEq, Eq, Debug)]
pub enum Receiver {
    /// It is of an outside class.
    Outside,
    /// It is in its caller's group.
    OwnGroup,
    /// It is in another group.
    OtherGroup,
}

/// The class of the object that is called, where it stands, and the class's method of the name, with its row.
#[derive(Clone, Copy)]
pub struct Dispatch {
    pub class: u16,
    pub receiver: Receiver,
    pub row: u16,
    pub method: MethodRow,
}

/// Where an object stands, of an outside class or not, and in its caller's group or not.
pub fn receiver_of(outside: bool, own: bool) -> Receiver
    ensures receiver { receiver_is result ≡ receiver outside own }
{
    match (outside, own) {
        (true, _) => Receiver::Outside,
        (false, true) => Receiver::OwnGroup,
        (false, false) => Receiver::OtherGroup,
    }
}

/// Whether an outside takes the call.
pub fn is_outside(receiver: Receiver) -> bool
    ensures outside { result ≡ is_outside (receiver_is receiver) }
{
    matches!(receiver, Receiver::Outside)
}

/// Whether both groups are there and are the same.
pub fn same_group(a: Option<u16>, b: Option<u16>) -> bool
    ensures same { result ≡ same_group a b }
{
    match (a, b) {
        (Some(a), Some(b)) => a == b,
        _ => false,
    }
}

fn class_row(t: &Tables, row: u16) -> Option<ClassRow>
    ensures class { result ≡ slice_get (content t.now).classes row }
{
    t.classes.get(row as usize).copied()
}

/// The class in a row.
pub fn class_at(t: &Tables, row: u16) -> Option<ClassRow>
    requires accepted { IsAccepted (content t.now) }
    ensures class { result ≡ slice_get (content t.now).classes row }
    ensures few { IfSome result (λ k. k.fields ≤ 8) }
{
    let class = class_row(t, row)?;
    Some(class)
}

fn read_method(t: &Tables, row: u16) -> Option<MethodRow>
    ensures method { result ≡ slice_get (content t.now).methods row }
{
    t.methods.get(row as usize).copied()
}

/// The method in a row.
pub fn method_at(t: &Tables, row: u16) -> Option<MethodRow>
    requires places { NoPlaceBreaks (content t.now) }
    ensures method { result ≡ slice_get (content t.now).methods row }
    ensures few { IfSome result (λ y. y.slots ≤ 8) }
{
    let method = read_method(t, row)?;
    Some(method)
}

/// The row of the class's method of a name.
pub fn row_of_method(t: &Tables, class: &ClassRow, name: u16) -> Option<u16>
    requires accepted { IsAccepted (content t.now) }
    ensures row { result ≡ row_of_method (content t.now) class.now name }
{
    let methods = part(
        &t.methods,
        class.methods_first as usize,
        class.methods_count as usize,
    );
    let position = method_position(methods, name)?;
    Some(class.methods_first + position)
}

/// A new call.
pub fn new_call(
    t: &Tables,
    message: &Message,
    dispatch: &Dispatch,
    maker: u16,
    manner: Manner,
) -> CallRecord
    requires accepted { IsAccepted (content t.now) }
    requires slots { dispatch.now.method.slots ≤ 8 }
    ensures call { (x : CallRecord) → result ≡ new_call (content t.now) maker x (message_is message.now) dispatch.now.row dispatch.now.method manner (receiver_is dispatch.now.receiver) }
    ensures runs { is_ended result.state ≡ false }
    ensures object { result.object ≡ message.now.object }
{
    let slots = with_defaults(
        t,
        message.arguments.as_slice(),
        dispatch.method.slots_first,
        dispatch.method.slots,
    );
    let (state, caller) = match (dispatch.receiver, manner) {
        (Receiver::Outside, _) => (CallState::Outside, None),
        (Receiver::OwnGroup, Manner::Synchronous) => (CallState::Active(None), Some(maker)),
        _ => (CallState::Sent, None),
    };
    CallRecord {
        object: message.object,
        method: dispatch.row,
        slots,
        statement: dispatch.method.statements_first,
        state,
        caller,
        result: None,
    }
}
