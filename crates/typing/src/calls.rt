//! What a call reaches.
ghost use Rattle.std.specs.Prelude.{◌≡◌};
ghost use Rattle.tables.specs.Layout.{content};
ghost use Rattle.typing.specs.Statements.{method_heading, signature_heading, method_named, signature_in, signature_named, given_by, value_of, awaitable, heading_parameters, class_parameters};

use rules::search::{listed, part};
use syntax::statements::Manner;
use syntax::types::{ValueType, type_at};
use tables::rows::{ClassRow, InterfaceRow, ListRow, MethodRow, SignatureRow};
use tables::tables::Tables;

/// The heading of a method or a signature: its parameters, a range of the lists, and its result, a row of the types.
#[derive(Clone, Copy)]
pub struct Heading {
    pub first: u16,
    pub count: u16,
    pub result: u16,
}

impl From<MethodRow> for Heading {
    ghost from_gives = { λ method r. r ≡ method_heading method };

    fn from(method: MethodRow) -> Heading {
        Heading {
            first: method.slots_first,
            count: method.parameters,
            result: method.result,
        }
    }
}

impl From<SignatureRow> for Heading {
    ghost from_gives = { λ signature r. r ≡ signature_heading signature };

    fn from(signature: SignatureRow) -> Heading {
        Heading {
            first: signature.first,
            count: signature.count,
            result: signature.result,
        }
    }
}

/// The method of this name in the class.
pub(crate) fn method_named(t: &Tables, class: ClassRow, name: u16) -> Option<Heading>
    ensures named { result ≡ method_named (content t.now) class name }
{
    let methods = part(
        t.methods.as_slice(),
        class.methods_first as usize,
        class.methods_count as usize,
    );
    methods
        .iter()
        .find(|method| method.name == name)
        .map(|method| Heading::from(*method))
}

/// The signature of this name in the interface.
// Not one function with `method_named`: the rows are of two types, and a trait for their name is longer than a second closure.
fn signature_in(t: &Tables, interface: InterfaceRow, name: u16) -> Option<Heading>
    ensures named { result ≡ signature_in (content t.now) interface name }
{
    let signatures = part(
        t.signatures.as_slice(),
        interface.first as usize,
        interface.count as usize,
    );
    signatures
        .iter()
        .find(|signature| signature.name == name)
        .map(|signature| Heading::from(*signature))
}

/// The signature of this name in the type, if that is an interface.
pub(crate) fn signature_named(t: &Tables, of: ValueType, name: u16) -> Option<Heading>
    ensures named { result ≡ signature_named (content t.now) of name }
{
    let ValueType::Interface(interface) = of else {
        return None;
    };
    let interface = t.interfaces.get(interface as usize).copied()?;
    signature_in(t, interface, name)
}

/// What a call gives, whose method has this result.
pub(crate) fn given_by(t: &Tables, manner: Manner, res: u16) -> Option<ValueType>
    ensures given { result ≡ given_by (content t.now) manner res }
{
    match manner {
        Manner::Asynchronous => Some(ValueType::Future(res)),
        Manner::Synchronous => type_at(t, res),
    }
}

/// The type of a future's value.
pub(crate) fn value_of(t: &Tables, of: ValueType) -> Option<ValueType>
    ensures value { result ≡ value_of (content t.now) of }
{
    match of {
        ValueType::Future(value) => type_at(t, value),
        _ => None,
    }
}

/// Whether an await may name a slot of this type.
pub(crate) fn awaitable(of: ValueType) -> bool
    ensures awaitable { result ≡ awaitable of }
{
    matches!(of, ValueType::Bool | ValueType::Future(_))
}

pub(crate) fn heading_parameters(t: &Tables, heading: Heading) -> &[ListRow]
    ensures parameters { result.now ≡ heading_parameters (content t.now) heading }
{
    listed(t, heading.first, heading.count)
}

pub(crate) fn class_parameters(t: &Tables, class: ClassRow) -> &[ListRow]
    ensures parameters { result.now ≡ class_parameters (content t.now) class }
{
    listed(t, class.fields_first, class.parameters)
}
