//! Values of new objects and new calls, and values that go to an outside and come from it.
ghost use Rattle.std.specs.Prelude.{◌≡◌, ◌+◌, ◌≤◌, ◌++◌, length, map, drop, nat_eq};
ghost use Rattle.std.specs.List.{position};
ghost use Rattle.rules.specs.Words.{part};
ghost use Rattle.syntax.specs.Types.{type_at};
ghost use Rattle.tables.specs.Layout.{content};
ghost use Rattle.typing.specs.Scopes.{entry_type};
ghost use Rattle.loading.specs.Accepted.{IsAccepted};
ghost use Rattle.steps.specs.Crossing.{known_sort, plain_of, same_sort, sort_of_type, value_of_plain};
ghost use Rattle.steps.specs.Defaults.{first_constructor, default_of, known_default, with_defaults};
ghost use Rattle.run_state.specs.Outgoing.{plain_list, with_plain};

use evaluation::value::Value;
use outside::value::{PlainValue, Sort};
use rules::search::listed;
use steps::records::Slots;
use syntax::types::{ValueType, type_at};
use tables::rows::{ConstructorRow, ListRow, MethodRow};
use tables::tables::Tables;

/// A value that comes from an outside.
pub fn value_of_plain(value: PlainValue) -> Value
    ensures value { result ≡ value_of_plain value }
{
    match value {
        PlainValue::Unit => Value::Unit,
        PlainValue::Bool(b) => Value::Bool(b),
        PlainValue::Int(n) => Value::Int(n),
    }
}

/// A value as it goes to an outside.
pub fn plain_of(value: Value) -> PlainValue
    ensures plain { result ≡ plain_of value }
{
    match value {
        Value::Bool(b) => PlainValue::Bool(b),
        Value::Int(n) => PlainValue::Int(n),
        _ => PlainValue::Unit,
    }
}

/// The sort of a type.
fn sort_of_type(t: ValueType) -> Sort
    ensures sort { result ≡ sort_of_type t }
{
    match t {
        ValueType::Bool => Sort::Bool,
        ValueType::Int => Sort::Int,
        _ => Sort::Unit,
    }
}

/// The sort of a type, by its row.
pub fn sort_at(t: &Tables, row: u16) -> Sort
    ensures sort { result ≡ known_sort (type_at (content t.now) row) }
{
    match type_at(t, row) {
        Some(found) => sort_of_type(found),
        None => Sort::Unit,
    }
}

/// Whether the sorts are the same.
pub fn same_sort(a: Sort, b: Sort) -> bool
    ensures same { result ≡ same_sort a b }
{
    match (a, b) {
        (Sort::Unit, Sort::Unit) | (Sort::Bool, Sort::Bool) | (Sort::Int, Sort::Int) => true,
        _ => false,
    }
}

/// The position of the first constructor of a data.
fn constructor_position(constructors: &[ConstructorRow], number: u16) -> Option<u16>
    requires few { length constructors.now ≤ 255 }
    ensures first { result ≡ position (λ k. nat_eq k.number number) constructors.now }
{
    let mut row = 0;
    for constructor in constructors {
        if constructor.number == number {
            return Some(row);
        }
        row += 1;
    }
    None
}

/// The position of the first method of a name.
pub fn method_position(methods: &[MethodRow], name: u16) -> Option<u16>
    requires few { length methods.now ≤ 255 }
    ensures first { result ≡ position (λ y. nat_eq y.name name) methods.now }
{
    let mut row = 0;
    for method in methods {
        if method.name == name {
            return Some(row);
        }
        row += 1;
    }
    None
}

/// The first constructor of a data.
fn first_constructor(t: &Tables, number: u16) -> u16
    requires accepted { IsAccepted (content t.now) }
    ensures first { result ≡ first_constructor (content t.now) number }
{
    constructor_position(&t.constructors, number).unwrap_or(0)
}

/// The default of a type.
fn default_of(t: &Tables, of: ValueType) -> Value
    requires accepted { IsAccepted (content t.now) }
    ensures default { result ≡ default_of (content t.now) of }
{
    match of {
        ValueType::Unit => Value::Unit,
        ValueType::Bool => Value::Bool(false),
        ValueType::Int => Value::Int(0),
        ValueType::Data(number) => Value::Constant(first_constructor(t, number)),
        ValueType::Interface(_) | ValueType::Future(_) => Value::Null,
    }
}

/// The default of a type, by its row.
fn default_at(t: &Tables, row: u16) -> Value
    requires accepted { IsAccepted (content t.now) }
    ensures default { result ≡ known_default (content t.now) (type_at (content t.now) row) }
{
    match type_at(t, row) {
        Some(of) => default_of(t, of),
        None => Value::Unit,
    }
}

/// The values behind those that are there.
fn push_all(slots: &mut Slots, values: &[Value])
    requires few { length slots.old + length values.now ≤ 8 }
    ensures pushed { slots.new ≡ slots.old ++ values.now }
{
    for value in values {
        slots.push(*value);
    }
}

/// The defaults of entries behind the values that are there.
fn push_defaults(slots: &mut Slots, t: &Tables, entries: &[ListRow])
    requires accepted { IsAccepted (content t.now) }
    requires few { length slots.old + length entries.now ≤ 8 }
    ensures pushed { slots.new ≡ slots.old ++ map (λ x. known_default (content t.now) (entry_type (content t.now) x)) entries.now }
{
    for entry in entries {
        slots.push(default_at(t, entry.entry));
    }
}

/// The entries but for the first ones.
fn entries_from(entries: &[ListRow], first: usize) -> &[ListRow]
    ensures rest { result.now ≡ drop first entries.now }
{
    if first < entries.len() {
        &entries[first..]
    } else {
        &[]
    }
}

/// Values for the first entries of a list, and defaults for the others.
pub fn with_defaults(t: &Tables, values: &[Value], first: u16, count: u16) -> Slots
    requires accepted { IsAccepted (content t.now) }
    requires few { length values.now ≤ 4 }
    requires slots { count ≤ 8 }
    ensures slots { result ≡ with_defaults (content t.now) values.now (part first count (content t.now).lists) }
{
    let mut slots = Slots::new();
    push_all(&mut slots, values);
    push_defaults(
        &mut slots,
        t,
        entries_from(listed(t, first, count), values.len()),
    );
    slots
}

/// Four plain values at most.
#[derive(Clone, Copy)]
pub struct PlainValues {
    values: [PlainValue; 4],
    count: usize,
}

impl PlainValues {
    fn push(&mut self, value: PlainValue)
        ensures more { plain_list self.new ≡ with_plain (plain_list self.old) value }
    {
        if self.count < 4 {
            self.values[self.count] = value;
            self.count += 1;
        }
    }

    pub fn as_slice(&self) -> &[PlainValue]
        ensures values { result.now ≡ plain_list self.now }
    {
        self.values.get(..self.count).unwrap_or(&self.values)
    }
}

/// The values as they go to an outside.
pub fn plain_values(values: &[Value]) -> PlainValues
    requires few { length values.now ≤ 4 }
    ensures plain { plain_list result ≡ map plain_of values.now }
{
    let mut all = PlainValues {
        values: [PlainValue::Unit; 4],
        count: 0,
    };
    for value in values {
        all.push(plain_of(*value));
    }
    all
}
