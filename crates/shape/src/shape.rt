//! Rule 5, Shape: whether types, names, defaults, classes and methods have their shape.
ghost use Rattle.std.specs.Prelude.{◌≡◌, ◌<◌, ◌≤◌, true, false, ◌||◌, fold, length, take, IfOk, IfSome, ◌==◌, nat_eq};
ghost use Rattle.std.specs.List.{list_any};
ghost use Rattle.shape.specs.Earliest.{lowered, earliest_from, AreEnds};
ghost use Rattle.tables.specs.Layout.{content};
ghost use Rattle.rules.specs.Types.{same_type};
ghost use Rattle.shape.specs.Shape.{type_shape, constructor_shape, signature_fault, not_interface, not_main, not_first, class_shape, not_plain, outside_method_shape, inside_method_shape, repeats_name, method_shape_in, method_shape_of, method_shape, shape_broken};
ghost use Rattle.rules.specs.Faults.{fault_in, rule_fault, places};
ghost use Rattle.placement.specs.Holders.{method_classes};
ghost use Rattle.rules.specs.Words.{at, part, between};
ghost use Rattle.tables.specs.declared.place.TableRule.TheVariants.{Shape};

use placement::holder;
use placement::holders::method_classes;
use rules::faults::{RowTest, Tablewise, first_row, first_table};
use rules::search::{listed, part};
use rules::types::{is_interface, is_plain, is_unit, same_type};
use std::alloc::{AllocError, Global};
use tables::place::{Fault, Place, Table, TableRule};
use tables::rows::{
    ClassRow, ConstructorRow, InterfaceRow, ListRow, MethodRow, SignatureRow, TypeRow,
};
use tables::tables::Tables;

/// The rule over the tables of a model, with the class of each method, and with what memory is taken from for the signatures.
#[derive(Clone, Copy)]
struct ShapeRule<'a> {
    heap: Global,
    t: &'a Tables,
    classes: &'a [Option<Place>],
    ghost classes_held: { classes.now ≡ method_classes (content t.now) },
}

/// Whether the type is this one, or was found before.
fn found_or_same(found: bool, x: TypeRow, y: TypeRow) -> bool
    ensures found { result ≡ (found || same_type x y) }
{
    found | same_type(x, y)
}

/// Whether the type is among these.
fn is_among(types: &[TypeRow], x: TypeRow) -> bool
    ensures among { result ≡ fold (λ found y. found || same_type x y) false types.now }
{
    // not `any`: with no stop at the first such row, several rows are compared at once
    types
        .iter()
        .fold(false, |found, y| found_or_same(found, x, *y))
}

impl RowTest<TypeRow> for ShapeRule<'_> {
    ghost broken = { λ s r x. type_shape (content s.t.now) r x };

    fn breaks(&self, row: usize, x: TypeRow) -> bool {
        is_among(part(&self.t.types, 0, row), x)
    }
}

/// Whether a constructor before this row is of the data of this number.
fn has_earlier(t: &Tables, row: usize, number: u16) -> bool
    ensures earlier { result ≡ list_any (λ y. nat_eq y.number number) (take row (content t.now).constructors) }
{
    part(&t.constructors, 0, row)
        .iter()
        .any(|y| y.number == number)
}

impl RowTest<ConstructorRow> for ShapeRule<'_> {
    ghost broken = { λ s r x. constructor_shape (content s.t.now) r x };

    fn breaks(&self, row: usize, x: ConstructorRow) -> bool {
        x.count > 0 && !has_earlier(self.t, row, x.number)
    }
}

/// The lower of this row and the interface's first, where the interface holds the row.
fn lowered(low: usize, row: usize, interface: InterfaceRow) -> usize
    ensures lowered { result ≡ lowered row low interface }
{
    let first = interface.first as usize;
    if first <= row && row < first + interface.count as usize {
        low.min(first)
    } else {
        low
    }
}

/// The earliest signature that an interface holds together with this one, or this one.
fn earliest(interfaces: &[InterfaceRow], row: usize) -> usize
    ensures earliest { result ≡ earliest_from row row interfaces.now }
{
    interfaces
        .iter()
        .fold(row, |low, interface| lowered(low, row, *interface))
}

/// For each signature, where the longest interface that begins with it ends; 0 where none begins with it.
fn latest_ends(heap: Global, t: &Tables) -> Result<Vec<usize>, AllocError>
    ensures ends { IfOk result (λ v. AreEnds v.items (content t.now)) }
{
    let mut ends = vec![in heap; 0; t.signatures.len()]?;
    for interface in &t.interfaces {
        let first = interface.first as usize;
        if first < ends.len() {
            // by its index: the contract of `get_mut` does not say what the slice holds after a write
            ends[first] = ends[first].max(first + interface.count as usize);
        }
    }
    Ok(ends)
}

/// What `earliest` answers, where that is none before `first`, by where the interfaces end.
fn earliest_since(t: &Tables, ends: Option<&[usize]>, first: usize, row: usize) -> usize
    requires there { row < length (content t.now).signatures }
    requires ends { IfSome ends (λ v. AreEnds v.now (content t.now)) }
    requires passed { first ≤ earliest_from row row (content t.now).interfaces }
    ensures earliest { result ≡ earliest_from row row (content t.now).interfaces }
{
    let Some(ends) = ends else {
        return earliest(&t.interfaces, row);
    };
    for earlier in first..row {
        if ends[earlier] > row {
            return earlier;
        }
    }
    row
}

/// Whether a signature before this row, from the first of these on, has this name.
// Not one function with `repeats_name`: the rows are of two types, and a trait for their name is longer than a second closure.
fn named_between(t: &Tables, first: usize, row: usize, name: u16) -> bool
    ensures named { result ≡ list_any (λ y. nat_eq y.name name) (between first row (content t.now).signatures) }
{
    part(&t.signatures, first, row.saturating_sub(first))
        .iter()
        .any(|y| y.name == name)
}

/// The first signature that breaks the rule.
// A look at all interfaces for each signature would compare every pair: where there are many, one look at each tells where it ends.
fn signature_fault(heap: Global, t: &Tables) -> Option<Fault<TableRule>>
    ensures first { result ≡ signature_fault (content t.now) }
{
    if t.interfaces.is_empty() {
        return None;
    }
    // so many looks at all interfaces cost what it costs to find where they end, with 64 for the memory
    let looks = t.signatures.len().saturating_add(64) / t.interfaces.len() + 2;
    let mut ends = None;
    let mut first = 0;
    for (row, x) in t.signatures.iter().enumerate() {
        if row == looks {
            ends = latest_ends(heap, t).ok();
        }
        first = earliest_since(t, ends.as_deref(), first, row);
        if named_between(t, first, row, x.name) {
            return Some(Fault {
                rule: TableRule::Shape,
                table: Table::Signatures,
                row,
            });
        }
    }
    None
}

// Not one function with `not_plain`: over the question it would have to say in its contract which definition that computes.
fn not_interface(t: &Tables, x: ListRow) -> bool
    ensures other { result ≡ not_interface (content t.now) x }
{
    !t.types
        .get(x.entry as usize)
        .is_some_and(|y| is_interface(*y))
}

/// Whether class 0 may not have the method as its first.
fn not_main(t: &Tables, x: MethodRow) -> bool
    ensures main { result ≡ not_main (content t.now) x }
{
    x.parameters > 0 || !t.types.get(x.result as usize).is_some_and(|y| is_unit(*y))
}

/// Whether the first method of the class may not be the first of class 0.
fn begins_other(t: &Tables, x: ClassRow) -> bool
    ensures other { result ≡ at (content t.now).methods x.methods_first (not_main (content t.now)) }
{
    t.methods
        .get(x.methods_first as usize)
        .is_some_and(|y| not_main(t, *y))
}

fn not_first(t: &Tables, x: ClassRow) -> bool
    ensures first { result ≡ not_first (content t.now) x }
{
    x.outside == 1 || x.fields > 0 || x.methods_count == 0 || begins_other(t, x)
}

fn lists_other(t: &Tables, x: ClassRow) -> bool
    ensures other { result ≡ list_any (not_interface (content t.now)) (part x.interfaces_first x.interfaces_count (content t.now).lists) }
{
    listed(t, x.interfaces_first, x.interfaces_count)
        .iter()
        .any(|y| not_interface(t, *y))
}

impl RowTest<ClassRow> for ShapeRule<'_> {
    ghost broken = { λ s r x. class_shape (content s.t.now) r x };

    fn breaks(&self, row: usize, x: ClassRow) -> bool {
        lists_other(self.t, x) || x.outside == 1 && x.fields > 0 || row == 0 && not_first(self.t, x)
    }
}

fn not_plain(t: &Tables, x: ListRow) -> bool
    ensures other { result ≡ not_plain (content t.now) x }
{
    !t.types.get(x.entry as usize).is_some_and(|y| is_plain(*y))
}

fn takes_other(t: &Tables, x: MethodRow) -> bool
    ensures other { result ≡ list_any (not_plain (content t.now)) (part x.slots_first x.parameters (content t.now).lists) }
{
    listed(t, x.slots_first, x.parameters)
        .iter()
        .any(|y| not_plain(t, *y))
}

fn outside_method_shape(t: &Tables, x: MethodRow) -> bool
    ensures shape { result ≡ outside_method_shape (content t.now) x }
{
    x.statements_count > 0
        || !t.types.get(x.result as usize).is_some_and(|y| is_plain(*y))
        || takes_other(t, x)
}

fn inside_method_shape(x: MethodRow) -> bool
    ensures shape { result ≡ inside_method_shape x }
{
    x.statements_count == 0
}

fn repeats_name(t: &Tables, row: usize, x: MethodRow, class: ClassRow) -> bool
    ensures repeats { result ≡ repeats_name (content t.now) row x class }
{
    let first = class.methods_first as usize;
    part(&t.methods, first, row.saturating_sub(first))
        .iter()
        .any(|y| y.name == x.name)
}

// A row with its number stays two parameters, as in the tests of rows.
fn method_shape_in(t: &Tables, row: usize, x: MethodRow, class: ClassRow) -> bool
    ensures shape { result ≡ method_shape_in (content t.now) row x class }
{
    repeats_name(t, row, x, class)
        || if class.outside == 1 {
            outside_method_shape(t, x)
        } else {
            inside_method_shape(x)
        }
}

fn method_shape_of(t: &Tables, row: usize, x: MethodRow, class: Option<Place>) -> bool
    ensures shape { result ≡ method_shape_of (content t.now) row x class }
{
    match class {
        None => inside_method_shape(x),
        Some(place) => t
            .classes
            .get(place.row)
            .is_some_and(|class| method_shape_in(t, row, x, *class)),
    }
}

impl RowTest<MethodRow> for ShapeRule<'_> {
    ghost broken = { λ s r x. method_shape (content s.t.now) (method_classes (content s.t.now)) r x };

    fn breaks(&self, row: usize, x: MethodRow) -> bool {
        method_shape_of(self.t, row, x, holder(self.classes, row))
    }
}

impl Tablewise for ShapeRule<'_> {
    ghost faults = { λ s table. fault_in Shape (shape_broken (content s.t.now)) (places (content s.t.now)) table };

    fn in_table(&self, table: Table) -> Option<Fault<TableRule>> {
        let rule = TableRule::Shape;
        match table {
            Table::Types => first_row(&self.t.types, self, rule, table),
            Table::Constructors => first_row(&self.t.constructors, self, rule, table),
            Table::Signatures => signature_fault(self.heap, self.t),
            // class 0 has to be there
            Table::Classes if self.t.classes.is_empty() => Some(Fault {
                rule,
                table,
                row: 0,
            }),
            Table::Classes => first_row(&self.t.classes, self, rule, table),
            Table::Methods => first_row(&self.t.methods, self, rule, table),
            Table::Header
            | Table::Lists
            | Table::Functions
            | Table::Interfaces
            | Table::Nodes
            | Table::Branches
            | Table::Statements => None,
        }
    }
}

/// The first place that breaks the rule of shape.
pub fn first_fault(heap: Global, t: &Tables) -> Result<Option<Fault<TableRule>>, AllocError>
    ensures first { IfOk result (λ v. v ≡ rule_fault Shape (shape_broken (content t.now)) (places (content t.now))) }
{
    let classes = method_classes(heap, t)?;
    Ok(first_table(&ShapeRule {
        heap,
        t,
        classes: &classes,
    }))
}
