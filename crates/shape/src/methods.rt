//! Rule 6, Method: whether a class lacks a method for a signature of its interfaces.
ghost use Rattle.std.specs.Prelude.{◌≡◌, ℕ, Bool};
ghost use Rattle.std.specs.List.{list_any, list_all, zip};
ghost use Rattle.tables.specs.Layout.{content};
ghost use Rattle.rules.specs.Words.{part};
ghost use Rattle.shape.specs.Methods.{same_type_at, same_types, fits, lacks_signature, lacks_interface, lacks_type, lacks_listed, class_method, method_broken};
ghost use Rattle.rules.specs.Faults.{fault_in, rule_fault, places};
ghost use Rattle.tables.specs.declared.place.TableRule.TheVariants.{Method};

use rules::faults::{RowTest, Tablewise, first_row, first_table};
use rules::search::{listed, part};
use rules::types::{is_interface, same_type};
use tables::place::{Fault, Table, TableRule};
use tables::rows::{ClassRow, InterfaceRow, ListRow, MethodRow, SignatureRow, TypeRow};
use tables::tables::Tables;

fn same_type_at(t: &Tables, i: u16, j: u16) -> bool
    ensures same { result ≡ same_type_at (content t.now) i j }
{
    // not `zip` with `is_some_and`, which did not prove
    match (t.types.get(i as usize), t.types.get(j as usize)) {
        (Some(x), Some(y)) => same_type(*x, *y),
        _ => false,
    }
}

/// Whether the entries are the same types, as far as both lists have some.
fn same_entries(t: &Tables, xs: &[ListRow], ys: &[ListRow]) -> bool
    ensures same { result ≡ list_all (λ p. same_type_at (content t.now) p.0.entry p.1.entry) (zip xs.now ys.now) }
{
    xs.iter()
        .zip(ys)
        .all(|(x, y)| same_type_at(t, x.entry, y.entry))
}

fn same_types(t: &Tables, xs: &[ListRow], ys: &[ListRow]) -> bool
    ensures same { result ≡ same_types (content t.now) xs.now ys.now }
{
    xs.len() == ys.len() && same_entries(t, xs, ys)
}

fn same_parameters(t: &Tables, s: SignatureRow, x: MethodRow) -> bool
    ensures same { result ≡ same_types (content t.now) (part s.first s.count (content t.now).lists) (part x.slots_first x.parameters (content t.now).lists) }
{
    let wanted = listed(t, s.first, s.count);
    let taken = listed(t, x.slots_first, x.parameters);
    same_types(t, wanted, taken)
}

/// Whether the method is as the signature says.
fn fits(t: &Tables, s: SignatureRow, x: MethodRow) -> bool
    ensures fits { result ≡ fits (content t.now) s x }
{
    x.name == s.name && same_type_at(t, s.result, x.result) && same_parameters(t, s, x)
}

/// Whether a method of the class is as the signature says.
fn has_method(t: &Tables, class: ClassRow, s: SignatureRow) -> bool
    ensures has { result ≡ list_any (fits (content t.now) s) (part class.methods_first class.methods_count (content t.now).methods) }
{
    let methods = part(
        &t.methods,
        class.methods_first as usize,
        class.methods_count as usize,
    );
    methods.iter().any(|x| fits(t, s, *x))
}

// `t` and `class` stay two parameters: a struct of both would be as long as these functions, which say nothing else of it.

fn lacks_signature(t: &Tables, class: ClassRow, s: SignatureRow) -> bool
    ensures lacks { result ≡ lacks_signature (content t.now) class s }
{
    !has_method(t, class, s)
}

fn lacks_interface(t: &Tables, class: ClassRow, x: InterfaceRow) -> bool
    ensures lacks { result ≡ lacks_interface (content t.now) class x }
{
    part(&t.signatures, x.first as usize, x.count as usize)
        .iter()
        .any(|s| lacks_signature(t, class, *s))
}

fn lacks_type(t: &Tables, class: ClassRow, x: TypeRow) -> bool
    ensures lacks { result ≡ lacks_type (content t.now) class x }
{
    is_interface(x)
        && t.interfaces
            .get(x.reference as usize)
            .is_some_and(|y| lacks_interface(t, class, *y))
}

fn lacks_listed(t: &Tables, class: ClassRow, x: ListRow) -> bool
    ensures lacks { result ≡ lacks_listed (content t.now) class x }
{
    t.types
        .get(x.entry as usize)
        .is_some_and(|y| lacks_type(t, class, *y))
}

/// The rule over the tables of a model.
#[derive(Clone, Copy)]
struct MethodRule<'a>(&'a Tables);

impl RowTest<ClassRow> for MethodRule<'_> {
    ghost broken = { λ s r x. class_method (content s.0.now) x };

    fn breaks(&self, _row: usize, class: ClassRow) -> bool {
        listed(self.0, class.interfaces_first, class.interfaces_count)
            .iter()
            .any(|x| lacks_listed(self.0, class, *x))
    }
}

impl Tablewise for MethodRule<'_> {
    ghost faults = { λ s table. fault_in Method (method_broken (content s.0.now)) (places (content s.0.now)) table };

    fn in_table(&self, table: Table) -> Option<Fault<TableRule>> {
        match table {
            Table::Classes => first_row(&self.0.classes, self, TableRule::Method, table),
            Table::Header
            | Table::Types
            | Table::Lists
            | Table::Constructors
            | Table::Functions
            | Table::Interfaces
            | Table::Signatures
            | Table::Methods
            | Table::Nodes
            | Table::Branches
            | Table::Statements => None,
        }
    }
}

/// The first class that lacks a method.
pub fn first_fault(t: &Tables) -> Option<Fault<TableRule>>
    ensures first { result ≡ rule_fault Method (method_broken (content t.now)) (places (content t.now)) }
{
    first_table(&MethodRule(t))
}
