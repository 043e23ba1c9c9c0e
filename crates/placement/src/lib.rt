//! Rule 4, Placement: whether a row stands too low for what it names, or names what has another place.
#![tactic(auto)]

ghost use Rattle.std.specs.Prelude.{◌≡◌, ℕ, Bool, List, IfOk, None, ◌==◌, nat_eq, slice_index_or};
ghost use Rattle.std.specs.List.{list_any};
ghost use Rattle.tables.specs.Layout.{content};
ghost use Rattle.rules.specs.Uses.{branch_uses};
ghost use Rattle.placement.specs.Holders.{reach, node_users, branch_cases, method_classes, statement_methods};
ghost use Rattle.placement.specs.Placement.{type_placement, elsewhere, repeated, reused, overlaps, function_placement, class_placement, method_placement, node_placement, above_case, branch_placement, statement_placement, placement_broken};
ghost use Rattle.rules.specs.Faults.{fault_in, rule_fault, places};
ghost use Rattle.tables.specs.declared.place.TableRule.TheVariants.{Placement};

use holders::{branch_cases, method_classes, node_users, place, reached, statement_methods};
use rules::faults::{RowTest, Tablewise, first_row, first_table};
use rules::search::part;
use rules::uses::{User, uses_from};
use std::alloc::{AllocError, Global};
use tables::kinds::TypeKind;
use tables::place::{Fault, Place, Table, TableRule};
use tables::rows::{BranchRow, ClassRow, FunctionRow, MethodRow, NodeRow, StatementRow, TypeRow};
use tables::tables::Tables;

pub mod holders;

/// Whether another row holds the thing.
fn elsewhere(by: Place, holder: Option<Place>) -> bool
    ensures elsewhere { result ≡ elsewhere by holder }
{
    holder.is_some_and(|place| place != by)
}

/// Whether the number is among the others.
// not `contains`, which compares sixteen at once: a row uses five nodes at most
fn is_among(number: u16, others: &[u16]) -> bool
    ensures among { result ≡ list_any (λ y. nat_eq y number) others.now }
{
    others.iter().any(|other| *other == number)
}

fn repeated(numbers: &[u16]) -> bool
    ensures repeated { result ≡ repeated numbers.now }
{
    match numbers {
        [first, rest @ ..] => is_among(*first, rest) || repeated(rest),
        [] => false,
    }
}

/// Whether another row uses one of the nodes.
// `users` and `by` stay two parameters: the users are those of all rows, and `by` is the place of one.
fn used_elsewhere(users: &[Option<Place>], by: Place, nodes: &[u16]) -> bool
    ensures used { result ≡ list_any (λ n. elsewhere by (slice_index_or users.now n None)) nodes.now }
{
    nodes
        .iter()
        .any(|node| elsewhere(by, holder(users, *node as usize)))
}

fn reused<U: User>(users: &[Option<Place>], by: Place, x: U) -> bool
    ensures reused { result ≡ reused users.now by (U.User.uses x) }
{
    let uses = x.uses();
    used_elsewhere(users, by, uses.as_slice()) || repeated(uses.as_slice())
}

fn overlaps(held: &[Option<Place>], by: Place, first: u16, count: usize) -> bool
    ensures overlaps { result ≡ overlaps held.now by first count }
{
    part(held, first as usize, count)
        .iter()
        .any(|holder| elsewhere(by, *holder))
}

/// The rule over the tables of a model, with the holders of nodes, branches, methods and statements.
// Four vectors and no map: each has an entry for every row of another table.
#[derive(Drop)]
struct PlacementRule<'a> {
    t: &'a Tables,
    users: Vec<Option<Place>>,
    cases: Vec<Option<Place>>,
    classes: Vec<Option<Place>>,
    methods: Vec<Option<Place>>,
    ghost users_hold: { users.items ≡ node_users (content t.now) },
    ghost cases_hold: { cases.items ≡ branch_cases (content t.now) },
    ghost classes_hold: { classes.items ≡ method_classes (content t.now) },
    ghost methods_hold: { methods.items ≡ statement_methods (content t.now) },
}

impl RowTest<TypeRow> for PlacementRule<'_> {
    ghost broken = { λ _. type_placement };

    fn breaks(&self, row: usize, x: TypeRow) -> bool {
        TypeKind::try_from(x.kind) == Ok(TypeKind::Future) && x.reference as usize >= row
    }
}

impl RowTest<FunctionRow> for PlacementRule<'_> {
    ghost broken = { λ s. function_placement (node_users (content s.t.now)) };

    fn breaks(&self, row: usize, x: FunctionRow) -> bool {
        reused(&self.users, place(Table::Functions, row), x)
    }
}

impl RowTest<ClassRow> for PlacementRule<'_> {
    ghost broken = { λ s. class_placement (method_classes (content s.t.now)) };

    fn breaks(&self, row: usize, x: ClassRow) -> bool {
        let by = place(Table::Classes, row);
        overlaps(&self.classes, by, x.methods_first, x.methods_count as usize)
    }
}

impl RowTest<MethodRow> for PlacementRule<'_> {
    ghost broken = { λ s. method_placement (statement_methods (content s.t.now)) };

    fn breaks(&self, row: usize, x: MethodRow) -> bool {
        let by = place(Table::Methods, row);
        overlaps(
            &self.methods,
            by,
            x.statements_first,
            x.statements_count as usize,
        )
    }
}

impl RowTest<NodeRow> for PlacementRule<'_> {
    ghost broken = { λ s. node_placement (content s.t.now) (node_users (content s.t.now)) (branch_cases (content s.t.now)) };

    fn breaks(&self, row: usize, x: NodeRow) -> bool {
        let by = place(Table::Nodes, row);
        uses_from(row, x)
            || reused(&self.users, by, x)
            || overlaps(&self.cases, by, x.reference, reached(&self.t.branches, x))
    }
}

fn above_case(case: Option<Place>, x: BranchRow) -> bool
    ensures above { result ≡ above_case (branch_uses x) case }
{
    case.is_some_and(|place| uses_from(place.row, x))
}

impl RowTest<BranchRow> for PlacementRule<'_> {
    ghost broken = { λ s. branch_placement (node_users (content s.t.now)) (branch_cases (content s.t.now)) };

    fn breaks(&self, row: usize, x: BranchRow) -> bool {
        let by = place(Table::Branches, row);
        above_case(holder(&self.cases, row), x) || reused(&self.users, by, x)
    }
}

impl RowTest<StatementRow> for PlacementRule<'_> {
    ghost broken = { λ s. statement_placement (node_users (content s.t.now)) };

    fn breaks(&self, row: usize, x: StatementRow) -> bool {
        reused(&self.users, place(Table::Statements, row), x)
    }
}

impl Tablewise for PlacementRule<'_> {
    ghost faults = { λ s. fault_in Placement (placement_broken (content s.t.now)) (places (content s.t.now)) };

    fn in_table(&self, table: Table) -> Option<Fault<TableRule>> {
        let rule = TableRule::Placement;
        match table {
            Table::Types => first_row(&self.t.types, self, rule, table),
            Table::Functions => first_row(&self.t.functions, self, rule, table),
            Table::Classes => first_row(&self.t.classes, self, rule, table),
            Table::Methods => first_row(&self.t.methods, self, rule, table),
            Table::Nodes => first_row(&self.t.nodes, self, rule, table),
            Table::Branches => first_row(&self.t.branches, self, rule, table),
            Table::Statements => first_row(&self.t.statements, self, rule, table),
            Table::Header
            | Table::Lists
            | Table::Constructors
            | Table::Interfaces
            | Table::Signatures => None,
        }
    }
}

/// The first place that breaks the rule.
pub fn first_fault(heap: Global, t: &Tables) -> Result<Option<Fault<TableRule>>, AllocError>
    ensures first { IfOk result (λ v. v ≡ rule_fault Placement (placement_broken (content t.now)) (places (content t.now))) }
{
    let rule = PlacementRule {
        t,
        users: node_users(heap, t)?,
        cases: branch_cases(heap, t)?,
        classes: method_classes(heap, t)?,
        methods: statement_methods(heap, t)?,
    };
    Ok(first_table(&rule))
}

/// Who holds the thing at this place, if it is there and anybody does.
pub fn holder(held: &[Option<Place>], row: usize) -> Option<Place>
    ensures holder { result ≡ slice_index_or held.now row None }
{
    held.get(row).copied().flatten()
}
