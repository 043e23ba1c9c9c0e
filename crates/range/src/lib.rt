//! Rule 3, Range: whether a row has a kind, a flag, a count, a limit, a row or a range that is not there.
#![tactic(auto)]

ghost use Rattle.std.specs.Prelude.{◌≡◌, ℕ, ◌+◌, ◌<◌, Bool, Some, List, length, ◌==◌, nat_eq, nat_lt};
ghost use Rattle.std.specs.List.{list_any};
ghost use Rattle.tables.specs.Layout.{content};
ghost use Rattle.range.specs.Range.{type_range, list_range, parameters_range, slots_range, constructor_range, uses_absent, function_range, interface_range, signature_range, class_range, method_range, node_counts, wrong_count, node_absent, node_range_as, node_range, branch_range, statement_counts, statement_absent, statement_range_as, statement_range, range_broken};
ghost use Rattle.rules.specs.Faults.{fault_in, rule_fault, places};
ghost use Rattle.tables.specs.declared.place.TableRule.TheVariants.{Range};

use rules::faults::{RowTest, Tablewise, first_row, first_table};
use rules::uses::{User, uses_from};
use tables::kinds::{NodeKind, StatementKind, TypeKind};
use tables::place::{Fault, Table, TableRule};
use tables::rows::{
    BranchRow, ClassRow, ConstructorRow, FunctionRow, InterfaceRow, ListRow, MethodRow, NodeRow,
    SignatureRow, StatementRow, TypeRow,
};
use tables::tables::Tables;

/// The rule over the tables of a model.
#[derive(Clone, Copy)]
struct RangeRule<'a>(&'a Tables);

fn past_end(first: u16, count: u16, rows: usize) -> bool
    ensures past { result ≡ nat_lt rows (first + count) }
{
    first as usize + count as usize > rows
}

/// Whether the data of this number has a constructor.
fn has_constructor(t: &Tables, number: u16) -> bool
    ensures constructor { result ≡ list_any (λ c. nat_eq c.number number) (content t.now).constructors }
{
    t.constructors.iter().any(|y| y.number == number)
}

impl RowTest<TypeRow> for RangeRule<'_> {
    ghost broken = { λ s r x. type_range (content s.0.now) x };

    fn breaks(&self, _row: usize, x: TypeRow) -> bool {
        match TypeKind::try_from(x.kind) {
            Err(_) => true,
            Ok(TypeKind::Unit | TypeKind::Bool | TypeKind::Int) => false,
            Ok(TypeKind::Data) => !has_constructor(self.0, x.reference),
            Ok(TypeKind::Interface) => x.reference as usize >= self.0.interfaces.len(),
            Ok(TypeKind::Future) => x.reference as usize >= self.0.types.len(),
        }
    }
}

impl RowTest<ListRow> for RangeRule<'_> {
    ghost broken = { λ s r x. list_range (content s.0.now) x };

    fn breaks(&self, _row: usize, x: ListRow) -> bool {
        x.entry as usize >= self.0.types.len()
    }
}

fn parameters_range(t: &Tables, first: u16, count: u16) -> bool
    ensures range { result ≡ parameters_range (content t.now) first count }
{
    past_end(first, count, t.lists.len()) || count > 4
}

fn slots_range(t: &Tables, first: u16, parameters: u16, slots: u16) -> bool
    ensures range { result ≡ slots_range (content t.now) first parameters slots }
{
    past_end(first, slots, t.lists.len()) || slots > 8 || parameters > 4 || parameters > slots
}

impl RowTest<ConstructorRow> for RangeRule<'_> {
    ghost broken = { λ s r x. constructor_range (content s.0.now) x };

    fn breaks(&self, _row: usize, x: ConstructorRow) -> bool {
        parameters_range(self.0, x.first, x.count)
    }
}

fn uses_absent<U: User>(t: &Tables, x: U) -> bool
    ensures absent { result ≡ uses_absent (content t.now) (U.User.uses x) }
{
    uses_from(t.nodes.len(), x)
}

impl RowTest<FunctionRow> for RangeRule<'_> {
    ghost broken = { λ s r x. function_range (content s.0.now) x };

    fn breaks(&self, _row: usize, x: FunctionRow) -> bool {
        x.result as usize >= self.0.types.len()
            || slots_range(self.0, x.slots_first, x.parameters, x.slots)
            || uses_absent(self.0, x)
    }
}

impl RowTest<InterfaceRow> for RangeRule<'_> {
    ghost broken = { λ s r x. interface_range (content s.0.now) x };

    fn breaks(&self, _row: usize, x: InterfaceRow) -> bool {
        past_end(x.first, x.count, self.0.signatures.len())
    }
}

impl RowTest<SignatureRow> for RangeRule<'_> {
    ghost broken = { λ s r x. signature_range (content s.0.now) x };

    fn breaks(&self, _row: usize, x: SignatureRow) -> bool {
        x.result as usize >= self.0.types.len() || parameters_range(self.0, x.first, x.count)
    }
}

impl RowTest<ClassRow> for RangeRule<'_> {
    ghost broken = { λ s r x. class_range (content s.0.now) x };

    fn breaks(&self, _row: usize, x: ClassRow) -> bool {
        x.outside > 1
            || past_end(x.interfaces_first, x.interfaces_count, self.0.lists.len())
            || slots_range(self.0, x.fields_first, x.parameters, x.fields)
            || past_end(x.methods_first, x.methods_count, self.0.methods.len())
    }
}

impl RowTest<MethodRow> for RangeRule<'_> {
    ghost broken = { λ s r x. method_range (content s.0.now) x };

    fn breaks(&self, _row: usize, x: MethodRow) -> bool {
        x.result as usize >= self.0.types.len()
            || slots_range(self.0, x.slots_first, x.parameters, x.slots)
            || past_end(
                x.statements_first,
                x.statements_count,
                self.0.statements.len(),
            )
    }
}

fn node_counts(kind: NodeKind) -> (u16, u16)
    ensures counts { result ≡ node_counts kind }
{
    match kind {
        NodeKind::Constructor | NodeKind::Function => (0, 4),
        NodeKind::Case | NodeKind::Not => (1, 1),
        NodeKind::Add
        | NodeKind::Subtract
        | NodeKind::Divide
        | NodeKind::Less
        | NodeKind::Equal
        | NodeKind::And => (2, 2),
        _ => (0, 0),
    }
}

fn wrong_count(counts: (u16, u16), count: u16) -> bool
    ensures count { result ≡ wrong_count counts count }
{
    count < counts.0 || count > counts.1
}

fn node_absent(t: &Tables, reference: u16, kind: NodeKind) -> bool
    ensures absent { result ≡ node_absent (content t.now) reference kind }
{
    match kind {
        NodeKind::Null | NodeKind::This => reference as usize >= t.types.len(),
        NodeKind::Constructor => reference as usize >= t.constructors.len(),
        NodeKind::Function => reference as usize >= t.functions.len(),
        NodeKind::Case => reference as usize >= t.branches.len(),
        _ => false,
    }
}

fn node_range(t: &Tables, x: NodeRow, kind: NodeKind) -> bool
    ensures range { result ≡ node_range_as (content t.now) x (Some kind) }
{
    wrong_count(node_counts(kind), x.count)
        || node_absent(t, x.reference, kind)
        || uses_absent(t, x)
}

impl RowTest<NodeRow> for RangeRule<'_> {
    ghost broken = { λ s r x. node_range (content s.0.now) x };

    fn breaks(&self, _row: usize, x: NodeRow) -> bool {
        NodeKind::try_from(x.kind).map_or(true, |kind| node_range(self.0, x, kind))
    }
}

impl RowTest<BranchRow> for RangeRule<'_> {
    ghost broken = { λ s r x. branch_range (content s.0.now) r x };

    fn breaks(&self, row: usize, x: BranchRow) -> bool {
        x.more > 1
            || x.more == 1 && row.saturating_add(1) >= self.0.branches.len()
            || uses_absent(self.0, x)
    }
}

fn statement_counts(kind: StatementKind) -> (u16, u16)
    ensures counts { result ≡ statement_counts kind }
{
    match kind {
        StatementKind::Skip | StatementKind::Suspend => (0, 0),
        StatementKind::Assign
        | StatementKind::Branch
        | StatementKind::Get
        | StatementKind::Return => (1, 1),
        StatementKind::Await => (1, 4),
        StatementKind::New
        | StatementKind::NewGroup
        | StatementKind::AsyncCall
        | StatementKind::SyncCall => (0, 4),
    }
}

fn statement_absent(t: &Tables, x: StatementRow, kind: StatementKind) -> bool
    ensures absent { result ≡ statement_absent (content t.now) x kind }
{
    let next = x.next as usize >= t.statements.len();
    match kind {
        StatementKind::Branch => next || x.other as usize >= t.statements.len(),
        StatementKind::New | StatementKind::NewGroup => next
            || x.reference as usize >= t.classes.len(),
        StatementKind::Return => false,
        _ => next,
    }
}

fn statement_range(t: &Tables, x: StatementRow, kind: StatementKind) -> bool
    ensures range { result ≡ statement_range_as (content t.now) x (Some kind) }
{
    wrong_count(statement_counts(kind), x.count)
        || statement_absent(t, x, kind)
        || uses_absent(t, x)
}

impl RowTest<StatementRow> for RangeRule<'_> {
    ghost broken = { λ s r x. statement_range (content s.0.now) x };

    fn breaks(&self, _row: usize, x: StatementRow) -> bool {
        StatementKind::try_from(x.kind).map_or(true, |kind| statement_range(self.0, x, kind))
    }
}

impl Tablewise for RangeRule<'_> {
    ghost faults = { λ s table. fault_in Range (range_broken (content s.0.now)) (places (content s.0.now)) table };

    fn in_table(&self, table: Table) -> Option<Fault<TableRule>> {
        let rule = TableRule::Range;
        match table {
            Table::Header => None,
            Table::Types => first_row(&self.0.types, self, rule, table),
            Table::Lists => first_row(&self.0.lists, self, rule, table),
            Table::Constructors => first_row(&self.0.constructors, self, rule, table),
            Table::Functions => first_row(&self.0.functions, self, rule, table),
            Table::Interfaces => first_row(&self.0.interfaces, self, rule, table),
            Table::Signatures => first_row(&self.0.signatures, self, rule, table),
            Table::Classes => first_row(&self.0.classes, self, rule, table),
            Table::Methods => first_row(&self.0.methods, self, rule, table),
            Table::Nodes => first_row(&self.0.nodes, self, rule, table),
            Table::Branches => first_row(&self.0.branches, self, rule, table),
            Table::Statements => first_row(&self.0.statements, self, rule, table),
        }
    }
}

/// The first place that breaks the rule.
pub fn first_fault(t: &Tables) -> Option<Fault<TableRule>>
    ensures first { result ≡ rule_fault Range (range_broken (content t.now)) (places (content t.now)) }
{
    first_table(&RangeRule(t))
}
