//! The search for the first place that breaks a rule.
ghost use Rattle.std.specs.Prelude.{◌≡◌, ℕ, Bool, Option};
ghost use Rattle.tables.specs.Least.{first_in, all_tables};
ghost use Rattle.tables.specs.declared.place.Fault.{Fault};
ghost use Rattle.tables.specs.declared.place.Table.{Table};
ghost use Rattle.tables.specs.declared.place.TableRule.{TableRule};
ghost use Rattle.rules.specs.Faults.{table_fault};

use tables::place::{Fault, Table, TableRule};

/// A rule, as a test of the rows of a table.
// A trait and no closure: each closure would need a proof of its own that it computes the definition of the test.
pub trait RowTest<R> {
    ghost broken: { Self → ℕ → R → Bool };

    fn breaks(&self, row: usize, x: R) -> bool
        ensures broken { result ≡ broken self.now row x };
}

/// The first row of a table that breaks the rule.
pub fn first_row<R: Copy, T: RowTest<R>, K: Copy>(
    rows: &[R],
    test: &T,
    rule: K,
    table: Table,
) -> Option<Fault<K>>
    ensures first { result ≡ table_fault rows.now (T.RowTest.broken test.now) rule table }
{
    for (row, x) in rows.iter().enumerate() {
        if test.breaks(row, *x) {
            return Some(Fault { rule, table, row });
        }
    }
    None
}

/// A rule, asked table by table.
// A trait and no closure: each table has rows of another type, so a rule says itself how a table is searched.
pub trait Tablewise {
    ghost faults: { Self → Table → Option (Fault TableRule) };

    fn in_table(&self, table: Table) -> Option<Fault<TableRule>>
        ensures first { result ≡ faults self.now table };
}

/// The first fault in these tables.
fn first_among<J: Tablewise>(judge: &J, tables: &[Table]) -> Option<Fault<TableRule>>
    ensures first { result ≡ first_in (J.Tablewise.faults judge.now) tables.now }
{
    for table in tables {
        if let Some(fault) = judge.in_table(*table) {
            return Some(fault);
        }
    }
    None
}

const TABLES: [Table; 12] = [
    Table::Header,
    Table::Types,
    Table::Lists,
    Table::Constructors,
    Table::Functions,
    Table::Interfaces,
    Table::Signatures,
    Table::Classes,
    Table::Methods,
    Table::Nodes,
    Table::Branches,
    Table::Statements,
];

/// The first fault in the order of the tables.
pub fn first_table<J: Tablewise>(judge: &J) -> Option<Fault<TableRule>>
    ensures first { result ≡ first_in (J.Tablewise.faults judge.now) all_tables }
{
    first_among(judge, &TABLES)
}
