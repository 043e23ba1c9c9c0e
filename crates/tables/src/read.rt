ghost use Rattle.std.specs.Prelude.{◌≡◌, ◌+◌, ◌*◌, ◌^◌, ◌<◌, ◌≤◌, List, length, drop, IfOk};
ghost use Rattle.tables.specs.Numbers.{rows_of};
ghost use Rattle.tables.specs.Layout.{wrong_length, header_counts, cells_of, content, cut};
ghost use Rattle.tables.specs.Limits.{IsWithinLimits};
ghost use Rattle.tables.specs.Reading.{Reads, header_fault};

use crate::check::CheckError;
use crate::numbers::{Row, numbers, rows};
use crate::place::{Fault, Table, TableRule};
use crate::tables::{Counts, Tables};
use std::alloc::{AllocError, Global};

/// Why a model is not read: there is no memory for the tables, or it breaks a rule of the format.
pub type ReadError = CheckError<TableRule>;

/// The fault of a header that breaks the rule.
pub fn header_fault(rule: TableRule) -> Fault<TableRule>
    ensures fault { result ≡ header_fault rule }
{
    Fault {
        rule,
        table: Table::Header,
        row: 0,
    }
}

fn wrong_length(bytes: &[u8]) -> bool
    ensures length { result ≡ wrong_length bytes.now }
{
    let [a, b, c, d, version, ..] = *bytes else {
        return true;
    };
    let stated = u32::from_be_bytes([a, b, c, d]) as usize;
    bytes.len() < 27 || stated + 4 != bytes.len() || version != 1
}

/// The rows of one table, which begins at `at` among the numbers.
fn section<const N: usize, R: Row<N>>(
    heap: Global,
    cells: &[u16],
    at: usize,
    count: u16,
) -> Result<Vec<R>, AllocError>
    requires width { (0 < N) × (N < 2 ^ 62) }
    requires enough { at + count * N ≤ length cells.now }
    ensures rows { IfOk result (λ v. v.items ≡ rows_of N R.Row.spelled count (drop at cells.now)) }
{
    rows(heap, &cells[at..], count as usize)
}

/// The tables, as the counts cut them from the numbers.
fn cut_tables(heap: Global, counts: Counts, cells: &[u16]) -> Result<Tables, AllocError>
    requires { cells_of counts ≤ length cells.now }
    ensures cut { IfOk result (λ t. content t ≡ cut counts cells.now) }
{
    let lists_at = counts.types as usize * 2;
    let constructors_at = lists_at + counts.lists as usize * 1;
    let functions_at = constructors_at + counts.constructors as usize * 3;
    let interfaces_at = functions_at + counts.functions as usize * 5;
    let signatures_at = interfaces_at + counts.interfaces as usize * 2;
    let classes_at = signatures_at + counts.signatures as usize * 4;
    let methods_at = classes_at + counts.classes as usize * 8;
    let nodes_at = methods_at + counts.methods as usize * 7;
    let branches_at = nodes_at + counts.nodes as usize * 7;
    let statements_at = branches_at + counts.branches as usize * 3;
    Ok(Tables {
        types: section(heap, cells, 0, counts.types)?,
        lists: section(heap, cells, lists_at, counts.lists)?,
        constructors: section(heap, cells, constructors_at, counts.constructors)?,
        functions: section(heap, cells, functions_at, counts.functions)?,
        interfaces: section(heap, cells, interfaces_at, counts.interfaces)?,
        signatures: section(heap, cells, signatures_at, counts.signatures)?,
        classes: section(heap, cells, classes_at, counts.classes)?,
        methods: section(heap, cells, methods_at, counts.methods)?,
        nodes: section(heap, cells, nodes_at, counts.nodes)?,
        branches: section(heap, cells, branches_at, counts.branches)?,
        statements: section(heap, cells, statements_at, counts.statements)?,
    })
}

/// The counts in the header of a model.
#[tactic(auto, using(crate::proofs::Steps::header_cells, crate::proofs::Steps::only_chunk))]
fn header_counts(heap: Global, bytes: &[u8]) -> Result<Counts, AllocError>
    requires { 27 ≤ length bytes.now }
    ensures counts { IfOk result (λ c. c ≡ header_counts bytes.now) }
{
    let numbers = numbers(heap, &bytes[5..27])?;
    let (counts, _) = numbers.as_slice().as_chunks::<11>();
    Ok(Counts::read(&counts[0]))
}

impl Tables {
    /// The tables that the bytes spell, or the rule that their header breaks.
    pub fn read(heap: Global, bytes: &[u8]) -> Result<Tables, ReadError>
        ensures reads { Reads bytes.now result }
        ensures limits { IfOk result (λ t. IsWithinLimits (content t)) }
    {
        if wrong_length(bytes) {
            return Err(ReadError::Refused(header_fault(TableRule::Length)));
        }
        let counts = header_counts(heap, bytes)?;
        if counts.over_limit() || 27 + 2 * counts.cells() != bytes.len() {
            return Err(ReadError::Refused(header_fault(TableRule::Counts)));
        }
        let cells = numbers(heap, &bytes[27..])?;
        Ok(cut_tables(heap, counts, cells.as_slice())?)
    }
}
