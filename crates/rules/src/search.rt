ghost use Rattle.std.specs.Prelude.{◌≡◌};
ghost use Rattle.tables.specs.Layout.{content};
ghost use Rattle.rules.specs.Words.{part};

use tables::rows::ListRow;
use tables::tables::Tables;

/// The rows of a range, as many as there are.
// Two numbers and no struct of both: rows have them as columns, under names of their own.
pub fn part<T>(rows: &[T], first: usize, count: usize) -> &[T]
    ensures part { result.now ≡ part first count rows.now }
{
    let start = first.min(rows.len());
    let end = start + count.min(rows.len() - start);
    &rows[start..end]
}

/// The entries of a list: a range of the lists.
pub fn listed(t: &Tables, first: u16, count: u16) -> &[ListRow]
    ensures listed { result.now ≡ part first count (content t.now).lists }
{
    part(&t.lists, first as usize, count as usize)
}
