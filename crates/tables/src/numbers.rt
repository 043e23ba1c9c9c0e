ghost use Rattle.std.specs.Prelude.{◌≡◌, ℕ, ◌*◌, ◌^◌, ◌<◌, ◌≤◌, List, length, IfOk};
ghost use Rattle.tables.specs.Numbers.{numbers_of, rows_of};

use std::alloc::{AllocError, Global};

/// The two-byte numbers that the bytes spell, the high byte first.
pub fn numbers(heap: Global, bytes: &[u8]) -> Result<Vec<u16>, AllocError>
    ensures spelled { IfOk result (λ v. v.items ≡ numbers_of bytes.now) }
{
    let mut numbers = Vec::with_capacity(heap, bytes.len() / 2)?;
    let mut left = bytes;
    while let [hi, lo, rest @ ..] = left {
        numbers.push_reserved(u16::from_be_bytes([*hi, *lo]));
        left = rest;
    }
    Ok(numbers)
}

/// A row of a table: `N` columns, each a number.
pub(crate) trait Row<const N: usize>: Copy {
    ghost spelled: { List ℕ → Self };

    fn read(cells: &[u16; N]) -> Self
        ensures spelled { result ≡ spelled cells.now };
}

/// The first `count` rows that the numbers spell.
#[tactic(auto, using(crate::proofs::Steps::as_many))]
pub(crate) fn rows<const N: usize, R: Row<N>>(
    heap: Global,
    numbers: &[u16],
    count: usize,
) -> Result<Vec<R>, AllocError>
    requires width { (0 < N) × (N < 2 ^ 62) }
    requires enough { count * N ≤ length numbers.now }
    ensures spelled { IfOk result (λ v. v.items ≡ rows_of N R.Row.spelled count numbers.now) }
{
    let (rows, _) = numbers.as_chunks::<N>();
    rows[..count]
        .iter()
        .map(
            |row| -> R
                ensures spelled { result ≡ R.Row.spelled row.entry.now }
            { R::read(row) },
        )
        .collect(heap)
}
