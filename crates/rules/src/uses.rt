ghost use Rattle.std.specs.Prelude.{◌≡◌, ℕ, ◌≤◌, min, leb, List, ◌++◌, length, take};
ghost use Rattle.std.specs.List.{list_any};
ghost use Rattle.rules.specs.Uses.{function_uses, node_uses, branch_uses, statement_uses, object_uses, part_uses};

use tables::kinds::StatementKind;
use tables::rows::{BranchRow, FunctionRow, NodeRow, StatementRow};

/// The nodes that a row uses, at most five: the first `count` of these.
// An array with a count, and no `ArrayVec`, which writes a blank over each node that it cuts off: every row is asked several times.
// Without a model: one that sees the list does not give the fields back, which `Copy` asks for.
#[derive(Clone, Copy)]
pub struct Uses {
    pub nodes: [u16; 5],
    pub count: usize,
    ghost few: { count ≤ 5 },
}

impl Uses {
    pub fn as_slice(&self) -> &[u16]
        ensures nodes { result.now ≡ take self.now.count self.now.nodes }
    {
        &self.nodes[..self.count]
    }
}

/// A row that uses nodes, at most five.
pub trait User: Copy {
    ghost uses: { Self → List ℕ };

    fn uses(self) -> Uses
        ensures uses { take result.count result.nodes ≡ uses self };
}

/// The first `count` of these nodes.
fn first_of(nodes: [u16; 5], count: usize) -> Uses
    requires few { count ≤ 5 }
    ensures first { take result.count result.nodes ≡ take count nodes }
{
    Uses { nodes, count }
}

impl User for FunctionRow {
    ghost uses = { function_uses };

    fn uses(self) -> Uses {
        first_of([self.body, 0, 0, 0, 0], 1)
    }
}

impl User for BranchRow {
    ghost uses = { branch_uses };

    fn uses(self) -> Uses {
        first_of([self.pattern, self.body, 0, 0, 0], 2)
    }
}

/// How many of the four columns of parts a row names.
fn named(count: u16) -> usize
    ensures most { result ≡ min count 4 }
{
    count.min(4) as usize
}

impl User for NodeRow {
    ghost uses = { node_uses };

    fn uses(self) -> Uses {
        first_of([self.p1, self.p2, self.p3, self.p4, 0], named(self.count))
    }
}

fn parts(x: StatementRow) -> Uses
    ensures parts { take result.count result.nodes ≡ part_uses x }
{
    first_of([x.p1, x.p2, x.p3, x.p4, 0], named(x.count))
}

fn object_and_parts(x: StatementRow) -> Uses
    ensures called { take result.count result.nodes ≡ object_uses x ++ part_uses x }
{
    if x.object == 0 {
        return parts(x);
    }
    let nodes = [x.object - 1, x.p1, x.p2, x.p3, x.p4];
    first_of(nodes, 1 + named(x.count))
}

impl User for StatementRow {
    ghost uses = { statement_uses };

    fn uses(self) -> Uses {
        match StatementKind::try_from(self.kind) {
            Ok(StatementKind::Await) | Err(_) => first_of([0; 5], 0),
            Ok(StatementKind::AsyncCall | StatementKind::SyncCall) => object_and_parts(self),
            _ => parts(self),
        }
    }
}

/// Whether the row uses a node that does not stand lower than this one.
pub fn uses_from<U: User>(row: usize, x: U) -> bool
    ensures above { result ≡ list_any (leb row) (U.User.uses x) }
{
    x.uses().as_slice().iter().any(|node| row <= *node as usize)
}
