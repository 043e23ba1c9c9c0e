//! Who holds what: a node its first user, a branch its case, a method its class, a statement its method.
ghost use Rattle.std.specs.Prelude.{◌≡◌, ℕ, ◌+◌, ◌-◌, ◌^◌, ◌<◌, ◌≤◌, max, Bool, cond, List, length, replicate, IfOk, None, Option, ◌==◌};
ghost use Rattle.std.specs.List.{prefix_len};
ghost use Rattle.tables.specs.Layout.{content};
ghost use Rattle.tables.specs.Kinds.{node_kind};
ghost use Rattle.tables.specs.declared.place.Place.{Place};
ghost use Rattle.placement.specs.Claims.{claim, claim_all, claim_range, claim_rows, claim_uses, claim_branches, claim_methods, claim_statements, claim_nodes};
ghost use Rattle.placement.specs.Holders.{place, extent, run_length, is_case, reach, node_users, branch_cases, method_classes, statement_methods};

use rules::uses::User;
use std::alloc::{AllocError, Global};
use tables::kinds::NodeKind;
use tables::place::{Place, Table};
use tables::rows::{BranchRow, ClassRow, MethodRow, NodeRow};
use tables::tables::Tables;

pub(crate) fn place(table: Table, row: usize) -> Place
    ensures place { result ≡ place table row }
{
    Place { table, row }
}

// In these functions `held` and `by` stay two parameters: `held` lives through the claims of all rows, and `by` is the one row's
// place, so a struct of both would have to be built for each row around a `&mut`.

/// A claim of the thing `item`, which holds if it is the first.
fn claim(held: &mut [Option<Place>], by: Place, item: usize)
    ensures held { held.new ≡ claim by held.old item }
{
    // not `get_mut` with `get_or_insert`: nothing is known of a slice's items after the borrow, so that did not prove
    if let Some(None) = held.get(item) {
        held[item] = Some(by);
    }
}

fn claim_all(held: &mut [Option<Place>], by: Place, items: &[u16])
    ensures held { held.new ≡ claim_all by held.old items.now }
{
    for item in items {
        claim(held, by, *item as usize);
    }
}

fn claim_range(held: &mut [Option<Place>], by: Place, first: usize, count: usize)
    requires fits { first + count < 2 ^ 64 }
    ensures held { held.new ≡ claim_range by held.old first count }
{
    // by the item's number: of what is written through `iter_mut` nothing is known afterwards
    for item in first..first + count {
        claim(held, by, item);
    }
}

/// A claim of a range, if it ends where the things end or before.
fn claim_extent(held: &mut [Option<Place>], by: Place, first: u16, count: u16)
    ensures held { held.new ≡ claim_range by held.old first (extent first count (length held.old)) }
{
    let (first, count) = (first as usize, count as usize);
    if first + count <= held.len() {
        claim_range(held, by, first, count);
    }
}

/// How many of the first branches say that another branch of the case follows.
fn followed(branches: &[BranchRow]) -> usize
    ensures followed { result ≡ prefix_len (λ x. x.more == 1) branches.now }
    ensures within { result ≤ length branches.now }
{
    branches
        .iter()
        .take_while(|branch| branch.more == 1)
        .count()
}

/// How many branches a case has, whose first is the first of these.
pub fn run_length(branches: &[BranchRow]) -> usize
    ensures length { result ≡ run_length branches.now }
    ensures within { result ≤ length branches.now }
{
    branches.len().min(followed(branches) + 1)
}

/// What rows claim.
// A trait and no closure: each closure would need a proof of its own that it claims what its definition says.
trait Claims<R> {
    ghost claims: { Self → List (Option Place) → ℕ → R → List (Option Place) };

    fn claim(&self, held: &mut [Option<Place>], row: usize, x: R)
        ensures held { held.new ≡ claims self.now held.old row x };
}

fn claim_rows<R: Copy, C: Claims<R>>(held: &mut [Option<Place>], rows: &[R], claims: &C)
    ensures held { held.new ≡ claim_rows (C.Claims.claims claims.now) held.old 0 rows.now }
{
    for (row, x) in rows.iter().enumerate() {
        claims.claim(held, row, *x);
    }
}

/// The nodes that the rows of a table use.
#[derive(Clone, Copy)]
struct NodesUsed(Table);

impl<U: User> Claims<U> for NodesUsed {
    ghost claims = { λ s. claim_uses s.0 U.User.uses };

    fn claim(&self, held: &mut [Option<Place>], row: usize, x: U) {
        claim_all(held, place(self.0, row), x.uses().as_slice());
    }
}

/// The branches that cases reach.
#[derive(Clone, Copy)]
struct BranchesReached<'a>(&'a [BranchRow]);

/// How many branches a node reaches, from the one that it refers to.
pub(crate) fn reached(branches: &[BranchRow], x: NodeRow) -> usize
    ensures reach { result ≡ reach branches.now x }
    ensures within { x.reference + result ≤ max x.reference (length branches.now) }
{
    if !matches!(NodeKind::try_from(x.kind), Ok(NodeKind::Case)) {
        return 0;
    }
    branches.get(x.reference as usize..).map_or(0, run_length)
}

impl Claims<NodeRow> for BranchesReached<'_> {
    ghost claims = { λ s. claim_branches s.0.now };

    fn claim(&self, held: &mut [Option<Place>], row: usize, x: NodeRow) {
        let count = reached(self.0, x);
        claim_range(held, place(Table::Nodes, row), x.reference as usize, count);
    }
}

/// What classes and methods have: a range of the methods, of the statements.
// Two impls, since a trait that names the table and the columns of the range would be longer than both.
#[derive(Clone, Copy)]
struct RangesHad;

impl Claims<ClassRow> for RangesHad {
    ghost claims = { λ _. claim_methods };

    fn claim(&self, held: &mut [Option<Place>], row: usize, x: ClassRow) {
        let by = place(Table::Classes, row);
        claim_extent(held, by, x.methods_first, x.methods_count);
    }
}

impl Claims<MethodRow> for RangesHad {
    ghost claims = { λ _. claim_statements };

    fn claim(&self, held: &mut [Option<Place>], row: usize, x: MethodRow) {
        let by = place(Table::Methods, row);
        claim_extent(held, by, x.statements_first, x.statements_count);
    }
}

/// The claims of nodes: of functions, nodes, branches and statements, in this order.
fn claim_nodes(held: &mut [Option<Place>], t: &Tables)
    ensures held { held.new ≡ claim_nodes (content t.now) held.old }
{
    claim_rows(held, &t.functions, &NodesUsed(Table::Functions));
    claim_rows(held, &t.nodes, &NodesUsed(Table::Nodes));
    claim_rows(held, &t.branches, &NodesUsed(Table::Branches));
    claim_rows(held, &t.statements, &NodesUsed(Table::Statements));
}

/// The user of each node, if it has one.
pub(crate) fn node_users(heap: Global, t: &Tables) -> Result<Vec<Option<Place>>, AllocError>
    ensures users { IfOk result (λ v. v.items ≡ node_users (content t.now)) }
{
    let mut held = vec![in heap; None; t.nodes.len()]?;
    claim_nodes(&mut held, t);
    Ok(held)
}

/// The holders of so many things, where the rows of one table claim them.
fn claimed<R: Copy, C: Claims<R>>(
    heap: Global,
    things: usize,
    rows: &[R],
    claims: &C,
) -> Result<Vec<Option<Place>>, AllocError>
    ensures claimed { IfOk result (λ v. v.items ≡ claim_rows (C.Claims.claims claims.now) (replicate things None) 0 rows.now) }
{
    let mut held = vec![in heap; None; things]?;
    claim_rows(&mut held, rows, claims);
    Ok(held)
}

/// The case of each branch, if it has one.
pub(crate) fn branch_cases(heap: Global, t: &Tables) -> Result<Vec<Option<Place>>, AllocError>
    ensures cases { IfOk result (λ v. v.items ≡ branch_cases (content t.now)) }
{
    let reached = BranchesReached(&t.branches);
    claimed(heap, t.branches.len(), &t.nodes, &reached)
}

/// The class of each method, if it has one.
pub fn method_classes(heap: Global, t: &Tables) -> Result<Vec<Option<Place>>, AllocError>
    ensures classes { IfOk result (λ v. v.items ≡ method_classes (content t.now)) }
{
    claimed(heap, t.methods.len(), &t.classes, &RangesHad)
}

/// The method of each statement, if it has one.
pub fn statement_methods(heap: Global, t: &Tables) -> Result<Vec<Option<Place>>, AllocError>
    ensures methods { IfOk result (λ v. v.items ≡ statement_methods (content t.now)) }
{
    claimed(heap, t.statements.len(), &t.methods, &RangesHad)
}
