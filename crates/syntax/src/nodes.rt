//! Nodes of expressions and patterns.
ghost use Rattle.std.specs.Prelude.{◌≡◌};
ghost use Rattle.tables.specs.Kinds.{known};
ghost use Rattle.tables.specs.Layout.{content};
ghost use Rattle.syntax.specs.Nodes.{parts, children_of, node_of, node_at};

use rules::search::part;
use tables::kinds::{NodeKind, UnknownKind};
use tables::rows::NodeRow;
use tables::tables::Tables;

/// The children of a node, or the parts of a statement: the first `count` of four.
// An array with a count, and no `ArrayVec`, which is not `Copy`: a node is copied with its parts.
#[derive(Clone, Copy, PartialEq, Eq, Debug)]
pub struct Parts {
    pub rows: [u16; 4],
    pub count: u16,
}

impl Parts {
    pub fn as_slice(&self) -> &[u16]
        ensures parts { result.now ≡ parts self.now }
    {
        part(&self.rows, 0, self.count as usize)
    }
}

/// The children of a node.
#[inline(always)]
pub fn children_of(row: &NodeRow) -> Parts
    ensures children { result ≡ children_of row.now }
{
    Parts {
        rows: [row.p1, row.p2, row.p3, row.p4],
        count: row.count,
    }
}

/// What a node is, with the rows of its children and what its kind names.
#[derive(Clone, Copy, PartialEq, Eq, Debug)]
pub enum Node {
    Unit,
    False,
    True,
    /// The 16 bits of a signed number.
    Int(u16),
    /// The type of this null, a row of the types.
    Null(u16),
    Slot(u16),
    /// The type as which the object sees itself, a row of the types.
    This(u16),
    Constructor(u16, Parts),
    Function(u16, Parts),
    /// The node that is examined, and the first branch.
    Case(u16, u16),
    Add(u16, u16),
    Subtract(u16, u16),
    Divide(u16, u16),
    Less(u16, u16),
    Equal(u16, u16),
    Not(u16),
    And(u16, u16),
    Wildcard,
    /// The slot of a pattern variable.
    Variable(u16),
}

/// What the row says, if its kind is known.
impl TryFrom<NodeRow> for Node {
    type Error = UnknownKind;

    ghost try_from_gives = { λ row r. r ≡ known row.kind (node_of row) };

    fn try_from(row: NodeRow) -> Result<Node, UnknownKind> {
        let (a, b) = (row.p1, row.p2);
        let children = children_of(&row);
        let node = match NodeKind::try_from(row.kind)? {
            NodeKind::Unit => Node::Unit,
            NodeKind::False => Node::False,
            NodeKind::True => Node::True,
            NodeKind::Int => Node::Int(row.reference),
            NodeKind::Null => Node::Null(row.reference),
            NodeKind::Slot => Node::Slot(row.reference),
            NodeKind::This => Node::This(row.reference),
            NodeKind::Constructor => Node::Constructor(row.reference, children),
            NodeKind::Function => Node::Function(row.reference, children),
            NodeKind::Case => Node::Case(a, row.reference),
            NodeKind::Add => Node::Add(a, b),
            NodeKind::Subtract => Node::Subtract(a, b),
            NodeKind::Divide => Node::Divide(a, b),
            NodeKind::Less => Node::Less(a, b),
            NodeKind::Equal => Node::Equal(a, b),
            NodeKind::Not => Node::Not(a),
            NodeKind::And => Node::And(a, b),
            NodeKind::Wildcard => Node::Wildcard,
            NodeKind::Variable => Node::Variable(row.reference),
        };
        Ok(node)
    }
}

/// What the row says, if its kind is known.
// A function of its own: inside a closure of `node_at` the proof did not close.
fn node_of(row: NodeRow) -> Option<Node>
    ensures says { result ≡ node_of row }
{
    Node::try_from(row).ok()
}

/// The node in this row, if there is one.
pub fn node_at(t: &Tables, row: u16) -> Option<Node>
    ensures node { result ≡ node_at (content t.now) row }
{
    node_of(t.nodes.get(row as usize).copied()?)
}
