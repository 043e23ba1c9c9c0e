//! Patterns: whether they fit a value, and what they bind.
ghost use Rattle.std.specs.Prelude.{◌≡◌, ◌+◌, ◌*◌, ◌≤◌, length};
ghost use Rattle.mapping.specs.Bindings.{lookup};
ghost use Rattle.tables.specs.Layout.{content};
ghost use Rattle.typing.specs.Room.{free};
ghost use Rattle.syntax.specs.Nodes.{children_of, node_of};
ghost use Rattle.evaluation.specs.declared.value.Value.TheVariants.{Cell};
ghost use Rattle.evaluation.specs.Carried.{Tried, environment};
ghost use Rattle.evaluation.specs.Matching.{constructor_fit, fit_known, fit_of, parts_fit, variable_fit};
ghost use Rattle.evaluation.specs.Views.{lower_fits};

use crate::evaluator::Evaluator;
use crate::refusal::EvaluationRefusal;
use crate::value::{Value, literal};
use crate::workspace::Workspace;
use syntax::nodes::children_of;
use tables::kinds::NodeKind;
use tables::rows::NodeRow;

/// How many slots a function has at most.
const SLOTS: u16 = 8;

/// Where a pattern stands: its row, and how many bindings there were before those of its activation.
#[derive(Clone, Copy)]
struct Place {
    base: usize,
    row: u16,
}

// What a pattern has bound stays bound where it does not fit: the caller cuts it off.
impl Evaluator<'_> {
    /// Whether the pattern in this row fits the value; it binds its variables, left to right.
    #[inline(always)]
    #[cycle(matching)]
    pub(crate) fn fits(
        &self,
        work: &mut Workspace<'_>,
        base: usize,
        row: u16,
        value: &Value,
    ) -> Result<bool, EvaluationRefusal>
        requires own { base ≤ length work.old.bindings }
        requires room { length work.old.bindings + free 8 (environment base work.old) + 4 * work.old.state.left ≤ work.old.capacity }
        ensures tried { Tried (content self.now.t.now) self.now.this (fit_of (content self.now.t.now) row (environment base work.old) value.now) base work.old result work.new }
    {
        let Some(pattern) = self.row_at(row) else {
            return Ok(false);
        };
        self.node_fits(work, Place { base, row }, pattern, value)
    }

    /// The same of a node, whose children stand below this row.
    #[inline(always)]
    #[cycle(matching)]
    fn node_fits(
        &self,
        work: &mut Workspace<'_>,
        at: Place,
        pattern: &NodeRow,
        value: &Value,
    ) -> Result<bool, EvaluationRefusal>
        requires own { at.base ≤ length work.old.bindings }
        requires room { length work.old.bindings + free 8 (environment at.base work.old) + 4 * work.old.state.left ≤ work.old.capacity }
        ensures tried { Tried (content self.now.t.now) self.now.this (fit_known (lower_fits self.now at.row) (environment at.base work.old) value.now (node_of pattern.now)) at.base work.old result work.new }
    {
        let Ok(kind) = NodeKind::try_from(pattern.kind) else {
            return Ok(false);
        };
        match kind {
            NodeKind::Unit => Ok(Value::Unit.same(*value)),
            NodeKind::False => Ok(Value::Bool(false).same(*value)),
            NodeKind::True => Ok(Value::Bool(true).same(*value)),
            NodeKind::Int => Ok(literal(pattern.reference).same(*value)),
            NodeKind::Null => Ok(Value::Null.same(*value)),
            NodeKind::Constructor => self.constructor_fits(work, at, pattern, value),
            NodeKind::Variable => self.variable_fits(work, at.base, pattern.reference, value),
            NodeKind::Wildcard => Ok(true),
            _ => Ok(false),
        }
    }

    /// Whether the value is data of the constructor, whose parts fit.
    #[cycle(matching)]
    fn constructor_fits(
        &self,
        work: &mut Workspace<'_>,
        at: Place,
        pattern: &NodeRow,
        value: &Value,
    ) -> Result<bool, EvaluationRefusal>
        requires own { at.base ≤ length work.old.bindings }
        requires room { length work.old.bindings + free 8 (environment at.base work.old) + 4 * work.old.state.left ≤ work.old.capacity }
        ensures tried { Tried (content self.now.t.now) self.now.this (constructor_fit (lower_fits self.now at.row) (environment at.base work.old) pattern.now.reference (children_of pattern.now) value.now) at.base work.old result work.new }
    {
        match *value {
            Value::Constant(constructor) => {
                Ok(constructor == pattern.reference && pattern.count == 0)
            }
            Value::Cell(cell) => self.cell_fits(work, at, pattern, cell),
            _ => Ok(false),
        }
    }

    /// Whether the cell holds data of the constructor, whose parts fit.
    #[cycle(matching)]
    fn cell_fits(
        &self,
        work: &mut Workspace<'_>,
        at: Place,
        pattern: &NodeRow,
        cell: u16,
    ) -> Result<bool, EvaluationRefusal>
        requires own { at.base ≤ length work.old.bindings }
        requires room { length work.old.bindings + free 8 (environment at.base work.old) + 4 * work.old.state.left ≤ work.old.capacity }
        ensures tried { Tried (content self.now.t.now) self.now.this (constructor_fit (lower_fits self.now at.row) (environment at.base work.old) pattern.now.reference (children_of pattern.now) (Cell cell)) at.base work.old result work.new }
    {
        let Some(data) = work.read(cell) else {
            return Ok(false);
        };
        if data.constructor != pattern.reference {
            return Ok(false);
        }
        let parts = data.parts;
        self.parts_fit(work, at, children_of(pattern).as_slice(), parts.as_slice())
    }

    /// Whether the parts fit the children, left to right, one for one.
    #[cycle(matching)]
    fn parts_fit(
        &self,
        work: &mut Workspace<'_>,
        at: Place,
        children: &[u16],
        parts: &[Value],
    ) -> Result<bool, EvaluationRefusal>
        requires own { at.base ≤ length work.old.bindings }
        requires room { length work.old.bindings + free 8 (environment at.base work.old) + 4 * work.old.state.left ≤ work.old.capacity }
        ensures tried { Tried (content self.now.t.now) self.now.this (parts_fit (lower_fits self.now at.row) children.now parts.now (environment at.base work.old)) at.base work.old result work.new }
    {
        if children.len() != parts.len() {
            return Ok(false);
        }
        for (child, part) in children.iter().zip(parts) {
            if !self.child_fits(work, at, *child, part)? {
                return Ok(false);
            }
        }
        Ok(true)
    }

    /// Whether the pattern of a child, which stands below this row, fits the part.
    #[cycle(matching)]
    fn child_fits(
        &self,
        work: &mut Workspace<'_>,
        at: Place,
        child: u16,
        part: &Value,
    ) -> Result<bool, EvaluationRefusal>
        requires own { at.base ≤ length work.old.bindings }
        requires room { length work.old.bindings + free 8 (environment at.base work.old) + 4 * work.old.state.left ≤ work.old.capacity }
        ensures tried { Tried (content self.now.t.now) self.now.this (lower_fits self.now at.row child (environment at.base work.old) part.now) at.base work.old result work.new }
    {
        if child >= at.row {
            return Ok(false);
        }
        self.fits(work, at.base, child, part)
    }

    /// Whether the variable is bound to the same value, or else could be bound to this one; it is bound then.
    #[inline(always)]
    fn variable_fits(
        &self,
        work: &mut Workspace<'_>,
        base: usize,
        slot: u16,
        value: &Value,
    ) -> Result<bool, EvaluationRefusal>
        requires own { base ≤ length work.old.bindings }
        requires room { length work.old.bindings + free 8 (environment base work.old) + 4 * work.old.state.left ≤ work.old.capacity }
        ensures tried { Tried (content self.now.t.now) self.now.this (variable_fit (environment base work.old) slot value.now (lookup slot (environment base work.old))) base work.old result work.new }
    {
        if let Some(bound) = work.find(base, slot) {
            return self.same(work, bound, *value);
        }
        if slot >= SLOTS {
            return Ok(false);
        }
        work.bind(slot, *value);
        Ok(true)
    }
}
