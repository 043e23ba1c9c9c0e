//! What expressions are worth.
ghost use Rattle.std.specs.Prelude.{◌≡◌, suc, ◌+◌, ◌*◌, ◌≤◌, length, IfOk, option_copied};
ghost use Rattle.std.specs.List.{slice_get};
ghost use Rattle.std.specs.Option.{unwrap_or};
ghost use Rattle.mapping.specs.Bindings.{lookup};
ghost use Rattle.tables.specs.Layout.{content};
ghost use Rattle.syntax.specs.declared.nodes.Node.TheVariants as node;
ghost use Rattle.syntax.specs.Nodes.{node_of};
ghost use Rattle.evaluation.specs.declared.value.Value.TheVariants.{Unit};
ghost use Rattle.evaluation.specs.Carried.{Ran, environment};
ghost use Rattle.evaluation.specs.Plans.{ask};
ghost use Rattle.evaluation.specs.Refusals.{answered};
ghost use Rattle.evaluation.specs.Rules.{node_rule, known_rule, operands, gathered};
ghost use Rattle.evaluation.specs.Values.{values_of};

use crate::evaluator::Evaluator;
use crate::operators::{added, both_true, divided, less, negated, subtracted};
use crate::refusal::EvaluationRefusal;
use crate::value::{Value, Values, literal};
use crate::workspace::Workspace;
use tables::kinds::NodeKind;
use tables::rows::NodeRow;

// A worth is written to where the caller wants it, and not returned: a value with a refusal beside it is returned through memory,
// and each function on the way would copy it. Where the evaluation is refused, what was written is not looked at.

/// Writes the newest value of the slot.
#[inline(always)]
fn slot_worth(
    work: &Workspace<'_>,
    base: usize,
    slot: u16,
    worth: &mut Value,
) -> Result<(), EvaluationRefusal>
    ensures given { worth.new ≡ unwrap_or (lookup slot (environment base work.now)) Unit }
    ensures ok { result ≡ Ok tt }
{
    match work.find(base, slot) {
        Some(value) => *worth = value,
        None => *worth = Value::Unit,
    }
    Ok(())
}

/// Writes a worth that is known at once.
#[inline(always)]
pub(crate) fn give(worth: &mut Value, value: Value) -> Result<(), EvaluationRefusal>
    ensures given { worth.new ≡ value }
    ensures ok { result ≡ Ok tt }
{
    *worth = value;
    Ok(())
}

impl Evaluator<'_> {
    /// The row of a node, if it is there.
    #[inline(always)]
    pub(crate) fn row_at(&self, row: u16) -> Option<&NodeRow>
        ensures found { option_copied result ≡ slice_get (content self.now.t.now).nodes row }
    {
        self.t.nodes.get(row as usize)
    }

    /// The worth of the node in this row, in the bindings made since there were `base`; one visit is spent on it.
    #[inline(always)]
    #[cycle(worths)]
    pub(crate) fn worth(
        &self,
        work: &mut Workspace<'_>,
        base: usize,
        row: u16,
        worth: &mut Value,
    ) -> Result<(), EvaluationRefusal>
        requires own { base ≤ length work.old.bindings }
        ensures ran { Ran (content self.now.t.now) self.now.this (ask row (environment base work.old)) work.old (answered (λ _. worth.new) result) work.new }
        ensures spends { IfOk result (λ _. suc work.new.state.left ≤ work.old.state.left) }
    {
        work.spend()?;
        let Some(row) = self.row_at(row) else {
            return give(worth, Value::Unit);
        };
        self.node_worth(work, base, row, worth)
    }

    /// The worth of a node, when its visit is paid for.
    // By the kind and the columns of its row, and not by a `Node`: each visit would make one.
    #[inline(always)]
    #[cycle(worths)]
    fn node_worth(
        &self,
        work: &mut Workspace<'_>,
        base: usize,
        row: &NodeRow,
        worth: &mut Value,
    ) -> Result<(), EvaluationRefusal>
        requires own { base ≤ length work.old.bindings }
        requires slack { length work.old.bindings + 4 * suc work.old.state.left ≤ work.old.capacity }
        ensures ran { Ran (content self.now.t.now) self.now.this (known_rule (content self.now.t.now) self.now.this (environment base work.old) (node_of row.now)) work.old (answered (λ _. worth.new) result) work.new }
    {
        let Ok(kind) = NodeKind::try_from(row.kind) else {
            return give(worth, Value::Unit);
        };
        let (a, b) = (row.p1, row.p2);
        match kind {
            NodeKind::Unit | NodeKind::Wildcard | NodeKind::Variable => give(worth, Value::Unit),
            NodeKind::False => give(worth, Value::Bool(false)),
            NodeKind::True => give(worth, Value::Bool(true)),
            NodeKind::Int => give(worth, literal(row.reference)),
            NodeKind::Null => give(worth, Value::Null),
            NodeKind::Slot => slot_worth(work, base, row.reference, worth),
            NodeKind::This => give(worth, Value::Object(self.this)),
            NodeKind::Constructor => self.data(work, base, row, worth),
            NodeKind::Function => self.call(work, base, row, worth),
            NodeKind::Case => self.case(work, base, a, row.reference, worth),
            NodeKind::Add => self.sum(work, base, a, b, worth),
            NodeKind::Subtract => self.difference(work, base, a, b, worth),
            NodeKind::Divide => self.quotient(work, base, a, b, worth),
            NodeKind::Less => self.comparison(work, base, a, b, worth),
            NodeKind::Equal => self.equality(work, base, a, b, worth),
            NodeKind::Not => self.negation(work, base, a, worth),
            NodeKind::And => self.conjunction(work, base, a, b, worth),
        }
    }

    /// The worths of two operands, the left one first.
    #[inline(always)]
    #[cycle(worths)]
    fn operands(
        &self,
        work: &mut Workspace<'_>,
        base: usize,
        a: u16,
        b: u16,
    ) -> Result<(Value, Value), EvaluationRefusal>
        requires own { base ≤ length work.old.bindings }
        ensures ran { Ran (content self.now.t.now) self.now.this (operands a b (environment base work.old)) work.old result work.new }
    {
        let (mut x, mut y) = (Value::Unit, Value::Unit);
        self.worth(work, base, a, &mut x)?;
        self.worth(work, base, b, &mut y)?;
        Ok((x, y))
    }

    #[cycle(worths)]
    fn sum(
        &self,
        work: &mut Workspace<'_>,
        base: usize,
        a: u16,
        b: u16,
        worth: &mut Value,
    ) -> Result<(), EvaluationRefusal>
        requires own { base ≤ length work.old.bindings }
        ensures ran { Ran (content self.now.t.now) self.now.this (node_rule (content self.now.t.now) self.now.this (environment base work.old) (node.Add a b)) work.old (answered (λ _. worth.new) result) work.new }
    {
        let (x, y) = self.operands(work, base, a, b)?;
        give(worth, added(x, y))
    }

    #[cycle(worths)]
    fn difference(
        &self,
        work: &mut Workspace<'_>,
        base: usize,
        a: u16,
        b: u16,
        worth: &mut Value,
    ) -> Result<(), EvaluationRefusal>
        requires own { base ≤ length work.old.bindings }
        ensures ran { Ran (content self.now.t.now) self.now.this (node_rule (content self.now.t.now) self.now.this (environment base work.old) (node.Subtract a b)) work.old (answered (λ _. worth.new) result) work.new }
    {
        let (x, y) = self.operands(work, base, a, b)?;
        give(worth, subtracted(x, y))
    }

    #[cycle(worths)]
    fn quotient(
        &self,
        work: &mut Workspace<'_>,
        base: usize,
        a: u16,
        b: u16,
        worth: &mut Value,
    ) -> Result<(), EvaluationRefusal>
        requires own { base ≤ length work.old.bindings }
        ensures ran { Ran (content self.now.t.now) self.now.this (node_rule (content self.now.t.now) self.now.this (environment base work.old) (node.Divide a b)) work.old (answered (λ _. worth.new) result) work.new }
    {
        let (x, y) = self.operands(work, base, a, b)?;
        give(worth, divided(x, y)?)
    }

    #[cycle(worths)]
    fn comparison(
        &self,
        work: &mut Workspace<'_>,
        base: usize,
        a: u16,
        b: u16,
        worth: &mut Value,
    ) -> Result<(), EvaluationRefusal>
        requires own { base ≤ length work.old.bindings }
        ensures ran { Ran (content self.now.t.now) self.now.this (node_rule (content self.now.t.now) self.now.this (environment base work.old) (node.Less a b)) work.old (answered (λ _. worth.new) result) work.new }
    {
        let (x, y) = self.operands(work, base, a, b)?;
        give(worth, less(x, y))
    }

    #[cycle(worths)]
    fn equality(
        &self,
        work: &mut Workspace<'_>,
        base: usize,
        a: u16,
        b: u16,
        worth: &mut Value,
    ) -> Result<(), EvaluationRefusal>
        requires own { base ≤ length work.old.bindings }
        ensures ran { Ran (content self.now.t.now) self.now.this (node_rule (content self.now.t.now) self.now.this (environment base work.old) (node.Equal a b)) work.old (answered (λ _. worth.new) result) work.new }
    {
        let (x, y) = self.operands(work, base, a, b)?;
        give(worth, Value::Bool(self.same(work, x, y)?))
    }

    #[cycle(worths)]
    fn negation(
        &self,
        work: &mut Workspace<'_>,
        base: usize,
        a: u16,
        worth: &mut Value,
    ) -> Result<(), EvaluationRefusal>
        requires own { base ≤ length work.old.bindings }
        ensures ran { Ran (content self.now.t.now) self.now.this (node_rule (content self.now.t.now) self.now.this (environment base work.old) (node.Not a)) work.old (answered (λ _. worth.new) result) work.new }
    {
        let mut x = Value::Unit;
        self.worth(work, base, a, &mut x)?;
        give(worth, negated(x))
    }

    /// Whether both are True; the second child is evaluated whatever the first is.
    #[cycle(worths)]
    fn conjunction(
        &self,
        work: &mut Workspace<'_>,
        base: usize,
        a: u16,
        b: u16,
        worth: &mut Value,
    ) -> Result<(), EvaluationRefusal>
        requires own { base ≤ length work.old.bindings }
        ensures ran { Ran (content self.now.t.now) self.now.this (node_rule (content self.now.t.now) self.now.this (environment base work.old) (node.And a b)) work.old (answered (λ _. worth.new) result) work.new }
    {
        let (x, y) = self.operands(work, base, a, b)?;
        give(worth, both_true(x, y))
    }

    /// The worths of nodes, one after another, behind those that there are.
    #[inline(always)]
    #[cycle(worths)]
    pub(crate) fn worths(
        &self,
        work: &mut Workspace<'_>,
        base: usize,
        rows: &[u16],
        worths: &mut Values,
    ) -> Result<(), EvaluationRefusal>
        requires own { base ≤ length work.old.bindings }
        requires few { length (values_of worths.old) + length rows.now ≤ 4 }
        ensures ran { Ran (content self.now.t.now) self.now.this (gathered (values_of worths.old) rows.now (environment base work.old)) work.old (answered (λ _. values_of worths.new) result) work.new }
    {
        for row in rows {
            let mut worth = Value::Unit;
            self.worth(work, base, *row, &mut worth)?;
            worths.push(worth);
        }
        Ok(())
    }
}
