//! Data, calls of functions, and cases.
ghost use Rattle.std.specs.Prelude.{◌≡◌, suc, ◌+◌, ◌*◌, ◌≤◌, length, take, drop};
ghost use Rattle.std.specs.List.{slice_get};
ghost use Rattle.tables.specs.Layout.{content};
ghost use Rattle.placement.specs.Holders.{run_length};
ghost use Rattle.syntax.specs.declared.nodes.Node.TheVariants as node;
ghost use Rattle.syntax.specs.Nodes.{children_of};
ghost use Rattle.syntax.specs.Rows.{when};
ghost use Rattle.evaluation.specs.Carried.{Ran, Adds, environment};
ghost use Rattle.evaluation.specs.Refusals.{answered};
ghost use Rattle.evaluation.specs.Rules.{node_rule, built, bound_from, called, chosen, taken};
ghost use Rattle.evaluation.specs.Values.{values_of};

use crate::evaluator::Evaluator;
use crate::evaluator::worths::give;
use crate::refusal::EvaluationRefusal;
use crate::value::{Cell, Value, Values};
use crate::workspace::Workspace;
use syntax::nodes::children_of;
use tables::rows::{BranchRow, FunctionRow, NodeRow};
use tables::tables::Tables;

/// The branches from this one on, of which the first are those of its case.
fn branches_from(t: &Tables, first: u16) -> &[BranchRow]
    ensures branches { result.now ≡ drop first (content t.now).branches }
{
    t.branches.get(first as usize..).unwrap_or(&[])
}

impl Evaluator<'_> {
    fn function_at(&self, row: u16) -> Option<FunctionRow>
        ensures found { result ≡ slice_get (content self.now.t.now).functions row }
    {
        self.t.functions.get(row as usize).copied()
    }

    /// Data of a constructor: with parts it takes a cell, without it takes none.
    fn built(
        &self,
        work: &mut Workspace<'_>,
        constructor: u16,
        parts: Values,
    ) -> Result<Value, EvaluationRefusal>
        ensures ran { Ran (content self.now.t.now) self.now.this (built constructor (values_of parts)) work.old result work.new }
    {
        if parts.as_slice().is_empty() {
            return Ok(Value::Constant(constructor));
        }
        let cell = work.make(Cell { constructor, parts })?;
        Ok(Value::Cell(cell))
    }

    #[cycle(worths)]
    pub(crate) fn data(
        &self,
        work: &mut Workspace<'_>,
        base: usize,
        row: &NodeRow,
        worth: &mut Value,
    ) -> Result<(), EvaluationRefusal>
        requires own { base ≤ length work.old.bindings }
        ensures ran { Ran (content self.now.t.now) self.now.this (node_rule (content self.now.t.now) self.now.this (environment base work.old) (node.Constructor row.now.reference (children_of row.now))) work.old (answered (λ _. worth.new) result) work.new }
    {
        let mut parts = Values::new();
        self.worths(work, base, children_of(row).as_slice(), &mut parts)?;
        give(worth, self.built(work, row.reference, parts)?)
    }

    #[cycle(worths)]
    pub(crate) fn call(
        &self,
        work: &mut Workspace<'_>,
        base: usize,
        row: &NodeRow,
        worth: &mut Value,
    ) -> Result<(), EvaluationRefusal>
        requires own { base ≤ length work.old.bindings }
        requires slack { length work.old.bindings + 4 * suc work.old.state.left ≤ work.old.capacity }
        ensures ran { Ran (content self.now.t.now) self.now.this (node_rule (content self.now.t.now) self.now.this (environment base work.old) (node.Function row.now.reference (children_of row.now))) work.old (answered (λ _. worth.new) result) work.new }
    {
        let mut arguments = Values::new();
        self.worths(work, base, children_of(row).as_slice(), &mut arguments)?;
        match self.function_at(row.reference) {
            Some(function) => self.called(work, function, arguments.as_slice(), worth),
            None => give(worth, Value::Unit),
        }
    }

    /// The worth of a function's body, which sees its arguments alone.
    #[cycle(worths)]
    fn called(
        &self,
        work: &mut Workspace<'_>,
        function: FunctionRow,
        arguments: &[Value],
        worth: &mut Value,
    ) -> Result<(), EvaluationRefusal>
        requires slack { length work.old.bindings + 4 * suc work.old.state.left ≤ work.old.capacity }
        requires few { length arguments.now ≤ 4 }
        ensures ran { Ran (content self.now.t.now) self.now.this (called (Some function) arguments.now) work.old (answered (λ _. worth.new) result) work.new }
    {
        let earlier = work.length();
        work.bind_all(0, arguments);
        let ran = self.worth(work, earlier, function.body, worth);
        work.cut(earlier);
        ran
    }

    #[cycle(worths)]
    pub(crate) fn case(
        &self,
        work: &mut Workspace<'_>,
        base: usize,
        examined: u16,
        first: u16,
        worth: &mut Value,
    ) -> Result<(), EvaluationRefusal>
        requires own { base ≤ length work.old.bindings }
        requires slack { length work.old.bindings + 4 * suc work.old.state.left ≤ work.old.capacity }
        ensures ran { Ran (content self.now.t.now) self.now.this (node_rule (content self.now.t.now) self.now.this (environment base work.old) (node.Case examined first)) work.old (answered (λ _. worth.new) result) work.new }
    {
        let mut value = Value::Unit;
        self.worth(work, base, examined, &mut value)?;
        self.chosen(work, base, &value, branches_from(self.t, first), worth)
    }

    /// The worth of the first branch that fits the value, of the case that begins with the first of these.
    #[cycle(worths)]
    fn chosen(
        &self,
        work: &mut Workspace<'_>,
        base: usize,
        value: &Value,
        branches: &[BranchRow],
        worth: &mut Value,
    ) -> Result<(), EvaluationRefusal>
        requires own { base ≤ length work.old.bindings }
        requires slack { length work.old.bindings + 4 * suc (suc work.old.state.left) ≤ work.old.capacity }
        ensures ran { Ran (content self.now.t.now) self.now.this (chosen (content self.now.t.now) self.now.this (environment base work.old) value.now (take (run_length branches.now) branches.now)) work.old (answered (λ _. worth.new) result) work.new }
    {
        for branch in branches {
            if self.branch_worth(work, base, value, *branch, worth)? {
                return Ok(());
            }
            if branch.more != 1 {
                return Err(EvaluationRefusal::NoBranch);
            }
        }
        Err(EvaluationRefusal::NoBranch)
    }

    /// Whether the branch's pattern fits, and then the worth of its body; what the pattern bound does not outlive it.
    #[cycle(worths)]
    fn branch_worth(
        &self,
        work: &mut Workspace<'_>,
        base: usize,
        value: &Value,
        branch: BranchRow,
        worth: &mut Value,
    ) -> Result<bool, EvaluationRefusal>
        requires own { base ≤ length work.old.bindings }
        requires slack { length work.old.bindings + 4 * suc (suc work.old.state.left) ≤ work.old.capacity }
        ensures ran { Ran (content self.now.t.now) self.now.this (taken (content self.now.t.now) self.now.this (environment base work.old) value.now branch) work.old (answered (λ b. when b (Some worth.new)) result) work.new }
    {
        let before = work.length();
        let taken = self.taken(work, base, value, branch, worth);
        work.cut(before);
        taken
    }

    /// The same, with what the pattern bound.
    #[cycle(worths)]
    fn taken(
        &self,
        work: &mut Workspace<'_>,
        base: usize,
        value: &Value,
        branch: BranchRow,
        worth: &mut Value,
    ) -> Result<bool, EvaluationRefusal>
        requires own { base ≤ length work.old.bindings }
        requires slack { length work.old.bindings + 4 * suc (suc work.old.state.left) ≤ work.old.capacity }
        ensures adds { Adds (content self.now.t.now) self.now.this (taken (content self.now.t.now) self.now.this (environment base work.old) value.now branch) work.old (answered (λ b. when b (Some worth.new)) result) work.new }
    {
        if !self.fits(work, base, branch.pattern, value)? {
            return Ok(false);
        }
        self.worth(work, base, branch.body, worth)?;
        Ok(true)
    }
}
