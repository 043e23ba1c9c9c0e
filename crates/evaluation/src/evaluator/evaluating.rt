//! Evaluating an expression.
ghost use Rattle.std.specs.Prelude.{◌≤◌, length};
ghost use Rattle.tables.specs.Layout.{content};
ghost use Rattle.evaluation.specs.Carried.{Evaluates};
ghost use Rattle.evaluation.specs.Plans.{ask};
ghost use Rattle.evaluation.specs.Refusals.{answered};
ghost use Rattle.evaluation.specs.Rules.{all_of};
ghost use Rattle.evaluation.specs.Values.{values_of};
ghost use Rattle.evaluation.specs.Typed.{KeepsTypes, KeepsEachType};

use crate::evaluator::Evaluator;
use crate::refusal::EvaluationRefusal;
use crate::value::{Value, Values};
use crate::workspace::Workspace;

impl Evaluator<'_> {
    /// The worth of the node in this row, in all bindings of the workspace. A refusal leaves the cells as they were.
    pub fn evaluate(&self, work: &mut Workspace<'_>, row: u16) -> Result<Value, EvaluationRefusal>
        ensures evaluates { Evaluates (content self.now.t.now) self.now.this (ask row work.old.bindings) work.old result work.new }
        ensures keeps_types { KeepsTypes (content self.now.t.now) self.now.this row work.old result work.new }
    {
        let cells = work.cells();
        let mut worth = Value::Unit;
        if let Err(refusal) = self.worth(work, 0, row, &mut worth) {
            work.cut_cells(cells);
            return Err(refusal);
        }
        Ok(worth)
    }

    /// The worths of the nodes in these rows, four at most, one after another: each has the visits and the cells that those before it left.
    /// A refusal leaves the cells as they were before the first.
    pub fn evaluate_all(
        &self,
        work: &mut Workspace<'_>,
        rows: &[u16],
    ) -> Result<Values, EvaluationRefusal>
        requires few { length rows.now ≤ 4 }
        ensures evaluates { Evaluates (content self.now.t.now) self.now.this (all_of rows.now work.old.bindings) work.old (answered values_of result) work.new }
        ensures keeps_types { KeepsEachType (content self.now.t.now) self.now.this rows.now work.old (answered values_of result) work.new }
    {
        let cells = work.cells();
        let mut worths = Values::new();
        if let Err(refusal) = self.worths(work, 0, rows, &mut worths) {
            work.cut_cells(cells);
            return Err(refusal);
        }
        Ok(worths)
    }
}
