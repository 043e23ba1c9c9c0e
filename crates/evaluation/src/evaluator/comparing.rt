//! Whether two values are the same.
ghost use Rattle.std.specs.Prelude.{◌≡◌};
ghost use Rattle.tables.specs.Layout.{content};
ghost use Rattle.evaluation.specs.declared.value.Value.TheVariants.{Bool};
ghost use Rattle.evaluation.specs.Carried.{Ran};
ghost use Rattle.evaluation.specs.Plans.{compare};
ghost use Rattle.evaluation.specs.Refusals.{answered};
ghost use Rattle.evaluation.specs.Rules.{pair_rule, same_cells, same_parts};
ghost use Rattle.evaluation.specs.Sameness.{TellsSame};

use crate::evaluator::Evaluator;
use crate::refusal::EvaluationRefusal;
use crate::value::Value;
use crate::workspace::Workspace;

impl Evaluator<'_> {
    /// Whether the two values are the same; one visit is spent on them.
    #[cycle(comparing)]
    pub(crate) fn same(
        &self,
        work: &mut Workspace<'_>,
        v: Value,
        w: Value,
    ) -> Result<bool, EvaluationRefusal>
        ensures ran { Ran (content self.now.t.now) self.now.this (compare v w) work.old (answered Bool result) work.new }
        ensures tells_same { TellsSame work.old.state.cells v w result }
    {
        work.spend()?;
        self.same_values(work, v, w)
    }

    /// The same, when the visit is paid for.
    #[cycle(comparing)]
    fn same_values(
        &self,
        work: &mut Workspace<'_>,
        v: Value,
        w: Value,
    ) -> Result<bool, EvaluationRefusal>
        ensures ran { Ran (content self.now.t.now) self.now.this (pair_rule v w) work.old (answered Bool result) work.new }
    {
        match (v.cell(), w.cell()) {
            (Some(i), Some(j)) => self.same_cells(work, i, j),
            _ => Ok(v.same(w)),
        }
    }

    /// Whether two cells hold the same.
    // apart from `same`, which mostly compares values that are no cells
    #[inline(never)]
    #[cycle(comparing)]
    fn same_cells(
        &self,
        work: &mut Workspace<'_>,
        i: u16,
        j: u16,
    ) -> Result<bool, EvaluationRefusal>
        ensures ran { Ran (content self.now.t.now) self.now.this (same_cells i j) work.old (answered Bool result) work.new }
    {
        let (Some(a), Some(b)) = (work.read(i), work.read(j)) else {
            return Ok(false);
        };
        if a.constructor != b.constructor {
            return Ok(false);
        }
        let (vs, ws) = (a.parts, b.parts);
        self.same_parts(work, vs.as_slice(), ws.as_slice())
    }

    /// Whether the parts are the same, up to the first difference.
    #[cycle(comparing)]
    fn same_parts(
        &self,
        work: &mut Workspace<'_>,
        vs: &[Value],
        ws: &[Value],
    ) -> Result<bool, EvaluationRefusal>
        ensures ran { Ran (content self.now.t.now) self.now.this (same_parts vs.now ws.now) work.old (answered Bool result) work.new }
    {
        if vs.len() != ws.len() {
            return Ok(false);
        }
        for (v, w) in vs.iter().zip(ws) {
            if !self.same(work, *v, *w)? {
                return Ok(false);
            }
        }
        Ok(true)
    }
}
