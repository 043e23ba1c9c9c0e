//! The laws of evaluation.
ghost use Rattle.std.specs.Prelude.{ℕ};
ghost use Rattle.tables.specs.Layout.{Content};
ghost use Rattle.evaluation.specs.Laws.{VisitLaws};
ghost use Rattle.evaluation.specs.Typed.{Extends, Referents, TypesLast};

/// Does nothing; that the laws hold is proved.
#[tactic(auto, using(crate::proofs::Visits::visit_laws, crate::proofs::TypedValues::types_last))]
pub fn laws_hold()
    ensures visits { (m : Content) (this : ℕ) → VisitLaws m this }
    ensures types_last { (m : Content) (known more : Referents) → Extends known more → TypesLast m known more }
{}
