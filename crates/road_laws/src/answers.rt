ghost use Rattle.std.specs.Prelude.{◌≡◌, ℕ, List, Option};
ghost use Rattle.road_model.specs.declared.answer.Plan.{Plan};
ghost use Rattle.road_model.specs.declared.answer.Query.{Query};
ghost use Rattle.road_model.specs.declared.answer.Route.{Route};
ghost use Rattle.road_model.specs.declared.answer.Verdict.{Verdict};
ghost use Rattle.road_model.specs.declared.trail.Trail.{Trail};
ghost use Rattle.road_model.specs.Graph.{Graph};
ghost use Rattle.road_model.specs.Fraction.{Fraction};
ghost use Rattle.road_model.specs.Tests.{FailsLocal, FailsStretch, IsLeastFailure};
ghost use Rattle.road_model.specs.Answers.{HasNumbers, IsAnswer};
ghost use Rattle.road_model.specs.Verdicts.{IsVerdictOf};

/// A query has one answer.
pub fn answer_is_one()
    ensures { (g : Graph) (q : Query) (a b : Plan) → IsAnswer g q a → IsAnswer g q b → a ≡ b }
{}

/// A path has one name, one plateau and one rank, whichever of its via vertices it was found by.
pub fn numbers_are_one()
    ensures { (g : Graph) (q : Query) (optimum : List ℕ) (a b : Route) → a.arcs ≡ b.arcs →
        HasNumbers g q optimum a → HasNumbers g q optimum b → a ≡ b }
{}

/// A vertex has one verdict.
pub fn verdict_is_one()
    ensures { (g : Graph) (q : Query) (v : ℕ) (a b : Option Verdict) →
        IsVerdictOf g q v a → IsVerdictOf g q v b → a ≡ b }
{}

/// The least pair that fails local optimality is one, with its distance.
pub fn least_local_failure_is_one()
    ensures { (g : Graph) (alpha : Fraction) (l : ℕ) (t : Trail) (i j d a b c : ℕ) →
        IsLeastFailure (FailsLocal g alpha l t) i j d → IsLeastFailure (FailsLocal g alpha l t) a b c →
        (i ≡ a) × (j ≡ b) × (d ≡ c) }
{}

/// The least pair that fails the stretch is one, with its distance.
pub fn least_stretch_failure_is_one()
    ensures { (g : Graph) (epsilon : Fraction) (t : Trail) (i j d a b c : ℕ) →
        IsLeastFailure (FailsStretch g epsilon t) i j d → IsLeastFailure (FailsStretch g epsilon t) a b c →
        (i ≡ a) × (j ≡ b) × (d ≡ c) }
{}
