ghost use Rattle.std.specs.Prelude.{◌≡◌, ◌<◌, ◌≤◌, ◌+◌, ◌++◌, ◌⊎◌, ℕ, List, length, Option, Some};
ghost use Rattle.road_model.specs.Graph.{Graph, IsGraph};
ghost use Rattle.road_model.specs.Walk.{IsWalk, walk_length};
ghost use Rattle.road_model.specs.Dist.{IsDist, IsShortest};
ghost use Rattle.road_model.specs.Canonical.{IsFirst, IsLast};
ghost use Rattle.road_model.specs.Fraction.{Fraction};
ghost use Rattle.road_model.specs.Places.{between, trail_of, IsDistAt};
ghost use Rattle.road_model.specs.Tests.{FailsLocal, NoneFails};
ghost use Rattle.road_model.specs.Alternatives.{IsVia};

/// Two vertices have one distance, or none.
pub fn dist_is_one()
    ensures { (g : Graph) (u v : ℕ) (a b : Option ℕ) → IsDist g u v a → IsDist g u v b → a ≡ b }
{}

/// The parts of a walk are walks.
pub fn parts_of_walk()
    ensures { (g : Graph) (p q : List ℕ) (u w : ℕ) → IsWalk g u (p ++ q) w →
        (v : ℕ) × IsWalk g u p v × IsWalk g v q w }
{}

/// The parts of a shortest walk are shortest.
pub fn parts_of_shortest()
    ensures { (g : Graph) (p q : List ℕ) (u w : ℕ) → IsShortest g u (p ++ q) w →
        (v : ℕ) × IsShortest g u p v × IsShortest g v q w }
{}

/// A walk through a third vertex is never shorter.
pub fn triangle()
    ensures { (g : Graph) (u v w a b c : ℕ) → IsDist g u v (Some a) → IsDist g v w (Some b) →
        IsDist g u w (Some c) → c ≤ a + b }
{}

/// There is one canonical walk from a source.
pub fn first_is_one()
    ensures { (g : Graph) (s v : ℕ) (p q : List ℕ) → IsFirst g s p v → IsFirst g s q v → p ≡ q }
{}

/// There is one canonical walk to a target.
pub fn last_is_one()
    ensures { (g : Graph) (v t : ℕ) (p q : List ℕ) → IsLast g v p t → IsLast g v q t → p ≡ q }
{}

/// The path through the target is the optimum.
pub fn via_of_target()
    ensures { (g : Graph) (s t : ℕ) (p : List ℕ) → IsGraph g → IsVia g s t t p → IsFirst g s p t }
{}

/// Of a single-via path, each subpath up to the via and each from the via on is as long as the distance
/// between its ends: only pairs of places round the via can fail a test.
pub fn via_parts_are_shortest()
    ensures { (g : Graph) (s t v : ℕ) (p : List ℕ) (through : IsVia g s t v p) (i j : ℕ) →
        i ≤ j → j ≤ length p → (j ≤ length through.prefix) ⊎ (length through.prefix ≤ i) →
        IsDistAt g (trail_of g s p) i j (between (trail_of g s p) i j) }
{}

/// A walk that is locally optimal with the ratio 1, and no longer than the optimum that it is measured by,
/// is a shortest walk between its own ends.
pub fn locally_optimal_is_shortest()
    ensures { (g : Graph) (alpha : Fraction) (u v l d : ℕ) (p : List ℕ) → alpha.num ≡ alpha.den →
        IsWalk g u p v → IsDist g u v (Some d) → walk_length g p ≤ l →
        NoneFails (FailsLocal g alpha l (trail_of g u p)) → IsShortest g u p v }
{}
