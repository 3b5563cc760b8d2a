ghost use Rattle.std.specs.Prelude.{◌≡◌, ℕ, [], ◌∷◌, Some, None, true, false};
ghost use Rattle.road_model.specs.declared.answer.Plan.TheVariants.{NoPath, Found};
ghost use Rattle.road_model.specs.Walk.{IsWalk};
ghost use Rattle.road_model.specs.Dist.{IsDist, IsShortest};
ghost use Rattle.road_model.specs.Canonical.{IsFirst, IsLast, IsOptimum};
ghost use Rattle.road_model.specs.Places.{trail_of};
ghost use Rattle.road_model.specs.Tests.{shared, FailsLocal, FailsStretch, NoneFails, IsLeastFailure};
ghost use Rattle.road_model.specs.Alternatives.{IsVia, HasNoVia, IsAdmissible, IsName, IsPlateau};
ghost use Rattle.road_model.specs.Answers.{IsAnswer, IsPage};
ghost use Rattle.road_model.specs.Changes.{after};
ghost use Rattle.road_model.specs.Graph.{arc_at};
ghost use Rattle.road_model.specs.Verdicts.{IsVerdict};
ghost use Rattle.road_model.specs.declared.answer.Verdict.TheVariants as verdict;
ghost use Rattle.road_model.specs.Queries.{ratio, usual};
ghost use Rattle.road_laws.specs.Worked.{graph_a, graph_b, graph_s, optimum_a, route_a, plan_a, arc};

/// A walk, its distance, and a pair without one.
pub fn distances_of_a()
    ensures walk { IsWalk graph_a 1 (3 ∷ 4 ∷ 5 ∷ []) 6 }
    ensures no_walk { IsWalk graph_a 1 (3 ∷ 5 ∷ []) 6 → ⊥ }
    ensures distance { IsDist graph_a 1 6 (Some 20) }
    ensures longer { IsDist graph_a 1 6 (Some 22) → ⊥ }
    ensures none { IsDist graph_a 6 1 None }
    ensures some { IsDist graph_a 1 6 None → ⊥ }
{}

/// Of two shortest walks to vertex 3 the one whose last arc has the least number is canonical.
pub fn ties_go_by_arc_number()
    ensures both { IsShortest graph_a 1 (3 ∷ []) 3 × IsShortest graph_a 1 (1 ∷ 6 ∷ []) 3 }
    ensures first { IsFirst graph_a 1 (3 ∷ []) 3 }
    ensures other { IsFirst graph_a 1 (1 ∷ 6 ∷ []) 3 → ⊥ }
{}

/// The walk 3 4 5 of graph A is the path through vertex 3, and admissible with the usual ratios.
pub fn the_long_way_of_a_is_admissible()
    ensures through { IsVia graph_a 1 6 3 (3 ∷ 4 ∷ 5 ∷ []) }
    ensures not_through { IsVia graph_a 1 6 2 (3 ∷ 4 ∷ 5 ∷ []) → ⊥ }
    ensures admissible { IsAdmissible graph_a (usual 1 6) (1 ∷ 2 ∷ []) (3 ∷ 4 ∷ 5 ∷ []) }
    ensures nothing_shared { shared graph_a (1 ∷ 2 ∷ []) (3 ∷ 4 ∷ 5 ∷ []) ≡ 0 }
{}

/// The two long arcs of graph B are tested because nothing is left of them without their ends.
pub fn two_arcs_fail_without_their_ends()
    ensures fails { FailsLocal graph_b (ratio 1 4) 20 (trail_of graph_b 1 (3 ∷ 4 ∷ [])) 0 2 20 }
    ensures least { IsLeastFailure (FailsLocal graph_b (ratio 1 4) 20 (trail_of graph_b 1 (3 ∷ 4 ∷ []))) 0 2 20 }
    ensures refused { IsAdmissible graph_b (usual 1 6) (1 ∷ 2 ∷ []) (3 ∷ 4 ∷ []) → ⊥ }
{}

/// In graph A the inner length 6 isn't below 3/10 of 20, which is 6, and is below 13/40 of it.
pub fn on_the_bound_is_tested_no_further()
    ensures on_it { NoneFails (FailsLocal graph_a (ratio 3 10) 20 (trail_of graph_a 1 (3 ∷ 4 ∷ 5 ∷ []))) }
    ensures below_it { IsLeastFailure (FailsLocal graph_a (ratio 13 40) 20 (trail_of graph_a 1 (3 ∷ 4 ∷ 5 ∷ []))) 0 3 20 }
{}

/// The walk of graph S through vertex 4 is stretched up to its second visit of vertex 2, and closed there.
pub fn closed_subpaths_fail()
    ensures least { IsLeastFailure (FailsStretch graph_s (ratio 1 1) (trail_of graph_s 1 (1 ∷ 3 ∷ 4 ∷ 2 ∷ []))) 0 3 1 }
    ensures closed { FailsStretch graph_s (ratio 1 1) (trail_of graph_s 1 (1 ∷ 3 ∷ 4 ∷ 2 ∷ [])) 1 3 0 }
{}

/// No path exactly where no walk leads there; and vertex 5 of graph A can't be a via.
pub fn no_path_of_a()
    ensures none { IsAnswer graph_a (usual 6 1) NoPath }
    ensures some { IsAnswer graph_a (usual 1 6) NoPath → ⊥ }
    ensures unreached { IsVerdict graph_a (usual 1 6) (1 ∷ 2 ∷ []) 5 verdict.Unreached }
    ensures reached { IsVerdict graph_a (usual 1 6) (1 ∷ 2 ∷ []) 3 verdict.Unreached → ⊥ }
{}

/// The answer of graph A from 1 to 6, by the definitions alone: neither less nor more is one.
pub fn the_answer_of_a()
    ensures answer { IsAnswer graph_a (usual 1 6) plan_a }
    ensures name { IsName graph_a 1 6 (3 ∷ 4 ∷ 5 ∷ []) 3 }
    ensures plateau { IsPlateau graph_a 1 6 (3 ∷ 4 ∷ 5 ∷ []) 6 }
    ensures less { IsAnswer graph_a (usual 1 6) (Found optimum_a []) → ⊥ }
    ensures more { IsAnswer graph_a (usual 1 6) (Found optimum_a (route_a ∷ route_a ∷ [])) → ⊥ }
{}

/// Vertex 4 of graph A lies on the alternative that vertex 3 names, and vertex 2 on the optimum.
pub fn verdicts_of_a()
    ensures listed { IsVerdict graph_a (usual 1 6) (1 ∷ 2 ∷ []) 4 (verdict.Listed 3) }
    ensures not_by_itself { IsVerdict graph_a (usual 1 6) (1 ∷ 2 ∷ []) 4 (verdict.Listed 4) → ⊥ }
    ensures not_long { IsVerdict graph_a (usual 1 6) (1 ∷ 2 ∷ []) 4 (verdict.Long 22) → ⊥ }
    ensures optimum { IsVerdict graph_a (usual 1 6) (1 ∷ 2 ∷ []) 2 verdict.Optimum }
{}

/// A later change of an arc wins, and the other arcs stay.
pub fn changes_of_a()
    ensures last { arc_at (after graph_a (record { arc = 4; length = 9 } ∷ record { arc = 4; length = 7 } ∷ [])) 4
        ≡ Some (arc 3 4 7) }
    ensures others { arc_at (after graph_a (record { arc = 4; length = 9 } ∷ [])) 3 ≡ Some (arc 1 3 11) }
{}

/// Of two items a page of one has the first, and more follow it; after both there is none.
pub fn pages_of_two()
    ensures first { IsPage 2 1 0 (record { first = 0; count = 1; more = true }) }
    ensures last { IsPage 2 1 1 (record { first = 1; count = 1; more = false }) }
    ensures beyond { IsPage 2 1 9 (record { first = 2; count = 0; more = false }) }
    ensures not_more { IsPage 2 1 1 (record { first = 1; count = 1; more = true }) → ⊥ }
{}
