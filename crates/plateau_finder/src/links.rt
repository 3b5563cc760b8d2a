//! The links between the vertices of a plateau.

ghost use Rattle.plateau_finder.specs.Plateaus.{IsInBoth};
ghost use Rattle.plateau_finder.specs.Links.{IsNext, IsPrevious};

use canonical_trees::TreePair;
use road_model::Vertex;

/// The vertex that a link leads to. Takes the time of the arcs out of `u`, and of those into the next vertex.
pub(crate) fn next_of(pair: &TreePair<'_>, u: Vertex) -> Option<Vertex>
    requires { IsInBoth pair.now u }
    ensures { IsNext pair.now u result }
{
    let Some(step) = pair.to_step(u) else {
        return None;
    };
    let Some(back) = pair.from_step(step.head) else {
        return None;
    };
    if back.arc.number() != step.arc.number() {
        return None;
    }
    Some(step.head)
}

/// The vertex that a link leads from. Takes the time of the arcs into `v`, and of those out of the vertex before.
pub(crate) fn previous_of(pair: &TreePair<'_>, v: Vertex) -> Option<Vertex>
    requires { IsInBoth pair.now v }
    ensures { IsPrevious pair.now v result }
{
    let Some(step) = pair.from_step(v) else {
        return None;
    };
    let Some(onward) = pair.to_step(step.head) else {
        return None;
    };
    if onward.arc.number() != step.arc.number() {
        return None;
    }
    Some(step.head)
}
