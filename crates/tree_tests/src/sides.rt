//! One tree or the other, seen from a vertex: its root is the source or the target.

ghost use Rattle.std.specs.Prelude.{◌≡◌, ◌<◌, ◌^◌, IfSome};
ghost use Rattle.tree_tests.specs.Ancestors.{opposite};
ghost use Rattle.tree_tests.specs.Sums.{IsInTree, IsUp, TreeDist};

use canonical_trees::TreePair;
use road_model::{Step, Vertex};

/// The tree of the source, or that of the target.
#[derive(Clone, Copy, Debug, PartialEq, Eq)]
pub enum Side {
    Source,
    Target,
}

/// The step from a vertex towards the root.
pub(crate) fn step_up(pair: &TreePair<'_>, side: Side, v: Vertex) -> Option<Step>
    requires { IsInTree pair.now side v }
    ensures { IsUp pair.now side v result }
{
    pair.star().within_limits();
    match side {
        Side::Source => pair.from_step(v),
        Side::Target => pair.to_step(v),
    }
}

/// The distance between a vertex and the root.
pub(crate) fn distance(pair: &TreePair<'_>, side: Side, v: Vertex) -> u64
    requires { IsInTree pair.now side v }
    ensures is { TreeDist pair.now side v result }
    ensures short { result < 2 ^ 57 }
{
    match side {
        Side::Source => pair.from_label(v).unwrap(),
        Side::Target => pair.to_label(v).unwrap(),
    }
}

/// The other tree.
pub(crate) fn opposite(side: Side) -> Side
    ensures { result ≡ opposite side }
{
    match side {
        Side::Source => Side::Target,
        Side::Target => Side::Source,
    }
}

/// The distance between a vertex and the root, where the vertex is inside the ball.
pub(crate) fn label(pair: &TreePair<'_>, side: Side, v: Vertex) -> Option<u64>
    ensures is { IfSome result (TreeDist pair.now side v) }
    ensures short { IfSome result (λ d. d < 2 ^ 57) }
{
    match side {
        Side::Source => pair.from_label(v),
        Side::Target => pair.to_label(v),
    }
}
