//! Steps down to the vertex that labels are the distances to.

ghost use Rattle.std.specs.Prelude.{◌≡◌, ◌↔◌, ◌^◌, IsTrue, IsSome, OnOk};
ghost use Rattle.road_model.specs.Graph.{LengthsBelow};
ghost use Rattle.canonical_trees.specs.Tight.{IsRooted, HasTightLabel, IsStepDown, AddsPath};
ghost use Rattle.canonical_trees.specs.Kept.{AreSteps};
ghost use Rattle.tree_search.specs.Ball.{label_at};

use crate::kept::{KeptStep, kept_of, step_of};
use road_model::{ArcNo, Network, NoMemory, Step, Vertex};
use stamped_table::Table;
use tree_search::Labels;

/// The label of the step's head and the step's length make what is left.
#[inline]
fn is_tight(labels: &Labels<'_>, step: &Step, left: u64) -> bool
    ensures { IsTrue result ↔ HasTightLabel labels.now left step.now }
{
    match labels.label(step.head) {
        Some(near) => near <= left && left - near == step.length,
        None => false,
    }
}

/// The least of the arcs out of `v` that a shortest walk to `root` can begin with. Arcs come by rising number, so
/// it is the first one that fits.
pub(crate) fn step_down<N: Network>(
    net: &N,
    labels: &Labels<'_>,
    root: Vertex,
    v: Vertex,
) -> Option<Step>
    requires { IsRooted (N.graph net.now) root labels.now }
    ensures { IsStepDown (N.graph net.now) root labels.now v result }
{
    if v.number() == root.number() {
        return None;
    }
    let left = labels.label(v)?;
    let mut i = 0;
    while let Some(step) = net.out(v, i) {
        if is_tight(labels, &step, left) {
            return Some(step);
        }
        i += 1;
    }
    None
}

/// The step that `step_down` finds: the one that is kept, and by a scan only where none is.
pub(crate) fn step_at<N: Network>(
    net: &N,
    labels: &Labels<'_>,
    steps: &Table<KeptStep>,
    root: Vertex,
    v: Vertex,
) -> Option<Step>
    requires rooted { IsRooted (N.graph net.now) root labels.now }
    requires steps { AreSteps (N.graph net.now) root labels.now steps.now }
    ensures { IsStepDown (N.graph net.now) root labels.now v result }
{
    if let Some(kept) = steps.get(v.number() as usize) {
        return Some(step_of(&kept));
    }
    step_down(net, labels, root, v)
}

/// Keeps the step of a vertex, if it has one.
fn keep_step<N: Network>(
    net: &N,
    labels: &Labels<'_>,
    steps: &mut Table<KeptStep>,
    root: Vertex,
    v: Vertex,
)
    requires short { LengthsBelow (N.graph net.now) (2 ^ 32) }
    requires rooted { IsRooted (N.graph net.now) root labels.now }
    requires steps { AreSteps (N.graph net.now) root labels.now steps.old }
    ensures { AreSteps (N.graph net.now) root labels.now steps.new }
{
    let Some(step) = step_down(net, labels, root, v) else {
        return;
    };
    steps.set(v.number() as usize, kept_of(&step));
}

/// Both labels are there, and their sum is at most `most`.
fn is_near(labels: &Labels<'_>, others: &Labels<'_>, v: Vertex, most: u64) -> bool {
    let Some(own) = labels.label(v) else {
        return false;
    };
    let Some(other) = others.label(v) else {
        return false;
    };
    own <= most && other <= most - own
}

/// Keeps the steps of those of the vertices whose labels sum to at most `most`. Takes one scan of the arcs of each of
/// these.
pub(crate) fn keep_near<N: Network>(
    net: &N,
    labels: &Labels<'_>,
    others: &Labels<'_>,
    vertices: &[Vertex],
    most: u64,
    root: Vertex,
    steps: &mut Table<KeptStep>,
)
    requires short { LengthsBelow (N.graph net.now) (2 ^ 32) }
    requires rooted { IsRooted (N.graph net.now) root labels.now }
    requires steps { AreSteps (N.graph net.now) root labels.now steps.old }
    ensures { AreSteps (N.graph net.now) root labels.now steps.new }
{
    for v in vertices {
        if is_near(labels, others, *v, most) {
            keep_step(net, labels, steps, root, *v);
        }
    }
}

/// Adds the canonical path from `v` to `root`, an arc at a time.
pub(crate) fn follow<N: Network>(
    net: &N,
    labels: &Labels<'_>,
    steps: &Table<KeptStep>,
    root: Vertex,
    v: Vertex,
    arcs: &mut Vec<ArcNo>,
) -> Result<(), NoMemory>
    requires rooted { IsRooted (N.graph net.now) root labels.now }
    requires steps { AreSteps (N.graph net.now) root labels.now steps.now }
    requires labelled { IsSome (label_at labels.now v) }
    ensures { OnOk result (AddsPath (N.graph net.now) root v arcs.old.items arcs.new.items) }
{
    let mut at = v;
    while let Some(step) = step_at(net, labels, steps, root, at) {
        arcs.push(step.arc)?;
        at = step.head;
    }
    Ok(())
}
