//! Whole canonical paths.

ghost use Rattle.std.specs.Prelude.{◌≡◌, ◌<◌, ◌^◌, IfOk, IfSome, IsSome};
ghost use Rattle.road_model.specs.Graph.{IsVertex, reversed};
ghost use Rattle.road_model.specs.Canonical.{IsFirst, IsOptimum};
ghost use Rattle.tree_search.specs.Ball.{label_at};
ghost use Rattle.canonical_trees.specs.Tight.{IsRooted};
ghost use Rattle.canonical_trees.specs.Kept.{AreSteps};
ghost use Rattle.canonical_trees.specs.Trees.{IsViaPath};

use crate::descent::follow;
use crate::kept::{KeptStep, no_steps};
use crate::tree_memory::TreeMemory;
use crate::tree_pair::TreePair;
use forward_star::Star;
use road_model::{ArcList, ArcNo, NoMemory, Optimum, Vertex};
use stamped_table::Table;
use std::alloc::Global;
use tree_search::Labels;
use tree_search::search::labels_to;

/// The canonical path from `s` to `v`, by the labels of a search from `s` and the steps that are kept. It is found from
/// its end.
pub(crate) fn path_from(
    alloc: Global,
    star: &Star,
    labels: &Labels<'_>,
    steps: &Table<KeptStep>,
    s: Vertex,
    v: Vertex,
) -> Result<Vec<ArcNo>, NoMemory>
    requires rooted { IsRooted (reversed star.now) s labels.now }
    requires steps { AreSteps (reversed star.now) s labels.now steps.now }
    requires labelled { IsSome (label_at labels.now v) }
    ensures { IfOk result (λ arcs. IsFirst star.now s arcs.items v) }
{
    let mut arcs = Vec::new(alloc);
    follow(&star.reversed(), labels, steps, s, v, &mut arcs)?;
    arcs.reverse();
    Ok(arcs)
}

/// The canonical path from the source to `v`, followed by the one from `v` to the target. None where `v` is outside
/// one of the balls. Takes constant time for each vertex of the path whose steps are kept, and that of its arcs for
/// each other one; 4 bytes an arc.
pub fn via_path(alloc: Global, pair: &TreePair<'_>, v: Vertex) -> Result<Option<ArcList>, NoMemory>
    ensures { IfOk result (λ path. IsViaPath pair.now v path) }
{
    if pair.from_label(v).is_none() {
        return Ok(None);
    }
    if pair.to_label(v).is_none() {
        return Ok(None);
    }
    let mut arcs = pair.path_from_source(alloc, v)?;
    pair.add_path_to_target(v, &mut arcs)?;
    Ok(Some(ArcList::from_vec(arcs)))
}

/// The canonical shortest path from `s` to `t`; none where no walk leads there. It takes a search that stops at `t`,
/// and 8 bytes a vertex.
pub fn optimum(
    alloc: Global,
    star: &Star,
    s: Vertex,
    t: Vertex,
) -> Result<Option<Optimum>, NoMemory>
    requires source { IsVertex star.now.vertices s }
    requires target { IsVertex star.now.vertices t }
    ensures found { IfOk result (λ best. IsOptimum star.now s t best) }
    ensures short { IfOk result (λ best. IfSome best (λ o. o.length < 2 ^ 57)) }
{
    let mut memory = TreeMemory::new(alloc);
    let best = optimum_in(alloc, &mut memory, star, s, t)?;
    Ok(best)
}

/// The optimum that `optimum` finds, by a search in a kept memory. It takes what the search visits, and the time to
/// take back the labels of the one before; 8 bytes a vertex only where the memory served no graph with as many
/// vertices before.
pub fn optimum_in(
    alloc: Global,
    memory: &mut TreeMemory,
    star: &Star,
    s: Vertex,
    t: Vertex,
) -> Result<Option<Optimum>, NoMemory>
    requires source { IsVertex star.now.vertices s }
    requires target { IsVertex star.now.vertices t }
    ensures found { IfOk result (λ best. IsOptimum star.now s t best) }
    ensures short { IfOk result (λ best. IfSome best (λ o. o.length < 2 ^ 57)) }
{
    star.within_limits();
    let Some(length) = labels_to(alloc, &mut memory.from, star, s, t)? else {
        return Ok(None);
    };
    let labels = Labels::new(&memory.from.labels, length);
    let arcs = path_from(alloc, star, &labels, &no_steps(alloc), s, t)?;
    Ok(Some(Optimum {
        length,
        arcs: ArcList::from_vec(arcs),
    }))
}
