//! All plateaus.

ghost use Rattle.std.specs.Prelude.{◌≡◌, Some, None, IfOk, Contains, IsPermutation};
ghost use Rattle.std.specs.List.Sorted.{IsNonDecreasingBy};
ghost use Rattle.plateau_finder.specs.Plateaus.{ArePlateaus, FindsPlateau, IsPlateauThrough};
ghost use Rattle.plateau_finder.specs.Links.{IsChainBack, AreGathered, HasLeast, StartsAt};

use crate::chains::{first_of, plateau_at, plateau_from};
use crate::plateau::{Plateau, PlateauList};
use canonical_trees::TreePair;
use rayon::prelude::*;
use road_model::{NoMemory, Vertex};
use std::alloc::Global;
use std::thread::Threads;

/// The plateaus of the walks within the bound, by rising first vertex.
fn gathered(
    alloc: Global,
    pair: &TreePair<'_>,
    bound: Option<u64>,
) -> Result<Vec<Plateau>, NoMemory>
    ensures { IfOk result (λ cs. AreGathered pair.now bound cs.items) }
{
    pair.star().within_limits();
    let mut found = Vec::new(alloc);
    for v in pair.from_members().as_slice() {
        if let Some(plateau) = plateau_at(pair, *v, bound) {
            found.push(plateau)?;
        }
    }
    Ok(found)
}

/// The plateaus that `gathered` finds, by as many threads as there are processors.
fn gathered_forked<R: Threads + Sync>(
    rt: &R,
    alloc: Global,
    pair: &TreePair<'_>,
    bound: Option<u64>,
) -> Result<Vec<Plateau>, NoMemory>
    ensures { IfOk result (λ cs. AreGathered pair.now bound cs.items) }
{
    pair.star().within_limits();
    let vertices = pair.from_members().as_slice();
    vertices
        .par_iter()
        .filter_map(
            |v: &Vertex| -> Option<Plateau>
                ensures { StartsAt pair.entry.now bound v.now result }
            { plateau_at(pair, *v, bound) },
        )
        .collect(rt, alloc)
}

/// By rising least vertex.
fn in_order(mut found: Vec<Plateau>) -> Result<PlateauList, NoMemory>
    ensures { IfOk result (λ cs. IsPermutation found.items cs × IsNonDecreasingBy (λ (c : Plateau). c.least) cs) }
{
    found.sort_by_key(|plateau| plateau.least)?;
    Ok(PlateauList::from_vec(found))
}

/// All plateaus of the vertices in both balls. One pass over the ball from the
/// source, in linear time, and a sort of the plateaus; 24 bytes a plateau. No walk is made or compared.
pub fn plateaus(alloc: Global, pair: &TreePair<'_>) -> Result<PlateauList, NoMemory>
    ensures { IfOk result (λ cs. ArePlateaus pair.now None cs) }
{
    let list = in_order(gathered(alloc, pair, None)?)?;
    Ok(list)
}

/// Those whose walk is no longer than the bound. The same pass, and only these are kept and sorted.
pub fn plateaus_within(
    alloc: Global,
    pair: &TreePair<'_>,
    bound: u64,
) -> Result<PlateauList, NoMemory>
    ensures { IfOk result (λ cs. ArePlateaus pair.now (Some bound) cs) }
{
    let list = in_order(gathered(alloc, pair, Some(bound))?)?;
    Ok(list)
}

/// The plateaus that `plateaus_within` finds. The vertices of the ball from the source are parted among as many threads
/// as there are processors, where they are 2048 or more. One thread walks the whole of a plateau, and one sorts them.
pub fn plateaus_forked<R: Threads + Sync>(
    rt: &R,
    alloc: Global,
    pair: &TreePair<'_>,
    bound: u64,
) -> Result<PlateauList, NoMemory>
    ensures { IfOk result (λ cs. ArePlateaus pair.now (Some bound) cs) }
{
    let list = in_order(gathered_forked(rt, alloc, pair, Some(bound))?)?;
    Ok(list)
}

/// The plateau of this name.
fn named(list: &[Plateau], least: Vertex) -> Plateau
    requires { HasLeast list.now least }
    ensures listed { Contains list.now result }
    ensures least { result.least ≡ least }
{
    for plateau in list {
        if plateau.least.number() == least.number() {
            return *plateau;
        }
    }
    unreachable!()
}

/// The plateau of a vertex, by the trees alone; none exactly where it is outside a ball. Takes the time of the arcs at
/// the plateau's vertices and at those next to it, and no memory.
pub fn plateau_through(pair: &TreePair<'_>, v: Vertex) -> Option<Plateau>
    ensures { IsPlateauThrough pair.now v result }
{
    let Some(_near) = pair.from_label(v) else {
        return None;
    };
    let Some(_left) = pair.to_label(v) else {
        return None;
    };
    let first = first_of(pair, v);
    Some(plateau_from(pair, first))
}

/// The plateau of a vertex; none exactly where it is outside a ball. Takes the time of the arcs at the plateau's
/// vertices and at those next to it, and a scan of the list; no memory. The list is that of all plateaus of the pair.
pub fn plateau_of(list: &PlateauList, pair: &TreePair<'_>, v: Vertex) -> Option<Plateau>
    requires { ArePlateaus pair.now None list.now }
    ensures { FindsPlateau pair.now list.now v result }
{
    pair.star().within_limits();
    let _source = pair.source();
    let Some(_near) = pair.from_label(v) else {
        return None;
    };
    let Some(_left) = pair.to_label(v) else {
        return None;
    };
    let first = first_of(pair, v);
    let chain = plateau_from(pair, first);
    Some(named(list.as_slice(), chain.least))
}
