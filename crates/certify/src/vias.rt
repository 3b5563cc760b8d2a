//! A line for each near vertex: one whose path is no longer than the bound.

ghost use Rattle.std.specs.Prelude.{◌≡◌, ◌<◌, ◌↔◌, Some, IfOk, IsTrue, All, Contains, length, map};
ghost use Rattle.std.specs.List.{slice_index_or};
ghost use Rattle.std.specs.List.Sorted.{IsStrictlyIncreasing};
ghost use Rattle.road_model.specs.Dist.{HaveSameDist};
ghost use Rattle.plateau_finder.specs.Plateaus.{IsListedPlateau};
ghost use Rattle.certify.specs.declared.vias.Class.{Class};
ghost use Rattle.certify.specs.Written.{AreVias};
ghost use Rattle.certify.specs.Reasons.{IsPosed, pair_of};
ghost use Rattle.certify.specs.Classes.{AreClasses, AreAllClasses, IsNearIn, IsRowOf, IsBound};

use crate::numbers::copied;
use crate::verdicts::{Ground, reason_of};
use canonical_trees::{TreeMemory, TreePair};
use certificate_text::{Reason, ViaRow};
use plateau_finder::{Plateau, plateau_through, plateaus_within};
use road_model::{NoMemory, Oracle, Vertex};
use std::alloc::Global;

/// The reason of the paths through the vertices of one plateau, by the least of these.
#[derive(Debug, Drop)]
pub(crate) struct Class {
    pub(crate) least: Vertex,
    pub(crate) reason: Reason,
}

/// The class of each plateau. Each path is put to the tests once, and the detours are found in one memory, of 8 bytes a
/// vertex of the star.
fn classes_of<O: Oracle>(
    alloc: Global,
    ground: &Ground<'_>,
    oracle: &mut O,
    plateaus: &[Plateau],
) -> Result<Vec<Class>, NoMemory>
    requires posed { IsPosed ground.now.star.now ground.now.query.now ground.now.best.now }
    requires trees { ground.now.pair.now ≡ pair_of ground.now.star.now ground.now.query.now ground.now.pair.now.radius }
    requires same { HaveSameDist ground.now.star.now (O.graph oracle.old) }
    requires listed { All (IsListedPlateau ground.now.pair.now ground.now.pair.now.radius) plateaus.now }
    ensures classes { IfOk result
        (λ classes. AreClasses ground.now.star.now ground.now.query.now ground.now.best.now.arcs plateaus.now classes.items) }
    ensures same { O.graph oracle.new ≡ O.graph oracle.old }
{
    let mut memory = TreeMemory::new(alloc);
    let mut classes = Vec::new(alloc);
    for plateau in plateaus {
        classes.push(Class {
            least: plateau.least,
            reason: reason_of(alloc, &mut memory, ground, oracle, plateau)?,
        })?;
    }
    Ok(classes)
}

/// The place of the class of this name, by halves.
fn place_of_class(classes: &[Class], least: Vertex) -> usize
    requires rising { IsStrictlyIncreasing (map (λ (k : Class). k.least) classes.now) }
    requires has { Contains (map (λ (k : Class). k.least) classes.now) least }
    ensures inside { result < length classes.now }
    ensures is { (d : Class) → (slice_index_or classes.now result d).least ≡ least }
{
    let mut low = 0;
    let mut high = classes.len();
    while low < high {
        let middle = low + (high - low) / 2;
        let own = classes[middle].least;
        if own.number() == least.number() {
            return middle;
        }
        if own.number() < least.number() {
            low = middle + 1;
        } else {
            high = middle;
        }
    }
    unreachable!()
}

fn copy_of(alloc: Global, reason: &Reason) -> Result<Reason, NoMemory>
    ensures { IfOk result (λ copy. copy ≡ reason.now) }
{
    match reason {
        Reason::Optimum => Ok(Reason::Optimum),
        Reason::Shared(sum) => Ok(Reason::Shared(*sum)),
        Reason::Local {
            first,
            last,
            detour,
        } => Ok(Reason::Local {
            first: *first,
            last: *last,
            detour: copied(alloc, detour.as_slice())?,
        }),
        Reason::Stretch {
            first,
            last,
            detour,
        } => Ok(Reason::Stretch {
            first: *first,
            last: *last,
            detour: copied(alloc, detour.as_slice())?,
        }),
        Reason::Listed(name) => Ok(Reason::Listed(*name)),
    }
}

/// The two distances are known, and sum to at most the bound.
fn is_near(pair: &TreePair<'_>, v: Vertex, bound: u64) -> bool
    ensures { IsTrue result ↔ IsNearIn pair.now bound v }
{
    pair.star().within_limits();
    let _source = pair.source();
    let Some(near) = pair.from_label(v) else {
        return false;
    };
    let Some(left) = pair.to_label(v) else {
        return false;
    };
    near + left <= bound
}

/// The line of a near vertex: the reason is that of its class.
fn row_of(
    alloc: Global,
    ground: &Ground<'_>,
    classes: &[Class],
    v: Vertex,
    bound: u64,
) -> Result<ViaRow, NoMemory>
    requires posed { IsPosed ground.now.star.now ground.now.query.now ground.now.best.now }
    requires trees { ground.now.pair.now ≡ pair_of ground.now.star.now ground.now.query.now (Some bound) }
    requires classes { AreAllClasses ground.now.star.now ground.now.query.now ground.now.best.now.arcs
        ground.now.pair.now bound classes.now }
    requires near { IsNearIn ground.now.pair.now bound v }
    ensures { IfOk result (IsRowOf ground.now.star.now ground.now.query.now ground.now.best.now.arcs v) }
{
    let Some(plateau) = plateau_through(ground.pair, v) else {
        unreachable!()
    };
    let place = place_of_class(classes, plateau.least);
    Ok(ViaRow {
        vertex: v.number() as u64,
        reason: copy_of(alloc, &classes[place].reason)?,
    })
}

fn rows_of(
    alloc: Global,
    ground: &Ground<'_>,
    classes: &[Class],
    bound: u64,
) -> Result<Vec<ViaRow>, NoMemory>
    requires posed { IsPosed ground.now.star.now ground.now.query.now ground.now.best.now }
    requires trees { ground.now.pair.now ≡ pair_of ground.now.star.now ground.now.query.now (Some bound) }
    requires bound { IsBound ground.now.query.now ground.now.best.now.length bound }
    requires classes { AreAllClasses ground.now.star.now ground.now.query.now ground.now.best.now.arcs
        ground.now.pair.now bound classes.now }
    ensures { IfOk result
        (λ rows. AreVias ground.now.star.now ground.now.query.now ground.now.best.now.arcs rows.items) }
{
    let mut rows = Vec::new(alloc);
    for v in ground.pair.from_members().as_slice() {
        if is_near(ground.pair, *v, bound) {
            rows.push(row_of(alloc, ground, classes, *v, bound)?)?;
        }
    }
    Ok(rows)
}

/// A line for each vertex of the ball from the source whose path is within the bound, by rising number. It asks what the
/// tests of one path for each plateau ask; a detour is written out for each vertex of its plateau.
pub(crate) fn via_rows<O: Oracle>(
    alloc: Global,
    ground: &Ground<'_>,
    oracle: &mut O,
    bound: u64,
) -> Result<Vec<ViaRow>, NoMemory>
    requires posed { IsPosed ground.now.star.now ground.now.query.now ground.now.best.now }
    requires trees { ground.now.pair.now ≡ pair_of ground.now.star.now ground.now.query.now (Some bound) }
    requires bound { IsBound ground.now.query.now ground.now.best.now.length bound }
    requires same { HaveSameDist ground.now.star.now (O.graph oracle.old) }
    ensures rows { IfOk result
        (λ rows. AreVias ground.now.star.now ground.now.query.now ground.now.best.now.arcs rows.items) }
    ensures same { O.graph oracle.new ≡ O.graph oracle.old }
{
    let plateaus = plateaus_within(alloc, ground.pair, bound)?;
    let classes = classes_of(alloc, ground, oracle, plateaus.as_slice())?;
    let rows = rows_of(alloc, ground, classes.as_slice(), bound)?;
    Ok(rows)
}
