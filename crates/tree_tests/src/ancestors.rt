//! The ways from vertices to a root, kept with jumps: from each vertex to the next one and to one farther on, so that a
//! vertex on the way is reached in logarithmic time (jump pointers by the skew-binary rule).

ghost use Rattle.std.specs.Prelude.{◌≡◌, None, Some};
ghost use Rattle.std.specs.List.{slice_index_or};
ghost use Rattle.canonical_trees.specs.Trees.{Trees};
ghost use Rattle.tree_tests.specs.declared.sides.Side.{Side as Which};
ghost use Rattle.tree_tests.specs.Ancestors.{IsParent, IsEntry, AreAncestors, AreHigher, IsAhead, IsLifted, IsMet, IsOn};

use crate::sides::Side;
use canonical_trees::TreePair;
use road_model::{NoMemory, Vertex};
use stamped_table::{Stamped, Table};
use std::mem::size_of;

/// The most steps of one climb: a jump halves what is left of the way, or nearly.
const MOST_STEPS: u32 = 128;

/// Two vertices on the way to the root, and how many arcs that has. The root has none.
#[derive(Clone, Copy, Debug)]
pub(crate) struct Ancestor {
    pub(crate) parent: Vertex,
    pub(crate) jump: Vertex,
    pub(crate) depth: u32,
}

// An entry of a table takes 16 bytes.
const _: () = prove!(size_of::<Stamped<Ancestor>>() == 16);

/// What a table has where no entry is.
pub(crate) const NO_ANCESTOR: Ancestor = Ancestor {
    parent: Vertex(0),
    jump: Vertex(0),
    depth: 0,
};

/// Two vertices that are to meet.
#[derive(Clone, Copy, Debug)]
pub(crate) struct Two {
    pub(crate) first: Vertex,
    pub(crate) second: Vertex,
}

/// The entry of a vertex, if it is there.
pub(crate) fn known(table: &Table<Ancestor>, v: Vertex) -> Option<Ancestor>
    ensures { result ≡ slice_index_or table.now v None }
{
    table.get(v.number() as usize)
}

/// The next vertex on the way to the root, where there is one.
fn parent_of(pair: &TreePair<'_>, side: Side, v: Vertex) -> Option<Vertex>
    ensures { IsParent pair.now side v result }
{
    match side {
        Side::Source => match pair.from_step(v) {
            Some(step) => Some(step.head),
            None => None,
        },
        Side::Target => match pair.to_step(v) {
            Some(step) => Some(step.head),
            None => None,
        },
    }
}

/// How many arcs lead from a vertex to the root; 0 too where it isn't known.
fn depth_of(table: &Table<Ancestor>, v: Vertex) -> u32 {
    match known(table, v) {
        Some(entry) => entry.depth,
        None => 0,
    }
}

/// The vertex that a child of `parent` jumps to: two jumps of one length make one of twice that.
fn jump_over(table: &Table<Ancestor>, parent: Vertex) -> Vertex
    ensures { (ts : Trees) (side : Which) → AreAncestors ts side table.now → IsLifted ts side parent result }
{
    let Some(entry) = known(table, parent) else {
        return parent;
    };
    let Some(middle) = known(table, entry.jump) else {
        return parent;
    };
    let first = entry.depth.saturating_sub(middle.depth);
    let second = middle.depth.saturating_sub(depth_of(table, middle.jump));
    if first == second { middle.jump } else { parent }
}

/// The entry of a vertex, by those of the vertices on its way.
fn entry_of(pair: &TreePair<'_>, side: Side, table: &Table<Ancestor>, v: Vertex) -> Option<Ancestor>
    requires { AreAncestors pair.now side table.now }
    ensures { IsEntry pair.now side v result }
{
    let Some(parent) = parent_of(pair, side, v) else {
        return None;
    };
    Some(Ancestor {
        parent,
        jump: jump_over(table, parent),
        depth: depth_of(table, parent).saturating_add(1),
    })
}

/// Keeps the entry of a vertex.
fn keep(pair: &TreePair<'_>, side: Side, table: &mut Table<Ancestor>, v: Vertex)
    requires { AreAncestors pair.now side table.old }
    ensures { AreAncestors pair.now side table.new }
{
    let Some(entry) = entry_of(pair, side, table, v) else {
        return;
    };
    table.set(v.number() as usize, entry);
}

/// Keeps the whole way of a vertex to the root, up to a vertex that has an entry.
pub(crate) fn fill(
    pair: &TreePair<'_>,
    side: Side,
    table: &mut Table<Ancestor>,
    stack: &mut Vec<Vertex>,
    v: Vertex,
) -> Result<(), NoMemory>
    requires { AreAncestors pair.now side table.old }
    ensures { AreAncestors pair.now side table.new }
{
    stack.clear();
    let mut at = v;
    for _ in 0..table.len() {
        if let Some(_entry) = known(table, at) {
            break;
        }
        stack.push(at)?;
        let Some(parent) = parent_of(pair, side, at) else {
            break;
        };
        at = parent;
    }
    while let Some(v) = stack.pop() {
        keep(pair, side, table, v);
    }
    Ok(())
}

/// A vertex farther on: by its jump where that is no nearer to the root than `least` arcs, else the next one.
fn lifted(table: &Table<Ancestor>, v: Vertex, least: u32) -> Vertex
    ensures { (ts : Trees) (side : Which) → AreAncestors ts side table.now → IsLifted ts side v result }
{
    let Some(entry) = known(table, v) else {
        return v;
    };
    if depth_of(table, entry.jump) >= least {
        entry.jump
    } else {
        entry.parent
    }
}

/// Both of one depth: by their jumps where these differ, else the next ones.
fn both_lifted(table: &Table<Ancestor>, two: Two) -> Option<Two>
    ensures { (ts : Trees) (side : Which) → AreAncestors ts side table.now → AreHigher ts side two result }
{
    let Some(first) = known(table, two.first) else {
        return None;
    };
    let Some(second) = known(table, two.second) else {
        return None;
    };
    if first.jump.number() == second.jump.number() {
        return Some(Two {
            first: first.parent,
            second: second.parent,
        });
    }
    Some(Two {
        first: first.jump,
        second: second.jump,
    })
}

/// The farther one, or both, nearer to the root.
fn higher(table: &Table<Ancestor>, two: Two) -> Option<Two>
    ensures { (ts : Trees) (side : Which) → AreAncestors ts side table.now → AreHigher ts side two result }
{
    let first = depth_of(table, two.first);
    let second = depth_of(table, two.second);
    if first > second {
        return Some(Two {
            first: lifted(table, two.first, second),
            second: two.second,
        });
    }
    if second > first {
        return Some(Two {
            first: two.first,
            second: lifted(table, two.second, first),
        });
    }
    let both = both_lifted(table, two);
    both
}

/// Where the ways of two vertices to the root meet: the lowest common ancestor, where enough is known.
pub(crate) fn met(table: &Table<Ancestor>, w: Vertex, x: Vertex) -> Option<Vertex>
    ensures { (ts : Trees) (side : Which) → AreAncestors ts side table.now → IsOn ts side w w → IsOn ts side x x →
        IsMet ts side w x result }
{
    let mut two = Two {
        first: w,
        second: x,
    };
    for _ in 0..MOST_STEPS {
        if two.first.number() == two.second.number() {
            return Some(two.first);
        }
        let Some(next) = higher(table, two) else {
            return None;
        };
        two = next;
    }
    None
}

/// The vertex so many steps on the way of `x`; none where it ends before.
pub(crate) fn ahead(table: &Table<Ancestor>, x: Vertex, steps: u32) -> Option<Vertex>
    ensures { (ts : Trees) (side : Which) → AreAncestors ts side table.now → IsAhead ts side x result }
{
    let mut at = x;
    for _ in 0..steps {
        let Some(entry) = known(table, at) else {
            return None;
        };
        at = entry.parent;
    }
    Some(at)
}
