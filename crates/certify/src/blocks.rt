//! The blocks of a pair of trees.

ghost use Rattle.std.specs.Prelude.{◌≡◌, IfOk, Some};
ghost use Rattle.road_model.specs.Graph.{reversed};
ghost use Rattle.canonical_trees.specs.Trees.{IsInside};
ghost use Rattle.certificate_text.specs.declared.certificate.BlockKind.TheVariants as kind;
ghost use Rattle.certify.specs.Written.{IsTreeBlock};
ghost use Rattle.certify.specs.Blocks.{IsRowFor, AreRowsFrom, AreRowsTo};

use canonical_trees::TreePair;
use certificate_text::{Block, BlockKind, BlockRow, BlockRowList};
use road_model::{NoMemory, Vertex};
use std::alloc::Global;

/// The row of a vertex in the ball from the source.
fn from_row(pair: &TreePair<'_>, v: Vertex) -> BlockRow
    requires { IsInside pair.now.graph pair.now.radius pair.now.source v }
    ensures { IsRowFor (reversed pair.now.graph) pair.now.source pair.now.radius v result }
{
    let Some(label) = pair.from_label(v) else {
        unreachable!()
    };
    let arc = match pair.from_arc(v) {
        Some(last) => last.number() as u64,
        None => 0,
    };
    BlockRow {
        vertex: v.number() as u64,
        label,
        arc,
    }
}

/// The row of a vertex in the ball of the target.
fn to_row(pair: &TreePair<'_>, v: Vertex) -> BlockRow
    requires { IsInside pair.now.graph pair.now.radius v pair.now.target }
    ensures { IsRowFor pair.now.graph pair.now.target pair.now.radius v result }
{
    let Some(label) = pair.to_label(v) else {
        unreachable!()
    };
    let arc = match pair.to_arc(v) {
        Some(first) => first.number() as u64,
        None => 0,
    };
    BlockRow {
        vertex: v.number() as u64,
        label,
        arc,
    }
}

fn from_rows(alloc: Global, pair: &TreePair<'_>) -> Result<Vec<BlockRow>, NoMemory>
    ensures { IfOk result (λ rows. AreRowsFrom pair.now rows.items) }
{
    let mut rows = Vec::new(alloc);
    for v in pair.from_members().as_slice() {
        rows.push(from_row(pair, *v))?;
    }
    Ok(rows)
}

fn to_rows(alloc: Global, pair: &TreePair<'_>) -> Result<Vec<BlockRow>, NoMemory>
    ensures { IfOk result (λ rows. AreRowsTo pair.now rows.items) }
{
    let mut rows = Vec::new(alloc);
    for v in pair.to_members().as_slice() {
        rows.push(to_row(pair, *v))?;
    }
    Ok(rows)
}

/// The tree from the source as a block, whose radius is that of the pair. One pass over the ball, with a scan of the arcs
/// into each of its vertices; 24 bytes a vertex.
pub(crate) fn from_block(
    alloc: Global,
    pair: &TreePair<'_>,
    radius: Option<u64>,
) -> Result<Block, NoMemory>
    requires { radius ≡ pair.now.radius }
    ensures { IfOk result
        (λ block. IsTreeBlock pair.now.graph kind.From pair.now.source pair.now.radius block) }
{
    let rows = from_rows(alloc, pair)?;
    Ok(Block {
        kind: BlockKind::From,
        root: pair.source().number() as u64,
        radius,
        rows: BlockRowList::from_vec(rows),
    })
}

/// The tree to the target as a block, likewise.
pub(crate) fn to_block(
    alloc: Global,
    pair: &TreePair<'_>,
    radius: Option<u64>,
) -> Result<Block, NoMemory>
    requires { radius ≡ pair.now.radius }
    ensures { IfOk result
        (λ block. IsTreeBlock pair.now.graph kind.To pair.now.target pair.now.radius block) }
{
    let rows = to_rows(alloc, pair)?;
    Ok(Block {
        kind: BlockKind::To,
        root: pair.target().number() as u64,
        radius,
        rows: BlockRowList::from_vec(rows),
    })
}
