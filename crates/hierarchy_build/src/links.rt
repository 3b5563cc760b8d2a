ghost use Rattle.std.specs.Prelude.{◌≡◌, ◌<◌, ◌≤◌, ◌+◌, ◌↔◌, ℕ, length, slice_index, IsTrue, IfOk, OnOk};
ghost use Rattle.hierarchy_build.specs.Runs.{IsShape};
ghost use Rattle.hierarchy_build.specs.Lengths.{no_link};
ghost use Rattle.hierarchy_build.specs.Links.{IsAdded, KeptSoFar, AreKept};

use crate::hierarchy::NO_LINK;
use crate::shape::Shape;
use road_model::{Items, NoMemory, SumList};
use std::alloc::Global;

/// Links of one direction that lead from each rank to higher ones, with their lengths.
///
/// They take 4 bytes a rank and 12 bytes a link.
#[derive(Debug, Drop)]
pub struct Links {
    /// The place at which the links of each rank begin, and at last the end of all.
    pub first: Items<u32>,
    /// The higher rank of each link.
    pub head: Items<u32>,
    /// The length of each link.
    pub length: SumList,
}

// Whether a link stays: no walk between its ends is known to be shorter.
#[inline(always)]
fn stays(length: u64, thinned: u64) -> bool
    ensures { IsTrue result ↔ ((length < no_link) × (thinned ≡ length)) }
{
    length < NO_LINK && thinned == length
}

// How many links stay.
fn count(lengths: &[u64], thinned: &[u64]) -> usize
    requires { length thinned.now ≡ length lengths.now }
    ensures { result ≤ length lengths.now }
{
    let mut many = 0;
    for k in 0..lengths.len() {
        if stays(lengths[k], thinned[k]) {
            many += 1;
        }
    }
    many
}

// Adds the links that stay, of the places from `from` to `to`.
fn add_links(
    links: &mut Links,
    head: &[u32],
    lengths: &[u64],
    thinned: &[u64],
    from: usize,
    to: usize,
) -> Result<(), NoMemory>
    requires lengths { length lengths.now ≡ length head.now }
    requires thinned { length thinned.now ≡ length head.now }
    requires order { from ≤ to }
    requires inside { to ≤ length head.now }
    requires even { length links.old.length ≡ length links.old.head }
    requires short { (k : ℕ) → slice_index links.old.length k < no_link }
    ensures { OnOk result (IsAdded head.now lengths.now thinned.now from to links.old links.new) }
{
    for k in from..to {
        if !stays(lengths[k], thinned[k]) {
            continue;
        }
        links.head.push(head[k])?;
        links.length.push(lengths[k])?;
    }
    Ok(())
}

// Adds the run of `v`.
fn add_run(
    links: &mut Links,
    shape: &Shape,
    lengths: &[u64],
    thinned: &[u64],
    v: usize,
) -> Result<(), NoMemory>
    requires shape { IsShape (length shape.now.order) shape.now.first shape.now.head }
    requires lengths { length lengths.now ≡ length shape.now.head }
    requires thinned { length thinned.now ≡ length shape.now.head }
    requires rank { v < length shape.now.order }
    requires so_far { KeptSoFar (length shape.now.order) v shape.now.first shape.now.head lengths.now thinned.now links.old }
    ensures { OnOk result (KeptSoFar (length shape.now.order) (v + 1) shape.now.first shape.now.head lengths.now thinned.now links.new) }
{
    let first = shape.first.as_slice();
    add_links(
        links,
        shape.head.as_slice(),
        lengths,
        thinned,
        first[v] as usize,
        first[v + 1] as usize,
    )?;
    links.first.push(links.head.len() as u32)?;
    Ok(())
}

fn links_of(
    alloc: Global,
    shape: &Shape,
    lengths: &[u64],
    thinned: &[u64],
) -> Result<Links, NoMemory>
    requires shape { IsShape (length shape.now.order) shape.now.first shape.now.head }
    requires lengths { length lengths.now ≡ length shape.now.head }
    requires thinned { length thinned.now ≡ length shape.now.head }
    ensures { IfOk result (λ l. AreKept (length shape.now.order) shape.now.first shape.now.head lengths.now thinned.now l) }
{
    let many = count(lengths, thinned);
    let mut links = Links {
        first: Items::from_vec(Vec::with_capacity(alloc, shape.first.len())?),
        head: Items::from_vec(Vec::with_capacity(alloc, many)?),
        length: Items::from_vec(Vec::with_capacity(alloc, many)?),
    };
    links.first.push(0)?;
    for v in 0..shape.order.len() {
        add_run(&mut links, shape, lengths, thinned, v)?;
    }
    Ok(links)
}

/// The links of a shape that are as long as the best walk known between their ends. It gives the memory of both
/// lists of lengths back.
pub(crate) fn keep(
    alloc: Global,
    shape: &Shape,
    lengths: SumList,
    thinned: SumList,
) -> Result<Links, NoMemory>
    requires shape { IsShape (length shape.now.order) shape.now.first shape.now.head }
    requires lengths { length lengths ≡ length shape.now.head }
    requires thinned { length thinned ≡ length shape.now.head }
    ensures { IfOk result (λ l. AreKept (length shape.now.order) shape.now.first shape.now.head lengths thinned l) }
{
    let links = links_of(alloc, shape, lengths.as_slice(), thinned.as_slice())?;
    Ok(links)
}
