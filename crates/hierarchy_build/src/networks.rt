//! The links of a hierarchy as networks, one a direction.

ghost use Rattle.std.specs.Prelude.{◌≡◌, ◌<◌, ◌≤◌, ◌+◌, ◌-◌, length, slice_index, All};
ghost use Rattle.road_model.specs.Graph.{rows_of, step_at, arc_at};
ghost use Rattle.hierarchy_build.specs.Runs.{InSpan};
ghost use Rattle.hierarchy_build.specs.Own.{links_graph, rising_graph, falling_graph, AreAlong, Rises};

use crate::hierarchy::Hierarchy;
use crate::links::Links;
use crate::shape::Shape;
use road_model::{ArcNo, ArcRow, Network, Step, Vertex};
use std::marker::Model;

// The `i`-th link from the rank of a vertex, as a step.
#[inline(always)]
fn link_step(shape: &Shape, links: &Links, v: Vertex, i: u32) -> Option<Step>
    requires { AreAlong shape.now links.now }
    ensures { result ≡ step_at (links_graph shape.now.order links.now) v i }
{
    let rank = shape.rank.as_slice();
    let first = links.first.as_slice();
    let v = v.number() as usize;
    if v == 0 || v >= rank.len() {
        return None;
    }
    let from = rank[v] as usize;
    let place = first[from] as usize + i as usize;
    if place >= first[from + 1] as usize {
        return None;
    }
    let to = links.head.as_slice()[place];
    Some(Step {
        arc: ArcNo(place as u32 + 1),
        head: shape.order.as_slice()[to as usize],
        length: links.length.as_slice()[place],
    })
}

// The rank in whose run a place stands, by halving.
fn rank_at(first: &[u32], place: usize) -> usize
    requires some { 1 < length first.now }
    requires begin { slice_index first.now 0 ≤ place }
    requires end { place < slice_index first.now (length first.now - 1) }
    ensures inside { result + 1 < length first.now }
    ensures span { InSpan first.now result place }
{
    let mut low = 0;
    let mut high = first.len() - 1;
    'halve: while low + 1 < high {
        let middle = low + (high - low) / 2;
        if first[middle] as usize <= place {
            low = middle;
        } else {
            high = middle;
        }
    }
    low
}

// The link of a number, as an arc.
fn link_row(shape: &Shape, links: &Links, a: ArcNo) -> Option<ArcRow>
    requires { AreAlong shape.now links.now }
    ensures { result ≡ arc_at (links_graph shape.now.order links.now) a }
{
    let order = shape.order.as_slice();
    let head = links.head.as_slice();
    let number = a.number() as usize;
    if number == 0 || number > head.len() {
        return None;
    }
    let place = number - 1;
    let from = rank_at(links.first.as_slice(), place);
    Some(ArcRow {
        tail: order[from],
        head: order[head[place] as usize],
        length: links.length.as_slice()[place],
    })
}

/// The links of a hierarchy that lead upwards, as arcs between the vertices of their ranks, so that a walk only rises.
/// They are numbered by rising rank of their tail, and at one tail by rising rank of their head.
///
/// A step takes constant time; an arc by its number takes the logarithm of the vertices.
#[derive(Drop)]
pub struct Rising<'a> {
    hierarchy: &'a Hierarchy,
}

impl<'a> Model for Rising<'a> {
    ghost use Rattle.road_model.specs.Graph.{Graph};
    ghost use Rattle.hierarchy_build.specs.Own.{rising_graph};

    ghost Value = { Graph };

    ghost view = { λ r. rising_graph r.hierarchy.now };
}

/// The links of a hierarchy that lead downwards, each turned round, as arcs between the vertices of their ranks: a
/// walk only rises here too. They are numbered as those of `Rising` are.
///
/// A step takes constant time; an arc by its number takes the logarithm of the vertices.
#[derive(Drop)]
pub struct Falling<'a> {
    hierarchy: &'a Hierarchy,
}

impl<'a> Model for Falling<'a> {
    ghost use Rattle.road_model.specs.Graph.{Graph};
    ghost use Rattle.hierarchy_build.specs.Own.{falling_graph};

    ghost Value = { Graph };

    ghost view = { λ f. falling_graph f.hierarchy.now };
}

impl Hierarchy {
    /// The arcs that lead from lower ranks to higher ones. Takes no memory.
    pub fn up(&self) -> Rising<'_>
        ensures arcs { result ≡ rising_graph self.now }
        ensures rises { All (Rises self.now.shape.rank) (rows_of (rising_graph self.now)) }
    {
        let _ = self.shape();
        Rising { hierarchy: self }
    }

    /// The arcs that lead from higher ranks to lower ones, each turned round. Takes no memory.
    pub fn down(&self) -> Falling<'_>
        ensures arcs { result ≡ falling_graph self.now }
        ensures rises { All (Rises self.now.shape.rank) (rows_of (falling_graph self.now)) }
    {
        let _ = self.shape();
        Falling { hierarchy: self }
    }
}

impl Network for Rising<'_> {
    ghost graph = { λ r. r };

    #[inline(always)]
    fn vertices(&self) -> u32 {
        self.hierarchy.shape().order.len() as u32
    }

    #[inline(always)]
    fn out(&self, v: Vertex, i: u32) -> Option<Step> {
        link_step(self.hierarchy.shape(), self.hierarchy.up_links(), v, i)
    }

    #[inline(always)]
    fn arc(&self, a: ArcNo) -> Option<ArcRow> {
        link_row(self.hierarchy.shape(), self.hierarchy.up_links(), a)
    }
}

impl Network for Falling<'_> {
    ghost graph = { λ f. f };

    #[inline(always)]
    fn vertices(&self) -> u32 {
        self.hierarchy.shape().order.len() as u32
    }

    #[inline(always)]
    fn out(&self, v: Vertex, i: u32) -> Option<Step> {
        link_step(self.hierarchy.shape(), self.hierarchy.down_links(), v, i)
    }

    #[inline(always)]
    fn arc(&self, a: ArcNo) -> Option<ArcRow> {
        link_row(self.hierarchy.shape(), self.hierarchy.down_links(), a)
    }
}
