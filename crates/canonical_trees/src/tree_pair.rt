//! The two trees of a query.

ghost use Rattle.std.specs.Prelude.{◌≡◌, ◌<◌, ◌^◌, IfOk, IfSome, OnOk};
ghost use Rattle.road_model.specs.Graph.{IsVertex, LengthsBelow};
ghost use Rattle.road_model.specs.Canonical.{IsFirst};
ghost use Rattle.label_setting.specs.Search.{IsTracked};
ghost use Rattle.canonical_trees.specs.Kept.{AreSteps};
ghost use Rattle.canonical_trees.specs.Tight.{AddsPath, IsRooted};
ghost use Rattle.canonical_trees.specs.Trees.{IsInside, IsLabel, IsMembersFrom, IsMembersTo, IsSearched};
ghost use Rattle.canonical_trees.specs.Trees.{IsFromStep, IsToStep, IsFromArc, IsToArc};

use crate::descent::{follow, keep_near, step_at};
use crate::kept::{KeptStep, emptied, no_steps};
use crate::path::path_from;
use crate::tree_memory::TreeMemory;
use forward_star::Star;
use road_model::{ArcNo, NoMemory, Step, Vertex, VertexList};
use stamped_table::Table;
use std::alloc::Global;
use std::marker::Model;
use std::thread::{Threads, join_mut};
use tree_search::search::ball_in;
use tree_search::{Ball, Labels, SearchMemory};

/// No distance of a star is as long as this.
const ABOVE_ALL: u64 = 144115188075855872;

/// The canonical paths from a source, to the vertices within a radius.
#[derive(Drop)]
pub struct FromTree<'a> {
    star: &'a Star,
    source: Vertex,
    radius: Option<u64>,
    ball: Ball,
    steps: Table<KeptStep>,
}

impl<'a> Model for FromTree<'a> {
    ghost use Rattle.canonical_trees.specs.Trees.{Tree};
    ghost use Rattle.canonical_trees.specs.Kept.{IsFromTree};

    ghost Value = { Tree };

    ghost view = { λ t. record { graph = t.star.now; root = t.source; radius = t.radius } };

    ghost invariant = { λ t. IsFromTree t.star.now t.source t.radius t.ball t.steps };
}

/// The canonical paths to a target, from the vertices within a radius.
#[derive(Drop)]
pub struct ToTree<'a> {
    star: &'a Star,
    target: Vertex,
    radius: Option<u64>,
    ball: Ball,
    steps: Table<KeptStep>,
}

impl<'a> Model for ToTree<'a> {
    ghost use Rattle.canonical_trees.specs.Trees.{Tree};
    ghost use Rattle.canonical_trees.specs.Kept.{IsToTree};

    ghost Value = { Tree };

    ghost view = { λ t. record { graph = t.star.now; root = t.target; radius = t.radius } };

    ghost invariant = { λ t. IsToTree t.star.now t.target t.radius t.ball t.steps };
}

/// A radius above every distance is none, so that a search may take any.
fn searched(radius: Option<u64>) -> Option<u64>
    ensures { IsSearched radius result }
{
    match radius {
        Some(limit) if limit < ABOVE_ALL => Some(limit),
        _ => None,
    }
}

/// The tree from `s`; without a radius it has no limit. Takes the time of a search of the ball, and 8 bytes a vertex.
pub fn tree_from<'a>(
    alloc: Global,
    star: &'a Star,
    s: Vertex,
    radius: Option<u64>,
) -> Result<FromTree<'a>, NoMemory>
    requires { IsVertex star.now.vertices s }
    ensures { IfOk result
        (λ tree. tree ≡ record { graph = star.now; root = s; radius = radius }) }
{
    let mut memory = SearchMemory::new(alloc);
    let mut steps = no_steps(alloc);
    let tree = tree_from_in(alloc, &mut memory, &mut steps, star, s, radius)?;
    Ok(tree)
}

/// The same in a kept memory, which `FromTree::into_memory` gives back. No step of an earlier tree is kept.
pub(crate) fn tree_from_in<'a>(
    alloc: Global,
    memory: &mut SearchMemory,
    steps: &mut Table<KeptStep>,
    star: &'a Star,
    s: Vertex,
    radius: Option<u64>,
) -> Result<FromTree<'a>, NoMemory>
    requires vertex { IsVertex star.now.vertices s }
    requires tracked { IsTracked memory.old.labels.items memory.old.touched.items }
    ensures tree { IfOk result
        (λ tree. tree ≡ record { graph = star.now; root = s; radius = radius }) }
    ensures tracked { IsTracked memory.new.labels.items memory.new.touched.items }
{
    star.within_limits();
    let ball = ball_in(alloc, memory, star, s, searched(radius))?;
    let steps = emptied(alloc, steps)?;
    Ok(FromTree {
        star,
        source: s,
        radius,
        ball,
        steps,
    })
}

/// The tree to `t`; without a radius it has no limit. Takes the time of a search of the ball, and 8 bytes a vertex.
pub fn tree_to<'a>(
    alloc: Global,
    star: &'a Star,
    t: Vertex,
    radius: Option<u64>,
) -> Result<ToTree<'a>, NoMemory>
    requires { IsVertex star.now.vertices t }
    ensures { IfOk result
        (λ tree. tree ≡ record { graph = star.now; root = t; radius = radius }) }
{
    let mut memory = SearchMemory::new(alloc);
    let mut steps = no_steps(alloc);
    let tree = tree_to_in(alloc, &mut memory, &mut steps, star, t, radius)?;
    Ok(tree)
}

/// The same in a kept memory, which `ToTree::into_memory` gives back. No step of an earlier tree is kept.
pub(crate) fn tree_to_in<'a>(
    alloc: Global,
    memory: &mut SearchMemory,
    steps: &mut Table<KeptStep>,
    star: &'a Star,
    t: Vertex,
    radius: Option<u64>,
) -> Result<ToTree<'a>, NoMemory>
    requires vertex { IsVertex star.now.vertices t }
    requires tracked { IsTracked memory.old.labels.items memory.old.touched.items }
    ensures tree { IfOk result
        (λ tree. tree ≡ record { graph = star.now; root = t; radius = radius }) }
    ensures tracked { IsTracked memory.new.labels.items memory.new.touched.items }
{
    star.within_limits();
    let ball = ball_in(alloc, memory, &star.reversed(), t, searched(radius))?;
    let steps = emptied(alloc, steps)?;
    Ok(ToTree {
        star,
        target: t,
        radius,
        ball,
        steps,
    })
}

/// The tree from `s` and the tree to `t`, of one radius; without a radius they have no limit. Takes the time of the
/// two searches, and 16 bytes a vertex.
pub fn trees<'a>(
    alloc: Global,
    star: &'a Star,
    s: Vertex,
    t: Vertex,
    radius: Option<u64>,
) -> Result<TreePair<'a>, NoMemory>
    requires source { IsVertex star.now.vertices s }
    requires target { IsVertex star.now.vertices t }
    ensures { IfOk result
        (λ pair. pair ≡ record { graph = star.now; source = s; target = t; radius = radius }) }
{
    let mut memory = TreeMemory::new(alloc);
    let pair = trees_in(alloc, &mut memory, star, s, t, radius)?;
    Ok(pair)
}

/// The trees that `trees` finds, in a kept memory: the pair takes it along, and `TreePair::into_memory` gives it back.
/// An empty one stays in its place, and serves as well where it isn't given back, also after an `Err`: the next call
/// lays it out anew.
///
/// It takes what the two searches visit, and the time to take back the labels of those before; 16 bytes a vertex only
/// where the memory served no graph with as many vertices before.
pub fn trees_in<'a>(
    alloc: Global,
    memory: &mut TreeMemory,
    star: &'a Star,
    s: Vertex,
    t: Vertex,
    radius: Option<u64>,
) -> Result<TreePair<'a>, NoMemory>
    requires source { IsVertex star.now.vertices s }
    requires target { IsVertex star.now.vertices t }
    ensures { IfOk result
        (λ pair. pair ≡ record { graph = star.now; source = s; target = t; radius = radius }) }
{
    let from = tree_from_in(
        alloc,
        &mut memory.from,
        &mut memory.from_steps,
        star,
        s,
        radius,
    )?;
    let to = tree_to_in(alloc, &mut memory.to, &mut memory.to_steps, star, t, radius)?;
    Ok(TreePair::of(from, to))
}

impl FromTree<'_> {
    fn source(&self) -> Vertex
        ensures source { result ≡ self.now.root }
        ensures inside { IsVertex self.now.graph.vertices result }
    {
        self.source
    }

    fn label(&self, v: Vertex) -> Option<u64>
        ensures label { IsLabel self.now.graph self.now.radius self.now.root v result }
        ensures short { IfSome result (λ d. d < 2 ^ 57) }
    {
        self.ball.label(v)
    }

    fn members(&self) -> &VertexList
        ensures { IsMembersFrom self.now.graph self.now.radius self.now.root result.now }
    {
        self.ball.members()
    }

    fn step(&self, v: Vertex) -> Option<Step>
        ensures { IsFromStep self.now.graph self.now.radius self.now.root v result }
    {
        step_at(
            &self.star.reversed(),
            &self.ball.labels(),
            &self.steps,
            self.source,
            v,
        )
    }

    fn path(&self, alloc: Global, v: Vertex) -> Result<Vec<ArcNo>, NoMemory>
        requires { IsInside self.now.graph self.now.radius self.now.root v }
        ensures path { IfOk result (λ arcs. IsFirst self.now.graph self.now.root arcs.items v) }
        ensures vertex { IsVertex self.now.graph.vertices v }
    {
        path_from(
            alloc,
            self.star,
            &self.ball.labels(),
            &self.steps,
            self.source,
            v,
        )
    }

    fn labels(&self) -> Labels<'_> {
        self.ball.labels()
    }

    /// Keeps the steps of the vertices whose labels, with the others, sum to at most `most`.
    fn keep_steps(&mut self, others: &Labels<'_>, most: u64) -> Result<(), NoMemory>
        ensures { self.new ≡ self.old }
    {
        let star = self.star;
        let places = star.vertices() as usize + 1;
        self.steps.empty(places)?;
        keep_near(
            &star.reversed(),
            &self.ball.labels(),
            others,
            self.ball.members().as_slice(),
            most,
            self.source,
            &mut self.steps,
        );
        Ok(())
    }

    fn into_memory(self) -> (SearchMemory, Table<KeptStep>)
        ensures { IsTracked result.0.labels.items result.0.touched.items }
    {
        let FromTree {
            star: _,
            source: _,
            radius: _,
            ball,
            steps,
        } = self;
        (ball.into_memory(), steps)
    }
}

impl ToTree<'_> {
    fn target(&self) -> Vertex
        ensures target { result ≡ self.now.root }
        ensures inside { IsVertex self.now.graph.vertices result }
    {
        self.target
    }

    fn label(&self, v: Vertex) -> Option<u64>
        ensures label { IsLabel self.now.graph self.now.radius v self.now.root result }
        ensures short { IfSome result (λ d. d < 2 ^ 57) }
    {
        self.ball.label(v)
    }

    fn members(&self) -> &VertexList
        ensures { IsMembersTo self.now.graph self.now.radius self.now.root result.now }
    {
        self.ball.members()
    }

    fn step(&self, v: Vertex) -> Option<Step>
        ensures { IsToStep self.now.graph self.now.radius v self.now.root result }
    {
        step_at(self.star, &self.ball.labels(), &self.steps, self.target, v)
    }

    fn add_path(&self, v: Vertex, arcs: &mut Vec<ArcNo>) -> Result<(), NoMemory>
        requires { IsInside self.now.graph self.now.radius v self.now.root }
        ensures { OnOk result (AddsPath self.now.graph self.now.root v arcs.old.items arcs.new.items) }
    {
        follow(
            self.star,
            &self.ball.labels(),
            &self.steps,
            self.target,
            v,
            arcs,
        )
    }

    fn labels(&self) -> Labels<'_> {
        self.ball.labels()
    }

    /// Keeps the steps of the vertices whose labels, with the others, sum to at most `most`.
    fn keep_steps(&mut self, others: &Labels<'_>, most: u64) -> Result<(), NoMemory>
        ensures { self.new ≡ self.old }
    {
        let star = self.star;
        let places = star.vertices() as usize + 1;
        self.steps.empty(places)?;
        keep_near(
            star,
            &self.ball.labels(),
            others,
            self.ball.members().as_slice(),
            most,
            self.target,
            &mut self.steps,
        );
        Ok(())
    }

    fn into_memory(self) -> (SearchMemory, Table<KeptStep>)
        ensures { IsTracked result.0.labels.items result.0.touched.items }
    {
        let ToTree {
            star: _,
            target: _,
            radius: _,
            ball,
            steps,
        } = self;
        (ball.into_memory(), steps)
    }
}

/// The tree from a source and the tree to a target, in one star, of one radius.
///
/// It has 16 bytes a vertex, and 32 more once it keeps steps (`keep_steps`).
#[derive(Drop)]
pub struct TreePair<'a> {
    from: FromTree<'a>,
    to: ToTree<'a>,
}

impl<'a> Model for TreePair<'a> {
    ghost use Rattle.std.specs.Prelude.{◌≡◌};
    ghost use Rattle.canonical_trees.specs.Trees.{Trees};

    ghost Value = { Trees };

    ghost view = { λ p. record {
      graph = p.from.graph;
      source = p.from.root;
      target = p.to.root;
      radius = p.from.radius;
    } };

    ghost invariant = { λ p. (p.to.graph ≡ p.from.graph) × (p.to.radius ≡ p.from.radius) };
}

impl<'a> TreePair<'a> {
    /// Puts two trees of one star and one radius together. Takes no memory.
    pub fn of(from: FromTree<'a>, to: ToTree<'a>) -> TreePair<'a>
        requires one_star { from.graph ≡ to.graph }
        requires one_radius { from.radius ≡ to.radius }
        ensures { result
            ≡ record {
              graph = from.entry.graph;
              source = from.entry.root;
              target = to.entry.root;
              radius = from.entry.radius;
            } }
    {
        TreePair { from, to }
    }

    /// Looks the steps up of the vertices in both balls whose two distances sum to at most `most`, and keeps them:
    /// a step or a path of such a vertex then takes constant time an arc. It changes no answer.
    ///
    /// Takes one pass over the balls, and one scan of the arcs into each of these vertices, and of those out of it;
    /// 32 bytes a vertex of the star only where the memory kept no steps in a star with as many vertices before. After
    /// an `Err` the pair is as it was, and some of its steps may be kept.
    pub fn keep_steps(&mut self, most: u64) -> Result<(), NoMemory>
        ensures { self.new ≡ self.old }
    {
        self.from.keep_steps(&self.to.labels(), most)?;
        self.to.keep_steps(&self.from.labels(), most)?;
        Ok(())
    }

    /// Keeps the steps that `keep_steps` keeps, those of the two balls at once. It changes no answer.
    ///
    /// Takes the time of the larger ball's pass and scans, and a thread while it runs; memory as `keep_steps`. After an
    /// `Err` the pair is as it was, and keeps no steps of the ball from the source.
    pub fn keep_steps_forked<R: Threads + Sync>(
        &mut self,
        rt: &R,
        most: u64,
    ) -> Result<(), NoMemory>
        ensures { self.new ≡ self.old }
    {
        let places = self.from.star.vertices() as usize + 1;
        self.from.steps.empty(places)?;
        self.to.steps.empty(places)?;
        let TreePair { from, to } = self;
        let (back, star) = (from.star.reversed(), to.star);
        let (source, target) = (from.source, to.target);
        let near = from.ball.labels();
        let far = to.ball.labels();
        let from_members = from.ball.members().as_slice();
        let to_members = to.ball.members().as_slice();
        let (from_steps, to_steps) = (&mut from.steps, &mut to.steps);
        join_mut(
            rt,
            &mut ||
                requires { LengthsBelow back (2 ^ 32) × IsRooted back source near
                    × AreSteps back source near from_steps.now }
            {
                keep_near(&back, &near, &far, from_members, most, source, from_steps);
            },
            &mut ||
                requires { LengthsBelow star.now (2 ^ 32) × IsRooted star.now target far
                    × AreSteps star.now target far to_steps.now }
            {
                keep_near(star, &far, &near, to_members, most, target, to_steps);
            },
        );
        Ok(())
    }

    /// The memory of the two searches and of the steps back, for another query. Takes no memory.
    pub fn into_memory(self) -> TreeMemory {
        let TreePair { from, to } = self;
        let (from, from_steps) = from.into_memory();
        let (to, to_steps) = to.into_memory();
        TreeMemory {
            from,
            to,
            from_steps,
            to_steps,
        }
    }

    /// The vertices of the ball from the source.
    pub fn from_members(&self) -> &VertexList
        ensures { IsMembersFrom self.now.graph self.now.radius self.now.source result.now }
    {
        self.from.members()
    }

    /// The vertices of the ball to the target.
    pub fn to_members(&self) -> &VertexList
        ensures { IsMembersTo self.now.graph self.now.radius self.now.target result.now }
    {
        self.to.members()
    }

    /// The distance from the source; none outside its ball. Constant time.
    pub fn from_label(&self, v: Vertex) -> Option<u64>
        ensures label { IsLabel self.now.graph self.now.radius self.now.source v result }
        ensures short { IfSome result (λ d. d < 2 ^ 57) }
    {
        self.from.label(v)
    }

    /// The distance to the target; none outside its ball. Constant time.
    pub fn to_label(&self, v: Vertex) -> Option<u64>
        ensures label { IsLabel self.now.graph self.now.radius v self.now.target result }
        ensures short { IfSome result (λ d. d < 2 ^ 57) }
    {
        self.to.label(v)
    }

    /// The last arc of the canonical path from the source, seen from `v`: its `head` is the vertex before. None
    /// outside the ball, and at the source. Takes constant time where the step is kept, else that of the arcs into `v`.
    pub fn from_step(&self, v: Vertex) -> Option<Step>
        ensures { IsFromStep self.now.graph self.now.radius self.now.source v result }
    {
        self.from.step(v)
    }

    /// The first arc of the canonical path to the target. None outside the ball, and at the target. Takes constant
    /// time where the step is kept, else that of the arcs out of `v`.
    pub fn to_step(&self, v: Vertex) -> Option<Step>
        ensures { IsToStep self.now.graph self.now.radius v self.now.target result }
    {
        self.to.step(v)
    }

    /// The number of the last arc of the canonical path from the source. None outside the ball, and at the source.
    pub fn from_arc(&self, v: Vertex) -> Option<ArcNo>
        ensures { IsFromArc self.now.graph self.now.radius self.now.source v result }
    {
        let step = self.from_step(v)?;
        Some(step.arc)
    }

    /// The number of the first arc of the canonical path to the target. None outside the ball, and at the target.
    pub fn to_arc(&self, v: Vertex) -> Option<ArcNo>
        ensures { IsToArc self.now.graph self.now.radius v self.now.target result }
    {
        let step = self.to_step(v)?;
        Some(step.arc)
    }

    /// The star that both trees are of.
    pub fn star(&self) -> &'a Star
        ensures { result.now ≡ self.now.graph }
    {
        self.from.star
    }

    /// The vertex that the first tree is from.
    pub fn source(&self) -> Vertex
        ensures source { result ≡ self.now.source }
        ensures inside { IsVertex self.now.graph.vertices result }
    {
        self.from.source()
    }

    /// The vertex that the second tree is to.
    pub fn target(&self) -> Vertex
        ensures target { result ≡ self.now.target }
        ensures inside { IsVertex self.now.graph.vertices result }
    {
        self.to.target()
    }

    /// The canonical path from the source to a vertex inside its ball.
    pub(crate) fn path_from_source(&self, alloc: Global, v: Vertex) -> Result<Vec<ArcNo>, NoMemory>
        requires { IsInside self.now.graph self.now.radius self.now.source v }
        ensures path { IfOk result (λ arcs. IsFirst self.now.graph self.now.source arcs.items v) }
        ensures vertex { IsVertex self.now.graph.vertices v }
    {
        self.from.path(alloc, v)
    }

    /// Adds the canonical path from a vertex inside the ball of the target.
    pub(crate) fn add_path_to_target(
        &self,
        v: Vertex,
        arcs: &mut Vec<ArcNo>,
    ) -> Result<(), NoMemory>
        requires { IsInside self.now.graph self.now.radius v self.now.target }
        ensures { OnOk result (AddsPath self.now.graph self.now.target v arcs.old.items arcs.new.items) }
    {
        self.to.add_path(v, arcs)
    }
}
