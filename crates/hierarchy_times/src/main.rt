//! Times of a hierarchy of a graph file: its order, its shape and lengths, the lengths anew, distances between random
//! vertices, and distances from one vertex to many, in new memory and in kept memory. It is for measuring alone.
//!
//! The words are the name of the file and a number of pairs. Times stand on the standard error, in microseconds; what was
//! found stands on the standard output, so that two runs can be compared.
#![tactic(auto)]

ghost use Rattle.std.specs.Prelude.{◌≤◌, ◌≡◌, All, IfOk};
ghost use Rattle.road_model.specs.Graph.{IsVertex};
ghost use Rattle.hierarchy_build.specs.Own.{own_graph};

use contraction_order::order_of;
use dimacs_reader::{GraphError, read_graph};
use forward_star::Star;
use hierarchy_build::{Hierarchy, contract, customise};
use hierarchy_query::{DistancesFrom, HierarchyOracle, one_to_many};
use rand_core::SeedableRng;
use rand_core::utils::NextWord;
use rand_xoshiro::SplitMix64;
use road_io::{FileShelf, Picked, Shelf};
use road_model::{Oracle, Vertex};
use std::alloc::Global;
use std::io::ErrorKind;
use std::sync::Arc;
use std::time::Instant;
use std::{env, io};

/// How many targets the distances from one vertex have.
const TARGETS: u32 = 1000;

/// How many vertices such distances are asked from in one kept memory.
const SOURCES: u32 = 10;

/// The generator of words that vertices are drawn by begins here.
const SEED: u64 = 7;

// The vertex of the next word.
fn drawn(words: &mut SplitMix64, vertices: u32) -> Vertex
    requires { 1 ≤ vertices }
    ensures { IsVertex vertices result }
{
    Vertex(1 + (words.next_word() % u64::from(vertices)) as u32)
}

// The file of this name, laid out for searches.
fn load(rt: &HostRuntime, name: &str) -> io::Result<Star> {
    let mut shelf = FileShelf::new(rt);
    let Picked::Ready = shelf.pick(name) else {
        return Err(ErrorKind::NotFound.into());
    };
    match read_graph(rt.alloc(), &mut shelf) {
        Ok(graph) => Ok(Star::build(rt.alloc(), graph)?),
        Err(GraphError::NoMemory) => Err(ErrorKind::OutOfMemory.into()),
        Err(_) => Err(ErrorKind::InvalidData.into()),
    }
}

// Tells how long a part of the work took.
fn tell(rt: &HostRuntime, part: &str, begin: Instant) -> io::Result<()> {
    let taken = begin.elapsed(rt)?.as_micros();
    eprintln!(rt; "{part} {taken}")?;
    Ok(())
}

// The hierarchy of a graph, built, and then given its lengths anew.
fn build(rt: &HostRuntime, star: &Star) -> io::Result<Hierarchy>
    ensures { IfOk result (λ h. (own_graph h).vertices ≡ star.now.vertices) }
{
    let begin = Instant::now(rt)?;
    let order = order_of(rt.alloc(), star)?;
    tell(rt, "order", begin)?;
    let begin = Instant::now(rt)?;
    let hierarchy = contract(rt.alloc(), star, order)?;
    tell(rt, "contract", begin)?;
    let shape = hierarchy.shared_shape().clone()?;
    let begin = Instant::now(rt)?;
    let hierarchy = customise(rt.alloc(), shape, star)?;
    tell(rt, "customise", begin)?;
    Ok(hierarchy)
}

// The sum of the distances of random pairs, and how many have one.
fn ask(
    rt: &HostRuntime,
    vertices: u32,
    hierarchy: Arc<Hierarchy, Global>,
    words: &mut SplitMix64,
    pairs: u32,
) -> io::Result<()>
    requires vertices { vertices ≡ (own_graph hierarchy.value).vertices }
    requires some { 1 ≤ vertices }
{
    let mut oracle = HierarchyOracle::new(rt.alloc(), hierarchy)?;
    let (mut sum, mut reached) = (0u64, 0u32);
    let begin = Instant::now(rt)?;
    for _pair in 0..pairs {
        let from = drawn(words, vertices);
        let to = drawn(words, vertices);
        if let Some(distance) = oracle.distance(from, to)? {
            sum = sum.wrapping_add(distance);
            reached = reached.wrapping_add(1);
        }
    }
    tell(rt, "distances", begin)?;
    println!(rt; "distances {reached} sum {sum}")?;
    Ok(())
}

// The sum of the distances from a random vertex to many others, and how many have one.
fn ask_many(
    rt: &HostRuntime,
    vertices: u32,
    hierarchy: Arc<Hierarchy, Global>,
    words: &mut SplitMix64,
) -> io::Result<()>
    requires vertices { vertices ≡ (own_graph hierarchy.value).vertices }
    requires some { 1 ≤ vertices }
{
    let from = drawn(words, vertices);
    let mut targets = Vec::new(rt.alloc());
    for _target in 0..TARGETS {
        targets.push(drawn(words, vertices))?;
    }
    let begin = Instant::now(rt)?;
    let found = one_to_many(rt.alloc(), hierarchy, from, &targets)?;
    tell(rt, "many", begin)?;
    let (mut sum, mut reached) = (0u64, 0u32);
    for distance in found.as_slice().iter().flatten() {
        sum = sum.wrapping_add(*distance);
        reached = reached.wrapping_add(1);
    }
    println!(rt; "many {reached} sum {sum}")?;
    Ok(())
}

// The sum of the distances from some random vertices, one after another in one memory, to many others each, and how many
// have one.
fn ask_again(
    rt: &HostRuntime,
    vertices: u32,
    hierarchy: Arc<Hierarchy, Global>,
    words: &mut SplitMix64,
) -> io::Result<()>
    requires vertices { vertices ≡ (own_graph hierarchy.value).vertices }
    requires some { 1 ≤ vertices }
{
    let mut known = DistancesFrom::of(rt.alloc(), hierarchy, drawn(words, vertices))?;
    let (mut sum, mut reached) = (0u64, 0u32);
    let begin = Instant::now(rt)?;
    for _source in 0..SOURCES {
        known.restart(drawn(words, vertices));
        for _target in 0..TARGETS {
            if let Some(distance) = known.distance(drawn(words, vertices))? {
                sum = sum.wrapping_add(distance);
                reached = reached.wrapping_add(1);
            }
        }
    }
    tell(rt, "again", begin)?;
    println!(rt; "again {reached} sum {sum}")?;
    Ok(())
}

fn main(rt: HostRuntime) -> io::Result<()> {
    let mut args = env::args(&rt)?.skip(1);
    let (Some(name), Some(pairs)) = (args.next(), args.next()) else {
        return Err(ErrorKind::InvalidInput.into());
    };
    let Ok(pairs) = pairs.parse::<u32>() else {
        return Err(ErrorKind::InvalidInput.into());
    };
    let star = load(&rt, &name)?;
    let vertices = star.vertices();
    if vertices == 0 {
        return Ok(());
    }
    let hierarchy = Arc::new(rt.alloc(), build(&rt, &star)?)?;
    let mut words = SplitMix64::from_seed(SEED.to_le_bytes());
    ask(&rt, vertices, hierarchy.clone()?, &mut words, pairs)?;
    ask_many(&rt, vertices, hierarchy.clone()?, &mut words)?;
    ask_again(&rt, vertices, hierarchy, &mut words)?;
    Ok(())
}
