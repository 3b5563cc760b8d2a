ghost use Rattle.std.specs.Prelude.{◌≡◌, ◌≤◌, IfOk};
ghost use Rattle.contraction_order.specs.Order.{IsOrder};

use crate::graphs::{Shape, arcs_of, drawn, random_arcs};
use contraction_order::{Order, order_by, order_of};
use forward_star::Star;
use hierarchy_build::contract;
use hierarchy_query::HierarchyOracle;
use rand_core::SeedableRng;
use rand_xoshiro::SplitMix64;
use road_model::{Oracle, Vertex};
use std::alloc::Global;
use std::process::Abort;
use std::sync::Arc;
use std::test::Fail;
use tree_search::PlainOracle;
use worked_graphs::star_of;

const SEED: u64 = 5;

fn oracle_of(alloc: Global, star: &Star, order: Order) -> Result<HierarchyOracle, Fail>
    requires { IsOrder star.now.vertices order.vertices }
    ensures { IfOk result (λ o. o.graph.vertices ≡ star.now.vertices) }
{
    let hierarchy = Arc::new(alloc, contract(alloc, star, order)?)?;
    Ok(HierarchyOracle::new(alloc, hierarchy)?)
}

// Whether a plain search finds the same for each pair of vertices.
fn is_right(alloc: Global, star: &Star, order: Order) -> Result<bool, Fail>
    requires { IsOrder star.now.vertices order.vertices }
{
    star.within_limits();
    let mut quick = oracle_of(alloc, star, order)?;
    let mut plain = PlainOracle::new(alloc, star)?;
    for from in 1..star.vertices() + 1 {
        for to in 1..star.vertices() + 1 {
            let wanted = plain.distance(Vertex(from), Vertex(to))?;
            if quick.distance(Vertex(from), Vertex(to))? != wanted {
                return Ok(false);
            }
        }
    }
    Ok(true)
}

// The five digits of a number in base five, from 1 to 5; none where one stands twice.
fn digits(number: u32) -> Option<[u32; 5]> {
    let mut rest = number;
    let mut found = [0; 5];
    let mut seen = [false; 6];
    for place in 0..5 {
        let digit = rest % 5 + 1;
        if seen[digit as usize] {
            return None;
        }
        seen[digit as usize] = true;
        found[place] = digit;
        rest /= 5;
    }
    Some(found)
}

#[test]
fn every_order_of_five_vertices_gives_the_distances(rt: HostRuntime) -> Result<(), Fail> {
    let mut words = SplitMix64::from_seed(SEED.to_le_bytes());
    let mut tried = 0u32;
    for graph in 0..100u32 {
        let longest = if graph % 3 == 0 { 2 } else { 4294967295 };
        let arcs = random_arcs(rt.alloc(), &mut words, 5, 3 + graph % 12, longest)?;
        let star = star_of(rt.alloc(), 5, &arcs)?;
        for number in 0..3125 {
            if let Some(wishes) = digits(number) {
                let order = order_by(rt.alloc(), star.vertices(), &wishes)?;
                assert!(rt; is_right(rt.alloc(), &star, order)?);
                tried = tried.wrapping_add(1);
            }
        }
    }
    assert_eq!(rt; tried, 12000);
    Ok(())
}

// Whether plain searches find the same for so many random pairs, of which some have a distance.
fn is_right_at(alloc: Global, star: &Star, pairs: u32) -> Result<bool, Fail> {
    star.within_limits();
    if star.vertices() == 0 {
        return Ok(false);
    }
    let mut quick = oracle_of(alloc, star, order_of(alloc, star)?)?;
    let mut plain = PlainOracle::new(alloc, star)?;
    let mut words = SplitMix64::from_seed(SEED.to_le_bytes());
    for _pair in 0..pairs {
        let from = drawn(&mut words, star.vertices());
        let to = drawn(&mut words, star.vertices());
        let wanted = plain.distance(from, to)?;
        if wanted.is_none() || quick.distance(from, to)? != wanted {
            return Ok(false);
        }
    }
    Ok(true)
}

// A graph of a shape, of so many vertices, whose arcs are all as long.
fn has_its_distances<R: Abort>(
    rt: &R,
    alloc: Global,
    shape: Shape,
    vertices: u32,
    length: u64,
) -> Result<(), Fail>
    requires { vertices ≤ 33554432 }
{
    let arcs = arcs_of(alloc, shape, vertices, length)?;
    let star = star_of(alloc, vertices, &arcs)?;
    assert!(rt; is_right_at(alloc, &star, 40)?, "{shape:?}");
    Ok(())
}

#[test]
fn large_graphs_of_odd_shapes_have_their_distances(rt: HostRuntime) -> Result<(), Fail> {
    has_its_distances(&rt, rt.alloc(), Shape::Path, 100000, 4294967295)?;
    has_its_distances(&rt, rt.alloc(), Shape::Leaves, 100000, 3)?;
    has_its_distances(&rt, rt.alloc(), Shape::Clique, 300, 7)?;
    has_its_distances(&rt, rt.alloc(), Shape::Lattice, 3600, 1)
}
