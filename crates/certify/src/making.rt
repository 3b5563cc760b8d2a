//! The certificate of a query.

ghost use Rattle.std.specs.Prelude.{◌≡◌, Some, IfOk, map};
ghost use Rattle.road_model.specs.declared.answer.Plan.TheVariants as plan;
ghost use Rattle.road_model.specs.Graph.{IsVertex, arc_count};
ghost use Rattle.road_model.specs.Dist.{HaveSameDist};
ghost use Rattle.road_model.specs.Fraction.{IsRatio};
ghost use Rattle.road_model.specs.Queries.{query_of};
ghost use Rattle.road_model.specs.Answers.{IsListing, IsAnswer};
ghost use Rattle.certify.specs.Written.{cert_route, IsWritten};
ghost use Rattle.certify.specs.Reasons.{IsPosed, pair_of};
ghost use Rattle.certify.specs.Making.{AreBlocks};

use crate::blocks::{from_block, to_block};
use crate::numbers::numbers_of;
use crate::starts::start_blocks;
use crate::verdicts::Ground;
use crate::vias::via_rows;
use canonical_trees::{TreePair, trees};
use certificate_text::{
    Block, BlockList, CertRoute, CertRouteList, Certificate, Finding, ViaRowList,
};
use forward_star::Star;
use road_model::{CursorQuery, NoMemory, Optimum, Oracle, Plan, Query, Route, RouteList};
use std::alloc::Global;

fn numbers_in(query: &Query) -> CursorQuery
    ensures { query_of result ≡ query.now }
{
    CursorQuery {
        from: query.from.number() as u64,
        to: query.to.number() as u64,
        gamma: (query.gamma.num(), query.gamma.den()),
        alpha: (query.alpha.num(), query.alpha.den()),
        epsilon: (query.epsilon.num(), query.epsilon.den()),
    }
}

fn route_lines(alloc: Global, others: &[Route]) -> Result<CertRouteList, NoMemory>
    ensures { IfOk result (λ lines. lines ≡ map cert_route others.now) }
{
    let mut lines = Vec::new(alloc);
    for route in others {
        lines.push(CertRoute {
            via: route.via.number() as u64,
            length: route.length,
            shared: route.shared,
            plateau: route.plateau,
            rank: route.rank,
            arcs: numbers_of(alloc, route.arcs.as_slice())?,
        })?;
    }
    Ok(CertRouteList::from_vec(lines))
}

fn certificate_with(star: &Star, query: &Query, blocks: Vec<Block>, finding: Finding) -> Certificate
    ensures vertices { result.vertices ≡ star.now.vertices }
    ensures arcs { result.arcs ≡ arc_count star.now }
    ensures query { query_of result.query ≡ query.now }
    ensures blocks { result.blocks ≡ blocks.items }
    ensures finding { result.finding ≡ finding }
{
    Certificate {
        vertices: star.vertices() as u64,
        arcs: star.arc_count() as u64,
        query: numbers_in(query),
        blocks: BlockList::from_vec(blocks),
        finding,
    }
}

/// The certificate where no walk leads to the target: all that the source reaches.
fn nothing_found(alloc: Global, star: &Star, query: &Query) -> Result<Certificate, NoMemory>
    requires { IsVertex star.now.vertices query.now.from }
    ensures { IfOk result (IsWritten star.now query.now plan.NoPath) }
{
    // The tree to the source isn't used: only pairs of trees tell their arcs.
    let pair = trees(alloc, star, query.from, query.from, None)?;
    let mut blocks = Vec::new(alloc);
    blocks.push(from_block(alloc, &pair, None)?)?;
    Ok(certificate_with(star, query, blocks, Finding::Nothing))
}

/// The trees of a query, and those from the vertices before the vias.
fn blocks_of(
    alloc: Global,
    pair: &TreePair<'_>,
    query: &Query,
    others: &RouteList,
    bound: u64,
    best: &Optimum,
) -> Result<Vec<Block>, NoMemory>
    requires posed { IsPosed pair.now.graph query.now best.now }
    requires trees { pair.now ≡ pair_of pair.now.graph query.now (Some bound) }
    requires listing { IsListing pair.now.graph query.now best.now.arcs others.now }
    ensures { IfOk result (λ blocks. AreBlocks pair.now.graph query.now others.now bound blocks.items) }
{
    let mut blocks = Vec::new(alloc);
    blocks.push(from_block(alloc, pair, Some(bound))?)?;
    blocks.push(to_block(alloc, pair, Some(bound))?)?;
    let mut starts = start_blocks(alloc, pair.star(), query, others)?;
    blocks.append(&mut starts)?;
    Ok(blocks)
}

/// The certificate of an optimum and its alternatives.
fn found<O: Oracle>(
    alloc: Global,
    star: &Star,
    oracle: &mut O,
    query: &Query,
    best: &Optimum,
    others: &RouteList,
) -> Result<Certificate, NoMemory>
    requires posed { IsPosed star.now query.now best.now }
    requires listing { IsListing star.now query.now best.now.arcs others.now }
    requires same { HaveSameDist star.now (O.graph oracle.old) }
    ensures written { IfOk result (IsWritten star.now query.now (plan.Found best.now others.now)) }
    ensures same { O.graph oracle.new ≡ O.graph oracle.old }
{
    let bound = query.epsilon.bound(best.length);
    let mut pair = trees(alloc, star, query.from, query.to, Some(bound))?;
    pair.keep_steps(bound)?;
    let ground = Ground {
        star,
        pair: &pair,
        query,
        best,
    };
    let vias = via_rows(alloc, &ground, oracle, bound)?;
    let blocks = blocks_of(alloc, &pair, query, others, bound, best)?;
    let finding = Finding::Found {
        length: best.length,
        arcs: numbers_of(alloc, best.arcs.as_slice())?,
        routes: route_lines(alloc, others.as_slice())?,
        vias: ViaRowList::from_vec(vias),
    };
    Ok(certificate_with(star, query, blocks, finding))
}

/// The certificate of a query with this plan, which has to be its answer.
///
/// It takes the two searches of a plan, two more from each vertex before the via of an alternative, as far as the
/// alternative leads on from there, and a search for each detour; where no walk leads to the target, two searches of all
/// that is reached. The oracle is asked what the tests of one path ask, for each plateau of the paths within the stretch
/// bound. Beside the certificate it takes 64 bytes a vertex of the star. An `Err` leaves the oracle as good as before.
pub fn certificate_of<O: Oracle>(
    alloc: Global,
    star: &Star,
    oracle: &mut O,
    query: &Query,
    plan: &Plan,
) -> Result<Certificate, NoMemory>
    requires source { IsVertex star.now.vertices query.now.from }
    requires target { IsVertex star.now.vertices query.now.to }
    requires gamma { IsRatio 1 query.now.gamma }
    requires alpha { IsRatio 1 query.now.alpha }
    requires same { HaveSameDist star.now (O.graph oracle.old) }
    requires answer { IsAnswer star.now query.now plan.now }
    ensures written { IfOk result (λ c. IsWritten star.now query.now plan.now c) }
    ensures same { O.graph oracle.new ≡ O.graph oracle.old }
{
    star.within_limits();
    match plan {
        Plan::NoPath => nothing_found(alloc, star, query),
        Plan::Found { optimum, others } => found(alloc, star, oracle, query, optimum, others),
    }
}
