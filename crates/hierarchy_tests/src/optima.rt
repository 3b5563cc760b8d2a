//! Optima by distances from their source.

use contraction_order::order_of;
use forward_star::Star;
use hierarchy_build::contract;
use hierarchy_optimum::optimum_by;
use hierarchy_query::{DistancesFrom, HillMemory};
use road_model::Optimum;
use std::alloc::Global;
use std::sync::Arc;
use std::test::Fail;
use worked_graphs::{A, star_of, vertex_of};

// An optimum as a text, as "20: 1 2".
fn text_of(alloc: Global, best: &Option<Optimum>) -> Result<String, Fail> {
    let Some(best) = best else {
        return Ok(format!(in alloc; "none")?);
    };
    let mut text = format!(in alloc; "{}:", best.length)?;
    for arc in best.arcs.as_slice() {
        write!(text, " {}", arc.number())?;
    }
    Ok(text)
}

// The optimum as a text, in the memory of the one before.
fn best(
    alloc: Global,
    memory: HillMemory,
    star: &Star,
    from: u32,
    to: u32,
) -> Result<(String, HillMemory), Fail> {
    let vertices = star.vertices();
    let from = vertex_of(vertices, from)?;
    let to = vertex_of(vertices, to)?;
    let order = order_of(alloc, star)?;
    let hierarchy = Arc::new(alloc, contract(alloc, star, order)?)?;
    let mut distances = DistancesFrom::in_memory(alloc, memory, hierarchy, from)?;
    let best = optimum_by(alloc, star, &mut distances, to)?;
    let text = text_of(alloc, &best)?;
    Ok((text, distances.into_memory()))
}

#[test]
fn finds_one_canonical_path_after_another_in_one_memory(rt: HostRuntime) -> Result<(), Fail> {
    let alloc = rt.alloc();
    let star = star_of(alloc, 6, A)?;
    let memory = HillMemory::new(alloc);
    let (tied, memory) = best(alloc, memory, &star, 1, 3)?;
    assert_eq!(rt; tied.as_str(), "11: 3");
    let (longer, memory) = best(alloc, memory, &star, 1, 6)?;
    assert_eq!(rt; longer.as_str(), "20: 1 2");
    let (unreached, memory) = best(alloc, memory, &star, 6, 1)?;
    assert_eq!(rt; unreached.as_str(), "none");
    let (at_once, _memory) = best(alloc, memory, &star, 5, 5)?;
    assert_eq!(rt; at_once.as_str(), "0:");
    Ok(())
}
