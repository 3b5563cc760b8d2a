//! Orders of contraction.

use contraction_order::{order_by, order_of};
use road_model::Vertex;
use std::test::Fail;
use worked_graphs::star_of;

#[test]
fn the_middle_of_a_star_goes_after_its_points(rt: HostRuntime) -> Result<(), Fail> {
    let arcs = [
        (1, 2, 1),
        (1, 3, 1),
        (1, 4, 1),
        (5, 1, 1),
        (5, 6, 1),
        (6, 5, 1),
        (3, 3, 1),
    ];
    let star = star_of(rt.alloc(), 6, &arcs)?;
    let order = order_of(rt.alloc(), &star)?;
    let wanted = [
        Vertex(2),
        Vertex(3),
        Vertex(1),
        Vertex(4),
        Vertex(5),
        Vertex(6),
    ];
    assert_eq!(rt; order.vertices.as_slice(), wanted.as_slice());
    Ok(())
}

#[test]
fn a_hub_goes_last(rt: HostRuntime) -> Result<(), Fail> {
    let mut arcs = Vec::new(rt.alloc());
    for leaf in 2..201u32 {
        arcs.push((leaf, 1, 1u64))?;
    }
    let star = star_of(rt.alloc(), 200, arcs.as_slice())?;
    let order = order_of(rt.alloc(), &star)?;
    assert_eq!(rt; order.vertices.as_slice().last(), Some(&Vertex(1)));
    Ok(())
}

#[test]
fn wishes_come_first_and_once(rt: HostRuntime) -> Result<(), Fail> {
    let order = order_by(rt.alloc(), 4, &[3, 9, 3, 0, 2])?;
    let wanted = [Vertex(3), Vertex(2), Vertex(1), Vertex(4)];
    assert_eq!(rt; order.vertices.as_slice(), wanted.as_slice());
    Ok(())
}
