use crate::side::Side;
use road_model::Vertex;

/// What no change of a length touches: the ends of the arcs in the order of their numbers, and the runs in both
/// directions. It takes 24 bytes an arc and 8 bytes a vertex.
#[derive(Drop)]
pub struct Topology {
    pub vertices: u32,
    pub tails: Vec<Vertex>,
    pub heads: Vec<Vertex>,
    pub forward: Side,
    pub backward: Side,
}
