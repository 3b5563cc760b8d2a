//! The canonical shortest path, by distances from its source that a hierarchy works out where they are asked for.
//!
//! It is found from its end: at each vertex it takes the least arc whose tail is as much nearer to the source as the arc
//! is long. No search of the graph is made, and no distance worked out but those of the tails of arcs into the path.
#![tactic(auto)]

mod optimum;

pub use optimum::optimum_by;
