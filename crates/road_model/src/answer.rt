use crate::{ArcList, Items, Ratio, Vertex};

/// A question for alternative routes.
#[derive(Clone, Copy, Debug)]
pub struct Query {
    pub from: Vertex,
    pub to: Vertex,
    /// How much of the optimum's length an alternative may share with it, at most 1.
    pub gamma: Ratio,
    /// Subpaths up to this part of the optimum's length have to be shortest paths, at most 1.
    pub alpha: Ratio,
    /// How much longer than shortest any subpath may be, at most 4.
    pub epsilon: Ratio,
}

impl Query {
    ghost use Rattle.std.specs.Prelude.{◌≡◌};
    ghost use Rattle.road_model.specs.Queries.{usual};

    /// Two vertices with the usual ratios: 4/5 for `gamma`, and 1/4 for `alpha` and `epsilon`.
    pub fn usual(from: Vertex, to: Vertex) -> Query
        ensures { result ≡ usual from to }
    {
        let (Ok(gamma), Ok(quarter)) = (Ratio::new(4, 5, 1), Ratio::new(1, 4, 1)) else {
            unreachable!()
        };
        Query {
            from,
            to,
            gamma,
            alpha: quarter,
            epsilon: quarter,
        }
    }
}

/// The canonical shortest path of a query.
#[derive(Debug, Drop)]
pub struct Optimum {
    pub length: u64,
    pub arcs: ArcList,
}

/// An alternative: a single-via path with the numbers that it is ranked by.
#[derive(Debug, Drop)]
pub struct Route {
    /// The least of its via vertices, which names it.
    pub via: Vertex,
    pub length: u64,
    /// The length of the arcs that it has in common with the optimum.
    pub shared: u64,
    /// The greatest difference of distance from the source between two of its via vertices.
    pub plateau: u64,
    /// Twice the length and the shared length, less the plateau.
    pub rank: u64,
    pub arcs: ArcList,
}

/// Alternatives, in the order that the value's owner states.
pub type RouteList = Items<Route>;

/// The whole answer of a query.
#[derive(Debug, Drop)]
pub enum Plan {
    NoPath,
    Found { optimum: Optimum, others: RouteList },
}

/// The items of one page of a plan: item 0 is its optimum, and item `k` its `k`-th alternative.
#[derive(Clone, Copy, Debug, PartialEq, Eq)]
pub struct PageSpan {
    pub first: u64,
    pub count: u64,
    /// Items of the plan follow after it.
    pub more: bool,
}

/// Two places of a walk, counted from 0, and the distance between their vertices.
#[derive(Clone, Copy, Debug, PartialEq, Eq)]
pub struct Pair {
    pub first: u32,
    pub last: u32,
    pub distance: u64,
}

/// Why the path through a vertex is, or isn't, among the alternatives.
#[derive(Clone, Copy, Debug, PartialEq, Eq)]
pub enum Verdict {
    /// No walk leads through the vertex.
    Unreached,
    /// Its path is the optimum.
    Optimum,
    /// Its path is too long, as a whole; with its length.
    Long(u64),
    /// It shares too much with the optimum; with the shared length.
    Shared(u64),
    /// A subpath that has to be shortest isn't.
    Local(Pair),
    /// A subpath is stretched too far.
    Stretch(Pair),
    /// It is the alternative of this name.
    Listed(Vertex),
}
