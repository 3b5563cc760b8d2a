use road_model::{CursorQuery, Items};

/// The most bytes of a certificate.
pub const MAX_CERTIFICATE: u64 = 1 << 62;

/// Numbers, in the order that the value's owner states.
pub type NumberList = Items<u64>;

/// Which walks a block tells of.
#[derive(Clone, Copy, Debug, PartialEq, Eq)]
pub enum BlockKind {
    /// Those from its root: an arc of a row leads into the row's vertex.
    From,
    /// Those to its root: an arc of a row leads out of the row's vertex.
    To,
}

/// What a block says of one vertex.
#[derive(Clone, Copy, Debug, PartialEq, Eq)]
pub struct BlockRow {
    pub vertex: u64,
    /// The distance between the vertex and the root.
    pub label: u64,
    /// The arc of the canonical path next to the vertex, and 0 for the root.
    pub arc: u64,
}

/// Rows, in the order of a certificate's lines.
pub type BlockRowList = Items<BlockRow>;

/// The vertices within a radius of a root, with their distances and their arcs: a shortest path tree.
#[derive(Debug, Drop)]
pub struct Block {
    pub kind: BlockKind,
    pub root: u64,
    /// None for no limit.
    pub radius: Option<u64>,
    pub rows: BlockRowList,
}

/// Blocks, in the order of a certificate's lines.
pub type BlockList = Items<Block>;

/// An alternative, with its numbers as a certificate says them.
#[derive(Debug, Drop)]
pub struct CertRoute {
    /// The least of its via vertices, which names it.
    pub via: u64,
    pub length: u64,
    /// The length of the arcs that it has in common with the optimum.
    pub shared: u64,
    /// The greatest difference of distance from the source between two of its via vertices.
    pub plateau: u64,
    /// Twice the length and the shared length, less the plateau.
    pub rank: u64,
    pub arcs: NumberList,
}

/// Alternatives, in the order of a certificate's lines.
pub type CertRouteList = Items<CertRoute>;

/// Why the path through a vertex is the optimum, is no alternative, or is a listed one.
#[derive(Debug, Drop)]
pub enum Reason {
    /// It is the optimum.
    Optimum,
    /// It shares too much with the optimum; with the shared length.
    Shared(u64),
    /// The subpath between two places, counted from 0, has to be shortest, and this walk between them is shorter.
    Local {
        first: u64,
        last: u64,
        detour: NumberList,
    },
    /// The subpath between two places, counted from 0, is stretched too far against this walk between them.
    Stretch {
        first: u64,
        last: u64,
        detour: NumberList,
    },
    /// It is the alternative of this name.
    Listed(u64),
}

/// A vertex near enough to both ends, and why the path through it is, or isn't, an alternative.
#[derive(Debug, Drop)]
pub struct ViaRow {
    pub vertex: u64,
    pub reason: Reason,
}

/// Rows of vertices with their reasons, in the order of a certificate's lines.
pub type ViaRowList = Items<ViaRow>;

/// What was found for a query.
#[derive(Debug, Drop)]
pub enum Finding {
    /// No walk leads from the source to the target.
    Nothing,
    /// The optimum's length and arcs, the alternatives, and a reason for each vertex near enough.
    Found {
        length: u64,
        arcs: NumberList,
        routes: CertRouteList,
        vias: ViaRowList,
    },
}

/// Evidence for the whole answer of a query. Its numbers are as they were given, and may be anything.
#[derive(Debug, Drop)]
pub struct Certificate {
    pub vertices: u64,
    pub arcs: u64,
    pub query: CursorQuery,
    pub blocks: BlockList,
    pub finding: Finding,
}
