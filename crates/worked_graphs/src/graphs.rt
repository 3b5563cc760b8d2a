/// The arcs of a graph, as (tail, head, length), in the order of their numbers.
pub type Arcs = &'static [(u32, u32, u64)];

/// Six vertices. A tie: from 1 to 3 lead arc 3, and the arcs 1 and 6, which are as long. Nothing leads to or from 5.
pub const A: Arcs = &[
    (1, 2, 10),
    (2, 6, 10),
    (1, 3, 11),
    (3, 4, 6),
    (4, 6, 5),
    (2, 3, 1),
];

/// Six vertices. The way through 3 is a detour of two long arcs: arc 6 of [`A`] joins them.
pub const B: Arcs = &[(1, 2, 10), (2, 6, 10), (1, 3, 11), (3, 6, 11), (2, 3, 1)];

/// Six vertices. The ways from 1 to 6 share arc 1, and part at 3.
pub const C: Arcs = &[
    (1, 3, 5),
    (3, 2, 5),
    (2, 6, 10),
    (3, 4, 6),
    (4, 5, 5),
    (5, 6, 5),
];

/// Four vertices. A tie: two walks of one length lead from 1 to 4, and share no arc.
pub const D: Arcs = &[(1, 2, 5), (3, 4, 5), (1, 3, 5), (2, 4, 5)];

/// Four vertices. A stub at 4, which a path through it enters and leaves by 2.
pub const STUB: Arcs = &[(1, 2, 1), (2, 3, 1), (2, 4, 1), (4, 2, 1)];

/// Two vertices. Two parallel arcs, and a loop.
pub const PARALLEL: Arcs = &[(1, 2, 7), (1, 2, 7), (1, 1, 1)];

/// Three vertices. Each arc has the greatest length, and the last is a loop.
pub const LONG: Arcs = &[(1, 2, 4294967295), (2, 3, 4294967295), (3, 3, 4294967295)];
