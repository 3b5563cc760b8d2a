//! The graph files that the tests use.

/// From 1 to 3 lead arc 3, and the arcs 1 and 6, which are as long.
pub const SMALL: &[u8] =
    b"c road graph\nc\np sp 6 6\na 1 2 10\na 2 6 10\na 1 3 11\na 3 4 6\na 4 6 5\na 2 3 1\n";

/// The same without its last arc.
pub const SHORT: &[u8] =
    b"c road graph\nc\np sp 6 6\na 1 2 10\na 2 6 10\na 1 3 11\na 3 4 6\na 4 6 5\n";

/// A detour of two long arcs, which no alternative may take.
pub const DETOUR: &[u8] = b"p sp 6 5\na 1 2 10\na 2 6 10\na 1 3 11\na 3 6 11\na 2 3 1\n";

/// An alternative leaves the optimum after vertex 3.
pub const FORK: &[u8] = b"p sp 6 6\na 1 3 5\na 3 2 5\na 2 6 10\na 3 4 6\na 4 5 5\na 5 6 5\n";

/// Two walks of one length.
pub const TIES: &[u8] = b"p sp 4 4\na 1 2 5\na 3 4 5\na 1 3 5\na 2 4 5\n";

/// A stub at vertex 4, which a path through it enters and leaves by vertex 2.
pub const STUB: &[u8] = b"p sp 4 4\na 1 2 1\na 2 3 1\na 2 4 1\na 4 2 1\n";

/// Two vertices, a parallel arc and a loop.
pub const PARALLEL: &[u8] = b"p sp 2 3\na 1 2 7\na 1 2 7\na 1 1 1\n";
