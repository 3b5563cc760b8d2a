//! What the checks on routes and on vias lean on.

ghost use Rattle.std.specs.Prelude.{◌≡◌};
ghost use Rattle.recheck.specs.Paths.{Ground};

use crate::block_table::BlockTable;
use certificate_text::BlockRow;
use forward_star::Star;
use road_model::Query;
use std::marker::Model;

/// The graph, the query, the blocks that passed their checks, and the optimum that the certificate says.
#[derive(Drop)]
pub(crate) struct Basis<'a> {
    pub(crate) star: &'a Star,
    pub(crate) query: Query,
    pub(crate) blocks: &'a BlockTable<'a>,
    /// The rows of the block from the source.
    pub(crate) from_rows: &'a [BlockRow],
    /// The rows of the block to the target.
    pub(crate) to_rows: &'a [BlockRow],
    /// The optimum's length.
    pub(crate) best: u64,
    pub(crate) optimum: &'a [u64],
}

impl<'a> Model for Basis<'a> {
    ghost use Rattle.recheck.specs.Paths.{Ground};
    ghost use Rattle.recheck.specs.Standing.{IsSound};

    ghost Value = { Ground };

    ghost view = { λ b. record {
      graph = b.star.now;
      query = b.query;
      blocks = b.blocks.now;
      from_rows = b.from_rows.now;
      to_rows = b.to_rows.now;
      best = b.best;
      optimum = b.optimum.now;
    } };

    ghost invariant = { λ b. IsSound (record {
      graph = b.star.now;
      query = b.query;
      blocks = b.blocks.now;
      from_rows = b.from_rows.now;
      to_rows = b.to_rows.now;
      best = b.best;
      optimum = b.optimum.now;
    }) };
}
