ghost use Rattle.std.specs.Prelude.{◌≡◌, ◌<◌, ◌^◌, IfSome};
ghost use Rattle.label_setting.specs.Search.{IsTracked};
ghost use Rattle.tree_search.specs.Ball.{label_at};

use label_setting::{Queue, SearchMemory};
use road_model::{Vertex, VertexList};
use std::marker::Model;

/// The labels that a search gave, by vertex, read where they stand. To a clause it is the list of them.
#[derive(Drop)]
pub struct Labels<'a> {
    values: &'a [u64],
    limit: u64,
}

impl<'a> Model for Labels<'a> {
    ghost use Rattle.std.specs.Prelude.{◌<◌, ◌^◌, ℕ, List, Option, map};
    ghost use Rattle.tree_search.specs.Ball.{label_within};

    ghost Value = { List (Option ℕ) };

    ghost view = { λ l. map (label_within l.limit) l.values.now };

    ghost invariant = { λ l. l.limit < 2 ^ 60 };
}

impl<'a> Labels<'a> {
    ghost use Rattle.std.specs.Prelude.{map};
    ghost use Rattle.tree_search.specs.Ball.{label_within};

    /// The numbers of a search, of which those up to the limit are labels. Takes no memory.
    pub fn new(values: &'a [u64], limit: u64) -> Labels<'a>
        requires { limit < 2 ^ 60 }
        ensures { result ≡ map (label_within limit) values.now }
    {
        Labels { values, limit }
    }

    /// The distance of a vertex from the root, if the search came so far. Constant time.
    #[inline]
    pub fn label(&self, v: Vertex) -> Option<u64>
        ensures value { result ≡ label_at self.now v }
        ensures fits { IfSome result (λ k. k < 2 ^ 60) }
    {
        let at = v.number() as usize;
        if at >= self.values.len() {
            return None;
        }
        let label = self.values[at];
        if label <= self.limit {
            Some(label)
        } else {
            None
        }
    }
}

/// The vertices within a radius of the root, with their distances, in the memory of the search that found them.
/// To a clause it is its labels and its members.
#[derive(Drop)]
pub struct Ball {
    values: Vec<u64>,
    limit: u64,
    members: VertexList,
    queue: Queue,
    settled: u64,
}

impl Model for Ball {
    ghost use Rattle.std.specs.Prelude.{map};
    ghost use Rattle.label_setting.specs.Search.{IsTracked};
    ghost use Rattle.tree_search.specs.Ball.{Reached, label_within, IsKept};

    ghost Value = { Reached };

    ghost view = { λ b. record {
      labels = map (label_within b.limit) b.values.items;
      members = b.members;
    } };

    ghost invariant = { λ b. IsKept b.limit b.values.items b.members };
}

impl Ball {
    ghost use Rattle.std.specs.Prelude.{map};
    ghost use Rattle.tree_search.specs.Ball.{label_within};

    /// The ball that a search left in its memory. Takes no memory itself.
    pub(crate) fn of(memory: SearchMemory, limit: u64) -> Ball
        requires low { limit < 2 ^ 60 }
        requires tracked { IsTracked memory.labels.items memory.touched.items }
        ensures { result ≡ record {
          labels = map (label_within limit) memory.labels.items;
          members = memory.touched.items;
        } }
    {
        let SearchMemory {
            labels,
            touched,
            queue,
            settled,
        } = memory;
        Ball {
            values: labels,
            limit,
            members: VertexList::from_vec(touched),
            queue,
            settled,
        }
    }

    /// The distance of a vertex from the root; none outside the ball. Constant time.
    #[inline]
    pub fn label(&self, v: Vertex) -> Option<u64>
        ensures value { result ≡ label_at self.now.labels v }
        ensures fits { IfSome result (λ k. k < 2 ^ 60) }
    {
        self.labels().label(v)
    }

    /// The labels alone.
    #[inline]
    pub fn labels(&self) -> Labels<'_>
        ensures { result ≡ self.now.labels }
    {
        Labels::new(&self.values, self.limit)
    }

    /// The vertices of the ball, ascending.
    pub fn members(&self) -> &VertexList
        ensures { result.now ≡ self.now.members }
    {
        &self.members
    }

    /// The memory back, for another search. Takes no memory.
    pub fn into_memory(self) -> SearchMemory
        ensures { IsTracked result.labels.items result.touched.items }
    {
        let Ball {
            values,
            limit: _,
            members,
            queue,
            settled,
        } = self;
        SearchMemory {
            labels: values,
            touched: members.into_vec(),
            queue,
            settled,
        }
    }
}
