ghost use Rattle.std.specs.Prelude.{◌≡◌, ◌<◌, ◌≤◌, ◌^◌, All, map, slice_index_or, None, Some, IfOk, IfErr, OnOk};
ghost use Rattle.road_model.specs.Changes.{after, fault_of, change_fault};
ghost use Rattle.road_model.specs.Graph.{arc_count, reversed, rows_of, step_at};
ghost use Rattle.road_model.specs.File.{IsWithinLimits};
ghost use Rattle.road_model.specs.Versions.{IsRefusedAs};

use crate::lengths::Lengths;
use crate::side::Side;
use crate::topology::Topology;
use road_model::{
    ArcNo, ArcRow, Change, ChangeFault, GraphFile, MAX_LENGTH, Network, NoMemory, Step, Vertex,
};
use std::alloc::Global;
use std::marker::Model;
use std::sync::Arc;

/// A graph with the arcs of each vertex in one run, in both directions. To a clause it is its graph.
///
/// Its lengths take 12 bytes an arc. The rest, 24 bytes an arc and 8 bytes a vertex, it shares with the stars that are
/// made of it by changes of lengths.
#[derive(Drop)]
pub struct Star {
    topology: Arc<Topology, Global>,
    lengths: Lengths,
}

impl Model for Star {
    ghost use Rattle.road_model.specs.Graph.{Graph};
    ghost use Rattle.forward_star.specs.Layout.{IsStar, graph_of};

    ghost Value = { Graph };

    ghost view = { λ s. graph_of s.topology.value s.lengths };

    ghost invariant = { λ s. IsStar s.topology.value s.lengths };
}

fn tails_of(alloc: Global, rows: &[ArcRow]) -> Result<Vec<Vertex>, NoMemory>
    ensures { IfOk result (λ t. t.items ≡ map (λ r. r.tail) rows.now) }
{
    rows.iter().map(|row| row.tail).collect(alloc)
}

fn heads_of(alloc: Global, rows: &[ArcRow]) -> Result<Vec<Vertex>, NoMemory>
    ensures { IfOk result (λ h. h.items ≡ map (λ r. r.head) rows.now) }
{
    rows.iter().map(|row| row.head).collect(alloc)
}

// The lengths of arcs, each in 4 bytes.
fn lengths_of(alloc: Global, rows: &[ArcRow]) -> Result<Vec<u32>, NoMemory>
    requires { All (λ r. r.length < 2 ^ 32) rows.now }
    ensures { IfOk result (λ l. l.items ≡ map (λ r. r.length) rows.now) }
{
    let mut lengths = Vec::with_capacity(alloc, rows.len())?;
    for row in rows {
        lengths.push(row.length as u32)?;
    }
    Ok(lengths)
}

impl Star {
    /// Lays the arcs out, in linear time.
    pub fn build(alloc: Global, graph: GraphFile) -> Result<Star, NoMemory>
        ensures { IfOk result (λ s. s ≡ graph) }
    {
        let vertices = graph.vertices();
        let rows = graph.arcs();
        let tails = tails_of(alloc, rows)?;
        let heads = heads_of(alloc, rows)?;
        let by_number = lengths_of(alloc, rows)?;
        drop(graph);
        let (forward, by_tail) = Side::build(alloc, vertices, &tails, &heads, &by_number)?;
        let (backward, by_head) = Side::build(alloc, vertices, &heads, &tails, &by_number)?;
        let topology = Arc::new(
            alloc,
            Topology {
                vertices,
                tails,
                heads,
                forward,
                backward,
            },
        )?;
        let lengths = Lengths {
            by_number,
            by_tail,
            by_head,
        };
        Ok(Star { topology, lengths })
    }

    /// The star after changes of lengths, in their order, so that a later change of an arc wins; this one stays as it is.
    /// The first failing change decides between `ArcRange` and `LengthRange`.
    ///
    /// It copies the lengths, 12 bytes an arc, and takes time linear in them, and in each change the logarithm of the
    /// arcs of a vertex. All changes are tested before anything is copied.
    pub fn with(&self, alloc: Global, changes: &[Change]) -> Result<Star, ChangeFault>
        ensures changed { IfOk result (λ s. s ≡ after self.now changes.now) }
        ensures accepted { IfOk result (λ s. change_fault self.now changes.now ≡ None) }
        ensures refused { IfErr result (IsRefusedAs (change_fault self.now changes.now)) }
    {
        self.test(changes)?;
        let topology = Arc::try_clone(&self.topology)?;
        let mut lengths = self.lengths.copied(alloc)?;
        for change in changes {
            lengths.set(&topology, *change);
        }
        Ok(Star { topology, lengths })
    }

    // What is wrong with the first failing change.
    fn test(&self, changes: &[Change]) -> Result<(), ChangeFault>
        ensures ok { OnOk result (change_fault self.now changes.now ≡ None) }
        ensures err { IfErr result (λ f. change_fault self.now changes.now ≡ Some f) }
    {
        for change in changes {
            self.test_one(*change)?;
        }
        Ok(())
    }

    fn test_one(&self, change: Change) -> Result<(), ChangeFault>
        ensures ok { OnOk result (fault_of self.now change ≡ None) }
        ensures err { IfErr result (λ f. fault_of self.now change ≡ Some f) }
    {
        let number = change.arc.number();
        if number < 1 || number > self.arc_count() {
            return Err(ChangeFault::ArcRange);
        }
        if change.length < 1 || change.length > MAX_LENGTH {
            return Err(ChangeFault::LengthRange);
        }
        Ok(())
    }

    /// It is within the limits of a graph. Does nothing: a caller's proof learns it.
    #[inline(always)]
    pub fn within_limits(&self)
        ensures { IsWithinLimits self.now }
    {
        let _ = &self.lengths;
    }

    /// How many vertices it has; they are 1 to that number.
    #[inline(always)]
    pub fn vertices(&self) -> u32
        ensures count { result ≡ self.now.vertices }
        ensures limits { IsWithinLimits self.now }
    {
        self.topology.vertices
    }

    /// How many arcs it has; their numbers are 1 to that number.
    #[inline(always)]
    pub fn arc_count(&self) -> u32
        ensures { result ≡ arc_count self.now }
    {
        self.topology.tails.len() as u32
    }

    /// The arc at a place of the list of arcs: that of the number one above.
    #[inline(always)]
    pub fn row(&self, place: usize) -> ArcRow
        requires { place < arc_count self.now }
        ensures { result ≡ slice_index_or (rows_of self.now) place result }
    {
        ArcRow {
            tail: self.topology.tails[place],
            head: self.topology.heads[place],
            length: self.lengths.by_number[place] as u64,
        }
    }

    // The `i`-th arc out of `v`.
    #[inline(always)]
    fn step_out(&self, v: Vertex, i: u32) -> Option<Step>
        ensures { result ≡ step_at self.now v i }
    {
        self.topology.forward.step(&self.lengths.by_tail, v, i)
    }

    /// The `i`-th arc into `v`, counted from 0, by rising arc number; none after the last. Its `head` is
    /// the arc's tail.
    #[inline(always)]
    pub fn into_step(&self, v: Vertex, i: u32) -> Option<Step>
        ensures { result ≡ step_at (reversed self.now) v i }
    {
        self.topology.backward.step(&self.lengths.by_head, v, i)
    }

    /// The network with each arc turned round, under its old number. Takes no memory.
    pub fn reversed(&self) -> Reversed<'_>
        ensures { result ≡ reversed self.now }
    {
        Reversed { star: self }
    }
}

impl Network for Star {
    ghost graph = { λ s. s };

    #[inline(always)]
    fn vertices(&self) -> u32 {
        self.topology.vertices
    }

    #[inline(always)]
    fn out(&self, v: Vertex, i: u32) -> Option<Step> {
        self.step_out(v, i)
    }

    #[inline(always)]
    fn arc(&self, a: ArcNo) -> Option<ArcRow> {
        let number = a.number();
        if number == 0 || number > self.arc_count() {
            return None;
        }
        Some(self.row(number as usize - 1))
    }
}

/// A star whose arcs are turned round. To a clause it is the reversed graph.
#[derive(Drop)]
pub struct Reversed<'a> {
    star: &'a Star,
}

impl<'a> Model for Reversed<'a> {
    ghost use Rattle.road_model.specs.Graph.{Graph, reversed};

    ghost Value = { Graph };

    ghost view = { λ r. reversed r.star.now };
}

impl Network for Reversed<'_> {
    ghost graph = { λ r. r };

    #[inline(always)]
    fn vertices(&self) -> u32 {
        self.star.vertices()
    }

    #[inline(always)]
    fn out(&self, v: Vertex, i: u32) -> Option<Step> {
        self.star.into_step(v, i)
    }

    #[inline(always)]
    fn arc(&self, a: ArcNo) -> Option<ArcRow> {
        let row = self.star.arc(a)?;
        Some(ArcRow {
            tail: row.head,
            head: row.tail,
            length: row.length,
        })
    }
}
