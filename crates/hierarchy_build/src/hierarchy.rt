ghost use Rattle.std.specs.Prelude.{◌≡◌, length, IfOk};
ghost use Rattle.road_model.specs.Dist.{HaveSameDist};
ghost use Rattle.contraction_order.specs.Order.{IsOrder};
ghost use Rattle.hierarchy_build.specs.Lengths.{CanPush, Keeps, AreBeaten};
ghost use Rattle.hierarchy_build.specs.Hierarchy.{IsShapeOf, HasLengths, IsHierarchy};
ghost use Rattle.hierarchy_build.specs.Own.{own_graph, IsOwn};

use crate::base::lower_all;
use crate::links::{Links, keep};
use crate::pull::pull_triangles;
use crate::shape::Shape;
use contraction_order::Order;
use forward_star::Star;
use road_model::{Items, NoMemory, SumList};
use std::alloc::Global;
use std::marker::Model;
use std::sync::Arc;

/// The length that says that no link leads this way.
pub const NO_LINK: u64 = 144115188075855872;

/// A customisable contraction hierarchy of a graph: a shape, which depends on the ends of the arcs alone, and
/// those of its links, upwards and downwards, that are as long as the distance between their ends. The links form
/// a graph of its own, between the vertices of their ranks, and each hierarchy is one of that graph.
///
/// It takes 8 bytes a rank and 12 bytes a link that is kept, besides the shape.
#[derive(Drop)]
pub struct Hierarchy {
    shape: Arc<Shape, Global>,
    // from lower ranks to higher ones
    up: Links,
    // from higher ranks to lower ones, each at its lower rank
    down: Links,
}

impl Model for Hierarchy {
    ghost use Rattle.hierarchy_build.specs.Parts.{Parts};
    ghost use Rattle.hierarchy_build.specs.Own.{IsOwn};

    ghost Value = { Parts };

    ghost view = { λ h. record { shape = h.shape.value; up = h.up; down = h.down } };

    ghost invariant = { λ h. IsOwn (record { shape = h.shape.value; up = h.up; down = h.down }) };
}

impl Hierarchy {
    /// Its ranks and the runs of its links.
    #[inline(always)]
    pub fn shape(&self) -> &Shape
        ensures shape { result.now ≡ self.now.shape }
        ensures own { IsOwn self.now }
    {
        &self.shape
    }

    /// The same, to be shared with the hierarchy of another version of the graph.
    pub fn shared_shape(&self) -> &Arc<Shape, Global>
        ensures { result.now.value ≡ self.now.shape }
    {
        &self.shape
    }

    /// The links from lower ranks to higher ones.
    #[inline(always)]
    pub fn up_links(&self) -> &Links
        ensures { result.now ≡ self.now.up }
    {
        &self.up
    }

    /// The links from higher ranks to lower ones, each at its lower rank.
    #[inline(always)]
    pub fn down_links(&self) -> &Links
        ensures { result.now ≡ self.now.down }
    {
        &self.down
    }
}

// A length for each link of a shape, both ways.
#[derive(Drop)]
struct Lengths {
    up: SumList,
    down: SumList,
}

fn lengths_of(alloc: Global, shape: &Shape, star: &Star) -> Result<Lengths, NoMemory>
    requires { IsShapeOf star.now shape.now }
    ensures { IfOk result (λ l. HasLengths star.now shape.now l.up l.down) }
{
    star.within_limits();
    let links = shape.head.len();
    let mut up = vec![in alloc; NO_LINK; links]?;
    let mut down = vec![in alloc; NO_LINK; links]?;
    lower_all(
        shape.order.len(),
        shape.rank.as_slice(),
        shape.first.as_slice(),
        shape.head.as_slice(),
        star,
        &mut up,
        &mut down,
    );
    Ok(Lengths {
        up: Items::from_vec(up),
        down: Items::from_vec(down),
    })
}

// The length of the best walk known between the ends of each link.
fn thinned(alloc: Global, shape: &Shape, lengths: &Lengths) -> Result<Lengths, NoMemory>
    requires { CanPush (length shape.now.order) shape.now.first shape.now.head lengths.now.up lengths.now.down }
    ensures keeps { IfOk result (λ l. Keeps (length shape.now.order) shape.now.first shape.now.head 0 lengths.now.up lengths.now.down l.up l.down) }
    ensures beaten { IfOk result (λ l. AreBeaten (length shape.now.order) shape.now.first shape.now.head 0 lengths.now.up lengths.now.down l.up l.down) }
{
    let mut up = Vec::from_slice(alloc, lengths.up.as_slice())?;
    let mut down = Vec::from_slice(alloc, lengths.down.as_slice())?;
    pull_triangles(
        shape.order.len(),
        shape.first.as_slice(),
        shape.head.as_slice(),
        &mut up,
        &mut down,
    );
    Ok(Lengths {
        up: Items::from_vec(up),
        down: Items::from_vec(down),
    })
}

/// The hierarchy of a graph for a shape of it, as that of an earlier version with the same ends of arcs. Its own
/// graph has the same distances. It takes time linear in its triangles, and no queue; while it runs, 32 bytes a link
/// of the shape besides.
pub fn customise(
    alloc: Global,
    shape: Arc<Shape, Global>,
    star: &Star,
) -> Result<Hierarchy, NoMemory>
    requires { IsShapeOf star.now shape.value }
    ensures hierarchy { IfOk result (λ h. IsHierarchy star.now h) }
    ensures same { IfOk result (λ h. HaveSameDist star.now (own_graph h)) }
    ensures shape { IfOk result (λ h. h.shape ≡ shape.value) }
{
    // the ends of its arcs are vertices
    star.within_limits();
    let lengths = lengths_of(alloc, &shape, star)?;
    let best = thinned(alloc, &shape, &lengths)?;
    let up = keep(alloc, &shape, lengths.up, best.up)?;
    let down = keep(alloc, &shape, lengths.down, best.down)?;
    Ok(Hierarchy { shape, up, down })
}

/// The hierarchy of a graph whose vertices are contracted in this order. `Err` also where it would have more
/// than 4294967295 links, or more triangles than 2^27 and 2048 a vertex.
pub fn contract(alloc: Global, star: &Star, order: Order) -> Result<Hierarchy, NoMemory>
    requires { IsOrder star.now.vertices order.vertices }
    ensures hierarchy { IfOk result (λ h. IsHierarchy star.now h) }
    ensures same { IfOk result (λ h. HaveSameDist star.now (own_graph h)) }
{
    let shape = Shape::build(alloc, star, order)?;
    let shape = Arc::new(alloc, shape)?;
    let hierarchy = customise(alloc, shape, star)?;
    Ok(hierarchy)
}
