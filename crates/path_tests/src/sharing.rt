ghost use Rattle.std.specs.Prelude.{◌≡◌, ◌<◌, ◌^◌, ◌↔◌, ◌==◌, IsTrue};
ghost use Rattle.std.specs.List.{list_any};
ghost use Rattle.road_model.specs.Graph.{length_at};
ghost use Rattle.road_model.specs.Walk.{walk_length};
ghost use Rattle.road_model.specs.Fraction.{Allows};
ghost use Rattle.road_model.specs.Tests.{shared};

use road_model::{ArcList, ArcNo, Network, Ratio};

/// The length of those arcs of the optimum that occur in a path. Arcs that the network doesn't have are 0
/// long. Takes no memory, in the product of the two numbers of arcs.
pub fn shared<N: Network>(net: &N, optimum: &ArcList, arcs: &ArcList) -> u64
    requires { walk_length (N.graph net.now) optimum.now < 2 ^ 64 }
    ensures { result ≡ shared (N.graph net.now) optimum.now arcs.now }
{
    let mut sum = 0u64;
    for a in optimum.as_slice() {
        if has_arc(arcs.as_slice(), *a) {
            sum += arc_length(net, *a);
        }
    }
    sum
}

fn has_arc(arcs: &[ArcNo], arc: ArcNo) -> bool
    ensures { result ≡ list_any (λ b. b == arc) arcs.now }
{
    arcs.iter().any(|b| b.number() == arc.number())
}

fn arc_length<N: Network>(net: &N, arc: ArcNo) -> u64
    ensures { result ≡ length_at (N.graph net.now) arc }
{
    match net.arc(arc) {
        Some(row) => row.length,
        None => 0,
    }
}

/// Whether a shared length is within the limit, which is a part of the optimum's length. Takes no memory.
pub fn within_share(shared: u64, gamma: &Ratio, length: u64) -> bool
    ensures { IsTrue result ↔ Allows gamma.now shared length }
{
    gamma.allows(shared, length)
}
