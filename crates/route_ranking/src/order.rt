ghost use Rattle.std.specs.Prelude.{◌≡◌, ◌<◌, ◌≤◌, ◌^◌, IfOk, IsPermutation};
ghost use Rattle.road_model.specs.Alternatives.{rank_of};
ghost use Rattle.route_ranking.specs.Order.{IsInOrder};

use road_model::{Items, NoMemory, RouteList};

/// The ranking value of a path: long and shared is bad, a long plateau is good. Takes no memory.
pub fn rank(length: u64, shared: u64, plateau: u64) -> u64
    requires short { length < 2 ^ 58 }
    requires part { shared ≤ length }
    requires inside { plateau ≤ length }
    ensures { result ≡ rank_of length shared plateau }
{
    2 * length + shared - plateau
}

/// The same routes, by rising rank, and those of one rank by rising via. It takes the memory of a stable sort,
/// and time `n log n` in the number of routes.
pub fn order_routes(routes: RouteList) -> Result<RouteList, NoMemory>
    ensures permutation { IfOk result (IsPermutation routes) }
    ensures order { IfOk result IsInOrder }
{
    let mut routes = routes.into_vec();
    routes.sort_by_key(|route| (route.rank, route.via))?;
    Ok(Items::from_vec(routes))
}
