ghost use Rattle.route_engine.specs.Oracles.{asked_graph, asked_count};

use forward_star::Star;
use hierarchy_query::HierarchyOracle;
use road_model::{NoMemory, Oracle, Vertex};
use tree_search::PlainOracle;

/// The oracle of a version: climbs in its hierarchy, or plain searches where there is none.
#[derive(Drop)]
pub enum VersionOracle<'a> {
    Climbing(HierarchyOracle),
    Plain(PlainOracle<'a, Star>),
}

impl<'a> Oracle for VersionOracle<'a> {
    ghost graph = { asked_graph };

    ghost asked = { asked_count };

    fn distance(&mut self, from: Vertex, to: Vertex) -> Result<Option<u64>, NoMemory> {
        match self {
            VersionOracle::Climbing(oracle) => oracle.distance(from, to),
            VersionOracle::Plain(oracle) => oracle.distance(from, to),
        }
    }

    fn settled(&self) -> u64 {
        match self {
            VersionOracle::Climbing(oracle) => oracle.settled(),
            VersionOracle::Plain(oracle) => oracle.settled(),
        }
    }
}
