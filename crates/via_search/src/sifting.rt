//! The plateaus that are left for the oracle.

ghost use Rattle.std.specs.Prelude.{◌≡◌, Some, IfOk, All};
ghost use Rattle.plateau_finder.specs.Plateaus.{IsListedPlateau};
ghost use Rattle.via_search.specs.Candidates.{IsBoundOf};
ghost use Rattle.via_search.specs.Settings.{trees_of};
ghost use Rattle.via_search.specs.Sifting.{SiftsTo, AreSifted};

use crate::memory::PlanMemory;
use crate::setting::Setting;
use path_tests::within_share;
use plateau_finder::Plateau;
use road_model::NoMemory;
use std::alloc::Global;
use std::mem;
use tree_tests::{Refusals, SharedSums, SumTables, WayTables};

/// A plateau whose path is not the optimum, shares little enough, and is not refused by the trees.
#[derive(Clone, Copy, Debug)]
pub(crate) struct Sifted {
    pub(crate) plateau: Plateau,
    /// The length that its path shares with the optimum.
    pub(crate) shared: u64,
}

/// Whether a plateau is left for the oracle. The optimum is known by the target, which is among the vertices of its
/// plateau alone.
fn sift(
    setting: &Setting<'_>,
    sums: &mut SharedSums<'_>,
    ways: &mut Refusals<'_>,
    plateau: &Plateau,
) -> Result<Option<Sifted>, NoMemory>
    requires bound { IsBoundOf setting.now.query setting.now.optimum.length setting.now.reach }
    requires sums { sums.old ≡ record { trees = trees_of setting.now; optimum = setting.now.optimum.arcs } }
    requires ways { ways.old ≡ trees_of setting.now }
    requires listed { IsListedPlateau (trees_of setting.now) (Some setting.now.reach) plateau.now }
    ensures sifted { IfOk result (SiftsTo setting.now plateau.now) }
    ensures sums { sums.new ≡ sums.old }
    ensures ways { ways.new ≡ ways.old }
{
    let query = setting.query;
    let optimum = setting.optimum;
    if plateau.last.number() == query.to.number() {
        return Ok(None);
    }
    let shared = sums.through(plateau.least);
    if !within_share(shared, &query.gamma, optimum.length) {
        return Ok(None);
    }
    if ways.refuses_after(plateau.last, query, optimum.length)? {
        return Ok(None);
    }
    if ways.refuses_before(plateau.first, query, optimum.length)? {
        return Ok(None);
    }
    Ok(Some(Sifted {
        plateau: *plateau,
        shared,
    }))
}

/// Those of these plateaus that are left for the oracle, in their order. The tables of the memory are taken, and given
/// back.
pub(crate) fn sift_all(
    alloc: Global,
    memory: &mut PlanMemory,
    setting: &Setting<'_>,
    plateaus: &[Plateau],
) -> Result<Vec<Sifted>, NoMemory>
    requires bound { IsBoundOf setting.now.query setting.now.optimum.length setting.now.reach }
    requires plateaus { All (IsListedPlateau (trees_of setting.now) (Some setting.now.reach)) plateaus.now }
    ensures { IfOk result (λ sifted. AreSifted setting.now plateaus.now sifted.items) }
{
    let sum_tables = mem::replace(&mut memory.sums, SumTables::new(alloc));
    let way_tables = mem::replace(&mut memory.ways, WayTables::new(alloc));
    let mut sums = SharedSums::new(alloc, setting.pair, &setting.optimum.arcs, sum_tables)?;
    let mut ways = Refusals::new(setting.pair, way_tables)?;
    let mut left = Vec::new(alloc);
    for plateau in plateaus {
        if let Some(sifted) = sift(setting, &mut sums, &mut ways, plateau)? {
            left.push(sifted)?;
        }
    }
    memory.sums = sums.into_tables();
    memory.ways = ways.into_tables();
    Ok(left)
}
