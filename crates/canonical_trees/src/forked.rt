//! The two searches of a query, each in a thread.

ghost use Rattle.std.specs.Prelude.{◌≡◌, IfOk};
ghost use Rattle.std.specs.Thread.{IsSync};
ghost use Rattle.label_setting.specs.Search.{IsTracked};
ghost use Rattle.road_model.specs.Graph.{IsVertex};

use crate::tree_memory::TreeMemory;
use crate::tree_pair::{TreePair, tree_from_in, tree_to_in};
use forward_star::Star;
use road_model::{Gate, NoMemory, Vertex};
use std::alloc::Global;
use std::thread::{Threads, join_mut};

/// The trees that `trees_in` finds, by the two searches at once: the one from `s` is part 0 of the gate, the one to `t`
/// part 1. Where no thread can be made they run one after the other.
///
/// It takes the time of the longer search, and a thread while it runs; memory as `trees_in`.
pub fn trees_forked_in<'a, R: Threads + Sync, G: Gate>(
    rt: &R,
    alloc: Global,
    gate: &G,
    memory: &mut TreeMemory,
    star: &'a Star,
    s: Vertex,
    t: Vertex,
    radius: Option<u64>,
) -> Result<TreePair<'a>, NoMemory>
    requires source { IsVertex star.now.vertices s }
    requires target { IsVertex star.now.vertices t }
    ensures { IfOk result
        (λ pair. pair ≡ record { graph = star.now; source = s; target = t; radius = radius }) }
{
    let TreeMemory {
        from,
        to,
        from_steps,
        to_steps,
    } = memory;
    let (from, to) = join_mut(
        rt,
        &mut ||
            requires { IsSync G.row × IsVertex star.now.vertices s
                × IsTracked from.now.labels.items from.now.touched.items }
        {
            gate.enter(0);
            tree_from_in(alloc, from, from_steps, star, s, radius)
        },
        &mut ||
            requires { IsSync G.row × IsVertex star.now.vertices t
                × IsTracked to.now.labels.items to.now.touched.items }
        {
            gate.enter(1);
            tree_to_in(alloc, to, to_steps, star, t, radius)
        },
    );
    Ok(TreePair::of(from?, to?))
}
