//! Steps as a tree keeps them, so that no vertex is scanned twice.

ghost use Rattle.std.specs.Prelude.{◌≡◌, ◌<◌, ◌^◌, OnOk, IfOk};
ghost use Rattle.stamped_table.specs.Tables.{IsEmpty};
ghost use Rattle.canonical_trees.specs.Kept.{step_of_kept};

use road_model::{ArcNo, NoMemory, Step, Vertex};
use stamped_table::{Stamped, Table};
use std::alloc::Global;
use std::mem;
use std::mem::size_of;

/// A step in 12 bytes: no arc of a star is longer than its 32 bits.
#[derive(Clone, Copy, Debug)]
pub(crate) struct KeptStep {
    pub(crate) arc: ArcNo,
    pub(crate) head: Vertex,
    pub(crate) length: u32,
}

// An entry of a table takes 16 bytes.
const _: () = prove!(size_of::<Stamped<KeptStep>>() == 16);

/// What a table has where no step is.
const NO_STEP: KeptStep = KeptStep {
    arc: ArcNo(0),
    head: Vertex(0),
    length: 0,
};

/// The step, to be kept.
pub(crate) fn kept_of(step: &Step) -> KeptStep
    requires { step.now.length < 2 ^ 32 }
    ensures { step_of_kept result ≡ step.now }
{
    KeptStep {
        arc: step.arc,
        head: step.head,
        length: step.length as u32,
    }
}

/// The step that was kept.
pub(crate) fn step_of(kept: &KeptStep) -> Step
    ensures { result ≡ step_of_kept kept.now }
{
    Step {
        arc: kept.arc,
        head: kept.head,
        length: kept.length as u64,
    }
}

/// A table of no place. Takes no memory.
pub(crate) fn no_steps(alloc: Global) -> Table<KeptStep>
    ensures { IsEmpty result }
{
    Table::new(alloc, NO_STEP)
}

/// Takes a kept table, and empties it. One of no place stays there.
pub(crate) fn emptied(
    alloc: Global,
    steps: &mut Table<KeptStep>,
) -> Result<Table<KeptStep>, NoMemory>
    ensures { IfOk result IsEmpty }
{
    let mut table = mem::replace(steps, no_steps(alloc));
    table.empty(0)?;
    Ok(table)
}
