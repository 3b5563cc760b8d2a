//! The hierarchies of versions.

ghost use Rattle.std.specs.Prelude.{IfOk, IfSome};
ghost use Rattle.hierarchy_build.specs.Hierarchy.{IsShapeOf};
ghost use Rattle.route_engine.specs.Lineage.{Serves};

use contraction_order::order_of;
use forward_star::Star;
use hierarchy_build::{Hierarchy, contract, customise};
use road_model::NoMemory;
use std::alloc::Global;
use std::sync::Arc;

fn contracted(alloc: Global, star: &Star) -> Result<Arc<Hierarchy, Global>, NoMemory>
    ensures { IfOk result (λ h. Serves star.now h.value) }
{
    let order = order_of(alloc, star)?;
    let hierarchy = contract(alloc, star, order)?;
    let shared = Arc::new(alloc, hierarchy)?;
    Ok(shared)
}

/// The hierarchy of a graph; none where memory was refused or it would be too large.
pub(crate) fn hierarchy_of(alloc: Global, star: &Star) -> Option<Arc<Hierarchy, Global>>
    ensures { IfSome result (λ h. Serves star.now h.value) }
{
    contracted(alloc, star).ok()
}

fn customised(
    alloc: Global,
    before: &Hierarchy,
    star: &Star,
) -> Result<Arc<Hierarchy, Global>, NoMemory>
    requires { IsShapeOf star.now before.now.shape }
    ensures { IfOk result (λ h. Serves star.now h.value) }
{
    let shape = Arc::try_clone(before.shared_shape())?;
    let hierarchy = customise(alloc, shape, star)?;
    let shared = Arc::new(alloc, hierarchy)?;
    Ok(shared)
}

/// The hierarchy of a graph over the shape of the one before, where there was one.
pub(crate) fn renewed(
    alloc: Global,
    before: &Option<Arc<Hierarchy, Global>>,
    star: &Star,
) -> Result<Option<Arc<Hierarchy, Global>>, NoMemory>
    requires { IfSome before.now (λ h. IsShapeOf star.now h.value.shape) }
    ensures { IfOk result (λ found. IfSome found (λ h. Serves star.now h.value)) }
{
    match before {
        Some(before) => Ok(Some(customised(alloc, before, star)?)),
        None => Ok(None),
    }
}
