//! What happens to a world, and what it comes to.

use road_model::{Batch, ChangeFault, Items, Plan, Reply, Request};
use std::alloc::Global;
use std::sync::Arc;

/// Something that happens to a world.
#[derive(Debug, Drop)]
pub enum Event {
    /// A caller asks its desk over a version.
    Request {
        caller: u32,
        version: u64,
        request: Request,
    },
    /// A new version is to be made of the newest.
    Publish {
        changes: Batch,
    },
    /// A caller hears that a version is there, and asks nothing.
    Tell {
        caller: u32,
        version: u64,
    },
}

/// What an event comes to.
#[derive(Debug, Drop)]
pub enum Outcome {
    /// The reply to a request, and beside a page, and only there, the plan that it is of.
    Reply {
        reply: Reply,
        shown: Option<Arc<Plan, Global>>,
    },
    /// The number of the new version.
    Published {
        number: u64,
    },
    /// Why no new version was made. It is never that memory was refused.
    Refused(ChangeFault),
    /// The newest version that the caller has seen.
    Told {
        seen: u64,
    },
    /// The version of the event isn't there yet, or a request is of one that is older than what its caller has seen.
    NotAllowed {
        seen: u64,
        newest: u64,
    },
}

/// What some events come to, in their order.
pub type OutcomeList = Items<Outcome>;
