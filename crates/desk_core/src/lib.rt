//! What a desk does with a request: the tests that it has to pass, in their order, and the page of its answer. A reply
//! is a step of a state: the published batches, the staged changes, and the answers that are kept. A `Desk` keeps
//! plans, and answers over whichever version is pinned. A `World` has versions, and callers with a desk each.
#![tactic(auto)]

mod caller;
mod desk;
mod event;
mod history;
mod laws;
mod pages;
mod plan_key;
mod refusals;
#[cfg(test)]
mod tests;
mod world;
mod world_laws;

pub use desk::Desk;
pub use event::{Event, Outcome, OutcomeList};
pub use laws::{
    a_chain_ends, a_desk_step_is_a_step, a_page_shows_its_plan, a_version_keeps_its_graph,
    kept_answers_stay_answers, pages_of_a_run_join,
};
pub use pages::page_reply;
pub use refusals::{Asked, Limits, tested};
pub use world::{World, run_desks};
pub use world_laws::others_change_no_reply;
