//! The certificate of a query: evidence that its plan is the whole answer.
#![tactic(auto)]

mod blocks;
mod laws;
mod making;
mod numbers;
mod places;
mod starts;
mod verdicts;
mod vias;

pub use laws::what_is_written_certifies;
pub use making::certificate_of;
