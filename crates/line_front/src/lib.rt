//! Requests and replies as lines of text.
#![tactic(auto)]

mod items;
mod laws;
mod options;
mod replies;
mod requests;

pub use laws::a_written_cursor_is_a_request;
pub use replies::write_reply;
pub use requests::{MAX_LINE, Parsed, Role, read_request};
