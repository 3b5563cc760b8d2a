//! Ranks, the order of the alternatives by them, and their pages with the cursors that point at them.
#![tactic(auto)]

mod cursors;
mod laws;
mod order;
mod pages;

pub use cursors::{read_cursor, write_cursor};
pub use laws::{
    a_cursor_has_one_spelling, a_written_cursor_is_read_again, pages_join_to_the_whole,
};
pub use order::{order_routes, rank};
pub use pages::page;

#[cfg(test)]
mod tests;
