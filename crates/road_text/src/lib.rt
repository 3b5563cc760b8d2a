//! Texts as lines, lines as fields, fields as numbers, and texts written piece by piece.
#![tactic(auto)]

mod feeds;
mod fields;
mod line_reader;
mod numbers;
mod pieces;

pub use fields::{first_byte, first_field};
pub use line_reader::{Advance, LineReader, MOST_KEPT};
pub use numbers::{canonical_number, number};
pub use pieces::{SinkFailed, push_number, put, put_number, put_numbered, put_wide_number};

#[cfg(test)]
mod tests;
