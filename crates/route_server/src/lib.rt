//! The program `road` as one call over the words, the files, the input and the output that it is handed.
#![tactic(auto)]

mod answer;
mod answering;
mod certificates;
mod certifying;
mod command;
mod graphs;
mod grids;
mod input;
mod load;
mod serve;
mod session;
mod status;
mod words;

pub use command::run;
pub use status::Status;
