//! Certificates: evidence for the whole answer of a query, as plain data and as text.
#![tactic(auto)]

mod certificate;
mod fault;
mod heads;
mod line;
mod order;
mod raw_lines;
mod read;
mod words;
mod write;

pub use certificate::{
    Block, BlockKind, BlockList, BlockRow, BlockRowList, CertRoute, CertRouteList, Certificate,
    Finding, MAX_CERTIFICATE, NumberList, Reason, ViaRow, ViaRowList,
};
pub use fault::{CertError, CertFault, CertKind};
pub use read::read_certificate;
pub use write::put_certificate;

#[cfg(test)]
mod reading_tests;
#[cfg(test)]
mod tests;
