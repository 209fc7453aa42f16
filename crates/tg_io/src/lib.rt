//! The outside, seen as bytes and faults: where bytes come from (`Source`), where they go (`Sink`),
//! the two in memory for callers that must know each byte, the two over std's traits for `main`,
//! and the calls that read all or write all.
//!
//! Nothing can be said of what a file or a terminal gives, so a source or sink tells its bytes only
//! where it knows them. Each keeps a count of its faults. A failure is answered only in a call in
//! which that count rose, so that no caller has to take a failure on trust.
#![tactic(auto)]

mod faults;
mod memory;
mod outside;
mod standard;
#[cfg(test)]
mod tests;
mod whole;

pub use memory::{MemSink, MemSource};
pub use outside::{Failed, Sink, Source};
pub use standard::{StdSink, StdSource};
pub use whole::{ReadErr, WriteErr, read_all, write_all};
