//! The shell harness that runs a program on the tests of a theory, and the text of recorded outcomes. `specs/` says both.
#![tactic(auto)]

mod laws;
mod recording;
#[cfg(test)]
mod tests;
mod writing;

pub use laws::read_back;
pub use recording::outcomes;
pub use writing::write;
