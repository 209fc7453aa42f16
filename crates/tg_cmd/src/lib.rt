//! The top call of `testgen`: words and a source in, one answer and the bytes in the sink out.
//!
//! `specs/Causes.antt` has what comes of an input in the order of work, `specs/Output.antt` what a run writes and answers, and
//! `specs/Promises.antt` what is promised of the theorem that is printed, of the outcomes of a function that stands in, and of the
//! sequent that a certificate proves.
#![tactic(auto)]

mod answer;
mod certificates;
#[cfg(test)]
mod certificates_tests;
mod data;
mod judging;
#[cfg(test)]
mod judging_tests;
mod making;
mod options;
mod output;
#[cfg(test)]
mod reading_tests;
mod report;
mod request;
mod standing;
#[cfg(test)]
mod standing_tests;
#[cfg(test)]
mod tests;
mod top;

pub use answer::{Answer, LimitName, Refusal};
pub use top::run;
