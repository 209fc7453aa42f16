//! Recorded outcomes, read against the tests that they are of, and the verdicts on them. `specs/Records.antt` says which records are
//! right and what is wrong with others, `specs/Verdicts.antt` which verdict a class has.
#![tactic(auto)]

mod errors;
mod places;
mod reading;
mod verdicts;

pub use errors::OutcomeErr;
pub use reading::read;
pub use verdicts::judge;
