//! Small types that all crates share: names, types of the language and their
//! unification, the settings of a run and the
//! verdict on a class.
#![tactic(auto)]

mod copying;
mod names;
mod options;
mod substitutions;
#[cfg(test)]
mod tests;
mod types;
mod unifying;
mod verdicts;

pub use copying::copy;
pub use names::Name;
pub use options::Settings;
pub use substitutions::Subst;
pub use types::{DataId, Ty};
pub use unifying::{UnifyErr, unify};
pub use verdicts::Verdict;
