//! The limited value of a term: call by value, within bounds. It is defined in `specs/Limited.antt`, which the
//! evaluator gives exactly. Three functions have no code, and their contracts are the laws.
#![tactic(auto)]

mod converting;
mod evaluating;
mod held;
mod limiting;
mod making;
mod opening;
mod operating;
mod operations;
#[cfg(test)]
mod tests;
mod theories;

ghost use Rattle.tg_eval.specs.Laws.{LimitedIsValue, LimitedWithoutCalls};
ghost use Rattle.tg_eval.specs.Numbers.{LimitedIsSmall};
ghost use Rattle.tg_eval.specs.Reading.{LimitedReadsUsed, LimitedOfSubstituted};

pub use converting::{plain, shared, shared_all};
pub use held::{Held, Seen};
pub use limiting::{Limited, limited_truth, limited_value, shared_value};
pub use operating::same;
pub use theories::value;

/// In an accepted theory, where a typed term has a limited value, this is its value: on every table that
/// lists the inputs of all its program calls with the answer that the limited value takes for them, and on
/// every table where it has no program call.
pub fn limited_is_value()
    ensures listed { LimitedIsValue }
    ensures no_calls { LimitedWithoutCalls }
{}

/// The limited value reads the variables that a term uses and no other. Where these are naturals or truth
/// values, the term with them put in has the same limited value, its levels and calls included.
pub fn limited_reads_used()
    ensures used { LimitedReadsUsed }
    ensures substituted { LimitedOfSubstituted }
{}

/// The numbers in a limited value are below 2^64, where those in the values of variables and in the answer that it takes for
/// program calls are.
pub fn limited_is_small()
    ensures { LimitedIsSmall }
{}
