//! The formulas of a theorem: of a class its test, its uniformity and its open class, of a theory its regularity and the
//! conclusion. They are defined in `specs/Hypotheses.antt`, and `specs/Meaning.antt` says what they mean. The functions
//! `meaning` and `form` have no code, and their contracts are the laws.
#![tactic(auto)]

mod classes;
mod closures;
mod connectives;
#[cfg(test)]
mod tests;
mod theories;
mod written;

ghost use Rattle.tg_hyps.specs.Meaning.{OpenClassIsOfMembers, UniformityIsOfMembers, TestIsOfValues, RegularityIsOfDeep, NoneIsDeep, ConclusionIsSpecification};
ghost use Rattle.tg_hyps.specs.Meaning.{ClassesAreWellFormed, TestsAreWellFormed, ConclusionIsWellFormed, RegularityIsWellFormed};

pub use classes::{open_class, test, uniformity};
pub use connectives::any_of;
pub use theories::{conclusion, regularity};

/// What the formulas say on a table of a well-typed theory. The open class: the class is true at each tested
/// input. Uniformity: so it is if one of its checks is true at some tested member. A test: its inputs are tested,
/// and one of the checks is true there. Regularity: the specification is true at each deeper tested input. The
/// conclusion: it is true at each tested input. Where there is no regularity, no input is deeper.
pub fn meaning()
    ensures open_class { OpenClassIsOfMembers }
    ensures uniformity { UniformityIsOfMembers }
    ensures test { TestIsOfValues }
    ensures regularity { RegularityIsOfDeep }
    ensures none_deep { NoneIsDeep }
    ensures conclusion { ConclusionIsSpecification }
{}

/// The formulas of a class of the theory, and those of a well-typed theory, are well formed without variables. So is
/// a test at values of its variables' types, in an accepted theory.
pub fn form()
    ensures classes { ClassesAreWellFormed }
    ensures tests { TestsAreWellFormed }
    ensures conclusion { ConclusionIsWellFormed }
    ensures regularity { RegularityIsWellFormed }
{}
