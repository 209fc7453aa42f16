//! The classes of a theory's inputs to a depth. They are defined in `specs/Classes.antt`, with the order of work and its limits
//! in `specs/Work.antt`. Four functions have no code, and their contracts are the laws.
#![tactic(auto)]

mod budgets;
mod errors;
mod goals;
mod listing;
mod theorems;
mod working;

ghost use Rattle.tg_derive.specs.Laws.{IsOneAnswer, ClassesAreOfTrees, ClassesAreFew, ClassesCover, ClassesAreTyped, ConstraintsHaveNoCall, CallsAreAtInputs, TheoremIsTrue, AssumptionsAreNecessary};
ghost use Rattle.tg_derive.specs.Derivability.{NormalFormsAreDerivable, ClassesAreDerivable, PatternsAreDerivable, ClosedPatternsAreDerivable, EachPatternIsDerivable, CasesAreEnough, TheoremIsDerivable};
ghost use Rattle.tg_derive.specs.Covering.{CoverIsDerivable};

pub use errors::LimitErr;
pub use listing::classes;
pub use theorems::{Choice, Hypothesis, Label, goal, hypotheses};

/// The work on a theory to a depth comes to one answer: its classes, or the first limit that it passes. The classes are
/// those of the split trees of the patterns, at most 4,096 classes of the theory, and their constraints don't call the program.
pub fn derivation()
    ensures one { IsOneAnswer }
    ensures trees { ClassesAreOfTrees }
    ensures few { ClassesAreFew }
    ensures typed { ClassesAreTyped }
    ensures no_call { ConstraintsHaveNoCall }
{}

/// At inputs that aren't deeper than the depth the specification is True exactly where all classes are, on each table,
/// and at deeper ones all classes are true where it is. At a member of a class the program calls in its checks are on
/// that member's inputs.
pub fn coverage()
    ensures both_ways { ClassesCover }
    ensures inputs { CallsAreAtInputs }
{}

/// The test theorem is true on every table, and what no test shows follows from the specification there: each uniformity,
/// each open class and the regularity.
pub fn truth()
    ensures theorem { TheoremIsTrue }
    ensures necessary { AssumptionsAreNecessary }
{}

/// What the 26 rules derive: a typed term equals its normal form; a class follows from its test and its uniformity, or from
/// its open class; at a pattern the specification follows from what the pattern's classes say, and so it does at all values
/// of the pattern's variables. So from the hypotheses of the theorem it follows at each pattern of the inputs.
/// And what follows however a variable of a datatype is made follows; so does, at a variable, what follows at each shape of its
/// type and at each deeper term. So the theorem has a derivation.
pub fn provability()
    ensures forms { NormalFormsAreDerivable }
    ensures classes { ClassesAreDerivable }
    ensures leaves { PatternsAreDerivable }
    ensures patterns { ClosedPatternsAreDerivable }
    ensures all_patterns { EachPatternIsDerivable }
    ensures cases { CasesAreEnough }
    ensures cover { CoverIsDerivable }
    ensures theorem { TheoremIsDerivable }
{}
