//! The clauses of a boolean term, its conjunctive normal form, and the classes of inputs that they make. They are defined
//! in `specs/`. Four functions have no code, and their contracts are the laws.
#![tactic(auto)]

mod classing;
mod errors;
mod forms;
mod joining;
mod literals;
mod minimising;
mod roots;
mod sides;

ghost use Rattle.tg_clause.specs.Laws.{ClausesAreTrue, MinimisedAreAmong, MinimisingKeeps, AtomsAreTyped, AtomsHaveNoCall, AtomsKeepInputs};
ghost use Rattle.tg_clause.specs.Laws.{ClassesSayClauses, ClassesAreTyped, ConstraintsHaveNoCall, ClausesHaveInputs, ImplicationsHaveInputs, ChecksHaveInputs};

pub use classing::class_of;
pub use errors::ClauseErr;
pub use forms::clauses;
pub use literals::{Clause, Literal};
pub use minimising::minimise;

/// A term of type bool is true exactly where all of its clauses are. What minimising leaves of a list of clauses is some
/// of them, and is true exactly where all of them are.
pub fn clauses_keep()
    ensures truth { ClausesAreTrue }
    ensures some { MinimisedAreAmong }
    ensures minimal { MinimisingKeeps }
{}

/// The atoms of a term of type bool are of this type. They call the program only where the term does, and at the inputs
/// at which the term does.
pub fn atoms_keep()
    ensures types { AtomsAreTyped }
    ensures no_call { AtomsHaveNoCall }
    ensures inputs { AtomsKeepInputs }
{}

/// A clause is true exactly where one of the checks of its class is, or one of the constraints isn't. Constraints and
/// checks are of type bool where the clause's atoms are, and no constraint calls the program.
pub fn classes_keep()
    ensures truth { ClassesSayClauses }
    ensures types { ClassesAreTyped }
    ensures no_call { ConstraintsHaveNoCall }
{}

/// Where the constraints of a class are true, its checks call the program at the inputs at which the term does. This goes
/// through the splits of a term: where a condition that calls no program is known in the term, it is known in the class.
pub fn inputs_keep()
    ensures clauses { ClausesHaveInputs }
    ensures implications { ImplicationsHaveInputs }
    ensures checks { ChecksHaveInputs }
{}
