//! Which theories are accepted, what each of them means, and where and how each other one is refused; and
//! what terms, formulas and values of certificates and outcomes stand for. `specs/` has the definitions; the
//! functions here have no code, and their contracts are the laws.
//!
//! `Theories` is the page to begin with: the checks of a declaration in their order, over what is declared
//! before it. Between a term as it is written and a core term stands the resolved term, in which each word
//! is looked up and nothing else is asked.
#![tactic(auto)]

ghost use Rattle.tg_accept.specs.KeptLaws.{NothingIsKept, KeptWithDatatype, KeptWithFunction, KeptWithProgram, KeptWithSpecification, WholeIsAccepted};
ghost use Rattle.tg_accept.specs.AcceptedLaws.{KeptAfter, TheoryIsAccepted};
ghost use Rattle.tg_accept.specs.MeantLaws.{DatatypeTold, FunctionIsMeant, FunctionTold, ProgramIsMeant, ProgramTold, SpecificationIsMeant, SpecificationTold};
ghost use Rattle.tg_accept.specs.Misnaming.{DatatypesAreMisnamed, FunctionsAreMisnamed, ProgramsAreMisnamed, SpecificationsAreMisnamed, TermsAreMisnamed};
ghost use Rattle.tg_accept.specs.StandingLaws.{FormulaIsWellFormed, OneFormula, OneTerm, OneValue, TermIsTyped};
ghost use Rattle.tg_accept.specs.TheoryLaws.{ChecksAreSeparate, NotBoth, OneRefusal, OneTheory};
ghost use Rattle.tg_accept.specs.Laws.{CoreIsTyped, ResolvedAgain, TypedAgain, TypingsWiden};

/// The core term of a resolved term has its type, in the theory that has the declared function too.
pub fn core_terms()
    ensures { CoreIsTyped }
{}

/// A core term is a resolved term with the same typings, where each `case` has its branches as declared.
pub fn core_terms_as_resolved()
    ensures resolved { ResolvedAgain }
    ensures typed { TypedAgain }
{}

/// Later declarations keep typings.
pub fn later_declarations()
    ensures { TypingsWiden }
{}

/// A declaration without a fault keeps what holds of all that is declared before it, and when nothing is
/// missing the theory is accepted.
pub fn growing_theories()
    ensures nothing { NothingIsKept }
    ensures datatypes { KeptWithDatatype }
    ensures functions { KeptWithFunction }
    ensures programs { KeptWithProgram }
    ensures specifications { KeptWithSpecification }
    ensures whole { WholeIsAccepted }
{}

/// A text that isn't accepted is refused at one declaration for one kind of fault, one that is accepted is
/// one theory, and none is both.
pub fn accepted_and_refused()
    ensures separate { ChecksAreSeparate }
    ensures one_refusal { OneRefusal }
    ensures one_theory { OneTheory }
    ensures never_both { NotBoth }
{}

/// A term or a declaration has no meaning exactly where a rule of names is broken.
pub fn misnamed_texts()
    ensures terms { TermsAreMisnamed }
    ensures datatypes { DatatypesAreMisnamed }
    ensures functions { FunctionsAreMisnamed }
    ensures programs { ProgramsAreMisnamed }
    ensures specifications { SpecificationsAreMisnamed }
{}

/// A declaration that passes the checks before that of its shape, and is written in the right shape, is what
/// a builder asks for; and what the builder answers tells which of the remaining checks are right.
pub fn meanings_and_builder()
    ensures function { FunctionIsMeant }
    ensures program { ProgramIsMeant }
    ensures specification { SpecificationIsMeant }
    ensures datatype_told { DatatypeTold }
    ensures function_told { FunctionTold }
    ensures program_told { ProgramTold }
    ensures specification_told { SpecificationTold }
{}

/// The theory of an accepted text is an accepted theory.
pub fn accepted_texts()
    ensures kept { KeptAfter }
    ensures accepted { TheoryIsAccepted }
{}

/// A term or formula of a certificate, or a value of an outcome, stands for one at most, which is well typed
/// or well formed.
pub fn certificates_and_outcomes()
    ensures typed { TermIsTyped }
    ensures one_term { OneTerm }
    ensures well_formed { FormulaIsWellFormed }
    ensures one_formula { OneFormula }
    ensures one_value { OneValue }
{}
