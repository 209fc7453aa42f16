//! The calculus: sequents, the 26 rules, derivations, and books of lines. `specs/Step.antt` has the rules on
//! one page; the functions here have no code, and their contracts are the laws.
#![tactic(auto)]

ghost use Rattle.tg_calculus.specs.Laws.{
  StepsKeepForm,
  DerivableIsFormed,
  StepsKeepTruth,
  DerivableIsTrue,
  FalseIsUnderivable,
  VariableIsKept,
  StepIsDraft,
  HasOneConclusion,
  ConcludesExactly,
  BooksDerive,
  DerivableEndsBook,
  OneBook,
  OneRefusal,
  NeverBoth,
  PassesOrIsRefused,
  OnlySetsCount,
  FollowingIsTheorem,
  JoinedIsUnion,
  LeftIsDifference,
  ReflexiveIsTyped,
  SchemaIsTyped,
  EmptyHasNoVariable,
};

/// Each rule keeps well-formedness: the types of a context are closed, each term has a type in the context,
/// and no bound variable is loose. So what is derivable is well formed.
pub fn form()
    ensures steps { StepsKeepForm }
    ensures derivable { DerivableIsFormed }
{}

/// In an accepted theory each rule keeps truth, on every table: at all values of a sequent's variables, those
/// that make each hypothesis true make the goal true. So what is derivable is true on every table; False isn't
/// derivable, nor is what generalises a variable of a hypothesis. (HOL Light's soundness of its rules, for
/// this calculus.)
pub fn soundness()
    ensures steps { StepsKeepTruth }
    ensures derivable { DerivableIsTrue }
    ensures consistency { FalseIsUnderivable }
    ensures variable { VariableIsKept }
{}

/// An instance of a rule is exactly a draft whose needs are met: `draft` computes the conclusion, and what must
/// have a type for it. So a rule makes one sequent of its premises.
pub fn drafts()
    ensures exact { StepIsDraft }
    ensures one { HasOneConclusion }
{}

/// The sequents of a book are derivable, and what is derivable ends a book. A list of lines makes one book or is
/// refused at one place: at its first line that is no instance of its rule on earlier lines. With a test of what
/// must have a type, a line's sequent is computed.
pub fn books()
    ensures lines { ConcludesExactly }
    ensures derivable { BooksDerive }
    ensures ends { DerivableEndsBook }
    ensures one { OneBook }
    ensures refusal { OneRefusal }
    ensures apart { NeverBoth }
    ensures either { PassesOrIsRefused }
{}

/// No hypothesis of a derivable sequent is repeated, and lists of hypotheses prove the same theorems as sets. What
/// follows from some hypotheses is a theorem with more.
pub fn sets()
    ensures exact { OnlySetsCount }
    ensures more { FollowingIsTheorem }
{}

/// What the words of the rules mean: lists of hypotheses put together, or without a formula, are the union and
/// the difference of sets; a term may be equated with itself, or with what a row makes of it, exactly where it
/// has a type; and a formula of the empty context is one that has no variable.
pub fn conditions()
    ensures joined { JoinedIsUnion }
    ensures left { LeftIsDifference }
    ensures reflexive { ReflexiveIsTyped }
    ensures schema { SchemaIsTyped }
    ensures compute { EmptyHasNoVariable }
{}
