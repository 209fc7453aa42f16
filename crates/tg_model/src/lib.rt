//! What the words of the language mean: terms, values, types, formulas and theories as mathematical
//! trees, typings, the value of a term on a table, and the truth of formulas. `specs/` has the
//! definitions, one file a subject; the functions here have no code, and their contracts are the laws.
#![tactic(auto)]

ghost use Rattle.tg_model.specs.Laws.{UnfoldsRecursion, UnfoldsCalls, DecidesEquality, IsTypeSound, IsListedWithAnswer, AnswersAreRecorded, InputsAreTyped};
ghost use Rattle.tg_model.specs.Laws.{LiftingKeeps, SubstitutionKeeps, InstantiationKeeps, AbstractionKeeps};
ghost use Rattle.tg_model.specs.Laws.{SubstitutionKeepsTruth, InstantiationKeepsTruth, AbstractionKeepsTruth};
ghost use Rattle.tg_model.specs.Laws.{LiftingKeepsTypes, SubstitutionKeepsTypes, InstantiationKeepsTypes, AbstractionKeepsTypes};
ghost use Rattle.tg_model.specs.Laws.{SubstitutionKeepsForm, InstantiationKeepsForm, AbstractionKeepsForm};
ghost use Rattle.tg_model.specs.Laws.{DependsOnUsed, TruthDependsOnUsed};
ghost use Rattle.tg_model.specs.Equality.{DecidesTrees, DecidesTypes, DecidesFormulas};
ghost use Rattle.tg_model.specs.Made.{MadeTermsStay};
ghost use Rattle.tg_model.specs.CallLaws.{DefinitionsAreBodies, RecursionsAreBodies, NeedsNoTable, NeedsOneAnswer};
ghost use Rattle.tg_model.specs.TypeLaws.{InstanceKeepsTypes, IsTypeSoundAt, TruthHasOneType, TypesDependOnUsed, FormDependsOnUsed};
ghost use Rattle.tg_model.specs.TypeLaws.{UsedHaveTypes, UsedInFormulasHaveTypes, ContextsGrow, ContextsGrowForm, IsClosedValue};
ghost use Rattle.tg_model.specs.TypeLaws.{LeastHasType, ValuesAreMade, NumbersArePlaces, CasesAreDeclared};
ghost use Rattle.tg_model.specs.Closing.{ClosureIsUniversal, ClosureIsExistential};

/// The meaning of calls, as equations: a primitive recursive call is the body of its constructor's case,
/// and a call of a declared function is its body. The definition counts a number down, and this says
/// that the number doesn't show. (HOL's meaning of `primrec`.)
pub fn unfolding()
    ensures recursion { UnfoldsRecursion }
    ensures calls { UnfoldsCalls }
{}

/// `=` on values is equality, and equality of terms, types and formulas is decided.
pub fn equality()
    ensures values { DecidesEquality }
    ensures terms { DecidesTrees }
    ensures types { DecidesTypes }
    ensures formulas { DecidesFormulas }
{}

/// What a table lists with an answer is what the program answers there, and its inputs are typed.
pub fn recorded_answers()
    ensures listed { IsListedWithAnswer }
    ensures answered { AnswersAreRecorded }
    ensures typed { InputsAreTyped }
{}

/// Type soundness: in a well-typed theory a typed term has a value of its type.
pub fn type_soundness()
    ensures { IsTypeSound }
{}

/// Substitution keeps values, on every table and for all values of the loose bound variables.
pub fn substitution()
    ensures lifting { LiftingKeeps }
    ensures substitution { SubstitutionKeeps }
    ensures instantiation { InstantiationKeeps }
    ensures abstraction { AbstractionKeeps }
{}

/// Substitution in formulas keeps truth, on every table and for all values of the loose bound variables.
pub fn substitution_in_formulas()
    ensures substitution { SubstitutionKeepsTruth }
    ensures instantiation { InstantiationKeepsTruth }
    ensures abstraction { AbstractionKeepsTruth }
{}

/// Substitution keeps types.
pub fn substitution_and_types()
    ensures lifting { LiftingKeepsTypes }
    ensures substitution { SubstitutionKeepsTypes }
    ensures instantiation { InstantiationKeepsTypes }
    ensures abstraction { AbstractionKeepsTypes }
{}

/// Substitution in formulas keeps well-formedness.
pub fn substitution_and_form()
    ensures substitution { SubstitutionKeepsForm }
    ensures instantiation { InstantiationKeepsForm }
    ensures abstraction { AbstractionKeepsForm }
{}

/// Values and truth depend on the variables that stand in a term or a formula, and on no other.
pub fn used_variables()
    ensures values { DependsOnUsed }
    ensures truth { TruthDependsOnUsed }
{}

/// A call of a declared function has the value of its body, read in the world of all functions.
pub fn calls_and_bodies()
    ensures definitions { DefinitionsAreBodies }
    ensures recursions { RecursionsAreBodies }
{}

/// A term without a program call has one value on all tables, and one whose program calls all have the
/// same inputs on all tables with the same answer there.
pub fn calls_and_tables()
    ensures no_table { NeedsNoTable }
    ensures one_answer { NeedsOneAnswer }
{}

/// A term has each instance of its types, and a value of the instance.
pub fn instances_of_types()
    ensures types { InstanceKeepsTypes }
    ensures values { IsTypeSoundAt }
{}

/// A truth value outside all binders has no second type.
pub fn truth_values()
    ensures { TruthHasOneType }
{}

/// Types and well-formedness depend on the variables that stand in a term or a formula, which have types
/// in the context, and a larger context keeps them.
pub fn typing_contexts()
    ensures types { TypesDependOnUsed }
    ensures form { FormDependsOnUsed }
    ensures used { UsedHaveTypes }
    ensures used_in_formulas { UsedInFormulasHaveTypes }
    ensures larger { ContextsGrow }
    ensures larger_form { ContextsGrowForm }
    ensures closed { IsClosedValue }
{}

/// The values of a type, its least value, and the numbers of its constructors.
pub fn values_of_types()
    ensures least { LeastHasType }
    ensures made { ValuesAreMade }
    ensures numbers { NumbersArePlaces }
{}

/// A typed term has the branches of each `case` as declared.
pub fn branches()
    ensures { CasesAreDeclared }
{}

/// A term of constructors, variables and truth values alone has one value within any binders, calls no
/// program, and is what it is lifted and instantiated to.
pub fn made_terms()
    ensures { MadeTermsStay }
{}

/// The closures of a formula: `ALL` or `EX` of its variables' types, in their order, round the formula
/// with all its variables bound at once.
pub fn closures()
    ensures universal { ClosureIsUniversal }
    ensures existential { ClosureIsExistential }
{}
