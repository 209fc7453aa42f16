//! The normal form of a term under the rewrite schemas, and the split of a term at an `if`. The normal form is defined
//! in `specs/Normal.antt`, as a relation without a budget, which `normal` gives exactly within the bounds. The split is
//! defined in `specs/Halves.antt`, and the leaves to which splits lead in `specs/Splits.antt`. Four functions have no
//! code, and their contracts are the laws.
#![tactic(auto)]

mod arguments;
mod errors;
mod forms;
mod splitting;
#[cfg(test)]
mod tests;
mod walking;

ghost use Rattle.std.specs.Prelude.{◌≡◌, IfOk, IsErrOf};
ghost use Rattle.tg_norm.specs.Laws.{IsOneWalk, FormsKeep, FormsKeepInputs, MadeTermsAreForms, FormsHaveNoLet, ConditionsAreTyped, HalvesKeepTypes, HalvesKeepValues};
ghost use Rattle.tg_norm.specs.Laws.{HalvesKeepInputs, ConditionsKeepInputs, SplitsKeep, IsOneSplit};
ghost use Rattle.tg_norm.specs.Normal.{IsNormal, IsPassed, most_levels};

use crate::walking::{Run, walk};
pub use errors::NormErr;
pub use forms::{NormalForm, Step};
pub use splitting::{Branches, halves};
use std::alloc::Global;
use tg_term::Term;
use tg_theory::Theory;

/// No call of a walk is on a higher level than this. So what walks down a term needs a bounded part of the stack.
const MAX_LEVELS: u64 = 1_000;

/// The normal form of a term, with the number of calls of the walk to it and with its steps. A term's arguments are
/// rewritten before the term; of an `if`, a `case` and a `let` the condition, the scrutinee and the bound term alone, as
/// Isabelle's simplifier does with its weak congruence rules.
///
/// `Steps` comes exactly where the walk passes a bound: it makes more than `left` calls, a call is on a level above
/// 1,000, or a schema's result, or a rebuilt term to which no schema applies, has more than 100,000 nodes. Where the
/// form is answered, the walk is within all of them. Memory is wanting too where a term would be higher than a term may
/// be.
pub fn normal(alloc: Global, th: &Theory, t: &Term, left: u64) -> Result<NormalForm, NormErr>
    ensures ok { IfOk result (λ n. IsNormal th.now left t.now n) }
    ensures steps { IsErrOf result NormErr.Steps → IsPassed th.now left most_levels t.now }
{
    let mut run = Run {
        left,
        steps: Vec::new(alloc),
    };
    let form = walk(alloc, th, &mut run, t, MAX_LEVELS)?;
    let term = match form {
        Some(form) => form,
        None => t.share()?,
    };
    Ok(NormalForm {
        term,
        cost: left - run.left,
        steps: run.steps,
    })
}

/// A term has one walk, so its normal form, cost and steps depend on no budget. The normal form of a typed term has the
/// term's value on every table and each of its types, and where all program calls of the term have the same inputs,
/// which are made of constructors, variables and truth values, its program calls have these too.
pub fn forms_keep()
    ensures one { IsOneWalk }
    ensures values { FormsKeep }
    ensures inputs { FormsKeepInputs }
{}

/// A term that is made of constructors, variables and truth values is its own normal form. In a normal form a `let`
/// stands in branches of an `if` or of a `case` alone. So the condition at which it is split stands under no binder, and
/// is typed where the form is.
pub fn forms_stand()
    ensures made { MadeTermsAreForms }
    ensures lets { FormsHaveNoLet }
    ensures conditions { ConditionsAreTyped }
{}

/// Where a condition is of type bool outside all binders, a truth value for its outside occurrences keeps each type of a
/// term, and it keeps the term's value on each table where it is the condition's value. Where all program calls of a term
/// have the same inputs, the condition's and the halves' have them too: with either truth value where the condition calls
/// the program, and else where it is the condition's value.
pub fn halves_keep()
    ensures types { HalvesKeepTypes }
    ensures values { HalvesKeepValues }
    ensures inputs { HalvesKeepInputs }
    ensures conditions { ConditionsKeepInputs }
{}

/// A normal form has one list of leaves. Where it is of type bool, the leaves are, and it is true exactly where all of
/// them are.
pub fn splits_keep()
    ensures one { IsOneSplit }
    ensures leaves { SplitsKeep }
{}
