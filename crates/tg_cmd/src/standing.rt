//! Functions that stand in as the program.
ghost use Rattle.std.specs.Prelude.{◌≡◌, ◌≢◌, ◌↔◌, IfOk, IsSome, MatchOption, Some, true, length, map};
ghost use Rattle.tg_cmd.specs.StandIn.{HasProgramType, IsNamed, StandsIn, call_of, answer_at, recorded_of, simulated};
ghost use Rattle.tg_eval.specs.Answering.{answered};
ghost use Rattle.tg_harness.specs.Tests.{test, record_of};
ghost use Rattle.tg_model.specs.Accepted.{variables_from};
ghost use Rattle.tg_model.specs.Theory.{Function, numbered};
ghost use Rattle.tg_model.specs.Tree.{call, trees};

use sqlite_items::Items;
use std::alloc::{AllocError, Global};
use tg_eval::{Limited, value};
use tg_term::{FunId, Node, Outcome, Term, Test, Value};
use tg_theory::Theory;
use tg_types::Name;

/// The function of the name, if there is one and it has the program's type at some types for its type variables.
pub(crate) fn stand_in(
    alloc: Global,
    theory: &Theory,
    name: &Name,
) -> Result<Option<FunId>, AllocError>
    ensures { IfOk result (λ o. MatchOption o ((n : _) → StandsIn theory.now name.now n → ⊥) (StandsIn theory.now name.now)) }
{
    theory.accepted();
    match function_named(theory, name) {
        Some(f) => {
            if fits(alloc, theory, f)? {
                Ok(Some(f))
            } else {
                Ok(None)
            }
        }
        None => Ok(None),
    }
}

fn function_named(theory: &Theory, name: &Name) -> Option<FunId>
    ensures { MatchOption result ((n : _) → (f : _) → IsNamed theory.now name.now n f → ⊥) (λ n. (f : Function) × IsNamed theory.now name.now n f) }
{
    for before in 0..theory.fun_count() {
        if theory.fun(before + 1).name.bytes() == name.bytes() {
            return Some(before + 1);
        }
    }
    None
}

/// Whether the function of the number has the program's type at some types for its type variables: whether its call at the inputs
/// has the type of the answer.
fn fits(alloc: Global, theory: &Theory, f: FunId) -> Result<bool, AllocError>
    ensures { IfOk result (λ yes. (yes ≡ true) ↔ ((x : Function) × (numbered theory.now.functions f ≡ Some x) × HasProgramType theory.now x)) }
{
    theory.accepted();
    let call = call_of(alloc, theory, f)?;
    let program = theory.program();
    theory.typed(alloc, program.inputs.as_slice(), &call, &program.answer)
}

/// `f ?1 .. ?k`
fn call_of(alloc: Global, theory: &Theory, f: FunId) -> Result<Term, AllocError>
    ensures { IfOk result (λ t. t ≡ call_of theory.now f) }
{
    let mut args = Items::new(alloc);
    for at in 0..theory.program().inputs.len() {
        let number = u32::try_from(at + 1).map_err(|_| AllocError)?;
        args.push(Term::new(alloc, Node::Free(number))?)?;
    }
    Term::new(alloc, Node::Call(f, args))
}

/// What the function of the number answers to each test.
pub(crate) fn outcomes_of(
    alloc: Global,
    theory: &Theory,
    f: FunId,
    tests: &[Test],
) -> Result<Vec<Outcome>, AllocError>
    ensures { IfOk result (λ os. map record_of os.items ≡ simulated theory.now f (map test tests.now)) }
{
    let call = call_of(alloc, theory, f)?;
    let mut list = Vec::new(alloc);
    for t in tests {
        list.push(outcome_of(alloc, theory, &call, t)?)?;
    }
    Ok(list)
}

fn outcome_of(alloc: Global, theory: &Theory, call: &Term, t: &Test) -> Result<Outcome, AllocError>
    ensures { (n : _) → call.now ≡ call_of theory.now n → IfOk result (λ o. record_of o ≡ recorded_of theory.now n (test t.now)) }
{
    let answer = match value(alloc, theory, t.datum.as_slice(), None, call)? {
        Limited::Val(v) => Some(v),
        Limited::Over => None,
    };
    Ok(Outcome {
        test: t.class,
        answer,
    })
}
