//! The limited value of a term, as it is asked for.
ghost use Rattle.std.specs.Prelude.{◌≡◌, [], IfOk, map, option_map, option_copied, unwrap_or};
ghost use Rattle.tg_accept.specs.Declared.{theory};
ghost use Rattle.tg_eval.specs.Answering.{answered, is_true, value_part};
ghost use Rattle.tg_eval.specs.Limited.{limited_value};
ghost use Rattle.tg_model.specs.Value.{wrong};
ghost use Rattle.tg_term.specs.Values.{value};

use crate::converting::{plain, shared, shared_all};
use crate::evaluating::{Given, Run, value_of};
use crate::held::Held;
use crate::opening::truth_of;
use crate::operating::wrong;
use std::alloc::{AllocError, Global};
use tg_declarations::Declarations;
use tg_term::{Term, Value};

/// So many levels may an evaluation have.
const MOST_LEVELS: u64 = 500;

/// So many calls of functions may an evaluation unfold.
const MOST_CALLS: u64 = 10_000;

/// The limited value of a term.
#[derive(Debug, Drop)]
pub enum Limited {
    /// The value.
    Val(Value),
    /// A bound was passed: more than 10,000 calls of functions, a level above 500, a number of 2^64 or more, or a value
    /// of a constructor of more than 100,000 nodes.
    Over,
}

/// The limited value of a term in the theory of the declarations, where `vars` has the values of its free variables, that
/// of `?1` first, and each program call gives `answer`, or False where there is none. A variable without a value is
/// False, as is any use that no typing allows.
#[tactic(auto, using(crate::proofs::AnswerLaws::answers))]
pub fn limited_value(
    alloc: Global,
    declared: &Declarations,
    vars: &[Value],
    answer: Option<&Value>,
    t: &Term,
) -> Result<Limited, AllocError>
    ensures { IfOk result (λ limited. answered limited ≡ value_part
        (limited_value (theory [] declared.now) (unwrap_or (option_map value (option_copied answer.entry)) wrong) (map value vars.now) t.now)) }
{
    let vars = shared_all(alloc, vars)?;
    let answer = shared_answer(alloc, answer)?;
    match shared_value(alloc, declared, vars.as_slice(), &answer, t)? {
        Some(v) => Ok(Limited::Val(plain(alloc, &v)?)),
        None => Ok(Limited::Over),
    }
}

/// Whether the limited value of a term without a program call is True. It takes no memory for a term that makes no
/// constructor and calls no function. A program call gives False.
#[tactic(auto, using(crate::proofs::AnswerLaws::answers))]
pub fn limited_truth(
    alloc: Global,
    declared: &Declarations,
    vars: &[Held],
    t: &Term,
) -> Result<bool, AllocError>
    ensures { IfOk result (λ b. b ≡ is_true (value_part (limited_value (theory [] declared.now) wrong vars.now t.now))) }
{
    match shared_value(alloc, declared, vars, &wrong(), t)? {
        Some(v) => Ok(truth_of(&v).unwrap_or(false)),
        None => Ok(false),
    }
}

/// The limited value of a term, as a value that shares, or `None` where a bound is passed.
#[tactic(auto, using(crate::proofs::AnswerLaws::answers))]
pub fn shared_value(
    alloc: Global,
    declared: &Declarations,
    vars: &[Held],
    answer: &Held,
    t: &Term,
) -> Result<Option<Held>, AllocError>
    ensures { IfOk result (λ r. r ≡ value_part (limited_value (theory [] declared.now) answer.now vars.now t.now)) }
{
    let given = Given {
        alloc,
        declared,
        answer,
    };
    let mut run = Run { left: MOST_CALLS };
    let mut loc = Vec::new(alloc);
    value_of(&given, &mut run, vars, &mut loc, MOST_LEVELS, t)
}

/// The answer that is recorded, or False where none is.
fn shared_answer(alloc: Global, answer: Option<&Value>) -> Result<Held, AllocError>
    ensures { IfOk result (λ v. v ≡ unwrap_or (option_map value (option_copied answer.entry)) wrong) }
{
    match answer {
        Some(v) => shared(alloc, v),
        None => Ok(wrong()),
    }
}
