//! The limited value in an accepted theory.
ghost use Rattle.std.specs.Prelude.{◌≡◌, IfOk, map, option_map, option_copied, unwrap_or};
ghost use Rattle.tg_eval.specs.Answering.{answered, value_part};
ghost use Rattle.tg_eval.specs.Limited.{limited_value};
ghost use Rattle.tg_model.specs.Value.{wrong};
ghost use Rattle.tg_term.specs.Values.{value};

use crate::limiting::{Limited, limited_value};
use std::alloc::{AllocError, Global};
use tg_term::{Term, Value};
use tg_theory::Theory;

/// The limited value of a term in a theory, where `vars` has the values of its free variables, that of `?1` first, and
/// each program call gives `answer`, or False where there is none. A variable without a value is False, as is any use
/// that no typing allows. What it has to do with the value on tables is the law of `limited_is_value`.
pub fn value(
    alloc: Global,
    th: &Theory,
    vars: &[Value],
    answer: Option<&Value>,
    t: &Term,
) -> Result<Limited, AllocError>
    ensures { IfOk result (λ limited. answered limited ≡ value_part
        (limited_value th.now (unwrap_or (option_map value (option_copied answer.entry)) wrong) (map value vars.now) t.now)) }
{
    let limited = limited_value(alloc, th.declarations(), vars, answer, t)?;
    Ok(limited)
}
