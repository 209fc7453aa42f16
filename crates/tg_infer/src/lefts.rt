//! The variables of a left side, with their numbers.
ghost use Rattle.std.specs.Prelude.{◌≡◌, ◌+◌, ◌++◌, IfOk, length, reverse};
ghost use Rattle.tg_accept.specs.Equations.{count_variables, left_variables, numbered_from};
ghost use Rattle.tg_equations.specs.View.{patterns};
ghost use Rattle.tg_infer.specs.Scopes.{AreSameVariables};

use crate::variables::Variables;
use std::alloc::{AllocError, Global};
use tg_equations::Pattern;
use tg_types::Name;

/// The variables of a left side. The arguments that are variables have the first numbers, then come those of
/// constructors. Of two of one name the later one is meant.
#[tactic(auto, using(crate::proofs::LeftLaws::lefts))]
pub(crate) fn left_variables(alloc: Global, ps: &[Pattern]) -> Result<Variables, AllocError>
    ensures { IfOk result (λ vs. AreSameVariables vs (left_variables (patterns ps.now))) }
{
    let mut variables = Variables::new(alloc);
    let mut next = 1;
    let mut inner = count_variables(ps)?.checked_add(1).ok_or(AllocError)?;
    for p in ps {
        match p {
            Pattern::Variable(x) => {
                variables.add(x, next)?;
                next = next.checked_add(1).ok_or(AllocError)?;
            }
            Pattern::Matched(_, xs) => {
                inner = add_numbered(&mut variables, inner, xs.as_slice())?;
            }
        }
    }
    Ok(variables)
}

/// How many of the patterns are variables.
fn count_variables(ps: &[Pattern]) -> Result<u32, AllocError>
    ensures { IfOk result (λ count. count ≡ count_variables (patterns ps.now)) }
{
    let mut count = 0u32;
    for p in ps {
        if let Pattern::Variable(_) = p {
            count = count.checked_add(1).ok_or(AllocError)?;
        }
    }
    Ok(count)
}

/// Adds variables with the numbers from `first` on, and answers the next number.
#[tactic(auto, using(crate::proofs::LeftLaws::lefts))]
pub(crate) fn add_numbered(
    variables: &mut Variables,
    first: u32,
    xs: &[Name],
) -> Result<u32, AllocError>
    ensures next { IfOk result (λ next. next ≡ first + length xs.now) }
    ensures added { IfOk result (λ next. AreSameVariables variables.new (reverse (numbered_from first xs.now) ++ variables.old)) }
{
    let mut next = first;
    for x in xs {
        variables.add(x, next)?;
        next = next.checked_add(1).ok_or(AllocError)?;
    }
    Ok(next)
}
