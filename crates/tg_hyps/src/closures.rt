//! Quantifiers round a formula, one for each of its first free variables.
ghost use Rattle.std.specs.Prelude.{◌≡◌, IfOk, map};
ghost use Rattle.tg_model.specs.Closing.{for_all, for_some, universal_closure, existential_closure};
ghost use Rattle.tg_types.specs.Types.{ty};

use std::alloc::{AllocError, Global};
use tg_term::{Formula, FormulaNode, close_formula};
use tg_types::{Ty, copy};

/// The formula for all values of its first free variables, which have these types.
pub(crate) fn universal_closure(
    alloc: Global,
    vars: &[Ty],
    f: Formula,
) -> Result<Formula, AllocError>
    ensures { IfOk result (λ g. g ≡ universal_closure (map ty vars.now) f) }
{
    let count = u32::try_from(vars.len()).map_err(|_| AllocError)?;
    let closed = close_formula(alloc, &f, count)?;
    let all = for_all(alloc, vars, closed)?;
    Ok(all)
}

/// The formula for some values of its first free variables, which have these types.
pub(crate) fn existential_closure(
    alloc: Global,
    vars: &[Ty],
    f: Formula,
) -> Result<Formula, AllocError>
    ensures { IfOk result (λ g. g ≡ existential_closure (map ty vars.now) f) }
{
    let count = u32::try_from(vars.len()).map_err(|_| AllocError)?;
    let closed = close_formula(alloc, &f, count)?;
    let some = for_some(alloc, vars, closed)?;
    Ok(some)
}

/// A quantifier for each type, that of the first type outermost.
#[tactic(auto, using(crate::proofs::EndLaws::ends))]
fn for_all(alloc: Global, vars: &[Ty], mut f: Formula) -> Result<Formula, AllocError>
    ensures { IfOk result (λ g. g ≡ for_all (map ty vars.now) f) }
{
    let mut left = vars;
    while let Some((t, outer)) = left.split_last() {
        f = Formula::new(alloc, FormulaNode::All(copy(alloc, t)?, f))?;
        left = outer;
    }
    Ok(f)
}

#[tactic(auto, using(crate::proofs::EndLaws::ends))]
fn for_some(alloc: Global, vars: &[Ty], mut f: Formula) -> Result<Formula, AllocError>
    ensures { IfOk result (λ g. g ≡ for_some (map ty vars.now) f) }
{
    let mut left = vars;
    while let Some((t, before)) = left.split_last() {
        f = Formula::new(alloc, FormulaNode::Ex(copy(alloc, t)?, f))?;
        left = before;
    }
    Ok(f)
}
