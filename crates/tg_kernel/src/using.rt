//! Which variables stand in formulas. No call takes memory.
ghost use Rattle.std.specs.Prelude.{◌≡◌, ◌+◌, IfOk, map};
ghost use Rattle.tg_calculus.specs.Sequent.{next, uses_new, some_use_new, uses_from};
ghost use Rattle.tg_model.specs.Tree.{trees};
ghost use Rattle.tg_model.specs.Uses.{use_any, uses_in_formula};
ghost use Rattle.tg_types.specs.Types.{ty};

use crate::contexts::Context;
use std::alloc::AllocError;
use tg_term::{Formula, FormulaNode, Term, uses};
use tg_types::Ty;

/// Whether one of the new variables stands in the formula, where the context grows by the types. The error
/// comes only where a new variable's number would be 2^32 or more.
pub(crate) fn uses_new(context: &Context, new: &[Ty], f: &Formula) -> Result<bool, AllocError>
    ensures { IfOk result (λ b. b ≡ uses_new context.now (map ty new.now) f.now) }
{
    uses_from(context.types().len() + 1, new, f)
}

/// Whether one of the new variables stands in one of the formulas.
pub(crate) fn some_use_new(
    context: &Context,
    new: &[Ty],
    fs: &[Formula],
) -> Result<bool, AllocError>
    ensures { IfOk result (λ b. b ≡ some_use_new context.now (map ty new.now) fs.now) }
{
    for f in fs {
        if uses_new(context, new, f)? {
            return Ok(true);
        }
    }
    Ok(false)
}

/// Whether a variable stands in the formula, of those from number `first` on, as many as there are types.
fn uses_from(first: usize, new: &[Ty], f: &Formula) -> Result<bool, AllocError>
    ensures { IfOk result (λ b. b ≡ uses_from first (map ty new.now) f.now) }
{
    for i in 0..new.len() {
        let number = variable(first, i)?;
        if formula_uses(f, number) {
            return Ok(true);
        }
    }
    Ok(false)
}

/// The number of the first variable past the context.
pub(crate) fn next(context: &Context) -> Result<u32, AllocError>
    ensures { IfOk result (λ n. n ≡ next context.now) }
{
    variable(context.len(), 1)
}

/// The number that is so much past the first. The error comes only where it would be 2^32 or more.
pub(crate) fn variable(first: usize, past: usize) -> Result<u32, AllocError>
    ensures { IfOk result (λ n. n ≡ first + past) }
{
    let Some(number) = first.checked_add(past) else {
        return Err(AllocError);
    };
    u32::try_from(number).map_err(|_| AllocError)
}

/// Whether the variable stands in the formula.
#[cycle(formula_uses)]
fn formula_uses(f: &Formula, number: u32) -> bool
    ensures { result ≡ uses_in_formula number f.now }
{
    match f.node() {
        FormulaNode::Atom(t) => uses(t, number),
        FormulaNode::And(f, g) => formula_uses(f, number) || formula_uses(g, number),
        FormulaNode::Imp(f, g) => formula_uses(f, number) || formula_uses(g, number),
        FormulaNode::All(_, f) => formula_uses(f, number),
        FormulaNode::Ex(_, f) => formula_uses(f, number),
        FormulaNode::Thyp(f) => formula_uses(f, number),
        FormulaNode::Tested(ts) => any_uses(ts.as_slice(), number),
        FormulaNode::Deep(_, ts) => any_uses(ts.as_slice(), number),
    }
}

fn any_uses(ts: &[Term], number: u32) -> bool
    ensures { result ≡ use_any number (trees ts.now) }
{
    for t in ts {
        if uses(t, number) {
            return true;
        }
    }
    false
}
