//! The formulas of a theory. Each is closed in one walk.
ghost use Rattle.std.specs.Prelude.{◌≡◌, IfOk, map};
ghost use Rattle.tg_hyps.specs.Hypotheses.{conclusion_of, regularity_of, some_data, is_data};
ghost use Rattle.tg_types.specs.Types.{ty};
ghost use Rattle.tg_hyps.specs.Written.{variables_from};
ghost use Rattle.tg_model.specs.Closing.{universal_closure};
ghost use Rattle.tg_model.specs.Formula.{implies, tested};

use crate::closures::universal_closure;
use crate::written::variables;
use std::alloc::{AllocError, Global};
use tg_term::{Formula, FormulaNode};
use tg_theory::Theory;
use tg_types::Ty;

/// Regularity: the specification holds at the tested inputs of which one is deeper than `depth`. There is none
/// exactly where no input has a datatype's type.
pub fn regularity(alloc: Global, th: &Theory, depth: u8) -> Result<Option<Formula>, AllocError>
    ensures { IfOk result (λ o. o ≡ regularity_of th.now depth) }
{
    let inputs = th.program().inputs.as_slice();
    if !some_data(inputs) {
        return Ok(None);
    }
    let terms = variables(alloc, inputs.len())?;
    let deep = Formula::new(alloc, FormulaNode::Deep(u64::from(depth), terms))?;
    let holds = Formula::new(alloc, FormulaNode::Atom(th.specification().share()?))?;
    let where_deep = Formula::new(alloc, FormulaNode::Imp(deep, holds))?;
    let closed = where_tested(alloc, inputs, where_deep)?;
    let marked = Formula::new(alloc, FormulaNode::Thyp(closed))?;
    Ok(Some(marked))
}

/// The conclusion: the specification holds at each tested input.
pub fn conclusion(alloc: Global, th: &Theory) -> Result<Formula, AllocError>
    ensures { IfOk result (λ f. f ≡ conclusion_of th.now) }
{
    let holds = Formula::new(alloc, FormulaNode::Atom(th.specification().share()?))?;
    let closed = where_tested(alloc, th.program().inputs.as_slice(), holds)?;
    Ok(closed)
}

/// The formula at all tested inputs of these types.
fn where_tested(alloc: Global, inputs: &[Ty], f: Formula) -> Result<Formula, AllocError>
    ensures { IfOk result (λ g. g ≡ universal_closure (map ty inputs.now) (implies (tested (variables_from 1 (map ty inputs.now))) f)) }
{
    let terms = variables(alloc, inputs.len())?;
    let tested = Formula::new(alloc, FormulaNode::Tested(terms))?;
    let of_input = Formula::new(alloc, FormulaNode::Imp(tested, f))?;
    let closed = universal_closure(alloc, inputs, of_input)?;
    Ok(closed)
}

/// Whether some type is a datatype's.
fn some_data(ts: &[Ty]) -> bool
    ensures { result ≡ some_data (map ty ts.now) }
{
    for t in ts {
        if is_data(t) {
            return true;
        }
    }
    false
}

fn is_data(t: &Ty) -> bool
    ensures { result ≡ is_data (ty t.now) }
{
    matches!(t, Ty::App(_, _))
}
