//! The formulas of a class. Each is closed, or has its values put in, in one walk.
ghost use Rattle.std.specs.Prelude.{◌≡◌, IfOk, map};
ghost use Rattle.tg_hyps.specs.Hypotheses.{seen, checked, test_of, open_class_of, uniformity_of};
ghost use Rattle.tg_model.specs.Formula.{tested};
ghost use Rattle.tg_term.specs.Classes.{inputs_of};
ghost use Rattle.tg_term.specs.Values.{value};

use crate::closures::{existential_closure, universal_closure};
use crate::connectives::{any_of, both_all, if_all};
use crate::written::{share_all, terms_of};
use std::alloc::{AllocError, Global};
use tg_term::{Class, Formula, FormulaNode, Pattern, Value, subst_formula};

/// The test of a class at values of its variables, that of `Free(1)` first: the inputs are tested, and one of
/// the checks is true there. The values are put in, and nothing is normalised. A variable without a value
/// becomes False.
pub fn test(alloc: Global, c: &Class, values: &[Value]) -> Result<Formula, AllocError>
    ensures { IfOk result (λ f. f ≡ test_of (seen c.now) (map value values.now)) }
{
    let terms = terms_of(alloc, values)?;
    let inputs = tested(alloc, &c.pattern)?;
    let checks = checked(alloc, c)?;
    let both = Formula::new(alloc, FormulaNode::And(inputs, checks))?;
    let test = subst_formula(alloc, &both, terms.as_slice())?;
    Ok(test)
}

/// The open class: each tested input of the class makes one of the checks true.
pub fn open_class(alloc: Global, c: &Class) -> Result<Formula, AllocError>
    ensures { IfOk result (λ f. f ≡ open_class_of (seen c.now)) }
{
    let checks = checked(alloc, c)?;
    let checks = if_all(alloc, c.constraints.as_slice(), checks)?;
    let inputs = tested(alloc, &c.pattern)?;
    let of_input = Formula::new(alloc, FormulaNode::Imp(inputs, checks))?;
    let open = universal_closure(alloc, c.pattern.vars.as_slice(), of_input)?;
    Ok(open)
}

/// Uniformity: if some tested input of the class makes one of the checks true, then the open class holds.
pub fn uniformity(alloc: Global, c: &Class) -> Result<Formula, AllocError>
    ensures { IfOk result (λ f. f ≡ uniformity_of (seen c.now)) }
{
    let checks = checked(alloc, c)?;
    let checks = both_all(alloc, c.constraints.as_slice(), checks)?;
    let inputs = tested(alloc, &c.pattern)?;
    let of_input = Formula::new(alloc, FormulaNode::And(inputs, checks))?;
    let some = existential_closure(alloc, c.pattern.vars.as_slice(), of_input)?;
    let open = open_class(alloc, c)?;
    let uniform = Formula::new(alloc, FormulaNode::Imp(some, open))?;
    let marked = Formula::new(alloc, FormulaNode::Thyp(uniform))?;
    Ok(marked)
}

/// That the inputs of the pattern are tested.
fn tested(alloc: Global, p: &Pattern) -> Result<Formula, AllocError>
    ensures { IfOk result (λ f. f ≡ tested (inputs_of p.now)) }
{
    let inputs = share_all(alloc, p.terms.as_slice())?;
    Formula::new(alloc, FormulaNode::Tested(inputs))
}

/// That one of the class's checks is true.
fn checked(alloc: Global, c: &Class) -> Result<Formula, AllocError>
    ensures { IfOk result (λ f. f ≡ checked (seen c.now)) }
{
    let check = any_of(alloc, c.checks.as_slice())?;
    Formula::new(alloc, FormulaNode::Atom(check))
}
