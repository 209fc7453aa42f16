//! A case distinction on a variable: a premise for each constructor.
ghost use Rattle.std.specs.Prelude.{◌≡◌, [], IfOk, length, map};
ghost use Rattle.tg_calculus.specs.Cases.{own_equation, collected};
ghost use Rattle.tg_calculus.specs.Draft.{fits, all_fit};
ghost use Rattle.tg_kernel.specs.Sequents.{sequent};
ghost use Rattle.tg_model.specs.Accepted.{variables_from};
ghost use Rattle.tg_types.specs.Types.{ty};

use crate::comparing::same_formula;
use crate::contexts::Context;
use crate::formulas::equation;
use crate::hypotheses::Hypotheses;
use crate::sequents::Sequent;
use crate::using::{next, some_use_new, uses_new, variable};
use sqlite_items::Items;
use std::alloc::{AllocError, Global};
use tg_term::{ConId, Formula, Node, Term};
use tg_types::Ty;

/// Whether the premises are those of the cases, the constructors being numbered from `first` on: in the
/// context with new variables of the arguments' types, all with the goal, which has no new variable, nor
/// does a hypothesis other than the own equation.
#[tactic(auto, using(crate::proofs::CaseLaws::fitting))]
pub(crate) fn all_fit(
    alloc: Global,
    vars: &Context,
    n: u32,
    goal: &Formula,
    first: ConId,
    cases: &[Items<Ty>],
    ps: &[Sequent],
) -> Result<bool, AllocError>
    ensures { IfOk result (λ b. b ≡ all_fit vars.now n goal.now first (map (map ty) cases.now) (map sequent ps.now)) }
{
    if cases.len() != ps.len() {
        return Ok(false);
    }
    for (i, p) in ps.iter().enumerate() {
        let c = variable(first as usize, i)?;
        if !fits(alloc, vars, n, goal, c, cases[i].as_slice(), p)? {
            return Ok(false);
        }
    }
    Ok(true)
}

fn fits(
    alloc: Global,
    vars: &Context,
    n: u32,
    goal: &Formula,
    c: ConId,
    new: &[Ty],
    p: &Sequent,
) -> Result<bool, AllocError>
    ensures { IfOk result (λ b. b ≡ fits vars.now n goal.now c (map ty new.now) (sequent p.now)) }
{
    if !p.vars.same(&vars.grown(alloc, new)?) || !same_formula(&p.goal, goal) {
        return Ok(false);
    }
    if uses_new(vars, new, goal)? {
        return Ok(false);
    }
    let left = p
        .hyps
        .without(alloc, &own_equation(alloc, vars, n, c, new)?)?;
    Ok(!some_use_new(vars, new, left.formulas())?)
}

/// The hypotheses of the premises, each without its own equation.
#[tactic(auto, using(crate::proofs::CaseLaws::collecting))]
pub(crate) fn collected(
    alloc: Global,
    vars: &Context,
    n: u32,
    first: ConId,
    cases: &[Items<Ty>],
    ps: &[Sequent],
) -> Result<Hypotheses, AllocError>
    ensures { IfOk result (λ h. h ≡ collected [] vars.now n first (map (map ty) cases.now) (map sequent ps.now)) }
{
    let mut all = Hypotheses::none(alloc)?;
    for (i, p) in ps.iter().enumerate() {
        let Some(new) = cases.get(i) else {
            return Ok(all);
        };
        let c = variable(first as usize, i)?;
        let own = own_equation(alloc, vars, n, c, new.as_slice())?;
        all = all.joined(alloc, &p.hyps.without(alloc, &own)?)?;
    }
    Ok(all)
}

/// The variable is the constructor of its new variables.
#[tactic(auto, using(crate::proofs::CaseLaws::counting))]
fn own_equation(
    alloc: Global,
    vars: &Context,
    n: u32,
    c: ConId,
    new: &[Ty],
) -> Result<Formula, AllocError>
    ensures { IfOk result (λ f. f ≡ own_equation vars.now n c (map ty new.now)) }
{
    let variable = Term::new(alloc, Node::Free(n))?;
    let arguments = variables_from(alloc, next(vars)?, new.len())?;
    let made = Term::new(alloc, Node::Con(c, arguments))?;
    equation(alloc, &variable, &made)
}

#[tactic(auto, using(crate::proofs::CaseLaws::numbering))]
fn variables_from(alloc: Global, first: u32, count: usize) -> Result<Items<Term>, AllocError>
    ensures { IfOk result (λ ts. ts ≡ variables_from first count) }
{
    let mut ts = Items::new(alloc);
    for i in 0..count {
        let number = variable(first as usize, i)?;
        ts.push(Term::new(alloc, Node::Free(number))?)?;
    }
    Ok(ts)
}
