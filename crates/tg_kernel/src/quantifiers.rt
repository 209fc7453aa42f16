//! The rules on quantifiers.
ghost use Rattle.std.specs.Prelude.{IfOk, [], ◌∷◌};
ghost use Rattle.tg_calculus.specs.Rule as calculus;
ghost use Rattle.tg_kernel.specs.Drafts.{Drafts};
ghost use Rattle.tg_kernel.specs.Sequents.{sequent};

use crate::comparing::same_formula;
use crate::drafts::{Drafted, Need, concluded, with_need, with_needs};
use crate::sequents::Sequent;
use crate::using::{next, some_use_new, uses_new};
use std::alloc::Global;
use std::array::from_ref;
use tg_term::{Formula, FormulaNode, Node, Term, abstract_formula, instantiate_formula};
use tg_types::copy;

/// What holds of the last variable, of which nothing is assumed, holds of all.
pub(crate) fn all_i(alloc: Global, p: &Sequent) -> Drafted
    ensures { (th : _) → IfOk result (Drafts th calculus.all_i (sequent p.now ∷ [])) }
{
    let Some((vars, t)) = p.vars.without_last(alloc)? else {
        return Ok(None);
    };
    if some_use_new(&vars, from_ref(&t), p.hyps.formulas())? {
        return Ok(None);
    }
    let bound = abstract_formula(alloc, &p.goal, next(&vars)?)?;
    let all = Formula::new(alloc, FormulaNode::All(t, bound))?;
    concluded(vars, p.hyps.share()?, all)
}

/// What holds of all holds of a term.
pub(crate) fn all_e(alloc: Global, t: &Term, p: &Sequent) -> Drafted
    ensures { (th : _) → IfOk result (Drafts th (calculus.all_e t.now) (sequent p.now ∷ [])) }
{
    match p.goal.node() {
        FormulaNode::All(at, f) => {
            let typed = Need::Typed(p.vars.share()?, t.share()?, copy(alloc, at)?);
            let goal = instantiate_formula(alloc, f, from_ref(t))?;
            with_need(typed, p.vars.share()?, p.hyps.share()?, goal)
        }
        _ => Ok(None),
    }
}

/// What holds of a term holds of something.
pub(crate) fn ex_i(alloc: Global, some: &Formula, t: &Term, p: &Sequent) -> Drafted
    ensures { (th : _) → IfOk result (Drafts th (calculus.ex_i some.now t.now) (sequent p.now ∷ [])) }
{
    match some.node() {
        FormulaNode::Ex(at, f) => {
            if !same_formula(&p.goal, &instantiate_formula(alloc, f, from_ref(t))?) {
                return Ok(None);
            }
            let formed = Need::Formed(p.vars.share()?, some.share()?);
            let typed = Need::Typed(p.vars.share()?, t.share()?, copy(alloc, at)?);
            with_needs(
                formed,
                typed,
                p.vars.share()?,
                p.hyps.share()?,
                some.share()?,
            )
        }
        _ => Ok(None),
    }
}

/// Where something is, a new variable may name it.
pub(crate) fn ex_e(alloc: Global, p: &Sequent, q: &Sequent) -> Drafted
    ensures { (th : _) → IfOk result (Drafts th calculus.ex_e (sequent p.now ∷ sequent q.now ∷ [])) }
{
    match p.goal.node() {
        FormulaNode::Ex(at, f) => {
            let new = from_ref(at);
            if !q.vars.same(&p.vars.grown(alloc, new)?) {
                return Ok(None);
            }
            let name = Term::new(alloc, Node::Free(next(&p.vars)?))?;
            let named = instantiate_formula(alloc, f, from_ref(&name))?;
            let left = q.hyps.without(alloc, &named)?;
            if uses_new(&p.vars, new, &q.goal)? || some_use_new(&p.vars, new, left.formulas())? {
                return Ok(None);
            }
            concluded(
                p.vars.share()?,
                p.hyps.joined(alloc, &left)?,
                q.goal.share()?,
            )
        }
        _ => Ok(None),
    }
}
