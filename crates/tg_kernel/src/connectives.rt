//! The rules on connectives and truth values.
ghost use Rattle.std.specs.Prelude.{IfOk, [], ◌∷◌};
ghost use Rattle.tg_calculus.specs.Rule as calculus;
ghost use Rattle.tg_kernel.specs.Drafts.{Drafts};
ghost use Rattle.tg_kernel.specs.Sequents.{sequent};

use crate::comparing::same_formula;
use crate::contexts::Context;
use crate::drafts::{Drafted, Need, concluded, with_need};
use crate::formulas::{denied, truth_value};
use crate::hypotheses::Hypotheses;
use crate::sequents::Sequent;
use std::alloc::Global;
use tg_term::{Formula, FormulaNode, Term};
use tg_types::Ty;

/// Two goals give their conjunction.
pub(crate) fn and_i(alloc: Global, p: &Sequent, q: &Sequent) -> Drafted
    ensures { (th : _) → IfOk result (Drafts th calculus.and_i (sequent p.now ∷ sequent q.now ∷ [])) }
{
    if !q.vars.same(&p.vars) {
        return Ok(None);
    }
    let hyps = p.hyps.joined(alloc, &q.hyps)?;
    let both = FormulaNode::And(p.goal.share()?, q.goal.share()?);
    concluded(p.vars.share()?, hyps, Formula::new(alloc, both)?)
}

/// A conjunction gives its left side.
pub(crate) fn and_l(p: &Sequent) -> Drafted
    ensures { (th : _) → IfOk result (Drafts th calculus.and_l (sequent p.now ∷ [])) }
{
    match p.goal.node() {
        FormulaNode::And(left, _) => concluded(p.vars.share()?, p.hyps.share()?, left.share()?),
        _ => Ok(None),
    }
}

/// A conjunction gives its right side.
pub(crate) fn and_r(p: &Sequent) -> Drafted
    ensures { (th : _) → IfOk result (Drafts th calculus.and_r (sequent p.now ∷ [])) }
{
    match p.goal.node() {
        FormulaNode::And(_, right) => concluded(p.vars.share()?, p.hyps.share()?, right.share()?),
        _ => Ok(None),
    }
}

/// What follows from a formula makes an implication; the formula needn't be a hypothesis.
pub(crate) fn imp_i(alloc: Global, f: &Formula, p: &Sequent) -> Drafted
    ensures { (th : _) → IfOk result (Drafts th (calculus.imp_i f.now) (sequent p.now ∷ [])) }
{
    let formed = Need::Formed(p.vars.share()?, f.share()?);
    let hyps = p.hyps.without(alloc, f)?;
    let implies = FormulaNode::Imp(f.share()?, p.goal.share()?);
    with_need(formed, p.vars.share()?, hyps, Formula::new(alloc, implies)?)
}

/// An implication and its left side give its right side.
pub(crate) fn mp(alloc: Global, p: &Sequent, q: &Sequent) -> Drafted
    ensures { (th : _) → IfOk result (Drafts th calculus.mp (sequent p.now ∷ sequent q.now ∷ [])) }
{
    match p.goal.node() {
        FormulaNode::Imp(left, right) => {
            if !q.vars.same(&p.vars) || !same_formula(&q.goal, left) {
                return Ok(None);
            }
            let hyps = p.hyps.joined(alloc, &q.hyps)?;
            concluded(p.vars.share()?, hyps, right.share()?)
        }
        _ => Ok(None),
    }
}

/// A goal may be marked.
pub(crate) fn thyp_i(alloc: Global, p: &Sequent) -> Drafted
    ensures { (th : _) → IfOk result (Drafts th calculus.thyp_i (sequent p.now ∷ [])) }
{
    let marked = Formula::new(alloc, FormulaNode::Thyp(p.goal.share()?))?;
    concluded(p.vars.share()?, p.hyps.share()?, marked)
}

/// A mark may go.
pub(crate) fn thyp_e(p: &Sequent) -> Drafted
    ensures { (th : _) → IfOk result (Drafts th calculus.thyp_e (sequent p.now ∷ [])) }
{
    match p.goal.node() {
        FormulaNode::Thyp(f) => concluded(p.vars.share()?, p.hyps.share()?, f.share()?),
        _ => Ok(None),
    }
}

/// True is true.
pub(crate) fn truth(alloc: Global, vars: &Context) -> Drafted
    ensures { (th : _) → IfOk result (Drafts th (calculus.truth vars.now) []) }
{
    let closed = Need::Closed(vars.share()?);
    let goal = truth_value(alloc, true)?;
    with_need(closed, vars.share()?, Hypotheses::none(alloc)?, goal)
}

/// False gives anything.
pub(crate) fn absurd(alloc: Global, f: &Formula, p: &Sequent) -> Drafted
    ensures { (th : _) → IfOk result (Drafts th (calculus.falsity f.now) (sequent p.now ∷ [])) }
{
    if !same_formula(&p.goal, &truth_value(alloc, false)?) {
        return Ok(None);
    }
    let formed = Need::Formed(p.vars.share()?, f.share()?);
    with_need(formed, p.vars.share()?, p.hyps.share()?, f.share()?)
}

/// What follows from a term and from its negation holds.
pub(crate) fn split(alloc: Global, t: &Term, p: &Sequent, q: &Sequent) -> Drafted
    ensures { (th : _) → IfOk result (Drafts th (calculus.split t.now) (sequent p.now ∷ sequent q.now ∷ [])) }
{
    if !q.vars.same(&p.vars) || !same_formula(&q.goal, &p.goal) {
        return Ok(None);
    }
    let typed = Need::Typed(p.vars.share()?, t.share()?, Ty::Bool);
    let yes = p.hyps.without(alloc, &Formula::new(alloc, FormulaNode::Atom(t.share()?))?)?;
    let no = q.hyps.without(alloc, &denied(alloc, t)?)?;
    with_need(
        typed,
        p.vars.share()?,
        yes.joined(alloc, &no)?,
        p.goal.share()?,
    )
}
