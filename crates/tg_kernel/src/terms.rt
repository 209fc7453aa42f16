//! The rules on terms.
ghost use Rattle.std.specs.Prelude.{◌≡◌, IfOk, [], ◌∷◌};
ghost use Rattle.tg_calculus.specs.Computing.{computes};
ghost use Rattle.tg_calculus.specs.Rule as calculus;
ghost use Rattle.tg_kernel.specs.Drafts.{Drafts};
ghost use Rattle.tg_kernel.specs.Sequents.{sequent};

use crate::comparing::same_term;
use crate::contexts::Context;
use crate::drafts::{Drafted, Need, concluded, with_need, with_needs};
use crate::formulas::{equation, sides};
use crate::hypotheses::Hypotheses;
use crate::replacing::replaces;
use crate::sequents::Sequent;
use std::alloc::{AllocError, Global};
use tg_eval::{Limited, value};
use tg_schema::{SchemaId, step};
use tg_term::{Formula, FormulaNode, Term, Value, calls_program};
use tg_theory::Theory;

/// A term equals itself.
pub(crate) fn refl(alloc: Global, vars: &Context, t: &Term) -> Drafted
    ensures { (th : _) → IfOk result (Drafts th (calculus.reflexive vars.now t.now) []) }
{
    let goal = equation(alloc, t, t)?;
    let closed = Need::Closed(vars.share()?);
    let formed = Need::Formed(vars.share()?, goal.share()?);
    with_needs(
        closed,
        formed,
        vars.share()?,
        Hypotheses::none(alloc)?,
        goal,
    )
}

/// The sides of an equation may change.
pub(crate) fn sym(alloc: Global, p: &Sequent) -> Drafted
    ensures { (th : _) → IfOk result (Drafts th calculus.symmetric (sequent p.now ∷ [])) }
{
    match sides(&p.goal) {
        Some((s, t)) => concluded(p.vars.share()?, p.hyps.share()?, equation(alloc, t, s)?),
        None => Ok(None),
    }
}

/// Equations make chains.
pub(crate) fn trans(alloc: Global, p: &Sequent, q: &Sequent) -> Drafted
    ensures { (th : _) → IfOk result (Drafts th calculus.transitive (sequent p.now ∷ sequent q.now ∷ [])) }
{
    let (Some((s, t)), Some((t2, u))) = (sides(&p.goal), sides(&q.goal)) else {
        return Ok(None);
    };
    if !q.vars.same(&p.vars) || !same_term(t2, t) {
        return Ok(None);
    }
    let goal = equation(alloc, s, u)?;
    let formed = Need::Formed(p.vars.share()?, goal.share()?);
    with_need(
        formed,
        p.vars.share()?,
        p.hyps.joined(alloc, &q.hyps)?,
        goal,
    )
}

/// Equals may stand for equals, at some places, none or all, under binders too.
pub(crate) fn replace(alloc: Global, f: &Formula, p: &Sequent, q: &Sequent) -> Drafted
    ensures { (th : _) → IfOk result (Drafts th (calculus.replace f.now) (sequent p.now ∷ sequent q.now ∷ [])) }
{
    match sides(&p.goal) {
        Some((s, t)) => {
            if !q.vars.same(&p.vars) || !replaces(s, t, &q.goal, f) {
                return Ok(None);
            }
            let formed = Need::Formed(p.vars.share()?, f.share()?);
            let hyps = p.hyps.joined(alloc, &q.hyps)?;
            with_need(formed, p.vars.share()?, hyps, f.share()?)
        }
        None => Ok(None),
    }
}

/// A term equals what the row makes of it.
pub(crate) fn schema(alloc: Global, th: &Theory, vars: &Context, row: SchemaId, t: &Term) -> Drafted
    ensures { IfOk result (Drafts th.now (calculus.schema vars.now row t.now) []) }
{
    let Some(u) = step(alloc, th, row, t)? else {
        return Ok(None);
    };
    let goal = equation(alloc, t, &u)?;
    let closed = Need::Closed(vars.share()?);
    let formed = Need::Formed(vars.share()?, goal.share()?);
    with_needs(
        closed,
        formed,
        vars.share()?,
        Hypotheses::none(alloc)?,
        goal,
    )
}

/// A term that computes to True is true.
pub(crate) fn compute(alloc: Global, th: &Theory, vars: &Context, t: &Term) -> Drafted
    ensures { IfOk result (Drafts th.now (calculus.compute vars.now t.now) []) }
{
    if calls_program(t) || !computes(alloc, th, t)? {
        return Ok(None);
    }
    let goal = Formula::new(alloc, FormulaNode::Atom(t.share()?))?;
    let closed = Need::Closed(vars.share()?);
    let formed = Need::Formed(Context::empty(alloc)?, goal.share()?);
    with_needs(
        closed,
        formed,
        vars.share()?,
        Hypotheses::none(alloc)?,
        goal,
    )
}

/// Whether the limited value of the term is True.
fn computes(alloc: Global, th: &Theory, t: &Term) -> Result<bool, AllocError>
    ensures { IfOk result (λ b. b ≡ computes th.now t.now) }
{
    match value(alloc, th, &[], None, t)? {
        Limited::Val(Value::Bool(b)) => Ok(b),
        _ => Ok(false),
    }
}
