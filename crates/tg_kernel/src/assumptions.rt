//! The rules on assumptions.
ghost use Rattle.std.specs.Prelude.{IfOk, [], ◌∷◌};
ghost use Rattle.tg_calculus.specs.Rule as calculus;
ghost use Rattle.tg_kernel.specs.Drafts.{Drafts};
ghost use Rattle.tg_kernel.specs.Sequents.{sequent};

use crate::contexts::Context;
use crate::drafts::{Drafted, Need, concluded, with_need, with_needs};
use crate::hypotheses::Hypotheses;
use crate::sequents::Sequent;
use sqlite_items::Items;
use std::alloc::Global;
use tg_term::Formula;

/// A formula proves itself.
pub(crate) fn hyp(alloc: Global, vars: &Context, f: &Formula) -> Drafted
    ensures { (th : _) → IfOk result (Drafts th (calculus.hyp vars.now f.now) []) }
{
    let mut formulas = Items::new(alloc);
    formulas.push(f.share()?)?;
    let hyps = Hypotheses::new(alloc, formulas)?;
    let closed = Need::Closed(vars.share()?);
    let formed = Need::Formed(vars.share()?, f.share()?);
    with_needs(closed, formed, vars.share()?, hyps, f.share()?)
}

/// A further hypothesis does no harm.
pub(crate) fn weak(alloc: Global, f: &Formula, p: &Sequent) -> Drafted
    ensures { (th : _) → IfOk result (Drafts th (calculus.weak f.now) (sequent p.now ∷ [])) }
{
    let formed = Need::Formed(p.vars.share()?, f.share()?);
    let hyps = p.hyps.added(alloc, f)?;
    with_need(formed, p.vars.share()?, hyps, p.goal.share()?)
}

/// What is proved needn't be assumed.
pub(crate) fn cut(alloc: Global, p: &Sequent, q: &Sequent) -> Drafted
    ensures { (th : _) → IfOk result (Drafts th calculus.cut (sequent p.now ∷ sequent q.now ∷ [])) }
{
    if !q.vars.same(&p.vars) {
        return Ok(None);
    }
    let left = q.hyps.without(alloc, &p.goal)?;
    let hyps = p.hyps.joined(alloc, &left)?;
    concluded(p.vars.share()?, hyps, q.goal.share()?)
}

/// A context may have more variables.
pub(crate) fn grow(alloc: Global, more: &Context, p: &Sequent) -> Drafted
    ensures { (th : _) → IfOk result (Drafts th (calculus.grow more.now) (sequent p.now ∷ [])) }
{
    let closed = Need::Closed(more.share()?);
    let vars = p.vars.grown(alloc, more.types())?;
    with_need(closed, vars, p.hyps.share()?, p.goal.share()?)
}
