//! Whether what a draft needs is so.
ghost use Rattle.std.specs.Prelude.{◌≡◌, ◌↔◌, true, IfOk};
ghost use Rattle.tg_calculus.specs.Sequent.{Each};
ghost use Rattle.tg_calculus.specs.Step.{IsContext, IsTerm};
ghost use Rattle.tg_kernel.specs.Asked.{IsAsked};
ghost use Rattle.tg_kernel.specs.Drafts.{need, needs};
ghost use Rattle.tg_model.specs.Types.{tys};
ghost use Rattle.tg_shared_types.specs.Growth.{IsDeclared, AreDeclared};
ghost use Rattle.tg_theory.specs.Typed.{is_closed, are_closed};
ghost use Rattle.tg_types.specs.Types.{ty, types};

use crate::contexts::Context;
use crate::drafts::{Draft, Need};
use std::alloc::{AllocError, Global};
use tg_term::Term;
use tg_theory::{Theory, is_closed};
use tg_types::Ty;

/// Whether what the draft needs is so.
pub(crate) fn are_met(alloc: Global, th: &Theory, draft: &Draft) -> Result<bool, AllocError>
    ensures { IfOk result (λ b. (b ≡ true) ↔ Each (IsAsked th.now) (needs draft.now.first draft.now.second)) }
{
    if let Some(first) = &draft.first {
        if !is_met(alloc, th, first)? {
            return Ok(false);
        }
    }
    match &draft.second {
        Some(second) => is_met(alloc, th, second),
        None => Ok(true),
    }
}

fn is_met(alloc: Global, th: &Theory, asked: &Need) -> Result<bool, AllocError>
    ensures { IfOk result (λ b. (b ≡ true) ↔ IsAsked th.now (need asked.now)) }
{
    match asked {
        Need::Closed(vars) => Ok(is_context(th, vars)),
        Need::Formed(vars, f) => th.well_formed(alloc, vars.types(), f),
        Need::Typed(vars, t, at) => is_term(alloc, th, vars, t, at),
    }
}

/// Whether the term has the type.
#[tactic(auto, using(crate::proofs::AskedLaws::closing))]
fn is_term(
    alloc: Global,
    th: &Theory,
    vars: &Context,
    t: &Term,
    at: &Ty,
) -> Result<bool, AllocError>
    ensures { IfOk result (λ b. (b ≡ true) ↔ (AreDeclared (tys vars.now) × IsDeclared (ty at.now) × IsTerm th.now vars.now t.now (ty at.now))) }
{
    let typed = th.typed(alloc, vars.types(), t, at)?;
    Ok(typed)
}

/// Whether the types are closed.
#[tactic(auto, using(crate::proofs::AskedLaws::closing))]
fn is_context(th: &Theory, vars: &Context) -> bool
    ensures { (result ≡ true) ↔ IsContext th.now vars.now }
{
    are_closed(th, vars.types())
}

fn are_closed(th: &Theory, ts: &[Ty]) -> bool
    ensures { result ≡ are_closed th.now (types ts.now) }
{
    for t in ts {
        if !is_closed_in(th, t) {
            return false;
        }
    }
    true
}

#[tactic(auto, using(crate::proofs::AskedLaws::closing))]
fn is_closed_in(th: &Theory, t: &Ty) -> bool
    ensures { result ≡ is_closed th.now (ty t.now) }
{
    is_closed(th.declarations(), t)
}
