//! Going under binders, and back.
ghost use Rattle.std.specs.Prelude.{◌≡◌, ◌≤◌, IfOk, OnOk, length, map};
ghost use Rattle.tg_infer.specs.Binders.{binders, AreRight};
ghost use Rattle.tg_infer.specs.Entering.{Enters, EntersAll, AreLeft};
ghost use Rattle.tg_infer.specs.Scopes.{scope_of};
ghost use Rattle.tg_infer.specs.View.{binder};
ghost use Rattle.tg_infer.specs.Words.{AreWordsOf};

use crate::binders::Binders;
use crate::scopes::Scope;
use std::alloc::AllocError;
use tg_grammar::Binder;

/// Binds a variable, and answers whether it may be bound.
#[tactic(auto, using(crate::proofs::EnteringLaws::entering))]
pub(crate) fn enter(scope: &Scope<'_>, outer: &mut Binders, x: &Binder) -> Result<bool, AllocError>
    requires words { AreWordsOf scope.now.words.now scope.now.declared.now }
    requires right { AreRight outer.old }
    ensures { IfOk result (λ ok. Enters (scope_of scope.now) outer.old outer.new (binder x.now) ok) }
{
    if !scope.may_bind(outer, x) {
        return Ok(false);
    }
    match x {
        Binder::Named(x) => outer.bind(x)?,
        Binder::Level(_) => outer.bind_next()?,
    }
    Ok(true)
}

/// Binds variables, one inside of the other, and answers whether each may be bound.
#[tactic(auto, using(crate::proofs::EnteringLaws::entering))]
pub(crate) fn enter_all(
    scope: &Scope<'_>,
    outer: &mut Binders,
    xs: &[Binder],
) -> Result<bool, AllocError>
    requires words { AreWordsOf scope.now.words.now scope.now.declared.now }
    requires right { AreRight outer.old }
    ensures { IfOk result (λ ok. EntersAll (scope_of scope.now) outer.old outer.new (map binder xs.now) ok) }
{
    for x in xs {
        if !enter(scope, outer, x)? {
            return Ok(false);
        }
    }
    Ok(true)
}

/// Takes the innermost variables away, but for so many.
#[tactic(auto, using(crate::proofs::EnteringLaws::leaving))]
pub(crate) fn leave_to(outer: &mut Binders, len: usize) -> Result<(), AllocError>
    requires right { AreRight outer.old }
    requires enough { len ≤ length (binders outer.old) }
    ensures { OnOk result (AreLeft outer.old outer.new len) }
{
    while outer.len() > len {
        outer.leave()?;
    }
    Ok(())
}
