//! What is asked of a term of a certificate, beyond that its words are looked up.
ghost use Rattle.std.specs.Prelude.{◌≡◌, ◌↔◌, true, [], None, IfOk, map, option_map, reverse};
ghost use Rattle.tg_accept.specs.Core.{core};
ghost use Rattle.tg_accept.specs.ResolvedTyping.{IsTypingOf};
ghost use Rattle.tg_accept.specs.Typings.{HasTyping};
ghost use Rattle.tg_infer.specs.Binders.{binders, AreRight};
ghost use Rattle.tg_infer.specs.View.{raw_term};
ghost use Rattle.tg_model.specs.TermTyping.{type_of};
ghost use Rattle.tg_shared_types.specs.Growth.{IsDeclared, AreDeclared};
ghost use Rattle.tg_theory.specs.Typed.{has_typing};
ghost use Rattle.tg_typing.specs.View.{resolved};
ghost use Rattle.tg_types.specs.Types.{ty, types};
ghost use Rattle.tg_standing.specs.Places.{IsPlace, IsLookedUp, Gives};

use std::alloc::AllocError;
use tg_equations::{are_cases_right, core_term};
use tg_grammar::RawTerm;
use tg_infer::{Binders, Scope, resolve};
use tg_term::Term;
use tg_theory::Theory;
use tg_types::Ty;
use tg_typing::{Resolved, Typings, count_typings, count_typings_at};

/// Where a term of a certificate stands.
#[derive(Clone, Copy)]
pub(crate) struct Place<'a> {
    /// The theory of the certificate.
    pub(crate) th: &'a Theory,
    /// Where words are looked up.
    pub(crate) scope: &'a Scope<'a>,
    /// The types of the free variables.
    pub(crate) vars: &'a [Ty],
}

impl<'a> Place<'a> {
    /// The term with its words looked up, if each means something and its `case`s have their branches.
    #[tactic(auto, using(crate::proofs::PlaceLaws::looking))]
    pub(crate) fn look_up(
        &self,
        outer: &mut Binders,
        t: &RawTerm,
    ) -> Result<Option<Resolved>, AllocError>
        requires place { IsPlace self.now }
        requires right { AreRight outer.old }
        ensures { IfOk result (λ found. Gives outer.old outer.new (IsLookedUp self.now.th.now (binders outer.old) (raw_term t.now)) (option_map resolved found)) }
    {
        let Some(r) = resolve(self.scope, outer, t)? else {
            return Ok(None);
        };
        if !are_cases_right(self.scope.alloc, self.scope.declared, &r)? {
            return Ok(None);
        }
        Ok(Some(r))
    }

    /// Whether the term has a typing, outside of all binders.
    #[tactic(auto, using(crate::proofs::PlaceLaws::telling))]
    pub(crate) fn is_typed(&self, t: &Resolved) -> Result<bool, AllocError>
        requires { IsPlace self.now }
        ensures { IfOk result (λ typed. (typed ≡ true) ↔ HasTyping (IsTypingOf self.now.th.now None [] (map ty self.now.vars.now) [] (resolved t.now))) }
    {
        let scope = self.scope;
        let typings = count_typings(scope.alloc, scope.declared, None, self.vars, t)?;
        Ok(is_some(typings))
    }

    /// Whether the term has a typing at a type, where `locs` are the types of the loose bound variables, the
    /// outermost first.
    #[tactic(auto, using(crate::proofs::PlaceLaws::telling))]
    pub(crate) fn is_typed_at(&self, locs: &[Ty], t: &Resolved, at: &Ty) -> Result<bool, AllocError>
        requires place { IsPlace self.now }
        requires locs { AreDeclared (types locs.now) }
        requires at { IsDeclared (ty at.now) }
        ensures { IfOk result (λ typed. (typed ≡ true) ↔ HasTyping (λ d.
            IsTypingOf self.now.th.now None [] (map ty self.now.vars.now) (reverse (map ty locs.now)) (resolved t.now) d × (type_of d ≡ ty at.now))) }
    {
        let scope = self.scope;
        let typings = count_typings_at(scope.alloc, scope.declared, None, self.vars, locs, t, at)?;
        Ok(is_some(typings))
    }

    /// The core term of a term.
    #[tactic(auto, using(crate::proofs::PlaceLaws::telling))]
    pub(crate) fn core(&self, t: &Resolved) -> Result<Term, AllocError>
        requires { IsPlace self.now }
        ensures { IfOk result (λ r. r ≡ core self.now.th.now 0 (resolved t.now)) }
    {
        let r = core_term(self.scope.alloc, self.scope.declared, 0, t)?;
        Ok(r)
    }
}

/// Whether there is a typing.
fn is_some(typings: Typings) -> bool
    ensures { result ≡ has_typing typings }
{
    match typings {
        Typings::None => false,
        Typings::One | Typings::Several => true,
    }
}
