//! The variables of the quantifiers around a formula.
ghost use Rattle.std.specs.Prelude.{◌≡◌, ◌+◌, [], IfOk, OnOk, length, map, option_map};
ghost use Rattle.tg_accept.specs.Standing.{IsAnswer, IsTermAt, IsTypeOf};
ghost use Rattle.tg_infer.specs.View.{raw_term, raw_type};
ghost use Rattle.tg_shared_types.specs.Growth.{IsDeclared};
ghost use Rattle.tg_types.specs.Types.{ty};
ghost use Rattle.tg_standing.specs.Places.{IsPlace};
ghost use Rattle.tg_standing.specs.Quantified.{IsUnder, Enters, Leaves, Stands, types_under};

use crate::places::Place;
use std::alloc::{AllocError, Global};
use tg_grammar::{RawTerm, RawTy};
use tg_infer::{Binders, Params, type_of_raw};
use tg_term::Term;
use tg_theory::is_closed;
use tg_types::{Ty, copy};

/// The variables of the quantifiers around a formula, the outermost first.
#[derive(Drop)]
pub(crate) struct Under {
    pub(crate) binders: Binders,
    pub(crate) types: Vec<Ty>,
}

impl Under {
    /// No quantifier stands around.
    pub(crate) fn new(alloc: Global) -> Under
        ensures none { result.types.items ≡ [] }
        ensures under { IsUnder result }
    {
        Under {
            binders: Binders::new(alloc),
            types: Vec::new(alloc),
        }
    }

    /// Goes under a quantifier of a type.
    pub(crate) fn enter(&mut self, alloc: Global, t: &Ty) -> Result<(), AllocError>
        requires under { IsUnder self.old }
        requires declared { IsDeclared (ty t.now) }
        ensures { OnOk result (Enters self.old self.new t.now) }
    {
        self.binders.bind_next()?;
        self.types.push(copy(alloc, t)?)?;
        Ok(())
    }

    /// Leaves the innermost quantifier, and `len` are left.
    pub(crate) fn leave(&mut self, len: usize) -> Result<(), AllocError>
        requires under { IsUnder self.old }
        requires one { length self.old.types.items ≡ len + 1 }
        ensures { OnOk result (Leaves self.old self.new len) }
    {
        self.binders.leave()?;
        self.types.truncate(len);
        Ok(())
    }
}

impl<'a> Place<'a> {
    /// The closed type that a text stands for.
    #[tactic(auto, using(crate::proofs::QuantifiedLaws::closing))]
    pub(crate) fn closed_type(&self, t: &RawTy) -> Result<Option<Ty>, AllocError>
        requires { IsPlace self.now }
        ensures { IfOk result (λ found. IsAnswer (IsTypeOf self.now.th.now (raw_type t.now)) (option_map ty found)) }
    {
        let alloc = self.scope.alloc;
        let params = Params::new(alloc);
        let Some(u) = type_of_raw(alloc, &params, &self.scope.words.types, t)? else {
            return Ok(None);
        };
        if !is_closed(self.scope.declared, &u) {
            return Ok(None);
        }
        Ok(Some(u))
    }

    /// The term of a type that a text stands for under quantifiers.
    #[tactic(auto, using(crate::proofs::QuantifiedLaws::terms))]
    pub(crate) fn term_at(
        &self,
        under: &mut Under,
        t: &RawTerm,
        at: &Ty,
    ) -> Result<Option<Term>, AllocError>
        requires place { IsPlace self.now }
        requires under { IsUnder under.old }
        requires at { IsDeclared (ty at.now) }
        ensures { IfOk result (λ found. Stands under.old under.new
            (IsTermAt self.now.th.now (map ty self.now.vars.now) (types_under under.old) (ty at.now) (raw_term t.now)) found) }
    {
        let Some(r) = self.look_up(&mut under.binders, t)? else {
            return Ok(None);
        };
        if !self.is_typed_at(under.types.as_slice(), &r, at)? {
            return Ok(None);
        }
        let t = self.core(&r)?;
        Ok(Some(t))
    }
}
