//! The terms that texts of certificates stand for.
ghost use Rattle.std.specs.Prelude.{◌≡◌, IfOk, map};
ghost use Rattle.tg_accept.specs.Standing.{declared_in, IsAnswer, IsTermOf};
ghost use Rattle.tg_infer.specs.View.{raw_term};
ghost use Rattle.tg_infer.specs.Words.{AreWordsOf};
ghost use Rattle.tg_types.specs.Types.{ty};
ghost use Rattle.tg_standing.specs.Places.{IsPlace};
ghost use Rattle.tg_standing.specs.Terms.{IsTermIn};

use crate::places::Place;
use std::alloc::{AllocError, Global};
use tg_grammar::RawTerm;
use tg_infer::{Binders, Scope, Variables, Words};
use tg_term::Term;
use tg_theory::{Theory, are_declared};
use tg_types::Ty;

/// The term, of some type, that the text stands for, where `vars` are the types of the free variables; `None`
/// exactly where it stands for none: where a word in it isn't declared, a number of a variable has no binder,
/// a `case` hasn't a branch for each constructor or has two for one, or there is no typing, and where an open
/// type stands in one that is given.
#[tactic(auto, using(crate::proofs::TermLaws::answering))]
pub fn term_of(
    alloc: Global,
    words: &Words,
    th: &Theory,
    vars: &[Ty],
    raw: &RawTerm,
) -> Result<Option<Term>, AllocError>
    requires { AreWordsOf words.now (declared_in th.now) }
    ensures { IfOk result (λ found. IsAnswer (IsTermIn th.now vars.now (raw_term raw.now)) found) }
{
    if !are_declared(vars) {
        return Ok(None);
    }
    let variables = Variables::new(alloc);
    let scope = Scope::outside(alloc, th.declarations(), words, &variables, true);
    let place = Place {
        th,
        scope: &scope,
        vars,
    };
    let t = term(&place, raw)?;
    Ok(t)
}

/// A term of some type, outside of all binders.
#[tactic(auto, using(crate::proofs::TermLaws::terms))]
fn term(place: &Place<'_>, raw: &RawTerm) -> Result<Option<Term>, AllocError>
    requires { IsPlace place.now }
    ensures { IfOk result (λ found. IsAnswer (IsTermOf place.now.th.now (map ty place.now.vars.now) (raw_term raw.now)) found) }
{
    let mut outer = Binders::new(place.scope.alloc);
    let Some(r) = place.look_up(&mut outer, raw)? else {
        return Ok(None);
    };
    if !place.is_typed(&r)? {
        return Ok(None);
    }
    let t = place.core(&r)?;
    Ok(Some(t))
}
