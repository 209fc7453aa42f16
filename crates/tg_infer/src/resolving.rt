//! Terms whose words are looked up. The walk needs the stack of three calls a level.
ghost use Rattle.std.specs.Prelude.{◌≡◌, IfOk, length, map, option_map};
ghost use Rattle.tg_accept.specs.Meaning.{resolve, resolve_all, resolve_branches};
ghost use Rattle.tg_accept.specs.Raw.{word};
ghost use Rattle.tg_infer.specs.Binders.{binders, AreRight};
ghost use Rattle.tg_infer.specs.Finding.{Finds, branch_meant};
ghost use Rattle.tg_infer.specs.Scopes.{scope_of};
ghost use Rattle.tg_infer.specs.View.{raw_term, raw_terms, raw_branches, seen, binder, bound_in, case_of};
ghost use Rattle.tg_infer.specs.Words.{AreWordsOf};
ghost use Rattle.tg_typing.specs.View as typing;
ghost use Rattle.tg_typing.specs.View.{resolved, all_resolved, branches};

use crate::binders::Binders;
use crate::entering::{enter, enter_all, leave_to};
use crate::scopes::Scope;
use crate::uses::{datatype_of_first, meaning, names_of, used};
use sqlite_items::{Boxed, Items};
use std::alloc::AllocError;
use tg_grammar::{Binder, RawBranch, RawTerm};
use tg_types::Name;
use tg_typing::{Branch, Resolved};

/// The term with its words looked up, or `None` where one of them means nothing. The variables that are bound
/// around it are as before where there is a term.
#[cycle(resolve)]
#[tactic(auto, using(crate::proofs::ResolvingLaws::resolving))]
pub fn resolve(
    scope: &Scope<'_>,
    outer: &mut Binders,
    t: &RawTerm,
) -> Result<Option<Resolved>, AllocError>
    requires words { AreWordsOf scope.now.words.now scope.now.declared.now }
    requires right { AreRight outer.old }
    ensures { IfOk result (λ found. Finds outer.old outer.new (option_map resolved found) (resolve (scope_of scope.now) (binders outer.old) (raw_term t.now))) }
{
    match t {
        RawTerm::Num(n) => Ok(Some(Resolved::Lit(*n))),
        RawTerm::Truth(b) => Ok(Some(Resolved::Truth(*b))),
        RawTerm::Use(x, ts) => resolve_use(scope, outer, x, ts.as_slice()),
        RawTerm::Free(n) => {
            if !scope.in_certificate {
                return Ok(None);
            }
            Ok(Some(Resolved::Free(*n)))
        }
        RawTerm::Bound(n) => match outer.place_of_number(*n) {
            Some(k) => Ok(Some(Resolved::Bound(u32::try_from(k).map_err(|_| AllocError)?))),
            None => Ok(None),
        },
        RawTerm::Op(o, ts) => match resolve_all(scope, outer, ts.as_slice())? {
            Some(us) => Ok(Some(Resolved::Op(*o, us))),
            None => Ok(None),
        },
        RawTerm::If(ts) => match resolve_all(scope, outer, ts.as_slice())? {
            Some(us) => Ok(Some(Resolved::If(us))),
            None => Ok(None),
        },
        RawTerm::Let(x, ts) => {
            if ts.len() != 2 {
                return Ok(None);
            }
            resolve_let(scope, outer, x, ts.as_slice())
        }
        RawTerm::Case(ts, bs) => {
            if ts.len() != 1 {
                return Ok(None);
            }
            resolve_case(scope, outer, ts.as_slice(), bs.as_slice())
        }
    }
}

#[cycle(resolve)]
#[tactic(auto, using(crate::proofs::ResolvingLaws::resolving))]
fn resolve_use(
    scope: &Scope<'_>,
    outer: &mut Binders,
    x: &Name,
    ts: &[RawTerm],
) -> Result<Option<Resolved>, AllocError>
    requires words { AreWordsOf scope.now.words.now scope.now.declared.now }
    requires right { AreRight outer.old }
    ensures { IfOk result (λ found. Finds outer.old outer.new (option_map resolved found) (resolve (scope_of scope.now) (binders outer.old) (word x.now (raw_terms ts.now)))) }
{
    let Some(word) = meaning(scope, outer, x)? else {
        return Ok(None);
    };
    match resolve_all(scope, outer, ts)? {
        Some(us) => Ok(Some(used(word, us))),
        None => Ok(None),
    }
}

#[cycle(resolve)]
#[tactic(auto, using(crate::proofs::ResolvingLaws::listing))]
pub(crate) fn resolve_all(
    scope: &Scope<'_>,
    outer: &mut Binders,
    ts: &[RawTerm],
) -> Result<Option<Items<Resolved>>, AllocError>
    requires words { AreWordsOf scope.now.words.now scope.now.declared.now }
    requires right { AreRight outer.old }
    ensures { IfOk result (λ found. Finds outer.old outer.new (option_map all_resolved found) (resolve_all (scope_of scope.now) (binders outer.old) (raw_terms ts.now))) }
{
    let mut all = Items::new(scope.alloc);
    for t in ts {
        match resolve(scope, outer, t)? {
            Some(u) => all.push(u)?,
            None => return Ok(None),
        }
    }
    Ok(Some(all))
}

/// A `let`: the bound term, and the body.
#[cycle(resolve)]
#[tactic(auto, using(crate::proofs::ResolvingLaws::resolving))]
fn resolve_let(
    scope: &Scope<'_>,
    outer: &mut Binders,
    x: &Binder,
    ts: &[RawTerm],
) -> Result<Option<Resolved>, AllocError>
    requires words { AreWordsOf scope.now.words.now scope.now.declared.now }
    requires right { AreRight outer.old }
    requires two { length ts.now ≡ 2 }
    ensures { IfOk result (λ found. Finds outer.old outer.new (option_map resolved found) (resolve (scope_of scope.now) (binders outer.old) (bound_in (binder x.now) (map raw_term ts.now)))) }
{
    let Some(t) = resolve(scope, outer, &ts[0])? else {
        return Ok(None);
    };
    let t = Boxed::new(scope.alloc, t)?;
    let before = outer.len();
    if !enter(scope, outer, x)? {
        return Ok(None);
    }
    let Some(body) = resolve(scope, outer, &ts[1])? else {
        return Ok(None);
    };
    leave_to(outer, before)?;
    let body = Boxed::new(scope.alloc, body)?;
    Ok(Some(Resolved::Let(t, body)))
}

/// A `case`: the term that is looked at, and the branches.
#[cycle(resolve)]
#[tactic(auto, using(crate::proofs::ResolvingLaws::resolving))]
fn resolve_case(
    scope: &Scope<'_>,
    outer: &mut Binders,
    ts: &[RawTerm],
    bs: &[RawBranch],
) -> Result<Option<Resolved>, AllocError>
    requires words { AreWordsOf scope.now.words.now scope.now.declared.now }
    requires right { AreRight outer.old }
    requires one { length ts.now ≡ 1 }
    ensures { IfOk result (λ found. Finds outer.old outer.new (option_map resolved found) (resolve (scope_of scope.now) (binders outer.old) (case_of (raw_branches bs.now) (map raw_term ts.now)))) }
{
    let Some(t) = resolve(scope, outer, &ts[0])? else {
        return Ok(None);
    };
    let t = Boxed::new(scope.alloc, t)?;
    let Some(bs) = resolve_branches(scope, outer, bs)? else {
        return Ok(None);
    };
    let d = datatype_of_first(scope.declared, bs.as_slice());
    Ok(Some(Resolved::Case(d, t, bs)))
}

#[cycle(resolve)]
#[tactic(auto, using(crate::proofs::ResolvingLaws::listing))]
fn resolve_branches(
    scope: &Scope<'_>,
    outer: &mut Binders,
    bs: &[RawBranch],
) -> Result<Option<Items<Branch>>, AllocError>
    requires words { AreWordsOf scope.now.words.now scope.now.declared.now }
    requires right { AreRight outer.old }
    ensures { IfOk result (λ found. Finds outer.old outer.new (option_map branches found) (resolve_branches (scope_of scope.now) (binders outer.old) (raw_branches bs.now))) }
{
    let mut all = Items::new(scope.alloc);
    for b in bs {
        match resolve_branch(scope, outer, b)? {
            Some(b) => all.push(b)?,
            None => return Ok(None),
        }
    }
    Ok(Some(all))
}

#[cycle(resolve)]
#[tactic(auto, using(crate::proofs::ResolvingLaws::resolving))]
fn resolve_branch(
    scope: &Scope<'_>,
    outer: &mut Binders,
    b: &RawBranch,
) -> Result<Option<Branch>, AllocError>
    requires words { AreWordsOf scope.now.words.now scope.now.declared.now }
    requires right { AreRight outer.old }
    ensures { IfOk result (λ found. Finds outer.old outer.new (option_map typing.seen found) (branch_meant (scope_of scope.now) (binders outer.old) (seen b.now))) }
{
    let Some(head) = scope.head(&b.con) else {
        return Ok(None);
    };
    let before = outer.len();
    if !enter_all(scope, outer, b.vars.as_slice())? {
        return Ok(None);
    }
    let Some(body) = resolve(scope, outer, &b.body)? else {
        return Ok(None);
    };
    leave_to(outer, before)?;
    let names = names_of(scope.alloc, b.vars.as_slice())?;
    Ok(Some(Branch { head, names, body }))
}
