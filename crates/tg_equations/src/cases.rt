//! Whether the `case`s of a term have the branches that their datatypes ask for.
ghost use Rattle.std.specs.Prelude.{◌≡◌, ◌↔◌, [], true, IfOk, map};
ghost use Rattle.std.specs.List.{list_all};
ghost use Rattle.std.specs.Str.{bytes_eq};
ghost use Rattle.tg_accept.specs.Cases.{AreCasesShaped, AreOnce, EachCaseIn};
ghost use Rattle.tg_accept.specs.Core.{EachCaseWhole, heads_of};
ghost use Rattle.tg_accept.specs.Declared.{theory};
ghost use Rattle.tg_accept.specs.Resolved as model;
ghost use Rattle.tg_equations.specs.Checked.{are_branches, have_different_variables, each_case, each_cases, each_branch};
ghost use Rattle.tg_equations.specs.Places.{holds};
ghost use Rattle.tg_equations.specs.Placed.{IsPlaced, passes};
ghost use Rattle.tg_typing.specs.View.{head, resolved, all_resolved, branches};

use crate::heads::heads;
use crate::names::are_different;
use crate::places::Places;
use std::alloc::{AllocError, Global};
use tg_declarations::Declarations;
use tg_types::DataId;
use tg_typing::{Branch, Resolved};

/// What is asked of the branches of a `case`.
#[derive(Clone, Copy)]
struct Checks<'a> {
    alloc: Global,
    declared: &'a Declarations,
    // Whether the variables of a branch have to differ.
    named: bool,
}

/// Whether each `case` of a term has a branch for each constructor of its datatype, and no two for one
/// constructor.
pub fn are_cases_right(
    alloc: Global,
    declared: &Declarations,
    t: &Resolved,
) -> Result<bool, AllocError>
    ensures { IfOk result (λ yes. (yes ≡ true) ↔ (EachCaseWhole (theory [] declared.now) (resolved t.now) × EachCaseIn AreOnce (resolved t.now))) }
{
    let checks = Checks {
        alloc,
        declared,
        named: false,
    };
    let right = pass(&checks, t)?;
    Ok(right)
}

/// Whether each `case` of a term has a branch for each constructor of its datatype, no two for one, and no
/// variable twice in a branch.
pub fn are_cases_shaped(
    alloc: Global,
    declared: &Declarations,
    t: &Resolved,
) -> Result<bool, AllocError>
    ensures { IfOk result (λ yes. (yes ≡ true) ↔ AreCasesShaped (theory [] declared.now) (resolved t.now)) }
{
    let checks = Checks {
        alloc,
        declared,
        named: true,
    };
    let shaped = pass(&checks, t)?;
    Ok(shaped)
}

#[cycle(cases)]
#[tactic(auto, using(crate::proofs::CheckedLaws::walking))]
fn pass(checks: &Checks<'_>, t: &Resolved) -> Result<bool, AllocError>
    ensures { IfOk result (λ yes. yes ≡ each_case (passes checks.now) (resolved t.now)) }
{
    match t {
        Resolved::Bound(_) | Resolved::Free(_) | Resolved::Lit(_) | Resolved::Truth(_) => Ok(true),
        Resolved::Con(_, ts) => pass_all(checks, ts.as_slice()),
        Resolved::Call(_, ts) => pass_all(checks, ts.as_slice()),
        Resolved::Own(ts) => pass_all(checks, ts.as_slice()),
        Resolved::Misused(ts) => pass_all(checks, ts.as_slice()),
        Resolved::Put(ts) => pass_all(checks, ts.as_slice()),
        Resolved::If(ts) => pass_all(checks, ts.as_slice()),
        Resolved::Op(_, ts) => pass_all(checks, ts.as_slice()),
        Resolved::Case(n, t, bs) => {
            if !are_branches(checks, *n, bs.as_slice())? {
                return Ok(false);
            }
            if !pass(checks, t.get())? {
                return Ok(false);
            }
            pass_branches(checks, bs.as_slice())
        }
        Resolved::Let(t, body) => {
            if !pass(checks, t.get())? {
                return Ok(false);
            }
            pass(checks, body.get())
        }
    }
}

#[cycle(cases)]
#[tactic(auto, using(crate::proofs::CheckedLaws::walking))]
fn pass_all(checks: &Checks<'_>, ts: &[Resolved]) -> Result<bool, AllocError>
    ensures { IfOk result (λ yes. yes ≡ each_cases (passes checks.now) (all_resolved ts.now)) }
{
    for t in ts {
        if !pass(checks, t)? {
            return Ok(false);
        }
    }
    Ok(true)
}

#[cycle(cases)]
#[tactic(auto, using(crate::proofs::CheckedLaws::walking))]
fn pass_branches(checks: &Checks<'_>, bs: &[Branch]) -> Result<bool, AllocError>
    ensures { IfOk result (λ yes. yes ≡ each_branch (passes checks.now) (branches bs.now)) }
{
    for b in bs {
        if !pass(checks, &b.body)? {
            return Ok(false);
        }
    }
    Ok(true)
}

// The branches of a `case` on datatype `n` pass.
fn are_branches(checks: &Checks<'_>, n: DataId, bs: &[Branch]) -> Result<bool, AllocError>
    ensures { IfOk result (λ yes. yes ≡ passes checks.now n (branches bs.now)) }
{
    let Some(places) = places_once(checks.alloc, bs)? else {
        return Ok(false);
    };
    if !has_all(checks.alloc, checks.declared, n, &places)? {
        return Ok(false);
    }
    if !checks.named {
        return Ok(true);
    }
    let different = have_different_variables(checks.alloc, bs)?;
    Ok(different)
}

// The places of branches; `None` where there are two for one constructor.
fn places_once(alloc: Global, bs: &[Branch]) -> Result<Option<Places>, AllocError>
    ensures { IfOk result (λ found. IsPlaced (branches bs.now) found) }
{
    let mut places = Places::new(alloc);
    for (at, b) in bs.iter().enumerate() {
        if !places.note(b.head, at)? {
            return Ok(None);
        }
    }
    Ok(Some(places))
}

// Whether there is something for each constructor of a datatype.
fn has_all(
    alloc: Global,
    declared: &Declarations,
    n: DataId,
    places: &Places,
) -> Result<bool, AllocError>
    ensures { IfOk result (λ yes. yes ≡ list_all (holds places.now) (heads_of (theory [] declared.now) n)) }
{
    let heads = heads(alloc, declared, n)?;
    for h in heads.as_slice() {
        if places.find(*h).is_none() {
            return Ok(false);
        }
    }
    Ok(true)
}

fn have_different_variables(alloc: Global, bs: &[Branch]) -> Result<bool, AllocError>
    ensures { IfOk result (λ yes. yes ≡ have_different_variables (branches bs.now)) }
{
    for b in bs {
        if !are_different(alloc, b.names.as_slice())? {
            return Ok(false);
        }
    }
    Ok(true)
}
