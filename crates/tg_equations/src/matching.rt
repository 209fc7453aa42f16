//! Where equations match their arguments, and what for.
ghost use Rattle.std.specs.Prelude.{◌≡◌, ◌∷◌, ◌↔◌, [], true, IfOk, map, option_copied, option_map};
ghost use Rattle.std.specs.List.{list_all};
ghost use Rattle.tg_accept.specs.Checks.{Each};
ghost use Rattle.tg_accept.specs.Core.{heads_of};
ghost use Rattle.tg_accept.specs.Declared.{theory};
ghost use Rattle.tg_accept.specs.Equations as model;
ghost use Rattle.tg_accept.specs.Functions.{places, place_in};
ghost use Rattle.tg_equations.specs.Matched.{AreEquationPlaces, datatype_in, first_head};
ghost use Rattle.tg_equations.specs.Places.{holds_one};
ghost use Rattle.tg_equations.specs.View.{equations, patterns};
ghost use Rattle.tg_model.specs.Theory.{datatype_of, numbered};
ghost use Rattle.tg_types.specs.Types.{ty};
ghost use Rattle.tg_typing.specs.View.{head};

use crate::equations::{Equation, Pattern};
use crate::heads::heads;
use crate::places::Places;
use sqlite_items::Items;
use std::alloc::{AllocError, Global};
use tg_declarations::Declarations;
use tg_types::{DataId, Ty};
use tg_typing::Head;

// The places of the constructor patterns, from 1.
fn places(alloc: Global, ps: &[Pattern]) -> Result<Items<usize>, AllocError>
    ensures { IfOk result (λ ns. ns ≡ places (patterns ps.now)) }
{
    let mut all = Items::new(alloc);
    for (at, p) in ps.iter().enumerate() {
        if let Pattern::Matched(_, _) = p {
            all.push(at + 1)?;
        }
    }
    Ok(all)
}

/// The place of the first constructor pattern of the first equation, 0 where there is none.
pub(crate) fn place_in(alloc: Global, es: &[Equation]) -> Result<usize, AllocError>
    ensures { IfOk result (λ n. n ≡ place_in (equations es.now)) }
{
    let Some(e) = es.get(0) else {
        return Ok(0);
    };
    let ns = places(alloc, e.patterns.as_slice())?;
    match ns.as_slice().get(0) {
        Some(n) => Ok(*n),
        None => Ok(0),
    }
}

/// Whether each equation has just one constructor pattern, at this place.
pub(crate) fn are_at(alloc: Global, es: &[Equation], place: usize) -> Result<bool, AllocError>
    ensures { IfOk result (λ yes. (yes ≡ true) ↔ Each (λ (e : model.Equation). places e.patterns ≡ place ∷ []) (equations es.now)) }
{
    for e in es {
        let ns = places(alloc, e.patterns.as_slice())?;
        if !is_only(ns.as_slice(), place) {
            return Ok(false);
        }
    }
    Ok(true)
}

fn is_only(ns: &[usize], place: usize) -> bool
    ensures { (result ≡ true) ↔ (ns.now ≡ place ∷ []) }
{
    if ns.len() == 1 { ns[0] == place } else { false }
}

/// Whether no equation has a constructor pattern.
pub(crate) fn are_without(alloc: Global, es: &[Equation]) -> Result<bool, AllocError>
    ensures { IfOk result (λ yes. (yes ≡ true) ↔ Each (λ (e : model.Equation). places e.patterns ≡ []) (equations es.now)) }
{
    for e in es {
        let ns = places(alloc, e.patterns.as_slice())?;
        if !ns.as_slice().is_empty() {
            return Ok(false);
        }
    }
    Ok(true)
}

/// The datatype of the argument at a place, from 1, and 0 for nat and where there is none.
#[tactic(auto, using(crate::proofs::MatchedLaws::datatypes))]
pub(crate) fn datatype_at(args: &[Ty], place: usize) -> DataId
    ensures { result ≡ datatype_in (map ty args.now) place }
{
    match argument(args, place) {
        Some(t) => datatype_of(t),
        None => 0,
    }
}

fn argument(args: &[Ty], place: usize) -> Option<&Ty>
    ensures { option_copied result ≡ numbered args.now place }
{
    args.get(place.checked_sub(1)?)
}

// The number of a type's datatype, 0 for every other type.
fn datatype_of(t: &Ty) -> DataId
    ensures { result ≡ datatype_of (ty t.now) }
{
    match t {
        Ty::App(d, _) => *d,
        _ => 0,
    }
}

// What the first constructor pattern is for.
fn first_head(ps: &[Pattern]) -> Option<Head>
    ensures { option_map head result ≡ first_head (patterns ps.now) }
{
    for p in ps {
        if let Pattern::Matched(h, _) = p {
            return Some(*h);
        }
    }
    None
}

/// The places of equations, by what their first constructor patterns are for.
pub(crate) fn equation_places(alloc: Global, es: &[Equation]) -> Result<Places, AllocError>
    ensures { IfOk result (λ places. AreEquationPlaces places (equations es.now)) }
{
    let mut places = Places::new(alloc);
    for (at, e) in es.iter().enumerate() {
        match first_head(e.patterns.as_slice()) {
            Some(h) => {
                places.note(h, at)?;
            }
            None => {}
        }
    }
    Ok(places)
}

/// Whether there is exactly one equation for each constructor of a datatype.
pub(crate) fn has_one_each(
    alloc: Global,
    declared: &Declarations,
    n: DataId,
    places: &Places,
) -> Result<bool, AllocError>
    ensures { IfOk result (λ yes. yes ≡ list_all (holds_one places.now) (heads_of (theory [] declared.now) n)) }
{
    let heads = heads(alloc, declared, n)?;
    for h in heads.as_slice() {
        if !places.has_one(*h) {
            return Ok(false);
        }
    }
    Ok(true)
}
