//! What a function means, by its equations.
ghost use Rattle.std.specs.Prelude.{◌≡◌, ◌+◌, [], IfOk, map, length};
ghost use Rattle.tg_accept.specs.Core.{core, heads_of};
ghost use Rattle.tg_accept.specs.Declared.{theory};
ghost use Rattle.tg_accept.specs.Functions.{body_of, first_side, place_in, side_for, whole_function};
ghost use Rattle.tg_declarations.specs.View.{body, function};
ghost use Rattle.tg_equations.specs.Matched.{datatype_in, side_at};
ghost use Rattle.tg_equations.specs.View.{equations};
ghost use Rattle.tg_equations.specs.Shaped.{meant};
ghost use Rattle.tg_model.specs.Theory as model;
ghost use Rattle.tg_types.specs.Types.{ty};

use crate::core_terms::{core_term, count};
use crate::equations::Equation;
use crate::heads::heads;
use crate::matching::{datatype_at, equation_places, place_in};
use crate::places::Place;
use sqlite_items::Items;
use std::alloc::{AllocError, Global};
use tg_declarations::{Body, Declarations, FunDef};
use tg_term::{FunId, Node, Term};
use tg_types::{DataId, Ty};

/// The function that equations declare, whose name and types `signature` gives; its body says nothing. A
/// recursive function has a case for each constructor of the argument that the first equation matches, which
/// is False where there is no equation; another function means the right side of its first equation, and
/// False where there is none. Memory is wanting also where the function's number, or the place, would be above
/// 2^32 - 1.
pub fn whole_function(
    alloc: Global,
    declared: &Declarations,
    is_recursive: bool,
    signature: FunDef,
    es: &[Equation],
) -> Result<FunDef, AllocError>
    ensures { IfOk result (λ def. function def ≡ whole_function declared.now is_recursive (meant (function signature) (equations es.now))) }
{
    let own = declared.next_function()?;
    let body = if is_recursive {
        recursive_body(alloc, declared, own, signature.args.as_slice(), es)?
    } else {
        plain_body(alloc, declared, own, es)?
    };
    Ok(FunDef { body, ..signature })
}

fn recursive_body(
    alloc: Global,
    declared: &Declarations,
    own: FunId,
    args: &[Ty],
    es: &[Equation],
) -> Result<Body, AllocError>
    ensures { IfOk result (λ b. body b ≡ model.recursive (place_in (equations es.now))
        (map (λ h. core (theory [] declared.now) own (side_for (equations es.now) h)) (heads_of (theory [] declared.now) (datatype_in (map ty args.now) (place_in (equations es.now)))))) }
{
    let place = place_in(alloc, es)?;
    let n = datatype_at(args, place);
    let cases = cases(alloc, declared, own, n, es)?;
    Ok(Body::Rec {
        place: count(place)?,
        cases,
    })
}

fn plain_body(
    alloc: Global,
    declared: &Declarations,
    own: FunId,
    es: &[Equation],
) -> Result<Body, AllocError>
    ensures { IfOk result (λ b. body b ≡ model.plain (core (theory [] declared.now) own (first_side (equations es.now)))) }
{
    match es.get(0) {
        Some(e) => Ok(Body::Plain(core_term(alloc, declared, own, &e.body)?)),
        None => Ok(Body::Plain(Term::new(alloc, Node::Truth(false))?)),
    }
}

// A term for each constructor of a datatype, in their order.
fn cases(
    alloc: Global,
    declared: &Declarations,
    own: FunId,
    n: DataId,
    es: &[Equation],
) -> Result<Items<Term>, AllocError>
    ensures { IfOk result (λ ts. ts ≡ map (λ h. core (theory [] declared.now) own (side_for (equations es.now) h)) (heads_of (theory [] declared.now) n)) }
{
    let heads = heads(alloc, declared, n)?;
    let places = equation_places(alloc, es)?;
    let mut all = Items::new(alloc);
    for h in heads.as_slice() {
        all.push(side_at(alloc, declared, own, es, places.find(*h))?)?;
    }
    Ok(all)
}

// The core term of the right side at a place.
fn side_at(
    alloc: Global,
    declared: &Declarations,
    own: FunId,
    es: &[Equation],
    at: Option<Place>,
) -> Result<Term, AllocError>
    ensures { IfOk result (λ t. t ≡ core (theory [] declared.now) own (side_at (equations es.now) at)) }
{
    let Some(place) = at else {
        return Term::new(alloc, Node::Truth(false));
    };
    match es.get(place.first) {
        Some(e) => core_term(alloc, declared, own, &e.body),
        None => Term::new(alloc, Node::Truth(false)),
    }
}
