//! Each public call once, on a function that takes a natural down to 0 and on a term that asks for 0.
ghost use Rattle.std.specs.Prelude.{◌≡◌, ◌∷◌, [], IfOk, map};
ghost use Rattle.tg_accept.specs.Declared.{nothing, theory};
ghost use Rattle.tg_accept.specs.Meant.{AreMade};
ghost use Rattle.tg_types.specs.Types.{ty};

use crate::{
    Equation, Pattern, are_cases_right, are_cases_shaped, are_distinct, core_term,
    count_equation_typings, count_specification_typings, is_function_written,
    is_specification_shaped, left_types, whole_function,
};
use sqlite_items::{Boxed, Items};
use std::alloc::{AllocError, Global};
use std::test::Fail;
use tg_declarations::{Body, Declarations, FunDef};
use tg_term::{Node, Term};
use tg_types::{Name, Ty};
use tg_typing::{Branch, Head, Resolved, Typings};

fn names(alloc: Global, count: u32) -> Result<Items<Name>, AllocError> {
    let mut names = Items::new(alloc);
    for _ in 0..count {
        names.push(Name::new(alloc, b"n")?)?;
    }
    Ok(names)
}

// `f : nat -> nat`.
fn signature(alloc: Global) -> Result<FunDef, AllocError>
    ensures { IfOk result (λ def. AreMade (theory [] nothing) def.params (ty def.result ∷ map ty def.args)) }
{
    let name = Name::new(alloc, b"f")?;
    let body = Term::new(alloc, Node::Truth(false))?;
    let mut args = Items::new(alloc);
    args.push(Ty::Nat)?;
    Ok(FunDef {
        name,
        params: 0,
        args,
        result: Ty::Nat,
        body: Body::Plain(body),
    })
}

// `f 0 = 0`.
fn at_zero(alloc: Global) -> Result<Equation, AllocError> {
    let head = Name::new(alloc, b"f")?;
    let mut patterns = Items::new(alloc);
    patterns.push(Pattern::Matched(Head::Zero, Items::new(alloc)))?;
    Ok(Equation {
        head,
        patterns,
        body: Resolved::Lit(0),
    })
}

// `f (Suc n) = f n`.
fn at_successor(alloc: Global) -> Result<Equation, AllocError> {
    let head = Name::new(alloc, b"f")?;
    let mut patterns = Items::new(alloc);
    patterns.push(Pattern::Matched(Head::Successor, names(alloc, 1)?))?;
    let mut args = Items::new(alloc);
    args.push(Resolved::Free(1))?;
    Ok(Equation {
        head,
        patterns,
        body: Resolved::Own(args),
    })
}

fn equations(alloc: Global) -> Result<Items<Equation>, AllocError> {
    let mut es = Items::new(alloc);
    es.push(at_successor(alloc)?)?;
    es.push(at_zero(alloc)?)?;
    Ok(es)
}

fn is_written(alloc: Global, f: &FunDef, es: &[Equation]) -> Result<bool, AllocError> {
    let declared = Declarations::new(alloc);
    let written = is_function_written(alloc, &declared, true, f, es)?;
    Ok(written)
}

fn typings(alloc: Global, f: &FunDef, e: &Equation) -> Result<Typings, AllocError>
    requires { AreMade (theory [] nothing) f.now.params (ty f.now.result ∷ map ty f.now.args) }
{
    let declared = Declarations::new(alloc);
    let typings = count_equation_typings(alloc, &declared, true, f, e)?;
    Ok(typings)
}

fn count_variables(alloc: Global, e: &Equation) -> Result<Option<usize>, AllocError> {
    let declared = Declarations::new(alloc);
    match left_types(alloc, &declared, e.patterns.as_slice(), &[Ty::Nat])? {
        Some(ts) => Ok(Some(ts.len())),
        None => Ok(None),
    }
}

// The place at which the function recurses, and how many cases it has.
fn recursion(
    alloc: Global,
    f: FunDef,
    es: &[Equation],
) -> Result<Option<(u32, usize)>, AllocError> {
    let declared = Declarations::new(alloc);
    let def = whole_function(alloc, &declared, true, f, es)?;
    match &def.body {
        Body::Rec { place, cases } => Ok(Some((*place, cases.len()))),
        Body::Plain(_) => Ok(None),
    }
}

// `case ?1 of Suc n => False | 0 => True`.
fn is_zero(alloc: Global) -> Result<Resolved, AllocError> {
    let mut branches = Items::new(alloc);
    branches.push(Branch {
        head: Head::Successor,
        names: names(alloc, 1)?,
        body: Resolved::Truth(false),
    })?;
    branches.push(Branch {
        head: Head::Zero,
        names: names(alloc, 0)?,
        body: Resolved::Truth(true),
    })?;
    Ok(Resolved::Case(0, Boxed::new(alloc, Resolved::Free(1))?, branches))
}

fn is_right(alloc: Global, t: &Resolved) -> Result<bool, AllocError> {
    let declared = Declarations::new(alloc);
    Ok(are_cases_right(alloc, &declared, t)? && are_cases_shaped(alloc, &declared, t)?)
}

fn is_specification(alloc: Global, t: &Resolved) -> Result<bool, AllocError> {
    let declared = Declarations::new(alloc);
    let shaped = is_specification_shaped(alloc, &declared, &[], t)?;
    Ok(shaped)
}

fn specification_typings(alloc: Global, t: &Resolved) -> Result<Typings, AllocError> {
    let declared = Declarations::new(alloc);
    let typings = count_specification_typings(alloc, &declared, t)?;
    Ok(typings)
}

// How many variables the first branch of the core term binds.
fn first_vars(alloc: Global, t: &Resolved) -> Result<Option<u32>, AllocError> {
    let declared = Declarations::new(alloc);
    let term = core_term(alloc, &declared, 1, t)?;
    match term.node() {
        Node::Case(_, _, bs) => match bs.as_slice().get(0) {
            Some(b) => Ok(Some(b.vars)),
            None => Ok(None),
        },
        _ => Ok(None),
    }
}

#[test]
fn a_function_on_naturals(rt: HostRuntime) -> Result<(), Fail> {
    let alloc = rt.alloc();
    let es = equations(alloc)?;
    let f = signature(alloc)?;
    assert!(rt; is_written(alloc, &f, es.as_slice())?);
    assert_eq!(rt; recursion(alloc, f, es.as_slice())?, Some((1, 2)));
    Ok(())
}

#[test]
fn an_equation_on_naturals(rt: HostRuntime) -> Result<(), Fail> {
    let alloc = rt.alloc();
    let e = at_successor(alloc)?;
    let f = signature(alloc)?;
    assert_eq!(rt; count_variables(alloc, &e)?, Some(1));
    assert_eq!(rt; typings(alloc, &f, &e)?, Typings::One);
    Ok(())
}

#[test]
fn a_case_on_naturals(rt: HostRuntime) -> Result<(), Fail> {
    let alloc = rt.alloc();
    let t = is_zero(alloc)?;
    assert!(rt; is_right(alloc, &t)?);
    assert!(rt; is_specification(alloc, &t)?);
    assert_eq!(rt; first_vars(alloc, &t)?, Some(0));
    Ok(())
}

#[test]
fn a_truth_value_and_names(rt: HostRuntime) -> Result<(), Fail> {
    let alloc = rt.alloc();
    assert_eq!(rt;
        specification_typings(alloc, &Resolved::Truth(true))?,
        Typings::One
    );
    let twice = names(alloc, 2)?;
    assert!(rt; !are_distinct(alloc, twice.as_slice())?);
    Ok(())
}
