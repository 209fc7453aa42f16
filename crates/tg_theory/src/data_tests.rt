//! Theories with datatypes.
ghost use Rattle.std.specs.Prelude.{◌≡◌, ◌∷◌, [], IfOk, codes};
ghost use Rattle.tg_types.specs.declared.types.Ty.TheVariants.{Param, App};

use crate::tests::program;
use crate::{BuildErr, Builder, Theory};
use sqlite_items::Items;
use std::alloc::{AllocError, Global};
use std::test::Fail;
use tg_declarations::{ConDef, DataDef};
use tg_term::{Node, Term, Value};
use tg_types::{Name, Ty};

/// The datatype that is declared first, at these types.
fn first_at(alloc: Global, args: &[Ty]) -> Result<Ty, AllocError> {
    let mut ts = Items::new(alloc);
    for t in args {
        ts.push(tg_types::copy(alloc, t)?)?;
    }
    Ok(Ty::App(1, ts))
}

/// `datatype endless = Again endless`
fn endless(alloc: Global) -> Result<DataDef, AllocError>
    ensures name { IfOk result (λ d. d.name ≡ codes "endless") }
    ensures params { IfOk result (λ d. d.params ≡ 0) }
    ensures cons { IfOk result (λ d. d.cons ≡ record { name = codes "Again"; args = App 1 [] ∷ [] } ∷ []) }
{
    let mut args = Items::new(alloc);
    args.push(Ty::App(1, Items::new(alloc)))?;
    let mut cons = Items::new(alloc);
    let name = Name::new(alloc, b"Again")?;
    cons.push(ConDef { name, args })?;
    let name = Name::new(alloc, b"endless")?;
    Ok(DataDef {
        name,
        params: 0,
        cons,
    })
}

/// `datatype 'a list = Nil | Cons 'a ('a list)`
fn list(alloc: Global) -> Result<DataDef, AllocError>
    ensures name { IfOk result (λ d. d.name ≡ codes "list") }
    ensures params { IfOk result (λ d. d.params ≡ 1) }
    ensures cons { IfOk result (λ d. d.cons ≡ record { name = codes "Nil"; args = [] } ∷ record { name = codes "Cons"; args = Param 1 ∷ App 1 (Param 1 ∷ []) ∷ [] } ∷ []) }
{
    let mut of_first = Items::new(alloc);
    of_first.push(Ty::Param(1))?;
    let mut args = Items::new(alloc);
    args.push(Ty::Param(1))?;
    args.push(Ty::App(1, of_first))?;
    let mut cons = Items::new(alloc);
    let name = Name::new(alloc, b"Nil")?;
    cons.push(ConDef {
        name,
        args: Items::new(alloc),
    })?;
    let name = Name::new(alloc, b"Cons")?;
    cons.push(ConDef { name, args })?;
    let name = Name::new(alloc, b"list")?;
    Ok(DataDef {
        name,
        params: 1,
        cons,
    })
}

/// `datatype ('a, 'b) pair = Pair 'a 'b`
fn pair(alloc: Global) -> Result<DataDef, AllocError>
    ensures name { IfOk result (λ d. d.name ≡ codes "pair") }
    ensures params { IfOk result (λ d. d.params ≡ 2) }
    ensures cons { IfOk result (λ d. d.cons ≡ record { name = codes "Pair"; args = Param 1 ∷ Param 2 ∷ [] } ∷ []) }
{
    let mut args = Items::new(alloc);
    args.push(Ty::Param(1))?;
    args.push(Ty::Param(2))?;
    let mut cons = Items::new(alloc);
    let name = Name::new(alloc, b"Pair")?;
    cons.push(ConDef { name, args })?;
    let name = Name::new(alloc, b"pair")?;
    Ok(DataDef {
        name,
        params: 2,
        cons,
    })
}

/// The theory of what was built, of a program on naturals, and of a specification that is True.
fn finished(alloc: Global, mut builder: Builder) -> Result<Theory, BuildErr> {
    builder.set_program(program(alloc, b"put")?)?;
    let spec = Term::new(alloc, Node::Truth(true))?;
    builder.set_spec(spec)?;
    builder.finish(Name::new(alloc, b"Small")?)
}

#[test]
fn a_datatype_needs_a_constructor_without_itself(rt: HostRuntime) -> Result<(), Fail> {
    let alloc = rt.alloc();
    let mut builder = Builder::new(alloc);
    let added = builder.add_data(endless(alloc)?);
    assert!(rt; matches!(added, Err(BuildErr::Shape)));
    Ok(())
}

#[test]
fn lists_have_types_and_a_least_value(rt: HostRuntime) -> Result<(), Fail> {
    let alloc = rt.alloc();
    let mut builder = Builder::new(alloc);
    assert!(rt; matches!(builder.add_data(list(alloc)?), Ok(1)));
    let th = finished(alloc, builder)?;
    let naturals = first_at(alloc, &[Ty::Nat])?;
    let empty = Term::new(alloc, Node::Con(1, Items::new(alloc)))?;
    assert!(rt; th.typed(alloc, &[], &empty, &naturals)?);
    assert!(rt; !th.typed(alloc, &[], &empty, &Ty::Nat)?);
    assert!(rt; matches!(th.least(alloc, &naturals)?, Value::Con(1, _)));
    Ok(())
}

/// 150 bindings, each of a pair of the one before: the type of the last one is a tree of 2^150 leaves.
#[test]
fn a_tower_of_pairs_is_typed(rt: HostRuntime) -> Result<(), Fail> {
    let alloc = rt.alloc();
    let mut builder = Builder::new(alloc);
    assert!(rt; matches!(builder.add_data(pair(alloc)?), Ok(1)));
    let th = finished(alloc, builder)?;
    let mut tower = Term::new(alloc, Node::Truth(true))?;
    for _ in 0..150 {
        let mut sides = Items::new(alloc);
        sides.push(Term::new(alloc, Node::Bound(0))?)?;
        sides.push(Term::new(alloc, Node::Bound(0))?)?;
        let doubled = Term::new(alloc, Node::Con(1, sides))?;
        tower = Term::new(alloc, Node::Let(doubled, tower))?;
    }
    let base = Term::new(alloc, Node::Lit(0))?;
    let tower = Term::new(alloc, Node::Let(base, tower))?;
    assert!(rt; th.typed(alloc, &[], &tower, &Ty::Bool)?);
    assert!(rt; !th.typed(alloc, &[], &tower, &Ty::Nat)?);
    Ok(())
}
