ghost use Rattle.std.specs.Prelude.{◌≡◌, ◌∷◌, [], IfOk};
ghost use Rattle.tg_declarations.specs.declared.definitions.Body.TheVariants.{Plain};
ghost use Rattle.tg_model.specs.Tree.{free, op, plus, two};
ghost use Rattle.tg_types.specs.declared.types.Ty.TheVariants.{Nat};

use crate::{NormErr, normal};
use sqlite_items::Items;
use std::alloc::{AllocError, Global};
use std::test::Fail;
use tg_declarations::{Body, FunDef, ProgDef};
use tg_term::{Node, Term, same};
use tg_theory::{BuildErr, Builder, Theory};
use tg_types::{Name, Ty};

fn single(alloc: Global, t: Term) -> Result<Items<Term>, AllocError>
    ensures { IfOk result (λ ts. ts ≡ t ∷ []) }
{
    let mut terms = Items::new(alloc);
    terms.push(t)?;
    Ok(terms)
}

fn pair(alloc: Global, left: Term, right: Term) -> Result<Items<Term>, AllocError>
    ensures { IfOk result (λ ts. ts ≡ left ∷ right ∷ []) }
{
    let mut terms = single(alloc, left)?;
    terms.push(right)?;
    Ok(terms)
}

fn one_natural(alloc: Global) -> Result<Items<Ty>, AllocError>
    ensures { IfOk result (λ ts. ts ≡ Nat ∷ []) }
{
    let mut types = Items::new(alloc);
    types.push(Ty::Nat)?;
    Ok(types)
}

fn first_variable(alloc: Global) -> Result<Term, AllocError>
    ensures { IfOk result (λ t. t ≡ free 1) }
{
    let t = Term::new(alloc, Node::Free(1))?;
    Ok(t)
}

/// `?1 + ?1`
fn doubled(alloc: Global) -> Result<Term, AllocError>
    ensures { IfOk result (λ t. t ≡ op plus (two (free 1) (free 1))) }
{
    let sides = pair(alloc, first_variable(alloc)?, first_variable(alloc)?)?;
    let t = Term::new(alloc, Node::Op(9, sides))?;
    Ok(t)
}

/// `definition dup x = x + x` on naturals.
fn dup(alloc: Global) -> Result<FunDef, AllocError>
    ensures name { IfOk result (λ def. def.name ≡ 100 ∷ 117 ∷ 112 ∷ []) }
    ensures params { IfOk result (λ def. def.params ≡ 0) }
    ensures args { IfOk result (λ def. def.args ≡ Nat ∷ []) }
    ensures answer { IfOk result (λ def. def.result ≡ Nat) }
    ensures body { IfOk result (λ def. def.body ≡ Plain (op plus (two (free 1) (free 1)))) }
{
    let name = Name::new(alloc, b"dup")?;
    let args = one_natural(alloc)?;
    let body = Body::Plain(doubled(alloc)?);
    Ok(FunDef {
        name,
        params: 0,
        args,
        result: Ty::Nat,
        body,
    })
}

fn program(alloc: Global) -> Result<ProgDef, AllocError>
    ensures name { IfOk result (λ def. def.name ≡ 112 ∷ 117 ∷ 116 ∷ []) }
    ensures inputs { IfOk result (λ def. def.inputs ≡ Nat ∷ []) }
    ensures answer { IfOk result (λ def. def.answer ≡ Nat) }
{
    let name = Name::new(alloc, b"put")?;
    let inputs = one_natural(alloc)?;
    Ok(ProgDef {
        name,
        inputs,
        answer: Ty::Nat,
    })
}

/// The theory of `dup` and of a program on naturals.
fn theory(alloc: Global) -> Result<Theory, BuildErr> {
    let mut builder = Builder::new(alloc);
    builder.add_def(dup(alloc)?)?;
    builder.set_program(program(alloc)?)?;
    let spec = Term::new(alloc, Node::Truth(true))?;
    builder.set_spec(spec)?;
    builder.finish(Name::new(alloc, b"Small")?)
}

/// `left = n`
fn equation(alloc: Global, left: Term, n: u64) -> Result<Term, AllocError> {
    let sides = pair(alloc, left, Term::new(alloc, Node::Lit(n))?)?;
    Term::new(alloc, Node::Op(6, sides))
}

/// `dup` applied so many times to `?1`.
fn tower(alloc: Global, height: u32) -> Result<Term, AllocError> {
    let mut t = first_variable(alloc)?;
    for _ in 0..height {
        t = Term::new(alloc, Node::Call(1, single(alloc, t)?))?;
    }
    Ok(t)
}

/// `Suc ?1 = 3` is `?1 = 2`: the calls are the first, `Suc ?1`, `?1`, `3`, then the result, `?1` and `2`.
#[test]
fn a_successor_is_taken_off_an_equation(rt: HostRuntime) -> Result<(), Fail> {
    let alloc = rt.alloc();
    let th = theory(alloc)?;
    let next = Term::new(alloc, Node::Op(1, single(alloc, first_variable(alloc)?)?))?;
    let t = equation(alloc, next, 3)?;
    let found = normal(alloc, &th, &t, 7)?;
    assert!(rt; same(&found.term, &equation(alloc, first_variable(alloc)?, 2)?));
    assert!(rt; found.cost == 7);
    assert!(rt; found.steps.len() == 1);
    assert!(rt; matches!(normal(alloc, &th, &t, 6), Err(NormErr::Steps)));
    Ok(())
}

/// The last unfolding of 16 has 131,071 nodes.
#[test]
fn fifteen_doublings_are_unfolded_and_sixteen_are_too_large(rt: HostRuntime) -> Result<(), Fail> {
    let alloc = rt.alloc();
    let th = theory(alloc)?;
    let found = normal(alloc, &th, &tower(alloc, 15)?, 2_000_000)?;
    assert!(rt; found.cost == 131_069);
    assert!(rt; found.term.nodes() == 65_535);
    assert!(rt; found.steps.len() == 15);
    let larger = normal(alloc, &th, &tower(alloc, 16)?, 2_000_000);
    assert!(rt; matches!(larger, Err(NormErr::Steps)));
    Ok(())
}
