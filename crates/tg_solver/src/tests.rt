ghost use Rattle.std.specs.Prelude.{◌≡◌, ◌∷◌, [], IfOk};
ghost use Rattle.tg_types.specs.declared.types.Ty.TheVariants.{Nat};

use crate::data::{datum, first};
use rand_core::utils::NextWord;
use rand_pcg::Pcg32;
use sqlite_items::Items;
use std::alloc::{AllocError, Global};
use std::test::Fail;
use tg_declarations::{Body, Declarations, FunDef, ProgDef};
use tg_term::{Class, Node, Pattern, Term};
use tg_theory::{BuildErr, Builder, Theory};
use tg_types::{Name, Settings, Ty};

/// The first words are those that the authors of PCG print for seed 42 and stream 54, the others those that their
/// minimal C implementation gives for seed 1 and stream 1.
#[test]
fn words_are_those_of_the_reference(rt: HostRuntime) -> Result<(), Fail> {
    let mut printed = Pcg32::new(42, 54);
    assert!(rt; printed.next_word() == 0xa15c_02b7);
    assert!(rt; printed.next_word() == 0x7b47_f409);
    let mut of_one = Pcg32::new(1, 1);
    assert!(rt; of_one.next_word() == 0xc982_8f91);
    assert!(rt; of_one.next_word() == 0x1592_e274);
    Ok(())
}

/// An operator at a term and a number.
fn operation(alloc: Global, o: u32, left: Term, n: u64) -> Result<Term, AllocError> {
    let right = Term::new(alloc, Node::Lit(n))?;
    let terms = pair(alloc, left, right)?;
    Term::new(alloc, Node::Op(o, terms))
}

fn pair(alloc: Global, left: Term, right: Term) -> Result<Items<Term>, AllocError> {
    let mut terms = Items::new(alloc);
    terms.push(left)?;
    terms.push(right)?;
    Ok(terms)
}

fn single(alloc: Global, t: Term) -> Result<Items<Term>, AllocError> {
    let mut terms = Items::new(alloc);
    terms.push(t)?;
    Ok(terms)
}

/// `?1 = n`
fn equation(alloc: Global, n: u64) -> Result<Items<Term>, AllocError> {
    let t = operation(alloc, 6, Term::new(alloc, Node::Free(1))?, n)?;
    single(alloc, t)
}

/// The class of one natural with these constraints.
fn class(alloc: Global, constraints: Items<Term>) -> Result<Class, AllocError> {
    let mut vars = Items::new(alloc);
    vars.push(Ty::Nat)?;
    let terms = Items::new(alloc);
    let pattern = Pattern { terms, vars };
    let checks = Items::new(alloc);
    Ok(Class {
        pattern,
        constraints,
        checks,
    })
}

fn program(alloc: Global) -> Result<ProgDef, AllocError>
    ensures name { IfOk result (λ def. def.name ≡ 112 ∷ 117 ∷ 116 ∷ []) }
    ensures inputs { IfOk result (λ def. def.inputs ≡ Nat ∷ []) }
    ensures answer { IfOk result (λ def. def.answer ≡ Nat) }
{
    let name = Name::new(alloc, b"put")?;
    let inputs = {
        let mut inputs = Items::new(alloc);
        inputs.push(Ty::Nat)?;
        inputs
    };
    Ok(ProgDef {
        name,
        inputs,
        answer: Ty::Nat,
    })
}

fn theory(alloc: Global) -> Result<Theory, BuildErr> {
    let mut builder = Builder::new(alloc);
    builder.set_program(program(alloc)?)?;
    let spec = Term::new(alloc, Node::Truth(true))?;
    builder.set_spec(spec)?;
    builder.finish(Name::new(alloc, b"Small")?)
}

/// Whether `?1 = n` has a datum.
fn has_datum(alloc: Global, th: &Theory, n: u64, s: &Settings) -> Result<bool, AllocError> {
    let c = class(alloc, equation(alloc, n)?)?;
    let found = datum(alloc, th, &c, s, 1)?;
    Ok(found.is_some())
}

const fn up_to(bound: u32) -> Settings {
    Settings {
        depth: 3,
        bound,
        seed: 1,
        tries: 0,
        width: 16,
    }
}

#[test]
fn a_number_is_found_up_to_the_bound_or_drawn(rt: HostRuntime) -> Result<(), Fail> {
    let alloc = rt.alloc();
    let th = theory(alloc)?;
    assert!(rt; has_datum(alloc, &th, 1000, &up_to(1000))?);
    assert!(rt; !has_datum(alloc, &th, 1000, &up_to(8))?);
    assert!(rt; !has_datum(alloc, &th, 1000, &Settings::DEFAULT)?);
    assert!(rt; has_datum(alloc, &th, 0x8f91, &Settings::DEFAULT)?);
    Ok(())
}

/// A function on naturals that recurses on its first argument, 0 at 0.
fn recursion(alloc: Global, arity: usize, step: Term) -> Result<FunDef, AllocError> {
    let mut args = Items::new(alloc);
    for _ in 0..arity {
        args.push(Ty::Nat)?;
    }
    let cases = pair(alloc, Term::new(alloc, Node::Lit(0))?, step)?;
    Ok(FunDef {
        name: Name::new(alloc, b"f")?,
        params: 0,
        args,
        result: Ty::Nat,
        body: Body::Rec { place: 1, cases },
    })
}

/// `row 0 = 0`, `row (Suc n) = row n`.
fn row(alloc: Global) -> Result<Term, AllocError> {
    let args = single(alloc, Term::new(alloc, Node::Free(1))?)?;
    Term::new(alloc, Node::Call(1, args))
}

/// `grid 0 m = 0`, `grid (Suc n) m = row m + grid n m`.
fn grid(alloc: Global) -> Result<Term, AllocError> {
    let m = Term::new(alloc, Node::Free(1))?;
    let rest = pair(alloc, Term::new(alloc, Node::Free(2))?, m)?;
    let below = Term::new(alloc, Node::Call(2, rest))?;
    let sides = pair(alloc, row(alloc)?, below)?;
    Term::new(alloc, Node::Op(9, sides))
}

fn rows_and_grids(alloc: Global) -> Result<Declarations, AllocError> {
    let mut declared = Declarations::new(alloc);
    declared.add_function(recursion(alloc, 1, row(alloc)?)?)?;
    declared.add_function(recursion(alloc, 2, grid(alloc)?)?)?;
    Ok(declared)
}

/// `grid (?1 + 96) 99 = 0`, which unfolds 9,697 to 9,899 calls where `?1` is at most 2.
fn dear_constraint(alloc: Global) -> Result<Term, AllocError> {
    let n = operation(alloc, 9, Term::new(alloc, Node::Free(1))?, 96)?;
    let sides = pair(alloc, n, Term::new(alloc, Node::Lit(99))?)?;
    let t = Term::new(alloc, Node::Call(2, sides))?;
    operation(alloc, 6, t, 0)
}

/// A hundred dear constraints, and `?1 < 0`.
fn dear_constraints(alloc: Global) -> Result<Items<Term>, AllocError> {
    let mut ts = Items::new(alloc);
    for _ in 0..100 {
        ts.push(dear_constraint(alloc)?)?;
    }
    let never = operation(alloc, 7, Term::new(alloc, Node::Free(1))?, 0)?;
    ts.push(never)?;
    Ok(ts)
}

/// At each of the 6,561 candidates they would take hours.
#[test]
fn a_constraint_is_evaluated_for_values_of_its_variable_alone(rt: HostRuntime) -> Result<(), Fail> {
    let alloc = rt.alloc();
    let declared = rows_and_grids(alloc)?;
    let ts = dear_constraints(alloc)?;
    let found = first(alloc, &declared, &[false; 8], ts.as_slice(), &up_to(8), 1)?;
    assert!(rt; found.is_none());
    Ok(())
}
