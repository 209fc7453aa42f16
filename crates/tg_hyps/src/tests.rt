ghost use Rattle.std.specs.Prelude.{◌≡◌, ◌∷◌, [], IfOk};
ghost use Rattle.tg_types.specs.declared.types.Ty.TheVariants.{Nat};

use crate::{conclusion, open_class, regularity, test, uniformity};
use sqlite_items::Items;
use std::alloc::{AllocError, Global};
use std::test::Fail;
use tg_declarations::ProgDef;
use tg_term::{Class, Formula, FormulaNode, Node, Pattern, Term, Value, same};
use tg_theory::{BuildErr, Builder, Theory};
use tg_types::{Name, Ty};

fn single(alloc: Global, t: Term) -> Result<Items<Term>, AllocError> {
    let mut terms = Items::new(alloc);
    terms.push(t)?;
    Ok(terms)
}

/// `left < right`
fn below(alloc: Global, left: Term, right: Term) -> Result<Term, AllocError> {
    let mut terms = single(alloc, left)?;
    terms.push(right)?;
    Term::new(alloc, Node::Op(7, terms))
}

/// `x < 3`
fn constraint(alloc: Global, x: &Term) -> Result<Term, AllocError> {
    below(alloc, x.share()?, Term::new(alloc, Node::Lit(3))?)
}

/// `x < put x`
fn check(alloc: Global, x: &Term) -> Result<Term, AllocError> {
    let put = Term::new(alloc, Node::Put(single(alloc, x.share()?)?))?;
    below(alloc, x.share()?, put)
}

/// The class of the naturals below 3, of which the program gives a greater number.
fn class(alloc: Global) -> Result<Class, AllocError> {
    let x = Term::new(alloc, Node::Free(1))?;
    let mut vars = Items::new(alloc);
    vars.push(Ty::Nat)?;
    Ok(Class {
        constraints: single(alloc, constraint(alloc, &x)?)?,
        checks: single(alloc, check(alloc, &x)?)?,
        pattern: Pattern {
            terms: single(alloc, x)?,
            vars,
        },
    })
}

fn is_atom(f: &Formula, t: &Term) -> bool {
    matches!(f.node(), FormulaNode::Atom(u) if same(u, t))
}

/// Whether the formula says that the one input is tested.
fn is_tested(f: &Formula, t: &Term) -> bool {
    match f.node() {
        FormulaNode::Tested(ts) => matches!(ts.as_slice(), [u] if same(u, t)),
        _ => false,
    }
}

/// `(tested x) & [x < put x]`, or with the constraint `(tested x) & ([x < 3] & [x < put x])`.
fn is_met(alloc: Global, f: &Formula, x: &Term) -> Result<bool, AllocError> {
    let FormulaNode::And(inputs, rest) = f.node() else {
        return Ok(false);
    };
    let checked = check(alloc, x)?;
    let last = match rest.node() {
        FormulaNode::And(first, last) if is_atom(first, &constraint(alloc, x)?) => last,
        _ => rest,
    };
    Ok(is_tested(inputs, x) && is_atom(last, &checked))
}

#[test]
fn a_test_has_the_values_in_place_of_the_variables(rt: HostRuntime) -> Result<(), Fail> {
    let alloc = rt.alloc();
    let seven = Term::new(alloc, Node::Lit(7))?;
    let f = test(alloc, &class(alloc)?, &[Value::Nat(7)])?;
    assert!(rt; is_met(alloc, &f, &seven)?);
    Ok(())
}

/// `ALL nat. (tested x) --> ([x < 3] --> [x < put x])`
fn is_open(alloc: Global, f: &Formula) -> Result<bool, AllocError> {
    let x = Term::new(alloc, Node::Bound(0))?;
    let FormulaNode::All(Ty::Nat, f) = f.node() else {
        return Ok(false);
    };
    let FormulaNode::Imp(inputs, f) = f.node() else {
        return Ok(false);
    };
    let FormulaNode::Imp(first, last) = f.node() else {
        return Ok(false);
    };
    let constrained = constraint(alloc, &x)?;
    let checked = check(alloc, &x)?;
    Ok(is_tested(inputs, &x) && is_atom(first, &constrained) && is_atom(last, &checked))
}

#[test]
fn an_open_class_is_closed_over_its_variables(rt: HostRuntime) -> Result<(), Fail> {
    let alloc = rt.alloc();
    let f = open_class(alloc, &class(alloc)?)?;
    assert!(rt; is_open(alloc, &f)?);
    Ok(())
}

#[test]
fn uniformity_goes_from_some_member_to_the_open_class(rt: HostRuntime) -> Result<(), Fail> {
    let alloc = rt.alloc();
    let x = Term::new(alloc, Node::Bound(0))?;
    let f = uniformity(alloc, &class(alloc)?)?;
    let FormulaNode::Thyp(marked) = f.node() else {
        return Err("no mark".into());
    };
    let FormulaNode::Imp(some, open) = marked.node() else {
        return Err("no implication".into());
    };
    let FormulaNode::Ex(Ty::Nat, member) = some.node() else {
        return Err("no member".into());
    };
    assert!(rt; is_met(alloc, member, &x)?);
    assert!(rt; is_open(alloc, open)?);
    Ok(())
}

fn program(alloc: Global) -> Result<ProgDef, AllocError>
    ensures name { IfOk result (λ def. def.name ≡ 112 ∷ 117 ∷ 116 ∷ []) }
    ensures inputs { IfOk result (λ def. def.inputs ≡ Nat ∷ []) }
    ensures answer { IfOk result (λ def. def.answer ≡ Nat) }
{
    let name = Name::new(alloc, b"put")?;
    let mut inputs = Items::new(alloc);
    inputs.push(Ty::Nat)?;
    Ok(ProgDef {
        name,
        inputs,
        answer: Ty::Nat,
    })
}

/// A theory of one natural, whose specification is True.
fn theory(alloc: Global) -> Result<Theory, BuildErr> {
    let mut builder = Builder::new(alloc);
    builder.set_program(program(alloc)?)?;
    let spec = Term::new(alloc, Node::Truth(true))?;
    builder.set_spec(spec)?;
    builder.finish(Name::new(alloc, b"Small")?)
}

#[test]
fn a_natural_is_not_deep(rt: HostRuntime) -> Result<(), Fail> {
    let alloc = rt.alloc();
    let th = theory(alloc)?;
    assert!(rt; regularity(alloc, &th, 3)?.is_none());
    Ok(())
}

#[test]
fn the_conclusion_is_closed_over_the_inputs(rt: HostRuntime) -> Result<(), Fail> {
    let alloc = rt.alloc();
    let x = Term::new(alloc, Node::Bound(0))?;
    let f = conclusion(alloc, &theory(alloc)?)?;
    let FormulaNode::All(Ty::Nat, of_input) = f.node() else {
        return Err("no quantifier".into());
    };
    let FormulaNode::Imp(inputs, holds) = of_input.node() else {
        return Err("no implication".into());
    };
    assert!(rt; is_tested(inputs, &x));
    assert!(rt; is_atom(holds, &Term::new(alloc, Node::Truth(true))?));
    Ok(())
}
