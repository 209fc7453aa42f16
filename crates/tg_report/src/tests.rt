ghost use Rattle.std.specs.Prelude.{◌≡◌, ◌∷◌, [], IfOk};
ghost use Rattle.tg_types.specs.declared.types.Ty.TheVariants.{Nat};

use crate::{class_text, formula_text, settings_text};
use sqlite_items::Items;
use std::alloc::{AllocError, Global};
use std::test::Fail;
use tg_declarations::ProgDef;
use tg_term::{Class, Formula, FormulaNode, Node, Pattern, Term, Test, Value};
use tg_theory::{BuildErr, Builder, Theory};
use tg_types::{Name, Settings, Ty, Verdict};

fn program(alloc: Global) -> Result<ProgDef, AllocError>
    ensures name { IfOk result (λ def. def.name ≡ 112 ∷ 117 ∷ 116 ∷ []) }
    ensures inputs { IfOk result (λ def. def.inputs ≡ Nat ∷ []) }
    ensures answer { IfOk result (λ def. def.answer ≡ Nat) }
{
    let name = Name::new(alloc, b"put")?;
    let mut inputs = Items::new(alloc);
    inputs.push(Ty::Nat)?;
    Ok(ProgDef {
        name,
        inputs,
        answer: Ty::Nat,
    })
}

/// A theory of one natural, whose specification is True.
fn theory(alloc: Global) -> Result<Theory, BuildErr> {
    let mut builder = Builder::new(alloc);
    builder.set_program(program(alloc)?)?;
    let spec = Term::new(alloc, Node::Truth(true))?;
    builder.set_spec(spec)?;
    builder.finish(Name::new(alloc, b"Small")?)
}

fn single(alloc: Global, t: Term) -> Result<Items<Term>, AllocError> {
    let mut terms = Items::new(alloc);
    terms.push(t)?;
    Ok(terms)
}

/// `x < put x`
fn check(alloc: Global, x: &Term) -> Result<Term, AllocError> {
    let mut terms = single(alloc, x.share()?)?;
    terms.push(Term::new(alloc, Node::Put(single(alloc, x.share()?)?))?)?;
    Term::new(alloc, Node::Op(7, terms))
}

#[test]
fn a_class_has_its_lines(rt: HostRuntime) -> Result<(), Fail> {
    let alloc = rt.alloc();
    let x = Term::new(alloc, Node::Free(1))?;
    let class = Class {
        constraints: Items::new(alloc),
        checks: single(alloc, check(alloc, &x)?)?,
        pattern: Pattern {
            terms: single(alloc, x)?,
            vars: Items::new(alloc),
        },
    };
    let mut datum = Items::new(alloc);
    datum.push(Value::Nat(12))?;
    let test = Test { class: 4, datum };
    let th = theory(alloc)?;
    let text = class_text(alloc, &th, 4, &class, Some(&test), Some(Verdict::Passed))?;
    let lines = b"class 4\npattern ?1\ncheck (?1 < (put ?1))\ndatum 12\nverdict passed\n";
    assert_eq!(rt; text.as_slice(), lines.as_slice());
    let text = class_text(alloc, &th, 4, &class, None, None)?;
    assert_eq!(rt;
        text.as_slice(),
        b"class 4\npattern ?1\ncheck (?1 < (put ?1))\nopen\n".as_slice()
    );
    Ok(())
}

#[test]
fn a_formula_numbers_its_variables_from_outside(rt: HostRuntime) -> Result<(), Fail> {
    let alloc = rt.alloc();
    let x = Term::new(alloc, Node::Bound(0))?;
    let atom = Formula::new(alloc, FormulaNode::Atom(check(alloc, &x)?))?;
    let inner = Formula::new(alloc, FormulaNode::Ex(Ty::Bool, atom))?;
    let outer = Formula::new(alloc, FormulaNode::All(Ty::Nat, inner))?;
    let text = formula_text(alloc, &theory(alloc)?, &outer)?;
    assert_eq!(rt;
        text.as_slice(),
        b"(ALL nat. (EX bool. [(!2 < (put !2))]))".as_slice()
    );
    Ok(())
}

#[test]
fn settings_have_their_line(rt: HostRuntime) -> Result<(), Fail> {
    let text = settings_text(rt.alloc(), &Settings::DEFAULT)?;
    assert_eq!(rt;
        text.as_slice(),
        b"settings depth 3 bound 8 seed 1 tries 1000 width 16\n".as_slice()
    );
    Ok(())
}
