ghost use Rattle.std.specs.Prelude.{◌≡◌, ◌∷◌, [], IfOk};
ghost use Rattle.tg_types.specs.declared.types.Ty.TheVariants.{Nat};

use crate::{outcomes, write};
use sqlite_items::Items;
use std::alloc::{AllocError, Global};
use std::test::Fail;
use tg_declarations::ProgDef;
use tg_term::{Node, Outcome, Term, Test, Value};
use tg_theory::{BuildErr, Builder, Theory};
use tg_types::{Name, Settings, Ty};

fn program(alloc: Global) -> Result<ProgDef, AllocError>
    ensures name { IfOk result (λ def. def.name ≡ 112 ∷ 117 ∷ 116 ∷ []) }
    ensures inputs { IfOk result (λ def. def.inputs ≡ Nat ∷ []) }
    ensures answer { IfOk result (λ def. def.answer ≡ Nat) }
{
    let name = Name::new(alloc, b"put")?;
    let mut inputs = Items::new(alloc);
    inputs.push(Ty::Nat)?;
    Ok(ProgDef {
        name,
        inputs,
        answer: Ty::Nat,
    })
}

/// A theory of one natural, whose specification is True.
fn theory(alloc: Global) -> Result<Theory, BuildErr> {
    let mut builder = Builder::new(alloc);
    builder.set_program(program(alloc)?)?;
    let spec = Term::new(alloc, Node::Truth(true))?;
    builder.set_spec(spec)?;
    builder.finish(Name::new(alloc, b"Small")?)
}

fn datum(alloc: Global, n: u64, truth: bool) -> Result<Items<Value>, AllocError> {
    let mut values = Items::new(alloc);
    values.push(Value::Nat(n))?;
    values.push(Value::Bool(truth))?;
    Ok(values)
}

#[test]
fn each_input_is_a_quoted_word(rt: HostRuntime) -> Result<(), Fail> {
    let alloc = rt.alloc();
    let first = Test {
        class: 2,
        datum: datum(alloc, 0, true)?,
    };
    let second = Test {
        class: 10,
        datum: datum(alloc, 71, false)?,
    };
    let text = write(alloc, &theory(alloc)?, &Settings::DEFAULT, &[first, second])?;
    assert_eq!(rt;
        text.as_slice(),
        b"#!/bin/sh
printf '%s\\n' 'outcomes depth 3 bound 8 seed 1 tries 1000 width 16 begin'
if a=$(\"$1\" '0' 'True'); then printf '%s\\n' \"answer 2 $a;\"; else printf '%s\\n' 'raised 2;'; fi
if a=$(\"$1\" '71' 'False'); then printf '%s\\n' \"answer 10 $a;\"; else printf '%s\\n' 'raised 10;'; fi
printf '%s\\n' 'end'
"
            .as_slice()
    );
    Ok(())
}

#[test]
fn outcomes_stand_in_their_order(rt: HostRuntime) -> Result<(), Fail> {
    let alloc = rt.alloc();
    let list = [
        Outcome {
            test: 3,
            answer: None,
        },
        Outcome {
            test: 1,
            answer: Some(Value::Nat(12)),
        },
    ];
    let text = outcomes(alloc, &theory(alloc)?, &Settings::DEFAULT, &list)?;
    assert_eq!(rt;
        text.as_slice(),
        b"outcomes depth 3 bound 8 seed 1 tries 1000 width 16 begin\nraised 3;\nanswer 1 12;\nend\n".as_slice()
    );
    Ok(())
}
