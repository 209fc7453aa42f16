ghost use Rattle.std.specs.Prelude.{◌≡◌, ◌∷◌, [], IfOk};
ghost use Rattle.tg_types.specs.declared.types.Ty.TheVariants.{Nat};

use crate::{BuildErr, Builder};
use sqlite_items::Items;
use std::alloc::{AllocError, Global};
use std::test::Fail;
use tg_declarations::ProgDef;
use tg_term::{Node, Term, Value};
use tg_types::{Name, Ty};

#[test]
fn a_specification_wants_a_program(rt: HostRuntime) -> Result<(), Fail> {
    let alloc = rt.alloc();
    let mut builder = Builder::new(alloc);
    let early = builder.set_spec(Term::new(alloc, Node::Truth(true))?);
    assert!(rt; matches!(early, Err(BuildErr::Program)));
    let whole = builder.finish(Name::new(alloc, b"Small")?);
    assert!(rt; matches!(whole, Err(BuildErr::Program)));
    Ok(())
}

pub(crate) fn program(alloc: Global, bytes: &[u8]) -> Result<ProgDef, AllocError>
    ensures name { IfOk result (λ def. def.name ≡ bytes.now) }
    ensures inputs { IfOk result (λ def. def.inputs ≡ Nat ∷ []) }
    ensures answer { IfOk result (λ def. def.answer ≡ Nat) }
{
    let name = Name::new(alloc, bytes)?;
    let mut inputs = Items::new(alloc);
    inputs.push(Ty::Nat)?;
    Ok(ProgDef {
        name,
        inputs,
        answer: Ty::Nat,
    })
}

#[test]
fn a_builder_goes_on_after_an_error(rt: HostRuntime) -> Result<(), Fail> {
    let alloc = rt.alloc();
    let mut builder = Builder::new(alloc);
    assert!(rt; builder.set_program(program(alloc, b"put")?).is_ok());
    let again = builder.set_program(program(alloc, b"put")?);
    assert!(rt; matches!(again, Err(BuildErr::Name { .. })));
    let second = builder.set_program(program(alloc, b"get")?);
    assert!(rt; matches!(second, Err(BuildErr::Program)));
    Ok(())
}

#[test]
fn a_theory_tells_types_and_least_values(rt: HostRuntime) -> Result<(), Fail> {
    let alloc = rt.alloc();
    let mut builder = Builder::new(alloc);
    assert!(rt; builder.set_program(program(alloc, b"put")?).is_ok());
    assert!(rt;
        builder
            .set_spec(Term::new(alloc, Node::Truth(true))?)
            .is_ok()
    );
    let th = builder.finish(Name::new(alloc, b"Small")?)?;
    let one = Term::new(alloc, Node::Lit(1))?;
    assert!(rt; th.typed(alloc, &[], &one, &Ty::Nat)?);
    assert!(rt; !th.typed(alloc, &[], &one, &Ty::Bool)?);
    assert!(rt; matches!(th.least(alloc, &Ty::Nat)?, Value::Nat(0)));
    Ok(())
}
