//! Whether a value has a type.
ghost use Rattle.std.specs.Prelude.{◌≡◌, ◌↔◌, true, IfOk, map};
ghost use Rattle.tg_model.specs.Theory.{instance};
ghost use Rattle.tg_model.specs.Typing.{HasType};
ghost use Rattle.tg_term.specs.Values.{value, values};
ghost use Rattle.tg_types.specs.Types.{ty};
ghost use Rattle.tg_standing.specs.TypesOfValues.{has_type, have_types, is_made};

use std::alloc::{AllocError, Global};
use tg_declarations::Declarations;
use tg_equations::instance;
use tg_term::{ConId, Value};
use tg_theory::Theory;
use tg_types::{DataId, Ty};

/// Whether the value has the type.
#[tactic(auto, using(crate::proofs::ValueTypes::telling))]
pub fn has_type(alloc: Global, th: &Theory, v: &Value, t: &Ty) -> Result<bool, AllocError>
    ensures { IfOk result (λ yes. (yes ≡ true) ↔ HasType th.now (value v.now) (ty t.now)) }
{
    let typed = is_typed(alloc, th.declarations(), v, t)?;
    Ok(typed)
}

#[cycle(typed)]
#[tactic(auto, using(crate::proofs::ValueTypes::typing))]
fn is_typed(alloc: Global, declared: &Declarations, v: &Value, t: &Ty) -> Result<bool, AllocError>
    ensures { IfOk result (λ yes. yes ≡ has_type declared.now.datatypes (value v.now) (ty t.now)) }
{
    match (v, t) {
        (Value::Nat(_), Ty::Nat) => Ok(true),
        (Value::Bool(_), Ty::Bool) => Ok(true),
        (Value::Con(c, vs), Ty::App(d, us)) => {
            is_made(alloc, declared, *c, vs.as_slice(), *d, us.as_slice())
        }
        _ => Ok(false),
    }
}

/// Whether a constructor on these values makes one of the datatype at the types `us`.
#[cycle(typed)]
#[tactic(auto, using(crate::proofs::ValueTypes::typing))]
fn is_made(
    alloc: Global,
    declared: &Declarations,
    c: ConId,
    vs: &[Value],
    d: DataId,
    us: &[Ty],
) -> Result<bool, AllocError>
    ensures { IfOk result (λ yes. yes ≡ is_made declared.now.datatypes c (values vs.now) d (map ty us.now)) }
{
    match declared.con_def(c) {
        Some((owner, def)) => {
            if owner != d {
                return Ok(false);
            }
            are_typed(alloc, declared, vs, us, def.args.as_slice())
        }
        None => Ok(false),
    }
}

/// Whether the values have the types, in which the types `us` stand for the parameters.
#[cycle(typed)]
#[tactic(auto, using(crate::proofs::ValueTypes::typing))]
fn are_typed(
    alloc: Global,
    declared: &Declarations,
    vs: &[Value],
    us: &[Ty],
    ts: &[Ty],
) -> Result<bool, AllocError>
    ensures { IfOk result (λ yes. yes ≡ have_types declared.now.datatypes (values vs.now) (map (instance (map ty us.now)) (map ty ts.now))) }
{
    if vs.len() != ts.len() {
        return Ok(false);
    }
    for (i, v) in vs.iter().enumerate() {
        let t = instance(alloc, us, &ts[i])?;
        if !is_typed(alloc, declared, v, &t)? {
            return Ok(false);
        }
    }
    Ok(true)
}
