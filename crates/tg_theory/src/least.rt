//! The least value of a type.
ghost use Rattle.std.specs.Prelude.{◌≡◌, ◌+◌, IfOk, map, length, option_copied, option_map, slice_get};
ghost use Rattle.tg_model.specs.Typing.{least, least_at, all_least, least_below};
ghost use Rattle.tg_declarations.specs.View.{constructor};
ghost use Rattle.tg_term.specs.Values.{value};
ghost use Rattle.tg_types.specs.Types.{ty, types};
ghost use Rattle.tg_theory.specs.Bases.{first_base};

use crate::calls::item;
use crate::theories::Theory;
use crate::types::is_base;
use sqlite_items::{Items, at as item_at};
use std::alloc::{AllocError, Global};
use tg_declarations::{ConDef, Declarations};
use tg_term::{Value, copy_value};
use tg_types::{DataId, Ty};

/// How deep the least value of a type is looked for, so that it needs a bounded part of the stack.
const MAX_DEPTH: u32 = 10_000;

impl Theory {
    /// The least value of a closed type: 0, False, or of a datatype the first constructor without an argument
    /// of the datatype itself, at least values. Of a type that isn't closed it is False where a type is missing.
    /// Where types and values nest deeper than 10,000 it is answered as want of memory.
    pub fn least(&self, alloc: Global, t: &Ty) -> Result<Value, AllocError>
        ensures { IfOk result (λ v. value v ≡ least self.now (ty t.now)) }
    {
        let count = self.declared.data_count();
        let v = least_at(alloc, &self.declared, count, &[], t, MAX_DEPTH)?;
        Ok(v)
    }
}

// The least value of a type whose datatypes are numbered up to `below`, at the least values of its parameters.
#[cycle(least)]
#[tactic(auto, using(crate::proofs::LeastLaws::leasts))]
fn least_at(
    alloc: Global,
    declared: &Declarations,
    below: DataId,
    params: &[Value],
    t: &Ty,
    left: u32,
) -> Result<Value, AllocError>
    ensures { IfOk result (λ v. value v ≡ least_at (least_below declared.now.datatypes below) (map value params.now) (ty t.now)) }
{
    match t {
        Ty::Nat => Ok(Value::Nat(0)),
        Ty::Bool | Ty::Meta(_) => Ok(Value::Bool(false)),
        Ty::Param(n) => match item(params, *n) {
            Some(v) => {
                let copy = copy_value(alloc, v)?;
                Ok(copy)
            }
            None => Ok(Value::Bool(false)),
        },
        Ty::App(d, ts) => {
            let left = left.checked_sub(1).ok_or(AllocError)?;
            let args = all_least(alloc, declared, below, params, ts.as_slice(), left)?;
            let v = least_data(alloc, declared, below, *d, args.as_slice(), left)?;
            Ok(v)
        }
    }
}

#[cycle(least)]
#[tactic(auto, using(crate::proofs::LeastLaws::leasts))]
fn all_least(
    alloc: Global,
    declared: &Declarations,
    below: DataId,
    params: &[Value],
    ts: &[Ty],
    left: u32,
) -> Result<Items<Value>, AllocError>
    ensures { IfOk result (λ vs. map value vs ≡ map (least_at (least_below declared.now.datatypes below) (map value params.now)) (map ty ts.now)) }
{
    let mut vs = Items::new(alloc);
    for t in ts {
        vs.push(least_at(alloc, declared, below, params, t, left)?)?;
    }
    Ok(vs)
}

// The least value of a datatype, of those numbered up to `below`, at the least values of its arguments.
#[cycle(least)]
#[tactic(auto, using(crate::proofs::LeastLaws::leasts))]
fn least_data(
    alloc: Global,
    declared: &Declarations,
    below: DataId,
    d: DataId,
    args: &[Value],
    left: u32,
) -> Result<Value, AllocError>
    ensures { IfOk result (λ v. value v ≡ least_below declared.now.datatypes below d (map value args.now)) }
{
    let left = left.checked_sub(1).ok_or(AllocError)?;
    if d == 0 || below < d {
        return Ok(Value::Bool(false));
    }
    let Some(def) = declared.data_def(d) else {
        return Ok(Value::Bool(false));
    };
    let Some(at) = first_base(d, def.cons.as_slice()) else {
        return Ok(Value::Bool(false));
    };
    let Some(con) = item_at(def.cons.as_slice(), at) else {
        return Ok(Value::Bool(false));
    };
    let Some(number) = item_at(declared.constructors(d), at) else {
        return Ok(Value::Bool(false));
    };
    let vs = all_least(alloc, declared, d - 1, args, con.args.as_slice(), left)?;
    Ok(Value::Con(*number, vs))
}

// The place of the first constructor without an argument of the datatype.
fn first_base(d: DataId, cons: &[ConDef]) -> Option<usize>
    ensures { result ≡ first_base d (map constructor cons.now) }
{
    for (at, con) in cons.iter().enumerate() {
        if is_base(d, con.args.as_slice()) {
            return Some(at);
        }
    }
    None
}
