//! What raw types mean.
ghost use Rattle.std.specs.Prelude.{◌≡◌, IfOk, option_map};
ghost use Rattle.tg_accept.specs.Meaning.{type_meant, all_types_meant};
ghost use Rattle.tg_infer.specs.View.{raw_type, raw_types};
ghost use Rattle.tg_types.specs.Types.{ty, types};

use crate::numbers::Numbers;
use crate::params::Params;
use sqlite_items::Items;
use std::alloc::{AllocError, Global};
use tg_grammar::RawTy;
use tg_types::Ty;

/// The type that a raw type means, where type variables are the parameters of their numbers and words are the
/// datatypes of theirs; `None` where one has no number.
#[cycle(types)]
#[tactic(auto, using(crate::proofs::TypeLaws::meaning))]
pub fn type_of_raw(
    alloc: Global,
    params: &Params,
    names: &Numbers,
    t: &RawTy,
) -> Result<Option<Ty>, AllocError>
    ensures { IfOk result (λ found. option_map ty found ≡ type_meant params.now names.now (raw_type t.now)) }
{
    match t {
        RawTy::Nat => Ok(Some(Ty::Nat)),
        RawTy::Bool => Ok(Some(Ty::Bool)),
        RawTy::Var(x) => match params.number(x) {
            Some(n) => Ok(Some(Ty::Param(n))),
            None => Ok(None),
        },
        RawTy::Word(x, ts) => {
            let Some(d) = names.number(x) else {
                return Ok(None);
            };
            match types_of_raw(alloc, params, names, ts.as_slice())? {
                Some(us) => Ok(Some(Ty::App(d, us))),
                None => Ok(None),
            }
        }
    }
}

/// The types that raw types mean, if each means one.
#[cycle(types)]
#[tactic(auto, using(crate::proofs::TypeLaws::meaning))]
pub(crate) fn types_of_raw(
    alloc: Global,
    params: &Params,
    names: &Numbers,
    ts: &[RawTy],
) -> Result<Option<Items<Ty>>, AllocError>
    ensures { IfOk result (λ found. option_map types found ≡ all_types_meant params.now names.now (raw_types ts.now)) }
{
    let mut all = Items::new(alloc);
    for t in ts {
        match type_of_raw(alloc, params, names, t)? {
            Some(u) => all.push(u)?,
            None => return Ok(None),
        }
    }
    Ok(Some(all))
}
