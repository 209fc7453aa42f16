//! The types of declarations.
ghost use Rattle.std.specs.Prelude.{◌≡◌, IfOk, OnOk, map, option_map};
ghost use Rattle.tg_accept.specs.Meaning.{type_variables, variables_in, all_variables_in};
ghost use Rattle.tg_infer.specs.Signatures.{signature_meant, seen_signature};
ghost use Rattle.tg_infer.specs.View.{raw_type, raw_types};

use crate::numbers::Numbers;
use crate::params::Params;
use crate::types::types_of_raw;
use sqlite_items::Items;
use std::alloc::{AllocError, Global};
use tg_grammar::RawTy;
use tg_types::Ty;

/// The types of a function or of the program.
#[derive(Drop)]
pub(crate) struct Signature {
    /// How many type variables there are.
    pub params: u32,
    /// The types of the arguments.
    pub args: Items<Ty>,
    /// The type of the value.
    pub result: Ty,
}

/// What declared types mean, the last of them that of the value, or `None` where a name in them is wrong or
/// there are none.
#[tactic(auto, using(crate::proofs::SignatureLaws::signatures))]
pub(crate) fn declared_types(
    alloc: Global,
    names: &Numbers,
    ts: &[RawTy],
) -> Result<Option<Signature>, AllocError>
    ensures { IfOk result (λ found. option_map seen_signature found ≡ signature_meant names.now (map raw_type ts.now)) }
{
    let params = type_variables(alloc, ts)?;
    let Some(mut args) = types_of_raw(alloc, &params, names, ts)? else {
        return Ok(None);
    };
    let Some(result) = args.pop() else {
        return Ok(None);
    };
    let params = params.len();
    Ok(Some(Signature {
        params,
        args,
        result,
    }))
}

/// The type variables of declared types, in the order in which they first stand there.
#[tactic(auto, using(crate::proofs::SignatureLaws::variables))]
fn type_variables(alloc: Global, ts: &[RawTy]) -> Result<Params, AllocError>
    ensures { IfOk result (λ names. names ≡ type_variables (map raw_type ts.now)) }
{
    let mut names = Params::new(alloc);
    add_all_variables(&mut names, ts)?;
    Ok(names)
}

#[cycle(variables)]
#[tactic(auto, using(crate::proofs::SignatureLaws::collecting))]
fn add_variables(names: &mut Params, t: &RawTy) -> Result<(), AllocError>
    ensures { OnOk result (names.new ≡ variables_in names.old (raw_type t.now)) }
{
    match t {
        RawTy::Nat | RawTy::Bool => Ok(()),
        RawTy::Var(x) => {
            if names.number(x).is_some() {
                return Ok(());
            }
            names.add(x)
        }
        RawTy::Word(_, ts) => add_all_variables(names, ts.as_slice()),
    }
}

#[cycle(variables)]
#[tactic(auto, using(crate::proofs::SignatureLaws::collecting))]
fn add_all_variables(names: &mut Params, ts: &[RawTy]) -> Result<(), AllocError>
    ensures { OnOk result (names.new ≡ all_variables_in names.old (raw_types ts.now)) }
{
    for t in ts {
        add_variables(names, t)?;
    }
    Ok(())
}
