//! Whether the datatypes of a type are declared and have their numbers of arguments.
ghost use Rattle.std.specs.Prelude.{◌≡◌, ◌↔◌, Some, true, false, map, nat_eq};
ghost use Rattle.std.specs.List.{list_all};
ghost use Rattle.std.specs.Option.{option_map_or};
ghost use Rattle.tg_accept.specs.Meant.{IsDatatypeMeant};
ghost use Rattle.tg_declarations.specs.View.{datatype};
ghost use Rattle.tg_infer.specs.Made.{counts, is_made, are_made};
ghost use Rattle.tg_infer.specs.Signatures.{IsSignatureMade, seen_signature};
ghost use Rattle.tg_model.specs.Theory.{numbered};
ghost use Rattle.tg_types.specs.Types.{ty, types};

use crate::signatures::Signature;
use tg_declarations::{ConDef, DataDef, Declarations};
use tg_types::{DataId, Ty};

/// Whether the types of a datatype's constructors are made of what is declared, the datatype itself, and its
/// parameters.
#[tactic(auto, using(crate::proofs::MadeLaws::telling))]
pub(crate) fn is_datatype_made(declared: &Declarations, def: &DataDef) -> bool
    ensures { (result ≡ true) ↔ IsDatatypeMeant declared.now (datatype def.now) }
{
    are_constructors_made(declared, def.params, def.cons.as_slice())
}

/// Whether the declared types are made of what is declared and of the type variables.
#[tactic(auto, using(crate::proofs::MadeLaws::telling))]
pub(crate) fn is_signature_made(declared: &Declarations, signature: &Signature) -> bool
    ensures { (result ≡ true) ↔ IsSignatureMade declared.now (seen_signature signature.now) }
{
    let params = signature.params;
    is_made(declared, None, params, &signature.result)
        && are_made(declared, None, params, signature.args.as_slice())
}

fn are_constructors_made(declared: &Declarations, params: u32, cons: &[ConDef]) -> bool
    ensures { result ≡ list_all (λ ts. are_made (counts declared.now (Some params)) params (types ts)) (map (λ con. con.args) cons.now) }
{
    for con in cons {
        if !are_made(declared, Some(params), params, con.args.as_slice()) {
            return false;
        }
    }
    true
}

/// Whether each type is made of the naturals, the truth values, the first `params` type parameters, and
/// datatypes at as many arguments as they take. The datatype that is being declared, if there is one, takes
/// `own` of them.
#[cycle(made)]
#[tactic(auto, using(crate::proofs::MadeLaws::making))]
pub(crate) fn are_made(declared: &Declarations, own: Option<u32>, params: u32, ts: &[Ty]) -> bool
    ensures { result ≡ are_made (counts declared.now own) params (types ts.now) }
{
    for t in ts {
        if !is_made(declared, own, params, t) {
            return false;
        }
    }
    true
}

#[cycle(made)]
#[tactic(auto, using(crate::proofs::MadeLaws::making))]
pub(crate) fn is_made(declared: &Declarations, own: Option<u32>, params: u32, t: &Ty) -> bool
    ensures { result ≡ is_made (counts declared.now own) params (ty t.now) }
{
    match t {
        Ty::Nat | Ty::Bool => true,
        Ty::Param(n) => 0 < *n && *n <= params,
        Ty::Meta(_) => false,
        Ty::App(d, ts) => {
            takes(declared, own, *d, ts.len()) && are_made(declared, own, params, ts.as_slice())
        }
    }
}

/// Whether a datatype takes so many arguments.
#[tactic(auto, using(crate::proofs::MadeLaws::taking))]
fn takes(declared: &Declarations, own: Option<u32>, d: DataId, count: usize) -> bool
    ensures { result ≡ option_map_or (λ n. nat_eq count n) (numbered (counts declared.now own) d) false }
{
    match number_taken(declared, own, d) {
        Some(n) => count == n as usize,
        None => false,
    }
}

/// How many arguments a datatype takes.
#[tactic(auto, using(crate::proofs::MadeLaws::taking))]
fn number_taken(declared: &Declarations, own: Option<u32>, d: DataId) -> Option<u32>
    ensures { result ≡ numbered (counts declared.now own) d }
{
    match declared.data_def(d) {
        Some(def) => Some(def.params),
        None => {
            if d != 0 && d - 1 == declared.data_count() {
                own
            } else {
                None
            }
        }
    }
}
