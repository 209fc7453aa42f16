//! What stands in types.
ghost use Rattle.std.specs.Prelude.{◌≡◌, ◌&&◌, nat_eq, length, map};
ghost use Rattle.tg_accept.specs.Faults.{holds, any_holds, is_parameter, are_parameters, is_itself, is_argument, is_base, has_parameter, any_has_parameter};
ghost use Rattle.tg_model.specs.Theory.{datatype_of};
ghost use Rattle.tg_model.specs.Types.{elements};
ghost use Rattle.tg_types.specs.Types.{ty, types};

use tg_types::{DataId, Ty};

/// The number of the type's datatype, and 0 of every other type.
pub(crate) fn datatype_of(t: &Ty) -> DataId
    ensures { result ≡ datatype_of (ty t.now) }
{
    match t {
        Ty::App(d, _) => *d,
        _ => 0,
    }
}

/// Whether the datatype stands somewhere in the type.
#[cycle(holding)]
pub(crate) fn holds(d: DataId, t: &Ty) -> bool
    ensures { result ≡ holds d (ty t.now) }
{
    match t {
        Ty::App(e, ts) => *e == d || any_holds(d, ts.as_slice()),
        _ => false,
    }
}

#[cycle(holding)]
fn any_holds(d: DataId, ts: &[Ty]) -> bool
    ensures { result ≡ any_holds d (types ts.now) }
{
    for t in ts {
        if holds(d, t) {
            return true;
        }
    }
    false
}

/// Whether a type parameter stands somewhere in the type.
#[cycle(parameters)]
pub fn has_parameter(t: &Ty) -> bool
    ensures { result ≡ has_parameter (ty t.now) }
{
    match t {
        Ty::Param(_) => true,
        Ty::App(_, ts) => any_has_parameter(ts.as_slice()),
        _ => false,
    }
}

#[cycle(parameters)]
fn any_has_parameter(ts: &[Ty]) -> bool
    ensures { result ≡ any_has_parameter (types ts.now) }
{
    for t in ts {
        if has_parameter(t) {
            return true;
        }
    }
    false
}

/// Whether an argument's type is without the datatype, or is the datatype at its own parameters.
pub(crate) fn is_argument(d: DataId, params: u32, t: &Ty) -> bool
    ensures { result ≡ is_argument d params (ty t.now) }
{
    !holds(d, t) || is_itself(d, params, t)
}

fn is_itself(d: DataId, params: u32, t: &Ty) -> bool
    ensures { result ≡ is_itself d params (ty t.now) }
{
    match t {
        Ty::App(e, ts) => *e == d && are_all_parameters(params, ts.as_slice()),
        _ => false,
    }
}

/// Whether the types are the parameters, `params` of them, in order.
#[tactic(auto, using(crate::proofs::Terms::ordered_types))]
fn are_all_parameters(params: u32, ts: &[Ty]) -> bool
    ensures { result ≡ (nat_eq (length (elements (types ts.now))) params && are_parameters 1 (types ts.now)) }
{
    if ts.len() == params as usize {
        are_parameters(ts)
    } else {
        false
    }
}

/// Whether the types are the parameters from the first on, in order.
fn are_parameters(ts: &[Ty]) -> bool
    ensures { result ≡ are_parameters 1 (types ts.now) }
{
    for (at, t) in ts.iter().enumerate() {
        if !is_parameter(t, at + 1) {
            return false;
        }
    }
    true
}

fn is_parameter(t: &Ty, number: usize) -> bool
    ensures { result ≡ is_parameter number (ty t.now) }
{
    match t {
        Ty::Param(n) => *n as usize == number,
        _ => false,
    }
}

/// Whether no argument is of the datatype.
pub(crate) fn is_base(d: DataId, ts: &[Ty]) -> bool
    ensures { result ≡ is_base d (map ty ts.now) }
{
    for t in ts {
        if datatype_of(t) == d {
            return false;
        }
    }
    true
}
