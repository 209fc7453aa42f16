//! Where a datatype stands among the arguments of its constructors.
ghost use Rattle.std.specs.Prelude.{◌≡◌, true, not, ◌&&◌, nat_eq, length};
ghost use Rattle.tg_accept.specs.Faults.{is_parameter, are_parameters, is_itself, has_parameter, any_has_parameter};
ghost use Rattle.tg_model.specs.Types.{elements};
ghost use Rattle.tg_types.specs.Types.{ty, types};

use tg_declarations::ConDef;
use tg_theory::has_parameter;
use tg_types::{DataId, Ty};

/// Whether some constructor of the datatype has the datatype itself as an argument, at its parameters in order.
pub(crate) fn is_recursive(d: DataId, params: usize, cons: &[ConDef]) -> bool {
    for con in cons {
        if some_itself(d, params, con.args.as_slice()) {
            return true;
        }
    }
    false
}

fn some_itself(d: DataId, params: usize, ts: &[Ty]) -> bool {
    for t in ts {
        if is_itself(d, params, t) {
            return true;
        }
    }
    false
}

/// Whether the type is the datatype, at its parameters in order.
pub(crate) fn is_itself(d: DataId, params: usize, t: &Ty) -> bool
    ensures { result ≡ is_itself d params (ty t.now) }
{
    match t {
        Ty::App(e, ts) => *e == d && are_all_parameters(params, ts.as_slice()),
        _ => false,
    }
}

/// Whether the types are the parameters, `params` of them, in order.
#[tactic(auto, using(crate::proofs::ScopeLaws::counted_types))]
pub(crate) fn are_all_parameters(params: usize, ts: &[Ty]) -> bool
    ensures { result ≡ (nat_eq (length (elements (types ts.now))) params && are_parameters 1 (types ts.now)) }
{
    if ts.len() == params {
        are_parameters(ts)
    } else {
        false
    }
}

/// Whether the types are the parameters from the first on, in order.
fn are_parameters(ts: &[Ty]) -> bool
    ensures { result ≡ are_parameters 1 (types ts.now) }
{
    for (at, t) in ts.iter().enumerate() {
        if !is_parameter(t, at + 1) {
            return false;
        }
    }
    true
}

fn is_parameter(t: &Ty, number: usize) -> bool
    ensures { result ≡ is_parameter number (ty t.now) }
{
    match t {
        Ty::Param(n) => *n as usize == number,
        _ => false,
    }
}

/// Whether no parameter stands in the types.
pub(crate) fn are_closed(ts: &[Ty]) -> bool
    ensures { result ≡ not (any_has_parameter (types ts.now)) }
{
    for t in ts {
        if has_parameter(t) {
            return false;
        }
    }
    true
}

/// Whether two types are equal.
#[cycle(same)]
#[tactic(auto, using(crate::proofs::SameTypes::same))]
pub(crate) fn same_type(a: &Ty, b: &Ty) -> bool
    ensures { result ≡ true → ty a.now ≡ ty b.now }
{
    match (a, b) {
        (Ty::Nat, Ty::Nat) | (Ty::Bool, Ty::Bool) => true,
        (Ty::Param(m), Ty::Param(n)) => *m == *n,
        (Ty::App(d, ts), Ty::App(e, us)) => *d == *e && same_types(ts.as_slice(), us.as_slice()),
        _ => false,
    }
}

#[cycle(same)]
#[tactic(auto, using(crate::proofs::SameTypes::same))]
pub(crate) fn same_types(ts: &[Ty], us: &[Ty]) -> bool
    ensures { result ≡ true → types ts.now ≡ types us.now }
{
    if ts.len() != us.len() {
        return false;
    }
    for (i, t) in ts.iter().enumerate() {
        if !same_type(t, &us[i]) {
            return false;
        }
    }
    true
}
