//! Types whose parameters stand for types, without copies of them.
ghost use Rattle.std.specs.Prelude.{◌≡◌, length, map, option_copied};
ghost use Rattle.tg_model.specs.Theory.{instance, numbered};
ghost use Rattle.tg_model.specs.Types.{applied, tys};
ghost use Rattle.tg_split.specs.Scopes.{arguments, root};
ghost use Rattle.tg_types.specs.Types.{ty};

use crate::recursion::are_all_parameters;
use tg_types::{DataId, Ty};

/// What the parameters of a type stand for.
#[derive(Drop)]
pub(crate) enum Scope<'t, 's> {
    /// A closed type has no parameters.
    Closed,
    /// Types, whose own parameters stand for types of an outer scope.
    Within(&'t [Ty], &'s Scope<'t, 's>),
}

/// What stands at the root of a type.
#[derive(Drop)]
pub(crate) enum Root<'t, 's> {
    Nat,
    Bool,
    Meta(u32),
    /// A datatype at arguments in a scope.
    Data(DataId, &'t [Ty], &'s Scope<'t, 's>),
}

/// The root of a type in a scope.
#[tactic(auto, using(crate::proofs::ScopeLaws::scoped))]
pub(crate) fn root_of<'t, 's>(t: &'t Ty, scope: &'s Scope<'t, 's>) -> Root<'t, 's>
    ensures { root result ≡ instance (arguments scope.now) (ty t.now) }
{
    match (t, scope) {
        (Ty::Nat, _) => Root::Nat,
        (Ty::Bool, _) => Root::Bool,
        (Ty::Meta(n), _) => Root::Meta(*n),
        (Ty::App(d, ts), _) => data_in(*d, ts.as_slice(), scope),
        (Ty::Param(_), Scope::Closed) => Root::Nat,
        (Ty::Param(n), Scope::Within(ts, outer)) => match item(ts, *n) {
            Some(u) => root_of(u, outer),
            None => Root::Nat,
        },
    }
}

/// A datatype at arguments in a scope. Where these are the parameters in order it is the datatype at what they stand for,
/// in the outer scope: so a type is known again that stands behind other datatypes.
#[tactic(auto, using(crate::proofs::ScopeLaws::scoped))]
fn data_in<'t, 's>(d: DataId, ts: &'t [Ty], scope: &'s Scope<'t, 's>) -> Root<'t, 's>
    ensures { root result ≡ applied d (tys (map (λ t. instance (arguments scope.now) (ty t)) ts.now)) }
{
    match scope {
        Scope::Within(us, outer) if are_all_parameters(us.len(), ts) => Root::Data(d, us, outer),
        _ => Root::Data(d, ts, scope),
    }
}

/// The item of a number, from 1.
fn item(items: &[Ty], number: u32) -> Option<&Ty>
    ensures { option_copied result ≡ numbered items.now number }
{
    items.get((number as usize).checked_sub(1)?)
}

impl Scope<'_, '_> {
    /// How many types the parameters stand for.
    #[tactic(auto, using(crate::proofs::ScopeLaws::scoped))]
    pub(crate) fn len(&self) -> usize
        ensures { result ≡ length (arguments self.now) }
    {
        match self {
            Scope::Closed => 0,
            Scope::Within(ts, _) => ts.len(),
        }
    }
}
