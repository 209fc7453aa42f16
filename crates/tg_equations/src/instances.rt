//! Declared types at the types that stand for their parameters.
ghost use Rattle.std.specs.Prelude.{◌≡◌, IfOk, map, option_copied};
ghost use Rattle.tg_model.specs.Theory.{instance, numbered};
ghost use Rattle.tg_types.specs.Types.{ty};

use sqlite_items::Items;
use std::alloc::{AllocError, Global};
use tg_types::{Ty, copy};

/// A declared type where the types `us` stand for its parameters; one that has none is nat.
#[cycle(instance)]
#[tactic(auto, using(crate::proofs::InstanceLaws::instance_of))]
pub fn instance(alloc: Global, us: &[Ty], t: &Ty) -> Result<Ty, AllocError>
    ensures { IfOk result (λ u. ty u ≡ instance (map ty us.now) (ty t.now)) }
{
    match t {
        Ty::Nat => Ok(Ty::Nat),
        Ty::Bool => Ok(Ty::Bool),
        Ty::Param(n) => match argument(us, *n) {
            Some(u) => copy(alloc, u),
            None => Ok(Ty::Nat),
        },
        Ty::Meta(n) => Ok(Ty::Meta(*n)),
        Ty::App(d, ts) => Ok(Ty::App(*d, instances(alloc, us, ts.as_slice())?)),
    }
}

#[cycle(instance)]
#[tactic(auto, using(crate::proofs::InstanceLaws::instance_of))]
fn instances(alloc: Global, us: &[Ty], ts: &[Ty]) -> Result<Items<Ty>, AllocError>
    ensures { IfOk result (λ vs. map ty vs ≡ map (instance (map ty us.now)) (map ty ts.now)) }
{
    let mut all = Items::new(alloc);
    for t in ts {
        all.push(instance(alloc, us, t)?)?;
    }
    Ok(all)
}

// The type of a number, from 1.
fn argument(us: &[Ty], number: u32) -> Option<&Ty>
    ensures { option_copied result ≡ numbered us.now number }
{
    us.get((number as usize).checked_sub(1)?)
}
