//! Copies of types, and what stands in them.
ghost use Rattle.std.specs.Prelude.{◌≡◌, IfOk};
ghost use Rattle.tg_types.specs.Substitutions.{put, all_at, only, holds, any_holds};
ghost use Rattle.tg_types.specs.Types.{ty, types};
ghost use Rattle.tg_types.specs.View.{agreement};

use super::substitutions::Agreement;
use super::types::Ty;
use sqlite_items::Items;
use std::alloc::{AllocError, Global};

/// The same type, in memory of its own.
#[cycle(copy)]
pub fn copy(alloc: Global, t: &Ty) -> Result<Ty, AllocError>
    ensures { IfOk result (λ u. u ≡ t.now) }
{
    match t {
        Ty::Nat => Ok(Ty::Nat),
        Ty::Bool => Ok(Ty::Bool),
        Ty::Param(n) => Ok(Ty::Param(*n)),
        Ty::Meta(n) => Ok(Ty::Meta(*n)),
        Ty::App(d, ts) => Ok(Ty::App(*d, copy_all(alloc, ts.as_slice())?)),
    }
}

#[cycle(copy)]
fn copy_all(alloc: Global, ts: &[Ty]) -> Result<Items<Ty>, AllocError>
    ensures { IfOk result (λ us. us ≡ ts.now) }
{
    let mut copies = Items::new(alloc);
    for t in ts {
        copies.push(copy(alloc, t)?)?;
    }
    Ok(copies)
}

/// The type with the agreement put in.
#[cycle(put)]
pub(crate) fn put(alloc: Global, x: &Agreement, t: &Ty) -> Result<Ty, AllocError>
    ensures { IfOk result (λ u. ty u ≡ put (agreement x.now) (ty t.now)) }
{
    match t {
        Ty::Nat => Ok(Ty::Nat),
        Ty::Bool => Ok(Ty::Bool),
        Ty::Param(n) => Ok(Ty::Param(*n)),
        Ty::Meta(n) => {
            if *n == x.var {
                copy(alloc, &x.meaning)
            } else {
                Ok(Ty::Meta(*n))
            }
        }
        Ty::App(d, ts) => Ok(Ty::App(*d, put_all(alloc, x, ts.as_slice())?)),
    }
}

#[cycle(put)]
fn put_all(alloc: Global, x: &Agreement, ts: &[Ty]) -> Result<Items<Ty>, AllocError>
    ensures { IfOk result (λ us. types us ≡ all_at (only (agreement x.now)) (types ts.now)) }
{
    let mut out = Items::new(alloc);
    for t in ts {
        out.push(put(alloc, x, t)?)?;
    }
    Ok(out)
}

/// Whether the open type of this number stands in the type.
#[cycle(hold)]
pub(crate) fn holds(var: u32, t: &Ty) -> bool
    ensures { result ≡ holds var (ty t.now) }
{
    match t {
        Ty::Nat => false,
        Ty::Bool => false,
        Ty::Param(_) => false,
        Ty::Meta(n) => *n == var,
        Ty::App(_, ts) => any_holds(var, ts.as_slice()),
    }
}

#[cycle(hold)]
fn any_holds(var: u32, ts: &[Ty]) -> bool
    ensures { result ≡ any_holds var (types ts.now) }
{
    for t in ts {
        if holds(var, t) {
            return true;
        }
    }
    false
}
