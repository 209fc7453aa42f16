//! Types.
ghost use Rattle.std.specs.Prelude.{◌≡◌, ◌<◌, OnOk, length, drop};
ghost use Rattle.tg_render.specs.Render.{written};
ghost use Rattle.tg_render.specs.Tokens.{name, continued};
ghost use Rattle.tg_report.specs.Names.{datatype_name};
ghost use Rattle.tg_report.specs.TypeTexts.{ty_tokens, tys_tokens, arguments, type_application};
ghost use Rattle.tg_report.specs.Words.{comma};
ghost use Rattle.tg_types.specs.Types.{ty, types};

use crate::names::datatype_name;
use crate::tokens::put_variable;
use std::alloc::AllocError;
use tg_render::put_token;
use tg_theory::Theory;
use tg_types::{DataId, Ty};

/// Writes a type. A type parameter, which no closed type has, and an open type are written `?n`.
#[cycle(types)]
#[tactic(auto, using(crate::proofs::TypeLaws::writing))]
pub fn put_ty(out: &mut Vec<u8>, th: &Theory, t: &Ty) -> Result<(), AllocError>
    ensures { OnOk result (out.new.items ≡ written out.old.items (ty_tokens th.now (ty t.now))) }
{
    match t {
        Ty::Nat => put_token(out, b"nat"),
        Ty::Bool => put_token(out, b"bool"),
        Ty::Param(n) => put_variable(out, b"?", u64::from(*n)),
        Ty::Meta(n) => put_variable(out, b"?", u64::from(*n)),
        Ty::App(d, ts) => put_applied(out, th, *d, ts.as_slice()),
    }
}

/// Writes a datatype at its arguments.
#[cycle(types)]
#[tactic(auto, using(crate::proofs::TypeLaws::writing))]
fn put_applied(out: &mut Vec<u8>, th: &Theory, d: DataId, ts: &[Ty]) -> Result<(), AllocError>
    ensures { OnOk result (out.new.items ≡ written out.old.items (type_application (name (datatype_name th.now d)) (tys_tokens th.now (types ts.now)))) }
{
    let head = datatype_name(th, d);
    if ts.is_empty() {
        return put_token(out, head);
    }
    put_token(out, b"(")?;
    put_arguments(out, th, ts)?;
    put_token(out, head)?;
    put_token(out, b")")
}

/// Writes the arguments of a datatype.
#[cycle(types)]
#[tactic(auto, using(crate::proofs::TypeLaws::writing))]
fn put_arguments(out: &mut Vec<u8>, th: &Theory, ts: &[Ty]) -> Result<(), AllocError>
    requires { 0 < length ts.now }
    ensures { OnOk result (out.new.items ≡ written out.old.items (arguments (tys_tokens th.now (types ts.now)))) }
{
    if ts.len() == 1 {
        return put_ty(out, th, &ts[0]);
    }
    put_token(out, b"(")?;
    put_ty(out, th, &ts[0])?;
    put_more(out, th, ts)?;
    put_token(out, b")")
}

/// Writes the types behind the first, with a comma before each.
#[cycle(types)]
#[tactic(auto, using(crate::proofs::TypeLaws::writing))]
fn put_more(out: &mut Vec<u8>, th: &Theory, ts: &[Ty]) -> Result<(), AllocError>
    ensures { OnOk result (out.new.items ≡ written out.old.items (continued comma (tys_tokens th.now (types (drop 1 ts.now))))) }
{
    for at in 1..ts.len() {
        put_token(out, b",")?;
        put_ty(out, th, &ts[at])?;
    }
    Ok(())
}
