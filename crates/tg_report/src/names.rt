//! The names of what a theory declares, and none of what it doesn't.
ghost use Rattle.std.specs.Prelude.{◌≡◌, ◌∷◌, [], OnOk};
ghost use Rattle.tg_render.specs.Render.{written};
ghost use Rattle.tg_report.specs.Names.{datatype_name, constructor_name, function_name, branch_head, constructors_of, name_at};

use std::alloc::AllocError;
use tg_render::{put_number, put_token};
use tg_term::{ConId, FunId};
use tg_theory::Theory;
use tg_types::DataId;

/// The name of a datatype.
pub(crate) fn datatype_name(th: &Theory, d: DataId) -> &[u8]
    ensures { result.now ≡ datatype_name th.now d }
{
    match th.declarations().data_def(d) {
        Some(def) => def.name.bytes(),
        None => &[],
    }
}

/// The name of a constructor.
pub(crate) fn constructor_name(th: &Theory, c: ConId) -> &[u8]
    ensures { result.now ≡ constructor_name th.now c }
{
    match th.declarations().con_def(c) {
        Some((_, def)) => def.name.bytes(),
        None => &[],
    }
}

/// The name of a function.
pub(crate) fn function_name(th: &Theory, f: FunId) -> &[u8]
    ensures { result.now ≡ function_name th.now f }
{
    match th.declarations().fun_def(f) {
        Some(def) => def.name.bytes(),
        None => &[],
    }
}

/// Writes the constructor of the branch at a place, from 0, of a `case` on a datatype.
pub(crate) fn put_branch_head(
    out: &mut Vec<u8>,
    th: &Theory,
    d: DataId,
    at: usize,
) -> Result<(), AllocError>
    ensures { OnOk result (out.new.items ≡ written out.old.items (branch_head th.now d at ∷ [])) }
{
    if d > 0 {
        return put_token(out, branch_name(th, d, at));
    }
    if at == 0 {
        return put_number(out, 0);
    }
    put_token(out, b"Suc")
}

/// The name of the constructor at a place, from 0, of a datatype.
fn branch_name(th: &Theory, d: DataId, at: usize) -> &[u8]
    ensures { result.now ≡ name_at (constructors_of th.now d) at }
{
    let Some(def) = th.declarations().data_def(d) else {
        return &[];
    };
    match def.cons.as_slice().get(at) {
        Some(con) => con.name.bytes(),
        None => &[],
    }
}
