//! Values.
ghost use Rattle.std.specs.Prelude.{◌≡◌, OnOk};
ghost use Rattle.tg_model.specs.Value.{made};
ghost use Rattle.tg_render.specs.Render.{written};
ghost use Rattle.tg_render.specs.Tokens.{joined};
ghost use Rattle.tg_report.specs.ValueTexts.{value_tokens, values_tokens};
ghost use Rattle.tg_term.specs.Values.{value, values};

use crate::names::constructor_name;
use crate::tokens::put_truth;
use std::alloc::AllocError;
use tg_render::{put_number, put_token};
use tg_term::{ConId, Value};
use tg_theory::Theory;

/// Writes a value. A constructor that the theory doesn't declare has an empty name.
#[cycle(values)]
#[tactic(auto, using(crate::proofs::ValueLaws::writing))]
pub fn put_value(out: &mut Vec<u8>, th: &Theory, v: &Value) -> Result<(), AllocError>
    ensures { OnOk result (out.new.items ≡ written out.old.items (value_tokens th.now (value v.now))) }
{
    match v {
        Value::Nat(n) => put_number(out, *n),
        Value::Bool(b) => put_truth(out, *b),
        Value::Con(c, vs) => put_made(out, th, *c, vs.as_slice()),
    }
}

/// Writes a constructor at its arguments.
#[cycle(values)]
#[tactic(auto, using(crate::proofs::ValueLaws::writing))]
fn put_made(out: &mut Vec<u8>, th: &Theory, c: ConId, vs: &[Value]) -> Result<(), AllocError>
    ensures { OnOk result (out.new.items ≡ written out.old.items (value_tokens th.now (made c (values vs.now)))) }
{
    let head = constructor_name(th, c);
    if vs.is_empty() {
        return put_token(out, head);
    }
    put_token(out, b"(")?;
    put_token(out, head)?;
    put_values(out, th, vs)?;
    put_token(out, b")")
}

/// Writes values one behind another.
#[cycle(values)]
#[tactic(auto, using(crate::proofs::ValueLaws::writing))]
pub fn put_values(out: &mut Vec<u8>, th: &Theory, vs: &[Value]) -> Result<(), AllocError>
    ensures { OnOk result (out.new.items ≡ written out.old.items (joined (values_tokens th.now (values vs.now)))) }
{
    for v in vs {
        put_value(out, th, v)?;
    }
    Ok(())
}
