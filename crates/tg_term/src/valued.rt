//! The depth of a value, its copies, and equality of values.
ghost use Rattle.std.specs.Prelude.{◌≡◌, IfOk, min};
ghost use Rattle.tg_model.specs.Value.{depth, deepest, same_value, same_values};
ghost use Rattle.tg_term.specs.Values.{value, values};

use crate::values::Value;
use sqlite_items::Items;
use std::alloc::{AllocError, Global};

/// The constructor depth: 0 of a natural and of a truth value, and of a constructor 1 more than that of
/// its deepest argument. It takes no memory. A depth above 2^32 - 1 is answered as 2^32 - 1.
#[cycle(depth)]
pub fn depth(v: &Value) -> u32
    ensures { result ≡ min (depth (value v.now)) 4294967295 }
{
    match v {
        Value::Nat(_) => 0,
        Value::Bool(_) => 0,
        Value::Con(_, vs) => deepest(vs.as_slice()).saturating_add(1),
    }
}

#[cycle(depth)]
fn deepest(vs: &[Value]) -> u32
    ensures { result ≡ min (deepest (values vs.now)) 4294967295 }
{
    let mut most: u32 = 0;
    for v in vs {
        most = most.max(depth(v));
    }
    most
}

/// The same value, in memory of its own.
#[cycle(copy)]
pub fn copy_value(alloc: Global, v: &Value) -> Result<Value, AllocError>
    ensures { IfOk result (λ w. w ≡ v.now) }
{
    match v {
        Value::Nat(n) => Ok(Value::Nat(*n)),
        Value::Bool(b) => Ok(Value::Bool(*b)),
        Value::Con(c, vs) => Ok(Value::Con(*c, copy_values(alloc, vs.as_slice())?)),
    }
}

#[cycle(copy)]
fn copy_values(alloc: Global, vs: &[Value]) -> Result<Items<Value>, AllocError>
    ensures { IfOk result (λ ws. ws ≡ vs.now) }
{
    let mut copies = Items::new(alloc);
    for v in vs {
        copies.push(copy_value(alloc, v)?)?;
    }
    Ok(copies)
}

/// Whether two values are equal.
#[cycle(same)]
#[tactic(auto, using(crate::proofs::ValueLists::compared))]
fn same_value(a: &Value, b: &Value) -> bool
    ensures { result ≡ same_value (value a.now) (value b.now) }
{
    match (a, b) {
        (Value::Nat(m), Value::Nat(n)) => *m == *n,
        (Value::Bool(p), Value::Bool(q)) => *p == *q,
        (Value::Con(c, vs), Value::Con(d, ws)) => {
            *c == *d && same_values(vs.as_slice(), ws.as_slice())
        }
        _ => false,
    }
}

/// Whether two lists of values are equal.
#[cycle(same)]
#[tactic(auto, using(crate::proofs::ValueLists::compared))]
pub(crate) fn same_values(vs: &[Value], ws: &[Value]) -> bool
    ensures { result ≡ same_values (values vs.now) (values ws.now) }
{
    if vs.len() != ws.len() {
        return false;
    }
    for (i, v) in vs.iter().enumerate() {
        if !same_value(v, &ws[i]) {
            return false;
        }
    }
    true
}
