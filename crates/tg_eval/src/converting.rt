//! Values of the program as values that share, and back. Each copies once.
ghost use Rattle.std.specs.Prelude.{◌≡◌, IfOk, map};
ghost use Rattle.tg_term.specs.Values.{value};

use crate::held::{Held, Seen};
use sqlite_items::Items;
use std::alloc::{AllocError, Global};
use tg_term::Value;

/// How many levels of constructors are walked over.
const MOST_LEVELS: u64 = 10_001;

/// The same value, shared from now on. One that is higher than 10,000 isn't made, which is answered as
/// want of memory.
pub fn shared(alloc: Global, v: &Value) -> Result<Held, AllocError>
    ensures { IfOk result (λ h. h ≡ value v.now) }
{
    held_within(alloc, v, MOST_LEVELS)
}

/// The same values, shared from now on.
pub fn shared_all(alloc: Global, vs: &[Value]) -> Result<Vec<Held>, AllocError>
    ensures { IfOk result (λ hs. hs.items ≡ map value vs.now) }
{
    all_within(alloc, vs, MOST_LEVELS)
}

#[cycle(held)]
#[tactic(auto, using(crate::proofs::HeldLaws::converting))]
fn held_within(alloc: Global, v: &Value, levels: u64) -> Result<Held, AllocError>
    ensures { IfOk result (λ h. h ≡ value v.now) }
{
    match v {
        Value::Nat(n) => Ok(Held::nat(*n)),
        Value::Bool(b) => Ok(Held::truth(*b)),
        Value::Con(c, vs) => {
            let below = levels.checked_sub(1).ok_or(AllocError)?;
            let args = all_within(alloc, vs.as_slice(), below)?;
            Held::con(alloc, *c, args)
        }
    }
}

#[cycle(held)]
#[tactic(auto, using(crate::proofs::HeldLaws::converting))]
fn all_within(alloc: Global, vs: &[Value], levels: u64) -> Result<Vec<Held>, AllocError>
    ensures { IfOk result (λ hs. hs.items ≡ map value vs.now) }
{
    let mut out = Vec::new(alloc);
    for v in vs {
        out.push(held_within(alloc, v, levels)?)?;
    }
    Ok(out)
}

/// The same value, in memory of its own.
#[cycle(plain)]
#[tactic(auto, using(crate::proofs::HeldLaws::converting))]
pub fn plain(alloc: Global, h: &Held) -> Result<Value, AllocError>
    ensures { IfOk result (λ v. value v ≡ h.now) }
{
    match h.seen() {
        Seen::Nat(n) => Ok(Value::Nat(n)),
        Seen::Truth(b) => Ok(Value::Bool(b)),
        Seen::Con(c, hs) => Ok(Value::Con(c, plain_all(alloc, hs)?)),
    }
}

#[cycle(plain)]
#[tactic(auto, using(crate::proofs::HeldLaws::converting))]
fn plain_all(alloc: Global, hs: &[Held]) -> Result<Items<Value>, AllocError>
    ensures { IfOk result (λ vs. map value vs ≡ hs.now) }
{
    let mut out = Items::new(alloc);
    for h in hs {
        out.push(plain(alloc, h)?)?;
    }
    Ok(out)
}
