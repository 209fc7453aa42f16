//! The values that texts of outcomes stand for.
ghost use Rattle.std.specs.Prelude.{◌≡◌, IfOk, option_map};
ghost use Rattle.tg_accept.specs.Standing.{declared_in, value_meant, values_meant, IsAnswer, IsValueOf};
ghost use Rattle.tg_infer.specs.View.{raw_term, raw_terms};
ghost use Rattle.tg_infer.specs.Words.{AreWordsOf};
ghost use Rattle.tg_term.specs.Values.{value, values};
ghost use Rattle.tg_types.specs.Types.{ty};

use crate::types_of_values::has_type;
use sqlite_items::Items;
use std::alloc::{AllocError, Global};
use tg_grammar::RawTerm;
use tg_infer::Words;
use tg_term::Value;
use tg_theory::Theory;
use tg_types::Ty;

/// The value of the type that the text stands for; `None` exactly where it stands for none: where something
/// else than a number, a truth value or a declared constructor stands in it, and where the value isn't one of
/// the type.
#[tactic(auto, using(crate::proofs::ValueLaws::answering))]
pub fn value_of(
    alloc: Global,
    words: &Words,
    th: &Theory,
    t: &Ty,
    raw: &RawTerm,
) -> Result<Option<Value>, AllocError>
    requires { AreWordsOf words.now (declared_in th.now) }
    ensures { IfOk result (λ found. IsAnswer (IsValueOf th.now (ty t.now) (raw_term raw.now)) (option_map value found)) }
{
    let Some(v) = meant(alloc, words, th, raw)? else {
        return Ok(None);
    };
    if !has_type(alloc, th, &v, t)? {
        return Ok(None);
    }
    Ok(Some(v))
}

/// The value that a term means, of whatever type.
#[cycle(meant)]
#[tactic(auto, using(crate::proofs::ValueLaws::meaning))]
fn meant(
    alloc: Global,
    words: &Words,
    th: &Theory,
    raw: &RawTerm,
) -> Result<Option<Value>, AllocError>
    requires { AreWordsOf words.now (declared_in th.now) }
    ensures { IfOk result (λ found. option_map value found ≡ value_meant (declared_in th.now) (raw_term raw.now)) }
{
    match raw {
        RawTerm::Num(n) => Ok(Some(Value::Nat(*n))),
        RawTerm::Truth(b) => Ok(Some(Value::Bool(*b))),
        RawTerm::Use(x, ts) => {
            let Some(c) = words.constructors.number(x) else {
                return Ok(None);
            };
            match all_meant(alloc, words, th, ts.as_slice())? {
                Some(vs) => Ok(Some(Value::Con(c, vs))),
                None => Ok(None),
            }
        }
        RawTerm::Free(_) | RawTerm::Bound(_) => Ok(None),
        RawTerm::Op(_, _) | RawTerm::If(_) => Ok(None),
        RawTerm::Let(_, _) | RawTerm::Case(_, _) => Ok(None),
    }
}

#[cycle(meant)]
#[tactic(auto, using(crate::proofs::ValueLaws::meaning))]
fn all_meant(
    alloc: Global,
    words: &Words,
    th: &Theory,
    raw: &[RawTerm],
) -> Result<Option<Items<Value>>, AllocError>
    requires { AreWordsOf words.now (declared_in th.now) }
    ensures { IfOk result (λ found. option_map values found ≡ values_meant (declared_in th.now) (raw_terms raw.now)) }
{
    let mut all = Items::new(alloc);
    for t in raw {
        match meant(alloc, words, th, t)? {
            Some(v) => all.push(v)?,
            None => return Ok(None),
        }
    }
    Ok(Some(all))
}
