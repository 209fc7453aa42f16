//! Patterns at values of their variables, and the values at which a pattern is some inputs.
ghost use Rattle.std.specs.Prelude.{◌≡◌, IfOk, length, map, option_map, option_copied};
ghost use Rattle.tg_model.specs.Filling.{filled_term, fill, HaveVariables, IsMatch};
ghost use Rattle.tg_model.specs.Theory.{numbered};
ghost use Rattle.tg_model.specs.Tree.{free, trees};
ghost use Rattle.tg_term.specs.Classes.{inputs_of};
ghost use Rattle.tg_term.specs.Matching.{held, noted, unknown, collected, collected_all, all_of};
ghost use Rattle.tg_term.specs.Values.{value, values};

use crate::classes::Pattern;
use crate::terms::{Node, Term};
use crate::valued::{copy_value, same_values};
use crate::values::Value;
use sqlite_items::Items;
use std::alloc::{AllocError, Global};

/// The inputs that a pattern gives at values of its variables, that of `Free(1)` first. A variable
/// without a value, and a term that is neither a variable nor a constructor, gives False.
pub fn fill(alloc: Global, p: &Pattern, vs: &[Value]) -> Result<Vec<Value>, AllocError>
    ensures { IfOk result (λ inputs. map value inputs.items ≡ fill (map value vs.now) (inputs_of p.now)) }
{
    fill_terms(alloc, p.terms.as_slice(), vs)
}

/// The values of the pattern's variables at which it gives the inputs, or `None` where there are no
/// such values. Each variable has to stand in the pattern, for else it can have any value.
pub fn matches(
    alloc: Global,
    p: &Pattern,
    inputs: &[Value],
) -> Result<Option<Vec<Value>>, AllocError>
    ensures { HaveVariables (length p.now.vars) (inputs_of p.now) → IfOk result (λ o.
        IsMatch (length p.now.vars) (inputs_of p.now) (map value inputs.now) (option_map (λ vs. map value vs.items) o)) }
{
    let mut slots = unknown(alloc, p.vars.len())?;
    collect_all(p.terms.as_slice(), inputs, slots.as_mut_slice());
    let Some(found) = taken(alloc, slots.as_slice())? else {
        return Ok(None);
    };
    let filled = fill_terms(alloc, p.terms.as_slice(), found.as_slice())?;
    if same_values(filled.as_slice(), inputs) {
        Ok(Some(found))
    } else {
        Ok(None)
    }
}

#[cycle(fill)]
#[tactic(auto, using(crate::proofs::ValueLists::filling))]
fn fill_term(alloc: Global, t: &Term, vs: &[Value]) -> Result<Value, AllocError>
    ensures { IfOk result (λ v. value v ≡ filled_term (map value vs.now) t.now) }
{
    match t.node() {
        Node::Free(n) => copy_numbered(alloc, vs, *n),
        Node::Con(c, ts) => Ok(Value::Con(
            *c,
            Items::from_vec(fill_terms(alloc, ts.as_slice(), vs)?),
        )),
        _ => Ok(Value::Bool(false)),
    }
}

#[cycle(fill)]
#[tactic(auto, using(crate::proofs::ValueLists::filling))]
fn fill_terms(alloc: Global, ts: &[Term], vs: &[Value]) -> Result<Vec<Value>, AllocError>
    ensures { IfOk result (λ out. map value out.items ≡ fill (map value vs.now) (trees ts.now)) }
{
    let mut out = Vec::new(alloc);
    for t in ts {
        out.push(fill_term(alloc, t, vs)?)?;
    }
    Ok(out)
}

/// A copy of the value of the variable of a number.
#[tactic(auto, using(crate::proofs::ValueLists::numbering))]
fn copy_numbered(alloc: Global, vs: &[Value], number: u32) -> Result<Value, AllocError>
    ensures { IfOk result (λ v. value v ≡ filled_term (map value vs.now) (free number)) }
{
    match value_of(vs, number) {
        Some(v) => Ok(copy_value(alloc, v)?),
        None => Ok(Value::Bool(false)),
    }
}

/// The value of the variable of a number.
fn value_of(vs: &[Value], number: u32) -> Option<&Value>
    ensures { option_copied result ≡ numbered vs.now number }
{
    match (number as usize).checked_sub(1) {
        Some(at) => vs.get(at),
        None => None,
    }
}

/// As many variables of which nothing is known.
fn unknown<'a>(alloc: Global, count: usize) -> Result<Vec<Option<&'a Value>>, AllocError>
    ensures { IfOk result (λ slots. map held slots.items ≡ unknown count) }
{
    let mut slots = Vec::new(alloc);
    for _ in 0..count {
        slots.push(None)?;
    }
    Ok(slots)
}

/// Notes for each variable of the term the value that stands in its place.
#[cycle(collect)]
#[tactic(auto, using(crate::proofs::MatchLaws::collecting))]
fn collect<'a>(t: &Term, v: &'a Value, slots: &mut [Option<&'a Value>])
    ensures { map held slots.new ≡ collected t.now (value v.now) (map held slots.old) }
{
    match (t.node(), v) {
        (Node::Free(n), v) => note(*n, v, slots),
        (Node::Con(_, ts), Value::Con(_, vs)) => collect_all(ts.as_slice(), vs.as_slice(), slots),
        _ => {}
    }
}

#[cycle(collect)]
#[tactic(auto, using(crate::proofs::MatchLaws::collecting))]
fn collect_all<'a>(ts: &[Term], vs: &'a [Value], slots: &mut [Option<&'a Value>])
    ensures { map held slots.new ≡ collected_all (trees ts.now) (values vs.now) (map held slots.old) }
{
    for (i, t) in ts.iter().enumerate() {
        let Some(v) = vs.get(i) else {
            return;
        };
        collect(t, v, slots);
    }
}

#[tactic(auto, using(crate::proofs::MatchLaws::collecting))]
fn note<'a>(number: u32, v: &'a Value, slots: &mut [Option<&'a Value>])
    ensures { map held slots.new ≡ noted (map held slots.old) number (value v.now) }
{
    if let Some(at) = (number as usize).checked_sub(1) {
        if at < slots.len() {
            slots[at] = Some(v);
        }
    }
}

/// The values that were found, or `None` where one wasn't.
fn taken(alloc: Global, slots: &[Option<&Value>]) -> Result<Option<Vec<Value>>, AllocError>
    ensures { IfOk result (λ o. option_map (λ vs. map value vs.items) o ≡ all_of (map held slots.now)) }
{
    let mut out = Vec::new(alloc);
    for slot in slots {
        let Some(v) = slot else {
            return Ok(None);
        };
        out.push(copy_value(alloc, v)?)?;
    }
    Ok(Some(out))
}
