//! Values taken apart by a `case` or a primitive recursive function, and variables looked up.
ghost use Rattle.std.specs.Prelude.{◌≡◌, ◌++◌, [], IfOk, OnOk, OnErr, reverse, length, option_map, option_copied, unwrap_or, slice_get};
ghost use Rattle.tg_declarations.specs.View.{function};
ghost use Rattle.tg_eval.specs.Opening.{parts_of, truth_of};
ghost use Rattle.tg_model.specs.Denotation.{opened, datatype_of_place};
ghost use Rattle.tg_model.specs.Theory.{numbered, datatype_of, first_constructor};
ghost use Rattle.tg_types.specs.Types.{ty};
ghost use Rattle.tg_model.specs.Value.{wrong};

use crate::held::{Held, Seen};
use crate::operating::wrong;
use std::alloc::AllocError;
use tg_declarations::{Declarations, FunDef};
use tg_types::{DataId, Ty};

/// The value of the free variable of a number, from 1.
#[tactic(auto, using(crate::proofs::OpeningLaws::reading))]
pub(crate) fn free_value(env: &[Held], number: u32) -> Result<Held, AllocError>
    ensures { IfOk result (λ v. v ≡ unwrap_or (numbered env.now number) wrong) }
{
    value_or_wrong(item(env, number))
}

/// The value of the bound variable of an index. The innermost is the last.
#[tactic(auto, using(crate::proofs::OpeningLaws::reading))]
pub(crate) fn bound_value(loc: &[Held], index: u32) -> Result<Held, AllocError>
    ensures { IfOk result (λ v. v ≡ unwrap_or (slice_get (reverse loc.now) index) wrong) }
{
    match loc.len().checked_sub(1) {
        Some(last) => match last.checked_sub(index as usize) {
            Some(at) => value_or_wrong(loc.get(at)),
            None => Ok(wrong()),
        },
        None => Ok(wrong()),
    }
}

fn value_or_wrong(v: Option<&Held>) -> Result<Held, AllocError>
    ensures { IfOk result (λ w. w ≡ unwrap_or (option_copied v.entry) wrong) }
{
    match v {
        Some(v) => v.share(),
        None => Ok(wrong()),
    }
}

/// The place, from 0, of the constructor of a datatype that a value is made by, 0 being the datatype nat.
#[tactic(auto, using(crate::proofs::OpeningLaws::opening))]
pub(crate) fn place_in(
    declared: &Declarations,
    d: DataId,
    v: &Held,
) -> Result<Option<usize>, AllocError>
    ensures { IfOk result (λ o. option_map (λ k. (k, parts_of v.now)) o ≡ opened d (first_constructor declared.now.datatypes d) v.now) }
{
    match v.seen() {
        Seen::Nat(n) if d == 0 => Ok(Some(if n == 0 { 0 } else { 1 })),
        Seen::Con(c, _) if d != 0 => {
            let first = first_constructor(declared, d)?;
            match u64::from(c).checked_sub(first) {
                Some(place) => Ok(Some(place as usize)),
                None => Ok(None),
            }
        }
        _ => Ok(None),
    }
}

/// Adds the number before a natural, or the arguments of a constructor.
#[tactic(auto, using(crate::proofs::OpeningLaws::parts))]
pub(crate) fn add_parts(out: &mut Vec<Held>, v: &Held) -> Result<(), AllocError>
    ensures { OnOk result (out.new.items ≡ out.old.items ++ parts_of v.now) }
{
    match v.seen() {
        Seen::Nat(n) => {
            if let Some(before) = n.checked_sub(1) {
                out.push(Held::nat(before))?;
            }
            Ok(())
        }
        Seen::Truth(_) => Ok(()),
        Seen::Con(_, vs) => add_shared(out, vs),
    }
}

/// Adds the values.
#[tactic(auto, using(crate::proofs::OpeningLaws::parts))]
fn add_shared(out: &mut Vec<Held>, vs: &[Held]) -> Result<(), AllocError>
    ensures { OnOk result (out.new.items ≡ out.old.items ++ vs.now) }
{
    for v in vs {
        out.push(v.share()?)?;
    }
    Ok(())
}

/// How many values `add_parts` adds.
#[tactic(auto, using(crate::proofs::OpeningLaws::parts))]
pub(crate) fn part_count(v: &Held) -> usize
    ensures { result ≡ length (parts_of v.now) }
{
    match v.seen() {
        Seen::Nat(n) => { if n == 0 { 0 } else { 1 } }
        Seen::Truth(_) => 0,
        Seen::Con(_, vs) => vs.len(),
    }
}

/// The number of the datatype of a function's argument at a place, from 1, and 0 of any other type.
#[tactic(auto, using(crate::proofs::OpeningLaws::typed))]
pub(crate) fn datatype_of_place(def: &FunDef, place: u32) -> DataId
    ensures { result ≡ datatype_of_place (function def.now) place }
{
    match item(def.args.as_slice(), place) {
        Some(t) => data_number(t),
        None => 0,
    }
}

#[tactic(auto, using(crate::proofs::OpeningLaws::types))]
fn data_number(t: &Ty) -> DataId
    ensures { result ≡ datatype_of (ty t.now) }
{
    match t {
        Ty::App(d, _) => *d,
        Ty::Nat => 0,
        Ty::Bool => 0,
        Ty::Param(_) => 0,
        Ty::Meta(_) => 0,
    }
}

/// The truth value that a value is.
pub(crate) fn truth_of(v: &Held) -> Option<bool>
    ensures { result ≡ truth_of v.now }
{
    match v.seen() {
        Seen::Truth(b) => Some(b),
        Seen::Nat(_) => None,
        Seen::Con(_, _) => None,
    }
}

/// The item at a place, from 0.
pub(crate) fn at<T>(items: &[T], at: usize) -> Option<&T>
    ensures { option_copied result ≡ slice_get items.now at }
{
    items.get(at)
}

/// The item of a number, from 1.
fn item<T>(items: &[T], number: u32) -> Option<&T>
    ensures { option_copied result ≡ numbered items.now number }
{
    items.get((number as usize).checked_sub(1)?)
}

/// The number of the first constructor of a datatype. That of a datatype which isn't declared, or has no constructor,
/// is found by a count over those before it.
#[tactic(auto, using(crate::proofs::OpeningLaws::firsts))]
fn first_constructor(declared: &Declarations, d: DataId) -> Result<u64, AllocError>
    ensures { IfOk result (λ n. n ≡ first_constructor declared.now.datatypes d) }
{
    match item(declared.constructors(d), 1) {
        Some(c) => Ok(u64::from(*c)),
        None => counted_first(declared, d),
    }
}

/// One more than the number of constructors of the datatypes before a number.
#[tactic(auto, using(crate::proofs::OpeningLaws::firsts))]
fn counted_first(declared: &Declarations, d: DataId) -> Result<u64, AllocError>
    ensures { IfOk result (λ n. n ≡ first_constructor declared.now.datatypes d) }
{
    let mut first: u64 = 1;
    for number in 1..d {
        let Some(def) = declared.data_def(number) else {
            return Ok(first);
        };
        first = first.checked_add(def.cons.len() as u64).ok_or(AllocError)?;
    }
    Ok(first)
}
