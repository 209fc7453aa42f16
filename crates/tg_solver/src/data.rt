//! The datum of a class.
ghost use Rattle.std.specs.Prelude.{◌≡◌, [], IfOk, map, option_map};
ghost use Rattle.std.specs.List.{find};
ghost use Rattle.tg_accept.specs.Declared.{theory};
ghost use Rattle.tg_solver.specs.Candidates.{candidates, first_candidate, satisfies};
ghost use Rattle.tg_solver.specs.Numbers.{is_truth, as_value};
ghost use Rattle.tg_solver.specs.Walk.{first_after_zeros, first_reaching};
ghost use Rattle.tg_term.specs.Classes.{variables_of};
ghost use Rattle.tg_term.specs.Values.{value};
ghost use Rattle.tg_types.specs.Types.{ty};

use crate::constraints::all_hold;
use crate::drawing::first_draw;
use crate::numbers::{as_value, is_truth, most_number};
use crate::stages::planned;
use crate::walking::first_walked;
use sqlite_items::Items;
use std::alloc::{AllocError, Global};
use tg_declarations::Declarations;
use tg_eval::{Held, plain};
use tg_term::{Class, Term, Value};
use tg_theory::Theory;
use tg_types::{Settings, Ty};

/// The datum of a class: values of its variables, that of `?1` first, at which the limited value of each constraint is
/// True. It is the first candidate of that kind, and `None` comes exactly where there is none.
///
/// Candidates are the assignments of numbers up to the greatest one, within the bound, with which all variables of the
/// pattern have at most 20,000 of them, in the order of their greatest number and then of the variables; and then `tries`
/// draws from the generator of the seed, whose stream is `index`, the number of the class. A truth variable has 0 for
/// False and 1 for True, and each other one is taken for a natural. A program call in a constraint gives False.
///
/// The error comes only where memory is wanting. Candidates take none, but for what their evaluations need; more than
/// 2^32 - 1 variables, or a value that is higher than 10,000, are answered as want of memory.
pub fn datum(
    alloc: Global,
    th: &Theory,
    c: &Class,
    s: &Settings,
    index: u32,
) -> Result<Option<Items<Value>>, AllocError>
    ensures { IfOk result (λ r. option_map (map value) r ≡ first_candidate th.now (variables_of c.now.pattern) c.now.constraints s.now index) }
{
    let truths = truths(alloc, c.pattern.vars.as_slice())?;
    let found = first(
        alloc,
        th.declarations(),
        truths.as_slice(),
        c.constraints.as_slice(),
        s,
        index,
    )?;
    match found {
        Some(vars) => Ok(Some(plain_all(alloc, vars.as_slice())?)),
        None => Ok(None),
    }
}

/// Of each variable whether it is a truth variable.
fn truths(alloc: Global, vars: &[Ty]) -> Result<Vec<bool>, AllocError>
    ensures { IfOk result (λ bs. bs.items ≡ map (λ t. is_truth (ty t)) vars.now) }
{
    let mut out = Vec::new(alloc);
    for t in vars {
        out.push(is_truth(t))?;
    }
    Ok(out)
}

/// The values, in memory of their own.
fn plain_all(alloc: Global, vars: &[Held]) -> Result<Items<Value>, AllocError>
    ensures { IfOk result (λ vs. map value vs ≡ vars.now) }
{
    let mut out = Items::new(alloc);
    for v in vars {
        out.push(plain(alloc, v)?)?;
    }
    Ok(out)
}

/// The first candidate at which each constraint is True.
#[tactic(auto, using(crate::proofs::DataLaws::finding))]
pub(crate) fn first(
    alloc: Global,
    declared: &Declarations,
    truths: &[bool],
    constraints: &[Term],
    s: &Settings,
    index: u32,
) -> Result<Option<Vec<Held>>, AllocError>
    ensures { IfOk result (λ r. option_map (λ vs. vs.items) r
        ≡ find (satisfies (theory [] declared.now) constraints.now) (candidates truths.now s.now index)) }
{
    match zeros(alloc, declared, truths, constraints)? {
        Some(vars) => Ok(Some(vars)),
        None => first_above(alloc, declared, truths, constraints, s, index),
    }
}

/// The assignment of zeros, if each constraint is True there.
#[tactic(auto, using(crate::proofs::DataLaws::zeros))]
fn zeros(
    alloc: Global,
    declared: &Declarations,
    truths: &[bool],
    constraints: &[Term],
) -> Result<Option<Vec<Held>>, AllocError>
    ensures { IfOk result (λ r. option_map (λ vs. vs.items) r
        ≡ first_reaching (satisfies (theory [] declared.now) constraints.now) 0 truths.now) }
{
    let vars = all_zero(alloc, truths)?;
    if all_hold(alloc, declared, vars.as_slice(), constraints)? {
        Ok(Some(vars))
    } else {
        Ok(None)
    }
}

/// The assignment of zeros.
fn all_zero(alloc: Global, truths: &[bool]) -> Result<Vec<Held>, AllocError>
    ensures { IfOk result (λ vs. vs.items ≡ map (λ truth. as_value truth 0) truths.now) }
{
    let mut out = Vec::new(alloc);
    for truth in truths {
        out.push(as_value(*truth, 0))?;
    }
    Ok(out)
}

/// The first candidate after the zeros at which each constraint is True.
#[tactic(auto, using(crate::proofs::DataLaws::above))]
fn first_above(
    alloc: Global,
    declared: &Declarations,
    truths: &[bool],
    constraints: &[Term],
    s: &Settings,
    index: u32,
) -> Result<Option<Vec<Held>>, AllocError>
    ensures { IfOk result (λ r. option_map (λ vs. vs.items) r
        ≡ first_after_zeros (satisfies (theory [] declared.now) constraints.now) truths.now s.now index) }
{
    let most = most_number(truths.len(), s.bound);
    if most == 0 {
        return first_draw(alloc, declared, truths, constraints, s, index);
    }
    let plan = planned(alloc, truths, constraints)?;
    if !all_hold(alloc, declared, &[], plan.ground.as_slice())? {
        return Ok(None);
    }
    match first_walked(alloc, declared, most, plan.stages.as_slice())? {
        Some(vars) => Ok(Some(vars)),
        None => first_draw(alloc, declared, truths, constraints, s, index),
    }
}
