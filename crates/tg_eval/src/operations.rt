//! Operators at terms: the part of the evaluator that evaluates their operands.
ghost use Rattle.std.specs.Prelude.{◌≡◌, [], true, false, IfOk, OnOk, reverse, length};
ghost use Rattle.tg_accept.specs.Declared.{theory};
ghost use Rattle.tg_eval.specs.Evaluating.{outcome};
ghost use Rattle.tg_eval.specs.Limited.{limited, level_by, connected_by, operated_by};
ghost use Rattle.tg_eval.specs.Operating.{connects};
ghost use Rattle.tg_model.specs.Tree.{op, one, two, trees};
ghost use Rattle.tg_term.specs.Operators.{operator};

use crate::evaluating::{Given, Run, value_of, values_of};
use crate::held::Held;
use crate::operating::{binary, decided, is_connective, joined, unary, wrong};
use std::alloc::AllocError;
use tg_term::{OpId, Term};

/// An operator at terms. A connective doesn't evaluate its right side where the left one decides.
#[cycle(value)]
#[tactic(auto, using(crate::proofs::StepLaws::operators))]
pub(crate) fn operated(
    given: &Given<'_>,
    run: &mut Run,
    env: &[Held],
    loc: &mut Vec<Held>,
    levels: u64,
    o: OpId,
    ts: &[Term],
) -> Result<Option<Held>, AllocError>
    ensures value { IfOk result (λ r. outcome r run.new.left
        ≡ level_by (theory [] given.now.declared.now) given.now.answer.now (limited (theory [] given.now.declared.now) given.now.answer.now levels)
        run.old.left env.now (reverse loc.old.items) (op (operator o) (trees ts.now))) }
    ensures kept { OnOk result (loc.new.items ≡ loc.old.items) }
{
    if ts.len() == 1 {
        return operated_on_one(given, run, env, loc, levels, o, &ts[0]);
    }
    if ts.len() != 2 {
        return operated_on_others(given, run, env, loc, levels, o, ts);
    }
    if is_connective(o) {
        connected(given, run, env, loc, levels, o, &ts[0], &ts[1])
    } else {
        operated_on_two(given, run, env, loc, levels, o, &ts[0], &ts[1])
    }
}

/// An operator at one term.
#[cycle(value)]
#[tactic(auto, using(crate::proofs::StepLaws::operands))]
fn operated_on_one(
    given: &Given<'_>,
    run: &mut Run,
    env: &[Held],
    loc: &mut Vec<Held>,
    levels: u64,
    o: OpId,
    t: &Term,
) -> Result<Option<Held>, AllocError>
    ensures value { IfOk result (λ r. outcome r run.new.left
        ≡ operated_by (theory [] given.now.declared.now) given.now.answer.now (limited (theory [] given.now.declared.now) given.now.answer.now levels)
        run.old.left env.now (reverse loc.old.items) (operator o) (one t.now)) }
    ensures kept { OnOk result (loc.new.items ≡ loc.old.items) }
{
    match value_of(given, run, env, loc, levels, t)? {
        Some(v) => Ok(unary(o, &v)),
        None => Ok(None),
    }
}

/// An operator at two terms.
#[cycle(value)]
#[tactic(auto, using(crate::proofs::StepLaws::operands))]
fn operated_on_two(
    given: &Given<'_>,
    run: &mut Run,
    env: &[Held],
    loc: &mut Vec<Held>,
    levels: u64,
    o: OpId,
    t: &Term,
    u: &Term,
) -> Result<Option<Held>, AllocError>
    ensures value { IfOk result (λ r. outcome r run.new.left
        ≡ operated_by (theory [] given.now.declared.now) given.now.answer.now (limited (theory [] given.now.declared.now) given.now.answer.now levels)
        run.old.left env.now (reverse loc.old.items) (operator o) (two t.now u.now)) }
    ensures kept { OnOk result (loc.new.items ≡ loc.old.items) }
{
    let Some(v) = value_of(given, run, env, loc, levels, t)? else {
        return Ok(None);
    };
    match value_of(given, run, env, loc, levels, u)? {
        Some(w) => Ok(binary(o, &v, &w)),
        None => Ok(None),
    }
}

/// An operator at a number of terms that none has.
#[cycle(value)]
#[tactic(auto, using(crate::proofs::StepLaws::operands))]
fn operated_on_others(
    given: &Given<'_>,
    run: &mut Run,
    env: &[Held],
    loc: &mut Vec<Held>,
    levels: u64,
    o: OpId,
    ts: &[Term],
) -> Result<Option<Held>, AllocError>
    requires one { ¬ (length ts.now ≡ 1) }
    requires two { ¬ (length ts.now ≡ 2) }
    ensures value { IfOk result (λ r. outcome r run.new.left
        ≡ operated_by (theory [] given.now.declared.now) given.now.answer.now (limited (theory [] given.now.declared.now) given.now.answer.now levels)
        run.old.left env.now (reverse loc.old.items) (operator o) (trees ts.now)) }
    ensures kept { OnOk result (loc.new.items ≡ loc.old.items) }
{
    let Some(_args) = values_of(given, run, env, loc, levels, ts)? else {
        return Ok(None);
    };
    Ok(Some(wrong()))
}

/// A connective at two terms.
#[cycle(value)]
#[tactic(auto, using(crate::proofs::StepLaws::operands))]
fn connected(
    given: &Given<'_>,
    run: &mut Run,
    env: &[Held],
    loc: &mut Vec<Held>,
    levels: u64,
    o: OpId,
    t: &Term,
    u: &Term,
) -> Result<Option<Held>, AllocError>
    requires { connects (operator o) ≡ true }
    ensures value { IfOk result (λ r. outcome r run.new.left
        ≡ connected_by (theory [] given.now.declared.now) given.now.answer.now (limited (theory [] given.now.declared.now) given.now.answer.now levels)
        run.old.left env.now (reverse loc.old.items) (operator o) t.now u.now) }
    ensures kept { OnOk result (loc.new.items ≡ loc.old.items) }
{
    let Some(v) = value_of(given, run, env, loc, levels, t)? else {
        return Ok(None);
    };
    if let Some(b) = decided(o, &v) {
        return Ok(Some(Held::truth(b)));
    }
    match value_of(given, run, env, loc, levels, u)? {
        Some(w) => Ok(Some(joined(o, &v, &w))),
        None => Ok(None),
    }
}
