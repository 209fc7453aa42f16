//! The walk: a recursion over arguments, and a loop over what schemas make.
ghost use Rattle.std.specs.Prelude.{◌≡◌, ◌<◌, [], ◌∷◌, ◌++◌, IfOk, OnOk, IsErrOf, unwrap_or};
ghost use Rattle.tg_norm.specs.Normal.{IsPassed, step_of};
ghost use Rattle.tg_norm.specs.Walking.{IsWalked, AreWalked, ArePassed, IsTurn, IsAtRoot, IsCounted, IsTooLarge, or_else};

use crate::arguments::{add_form, arguments, is_leaf, other_or, rebuilt};
use crate::errors::NormErr;
use crate::forms::Step;
use std::alloc::{AllocError, Global};
use tg_schema::{SchemaId, first, step};
use tg_term::Term;
use tg_theory::Theory;

/// A schema's result, and a rebuilt term to which no schema applies, have no more nodes.
const MAX_NODES: u64 = 100_000;

/// What a walk changes: how many calls are left, and the steps so far.
#[derive(Debug, Drop)]
pub(crate) struct Run {
    pub(crate) left: u64,
    pub(crate) steps: Vec<Step>,
}

/// What one call comes to, before the result of a schema is normalised.
#[derive(Debug, Drop)]
pub(crate) enum Turn {
    /// The normal form, or `None` where it is the term itself.
    Ended(Option<Term>),
    /// What a schema makes.
    Stepped(Term),
}

/// The normal form of a term on so many levels, its own included, or `None` where it is the term itself.
#[cycle(norm)]
#[tactic(auto, using(crate::proofs::TurnLaws::walks))]
pub(crate) fn walk(
    alloc: Global,
    th: &Theory,
    run: &mut Run,
    t: &Term,
    levels: u64,
) -> Result<Option<Term>, NormErr>
    ensures ok { IfOk result (λ form. IsWalked th.now levels run.old run.new t.now (unwrap_or form t.now)) }
    ensures steps { IsErrOf result NormErr.Steps → IsPassed th.now run.old.left levels t.now }
{
    if levels == 0 {
        return Err(NormErr::Steps);
    }
    match take_turn(alloc, th, run, t, levels)? {
        Turn::Ended(form) => Ok(form),
        Turn::Stepped(u) => {
            let form = walk_on(alloc, th, run, u, levels)?;
            Ok(Some(form))
        }
    }
}

/// The normal form of what a schema makes. It is a loop, for steps on one level are many.
#[cycle(norm)]
#[tactic(auto, using(crate::proofs::TurnLaws::walks))]
fn walk_on(alloc: Global, th: &Theory, run: &mut Run, t: Term, levels: u64) -> Result<Term, NormErr>
    requires { 0 < levels }
    ensures ok { IfOk result (λ form. IsWalked th.now levels run.old run.new t form) }
    ensures steps { IsErrOf result NormErr.Steps → IsPassed th.now run.old.left levels t }
{
    let mut now = t;
    loop {
        match take_turn(alloc, th, run, &now, levels)? {
            Turn::Ended(None) => return Ok(now),
            Turn::Ended(Some(form)) => return Ok(form),
            Turn::Stepped(u) => now = u,
        }
    }
}

/// One call: the arguments, and the first schema that applies to the rebuilt term.
#[cycle(norm)]
#[tactic(auto, using(crate::proofs::TurnLaws::turns))]
fn take_turn(
    alloc: Global,
    th: &Theory,
    run: &mut Run,
    t: &Term,
    levels: u64,
) -> Result<Turn, NormErr>
    requires { 0 < levels }
    ensures ok { IfOk result (λ turn. IsTurn th.now levels run.old run.new t.now turn) }
    ensures steps { IsErrOf result NormErr.Steps → IsPassed th.now run.old.left levels t.now }
    ensures fewer { OnOk result (run.new.left < run.old.left) }
{
    count(run)?;
    if is_leaf(t) {
        return Ok(Turn::Ended(None));
    }
    let forms = walk_arguments(alloc, th, run, arguments(t), levels - 1)?;
    let other = rebuilt(alloc, t, forms)?;
    match at_root(alloc, th, run, other_or(&other, t))? {
        Some(u) => Ok(Turn::Stepped(u)),
        None => Ok(Turn::Ended(other)),
    }
}

/// Takes one of the calls that are left.
fn count(run: &mut Run) -> Result<(), NormErr>
    ensures ok { OnOk result (IsCounted run.old run.new) }
    ensures steps { IsErrOf result NormErr.Steps → run.old.left ≡ 0 }
{
    match run.left.checked_sub(1) {
        Some(left) => {
            run.left = left;
            Ok(())
        }
        None => Err(NormErr::Steps),
    }
}

/// The normal forms of arguments on so many levels, or no list where each is the term itself.
#[cycle(norm)]
#[tactic(auto, using(crate::proofs::PartLaws::parts))]
fn walk_arguments(
    alloc: Global,
    th: &Theory,
    run: &mut Run,
    ts: &[Term],
    levels: u64,
) -> Result<Vec<Term>, NormErr>
    ensures ok { IfOk result (λ forms. AreWalked th.now levels run.old run.new ts.now (or_else forms.items ts.now)) }
    ensures steps { IsErrOf result NormErr.Steps → ArePassed th.now levels run.old.left ts.now }
{
    let mut forms = Vec::new(alloc);
    for (at, t) in ts.iter().enumerate() {
        let form = walk(alloc, th, run, t, levels)?;
        add_form(&mut forms, &ts[..at], t, form)?;
    }
    Ok(forms)
}

/// What the first schema that applies makes of a term, which is a step, or `None` where none applies.
#[tactic(auto, using(crate::proofs::RootLaws::roots))]
fn at_root(alloc: Global, th: &Theory, run: &mut Run, t: &Term) -> Result<Option<Term>, NormErr>
    ensures ok { IfOk result (λ o. IsAtRoot th.now run.old run.new t.now o) }
    ensures steps { IsErrOf result NormErr.Steps → IsTooLarge th.now t.now }
{
    let Some(schema) = first(th, t) else {
        return if t.nodes() > MAX_NODES {
            Err(NormErr::Steps)
        } else {
            Ok(None)
        };
    };
    let after = step(alloc, th, schema, t)?.unwrap();
    if after.nodes() > MAX_NODES {
        return Err(NormErr::Steps);
    }
    add_step(run, schema, t, &after)?;
    Ok(Some(after))
}

/// Adds a step to those so far.
fn add_step(run: &mut Run, schema: SchemaId, before: &Term, after: &Term) -> Result<(), AllocError>
    ensures left { OnOk result (run.new.left ≡ run.old.left) }
    ensures steps { OnOk result (run.new.steps.items ≡ run.old.steps.items ++ step_of schema before.now after.now ∷ []) }
{
    run.steps.push(Step {
        schema,
        before: before.share()?,
        after: after.share()?,
    })?;
    Ok(())
}
