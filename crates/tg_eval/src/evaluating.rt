//! The evaluator, call by value, exactly within the bounds. `None` is that one was passed.
ghost use Rattle.std.specs.Prelude.{◌≡◌, [], IfOk, OnOk, reverse, option_map};
ghost use Rattle.tg_accept.specs.Declared.{theory};
ghost use Rattle.tg_declarations.specs.View.{function};
ghost use Rattle.tg_eval.specs.Evaluating.{outcome, outcomes};
ghost use Rattle.tg_eval.specs.Limited.{limited, level_by, all_by, called_by, body_by};
ghost use Rattle.tg_model.specs.Theory.{recursive};
ghost use Rattle.tg_model.specs.Tree.{con, call, put, choice, case, bind, op, trees};
ghost use Rattle.tg_term.specs.Operators.{operator};
ghost use Rattle.tg_term.specs.View.{arms};

use crate::held::Held;
use crate::making::{made, taken};
use crate::opening::{
    add_parts, at, bound_value, datatype_of_place, free_value, part_count, place_in, truth_of,
};
use crate::operating::wrong;
use crate::operations::operated;
use std::alloc::{AllocError, Global};
use tg_declarations::{Body, Declarations, FunDef};
use tg_term::{Branch, ConId, FunId, Node, OpId, Term};
use tg_types::DataId;

/// What an evaluation reads: declarations, and what each program call gives.
#[derive(Clone, Copy, Debug)]
pub(crate) struct Given<'a> {
    pub(crate) alloc: Global,
    pub(crate) declared: &'a Declarations,
    pub(crate) answer: &'a Held,
}

/// What an evaluation changes: the number of calls that are left.
#[derive(Debug, Drop)]
pub(crate) struct Run {
    pub(crate) left: u64,
}

/// The value of a term below which so many levels may stand, itself included. `env` has the values of the free variables,
/// `loc` those of the loose bound ones, the innermost last.
#[cycle(value)]
#[tactic(auto, using(crate::proofs::StepLaws::levels))]
pub(crate) fn value_of(
    given: &Given<'_>,
    run: &mut Run,
    env: &[Held],
    loc: &mut Vec<Held>,
    levels: u64,
    t: &Term,
) -> Result<Option<Held>, AllocError>
    ensures value { IfOk result (λ r. outcome r run.new.left
        ≡ limited (theory [] given.now.declared.now) given.now.answer.now levels run.old.left env.now (reverse loc.old.items) t.now) }
    ensures kept { OnOk result (loc.new.items ≡ loc.old.items) }
{
    match levels.checked_sub(1) {
        Some(below) => value_at(given, run, env, loc, below, t),
        None => Ok(None),
    }
}

/// The value of a term, where so many levels may stand below it.
#[cycle(value)]
#[tactic(auto, using(crate::proofs::StepLaws::nodes))]
fn value_at(
    given: &Given<'_>,
    run: &mut Run,
    env: &[Held],
    loc: &mut Vec<Held>,
    levels: u64,
    t: &Term,
) -> Result<Option<Held>, AllocError>
    ensures value { IfOk result (λ r. outcome r run.new.left
        ≡ level_by (theory [] given.now.declared.now) given.now.answer.now (limited (theory [] given.now.declared.now) given.now.answer.now levels)
        run.old.left env.now (reverse loc.old.items) t.now) }
    ensures kept { OnOk result (loc.new.items ≡ loc.old.items) }
{
    match t.node() {
        Node::Bound(k) => Ok(Some(bound_value(loc.as_slice(), *k)?)),
        Node::Free(n) => Ok(Some(free_value(env, *n)?)),
        Node::Lit(n) => Ok(Some(Held::nat(*n))),
        Node::Truth(b) => Ok(Some(Held::truth(*b))),
        Node::Con(c, ts) => constructed(given, run, env, loc, levels, *c, ts.as_slice()),
        Node::Call(f, ts) => call_of(given, run, env, loc, levels, *f, ts.as_slice()),
        Node::Put(ts) => put_of(given, run, env, loc, levels, ts.as_slice()),
        Node::If(ts) => chosen(given, run, env, loc, levels, ts.as_slice()),
        Node::Case(d, t, bs) => opened(given, run, env, loc, levels, *d, t, bs.as_slice()),
        Node::Let(t, body) => bound(given, run, env, loc, levels, t, body),
        Node::Op(o, ts) => operated(given, run, env, loc, levels, *o, ts.as_slice()),
    }
}

/// The values of terms, from the left.
#[cycle(value)]
#[tactic(auto, using(crate::proofs::StepLaws::lists))]
pub(crate) fn values_of(
    given: &Given<'_>,
    run: &mut Run,
    env: &[Held],
    loc: &mut Vec<Held>,
    levels: u64,
    ts: &[Term],
) -> Result<Option<Vec<Held>>, AllocError>
    ensures value { IfOk result (λ o. outcomes (option_map (λ vs. vs.items) o) run.new.left
        ≡ all_by (theory [] given.now.declared.now) given.now.answer.now (limited (theory [] given.now.declared.now) given.now.answer.now levels)
        run.old.left env.now (reverse loc.old.items) (trees ts.now)) }
    ensures kept { OnOk result (loc.new.items ≡ loc.old.items) }
{
    let mut out = Vec::new(given.alloc);
    for t in ts {
        match value_of(given, run, env, loc, levels, t)? {
            Some(v) => out.push(v)?,
            None => return Ok(None),
        }
    }
    Ok(Some(out))
}

/// A constructor at the values of its arguments.
#[cycle(value)]
#[tactic(auto, using(crate::proofs::StepLaws::lists))]
fn constructed(
    given: &Given<'_>,
    run: &mut Run,
    env: &[Held],
    loc: &mut Vec<Held>,
    levels: u64,
    c: ConId,
    ts: &[Term],
) -> Result<Option<Held>, AllocError>
    ensures value { IfOk result (λ r. outcome r run.new.left
        ≡ level_by (theory [] given.now.declared.now) given.now.answer.now (limited (theory [] given.now.declared.now) given.now.answer.now levels)
        run.old.left env.now (reverse loc.old.items) (con c (trees ts.now))) }
    ensures kept { OnOk result (loc.new.items ≡ loc.old.items) }
{
    let Some(args) = values_of(given, run, env, loc, levels, ts)? else {
        return Ok(None);
    };
    made(given.alloc, c, args)
}

/// The answer of the program, after the values of its inputs.
#[cycle(value)]
#[tactic(auto, using(crate::proofs::StepLaws::lists))]
fn put_of(
    given: &Given<'_>,
    run: &mut Run,
    env: &[Held],
    loc: &mut Vec<Held>,
    levels: u64,
    ts: &[Term],
) -> Result<Option<Held>, AllocError>
    ensures value { IfOk result (λ r. outcome r run.new.left
        ≡ level_by (theory [] given.now.declared.now) given.now.answer.now (limited (theory [] given.now.declared.now) given.now.answer.now levels)
        run.old.left env.now (reverse loc.old.items) (put (trees ts.now))) }
    ensures kept { OnOk result (loc.new.items ≡ loc.old.items) }
{
    match values_of(given, run, env, loc, levels, ts)? {
        Some(_) => Ok(Some(given.answer.share()?)),
        None => Ok(None),
    }
}

/// A function at the values of its arguments.
#[cycle(value)]
#[tactic(auto, using(crate::proofs::StepLaws::lists))]
fn call_of(
    given: &Given<'_>,
    run: &mut Run,
    env: &[Held],
    loc: &mut Vec<Held>,
    levels: u64,
    f: FunId,
    ts: &[Term],
) -> Result<Option<Held>, AllocError>
    ensures value { IfOk result (λ r. outcome r run.new.left
        ≡ level_by (theory [] given.now.declared.now) given.now.answer.now (limited (theory [] given.now.declared.now) given.now.answer.now levels)
        run.old.left env.now (reverse loc.old.items) (call f (trees ts.now))) }
    ensures kept { OnOk result (loc.new.items ≡ loc.old.items) }
{
    let Some(args) = values_of(given, run, env, loc, levels, ts)? else {
        return Ok(None);
    };
    called(given, run, levels, f, args)
}

/// A function at arguments, which takes one of the calls that are left.
#[cycle(value)]
#[tactic(auto, using(crate::proofs::StepLaws::calls))]
fn called(
    given: &Given<'_>,
    run: &mut Run,
    levels: u64,
    f: FunId,
    args: Vec<Held>,
) -> Result<Option<Held>, AllocError>
    ensures { IfOk result (λ r. outcome r run.new.left
        ≡ called_by (theory [] given.now.declared.now) given.now.answer.now (limited (theory [] given.now.declared.now) given.now.answer.now levels)
        run.old.left f args.items) }
{
    let Some(left) = run.left.checked_sub(1) else {
        return Ok(None);
    };
    run.left = left;
    match given.declared.fun_def(f) {
        Some(def) => body_of(given, run, levels, def, args),
        None => Ok(Some(wrong())),
    }
}

/// The body of a function at arguments.
#[cycle(value)]
#[tactic(auto, using(crate::proofs::StepLaws::bodies))]
fn body_of(
    given: &Given<'_>,
    run: &mut Run,
    levels: u64,
    def: &FunDef,
    args: Vec<Held>,
) -> Result<Option<Held>, AllocError>
    ensures { IfOk result (λ r. outcome r run.new.left
        ≡ body_by (theory [] given.now.declared.now) given.now.answer.now (limited (theory [] given.now.declared.now) given.now.answer.now levels)
        run.old.left args.items (function def.now) (function def.now).body) }
{
    match &def.body {
        Body::Plain(t) => {
            let mut loc = Vec::new(given.alloc);
            value_of(given, run, args.as_slice(), &mut loc, levels, t)
        }
        Body::Rec { place, cases } => {
            recursed(given, run, levels, def, *place, cases.as_slice(), args)
        }
    }
}

/// The case of a primitive recursive function at arguments.
#[cycle(value)]
#[tactic(auto, using(crate::proofs::StepLaws::recursions))]
fn recursed(
    given: &Given<'_>,
    run: &mut Run,
    levels: u64,
    def: &FunDef,
    place: u32,
    cases: &[Term],
    args: Vec<Held>,
) -> Result<Option<Held>, AllocError>
    ensures { IfOk result (λ r. outcome r run.new.left
        ≡ body_by (theory [] given.now.declared.now) given.now.answer.now (limited (theory [] given.now.declared.now) given.now.answer.now levels)
        run.old.left args.items (function def.now) (recursive place cases.now)) }
{
    let mut args = args;
    let Some(v) = taken(&mut args, place) else {
        return Ok(Some(wrong()));
    };
    let Some(k) = place_in(given.declared, datatype_of_place(def, place), &v)? else {
        return Ok(Some(wrong()));
    };
    let Some(t) = cases.get(k) else {
        return Ok(Some(wrong()));
    };
    add_parts(&mut args, &v)?;
    let mut loc = Vec::new(given.alloc);
    value_of(given, run, args.as_slice(), &mut loc, levels, t)
}

/// One of two terms, by the value of a condition.
#[cycle(value)]
#[tactic(auto, using(crate::proofs::StepLaws::choices))]
fn chosen(
    given: &Given<'_>,
    run: &mut Run,
    env: &[Held],
    loc: &mut Vec<Held>,
    levels: u64,
    ts: &[Term],
) -> Result<Option<Held>, AllocError>
    ensures value { IfOk result (λ r. outcome r run.new.left
        ≡ level_by (theory [] given.now.declared.now) given.now.answer.now (limited (theory [] given.now.declared.now) given.now.answer.now levels)
        run.old.left env.now (reverse loc.old.items) (choice (trees ts.now))) }
    ensures kept { OnOk result (loc.new.items ≡ loc.old.items) }
{
    if ts.len() != 3 {
        return Ok(Some(wrong()));
    }
    let Some(v) = value_of(given, run, env, loc, levels, &ts[0])? else {
        return Ok(None);
    };
    match truth_of(&v) {
        Some(true) => value_of(given, run, env, loc, levels, &ts[1]),
        Some(false) => value_of(given, run, env, loc, levels, &ts[2]),
        None => Ok(Some(wrong())),
    }
}

/// A term within which a variable has the value of another.
#[cycle(value)]
#[tactic(auto, using(crate::proofs::StepLaws::binds))]
fn bound(
    given: &Given<'_>,
    run: &mut Run,
    env: &[Held],
    loc: &mut Vec<Held>,
    levels: u64,
    t: &Term,
    body: &Term,
) -> Result<Option<Held>, AllocError>
    ensures value { IfOk result (λ r. outcome r run.new.left
        ≡ level_by (theory [] given.now.declared.now) given.now.answer.now (limited (theory [] given.now.declared.now) given.now.answer.now levels)
        run.old.left env.now (reverse loc.old.items) (bind t.now body.now)) }
    ensures kept { OnOk result (loc.new.items ≡ loc.old.items) }
{
    let Some(v) = value_of(given, run, env, loc, levels, t)? else {
        return Ok(None);
    };
    let depth = loc.len();
    loc.push(v)?;
    let value = value_of(given, run, env, loc, levels, body)?;
    loc.truncate(depth);
    Ok(value)
}

/// The branch of the constructor that the value of a term is made by.
#[cycle(value)]
#[tactic(auto, using(crate::proofs::StepLaws::cases))]
fn opened(
    given: &Given<'_>,
    run: &mut Run,
    env: &[Held],
    loc: &mut Vec<Held>,
    levels: u64,
    d: DataId,
    t: &Term,
    bs: &[Branch],
) -> Result<Option<Held>, AllocError>
    ensures value { IfOk result (λ r. outcome r run.new.left
        ≡ level_by (theory [] given.now.declared.now) given.now.answer.now (limited (theory [] given.now.declared.now) given.now.answer.now levels)
        run.old.left env.now (reverse loc.old.items) (case d t.now (arms bs.now))) }
    ensures kept { OnOk result (loc.new.items ≡ loc.old.items) }
{
    let Some(v) = value_of(given, run, env, loc, levels, t)? else {
        return Ok(None);
    };
    let Some(k) = place_in(given.declared, d, &v)? else {
        return Ok(Some(wrong()));
    };
    let Some(branch) = at(bs, k) else {
        return Ok(Some(wrong()));
    };
    if branch.vars as usize != part_count(&v) {
        return Ok(Some(wrong()));
    }
    let depth = loc.len();
    add_parts(loc, &v)?;
    let value = value_of(given, run, env, loc, levels, &branch.body)?;
    loc.truncate(depth);
    Ok(value)
}
