//! The walk over assignments in their order. It goes on only from values at which all that they decide is true. Its depth is
//! the number of variables, which is 14 at most where numbers go above 0.
ghost use Rattle.std.specs.Prelude.{◌≡◌, ◌+◌, ◌-◌, Bool, List, [], ◌∷◌, None, IfOk, option_map, if◌then◌else◌};
ghost use Rattle.tg_accept.specs.Declared.{theory};
ghost use Rattle.tg_model.specs.Tree.{Tree};
ghost use Rattle.tg_model.specs.Value.{Value};
ghost use Rattle.tg_solver.specs.Candidates.{holds, satisfies};
ghost use Rattle.tg_solver.specs.Numbers.{last_number};
ghost use Rattle.tg_solver.specs.Walk.{completion, completion_at, completion_from, first_completion, ended, truths_in};
ghost use Rattle.tg_solver.specs.declared.stages.Stage.{Stage};

use crate::constraints::all_hold;
use crate::numbers::{as_value, last_number};
use crate::stages::Stage;
use std::alloc::{AllocError, Global};
use tg_declarations::Declarations;
use tg_eval::Held;
use tg_term::Term;

/// What a walk reads: it is for assignments whose greatest number is `greatest`.
#[derive(Clone, Copy, Debug)]
pub(crate) struct Walk<'a> {
    pub(crate) alloc: Global,
    pub(crate) declared: &'a Declarations,
    pub(crate) greatest: u32,
}

/// Whether values of the variables that are left complete `vars`, whose greatest number is `most`. If so the first
/// such values stand behind `vars`, which is else as before.
#[cycle(walk)]
pub(crate) fn completed(
    walk: &Walk<'_>,
    vars: &mut Vec<Held>,
    most: u64,
    stages: &[Stage],
) -> Result<bool, AllocError>
    ensures { IfOk result (λ b. (b, vars.new.items) ≡ ended vars.old.items (truths_in stages.now)
        (completion (holds (theory [] walk.now.declared.now)) walk.now.greatest most vars.old.items stages.now)) }
{
    match stages.split_first() {
        Some((stage, rest)) => extended(walk, vars, most, stage, rest),
        None => Ok(most == u64::from(walk.greatest)),
    }
}

/// The same, where a variable is split off from the others that are left.
#[cycle(walk)]
fn extended(
    walk: &Walk<'_>,
    vars: &mut Vec<Held>,
    most: u64,
    stage: &Stage,
    rest: &[Stage],
) -> Result<bool, AllocError>
    ensures { IfOk result (λ b. (b, vars.new.items) ≡ ended vars.old.items (truths_in (stage.now ∷ rest.now))
        (completion (holds (theory [] walk.now.declared.now)) walk.now.greatest most vars.old.items (stage.now ∷ rest.now))) }
{
    let last = last_number(walk.greatest, stage.truth);
    let first = first_worth(walk.greatest, most, rest);
    for n in first..u64::from(last) + 1 {
        if tried(walk, vars, most, stage, rest, n)? {
            return Ok(true);
        }
    }
    Ok(false)
}

/// The same, where that variable has the number `n`. If none complete them, `vars` is as before.
#[cycle(walk)]
fn tried(
    walk: &Walk<'_>,
    vars: &mut Vec<Held>,
    most: u64,
    stage: &Stage,
    rest: &[Stage],
    n: u64,
) -> Result<bool, AllocError>
    ensures { IfOk result (λ b. (b, vars.new.items) ≡ ended vars.old.items (truths_in (stage.now ∷ rest.now))
        (option_map (λ ns. n ∷ ns) (completion_at (holds (theory [] walk.now.declared.now)) walk.now.greatest most vars.old.items stage.now rest.now n))) }
{
    let before = vars.len();
    vars.push(as_value(stage.truth, n))?;
    if decided(walk, vars, most.max(n), stage.decided.as_slice(), rest)? {
        return Ok(true);
    }
    vars.truncate(before);
    Ok(false)
}

/// Whether what the last of `vars` decides is true, and values complete them.
#[cycle(walk)]
fn decided(
    walk: &Walk<'_>,
    vars: &mut Vec<Held>,
    most: u64,
    constraints: &[Term],
    rest: &[Stage],
) -> Result<bool, AllocError>
    ensures { IfOk result (λ b. (b, vars.new.items) ≡ ended vars.old.items (truths_in rest.now)
        (if satisfies (theory [] walk.now.declared.now) constraints.now vars.old.items
        then completion (holds (theory [] walk.now.declared.now)) walk.now.greatest most vars.old.items rest.now else None)) }
{
    if !all_hold(walk.alloc, walk.declared, vars.as_slice(), constraints)? {
        return Ok(false);
    }
    completed(walk, vars, most, rest)
}

/// The first number worth trying. The last variable has to have the greatest number if none before has it.
fn first_worth(greatest: u32, most: u64, rest: &[Stage]) -> u64
    ensures { (test : List Value → Tree → Bool) (vars : List Value) (stage : Stage) → completion test greatest most vars (stage ∷ rest.now)
        ≡ completion_from test greatest most vars stage rest.now result (last_number greatest stage.truth + 1 - result) }
{
    if rest.is_empty() && most < u64::from(greatest) {
        u64::from(greatest)
    } else {
        0
    }
}

/// The first values that pass, of greatest numbers from 1 to `most`.
pub(crate) fn first_walked(
    alloc: Global,
    declared: &Declarations,
    most: u32,
    stages: &[Stage],
) -> Result<Option<Vec<Held>>, AllocError>
    ensures { IfOk result (λ r. option_map (λ vs. vs.items) r
        ≡ first_completion (holds (theory [] declared.now)) 1 most stages.now) }
{
    let mut vars = Vec::new(alloc);
    for below in 0..most {
        let walk = Walk {
            alloc,
            declared,
            greatest: below + 1,
        };
        if completed(&walk, &mut vars, 0, stages)? {
            return Ok(Some(vars));
        }
    }
    Ok(None)
}
