//! The work on goals, in its order.
ghost use Rattle.std.specs.Prelude.{true, false, ◌≡◌, ◌<◌, ◌+◌, ◌*◌, ◌∷◌, ◌++◌, [], IfOk, OnOk, IfErr, length, map, None, Some};
ghost use Rattle.tg_clause.specs.Answers.{literals};
ghost use Rattle.tg_derive.specs.Answers.{goal_of, goals, stacked, Stops};
ghost use Rattle.tg_derive.specs.Goals.{signed, under};
ghost use Rattle.tg_derive.specs.Work.{done, Work};
ghost use Rattle.tg_derive.specs.Working.{first_goal, IsTurn, IsFormTaken, IsFormless, IsSplitTaken, IsSplitless, IsLeafTaken, IsOverfull};

use crate::budgets::Left;
use crate::errors::LimitErr;
use crate::goals::{Goal, push_children, under};
use std::alloc::{AllocError, Global};
use tg_clause::{Clause, clauses};
use tg_norm::{Branches, halves, normal};
use tg_term::Term;
use tg_theory::Theory;

/// The clauses of the leaves of a split tree, from its first goal. The goals that are still to be worked on stand on a
/// stack, for a tree may be as high as it has inner nodes.
#[tactic(auto, using(crate::proofs::WorkLaws::works))]
pub(crate) fn work_from(
    alloc: Global,
    th: &Theory,
    left: &mut Left,
    start: Term,
) -> Result<Vec<Clause>, LimitErr>
    ensures ok { IfOk result (λ cs. Work th.now left.old (first_goal start ∷ []) (done (map literals cs.items) left.new)) }
    ensures limit { IfErr result (Stops (Work th.now left.old (first_goal start ∷ []))) }
{
    let mut stack = stack_of(alloc, start)?;
    let mut found = Vec::new(alloc);
    while let Some(goal) = stack.pop() {
        work_on(alloc, th, left, &mut stack, &mut found, goal)?;
    }
    Ok(found)
}

/// The stack of the first goal.
fn stack_of(alloc: Global, start: Term) -> Result<Vec<Goal>, AllocError>
    ensures { IfOk result (λ stack. goals stack.items ≡ first_goal start ∷ []) }
{
    let mut stack = Vec::new(alloc);
    stack.push(Goal {
        conditions: Vec::new(alloc),
        term: start,
    })?;
    Ok(stack)
}

/// Works on a goal: its children go onto the stack, or its clauses behind those found.
#[tactic(auto, using(crate::proofs::WorkLaws::turns))]
fn work_on(
    alloc: Global,
    th: &Theory,
    left: &mut Left,
    stack: &mut Vec<Goal>,
    found: &mut Vec<Clause>,
    goal: Goal,
) -> Result<(), LimitErr>
    ensures ok { OnOk result (IsTurn th.now left.old (goal_of goal ∷ goals stack.old.items) (map literals found.old.items) left.new (goals stack.new.items) (map literals found.new.items)) }
    ensures limit { IfErr result (Stops (Work th.now left.old (goal_of goal ∷ goals stack.old.items))) }
    ensures fewer { OnOk result (2 * left.new.splits + length stack.new.items < 2 * left.old.splits + length stack.old.items + 1) }
{
    let form = form_of(alloc, th, left, &goal.term)?;
    match halves(alloc, &form)? {
        Some(bs) => split(alloc, left, stack, goal.conditions, bs),
        None => close(alloc, left, found, goal.conditions.as_slice(), form),
    }
}

/// The normal form of a term, its calls taken from those that are left.
#[tactic(auto, using(crate::proofs::WorkLaws::forms))]
fn form_of(alloc: Global, th: &Theory, left: &mut Left, t: &Term) -> Result<Term, LimitErr>
    ensures ok { IfOk result (λ form. IsFormTaken th.now left.old left.new t.now form) }
    ensures limit { IfErr result (IsFormless th.now left.old t.now) }
{
    let n = normal(alloc, th, t, left.steps)?;
    left.steps -= n.cost;
    Ok(n.term)
}

/// Splits a goal with these conditions.
fn split(
    alloc: Global,
    left: &mut Left,
    stack: &mut Vec<Goal>,
    conditions: Vec<Term>,
    bs: Branches,
) -> Result<(), LimitErr>
    ensures left { OnOk result (IsSplitTaken left.old left.new) }
    ensures stack { OnOk result (goals stack.new.items
        ≡ stacked conditions.items (signed true bs.condition) bs.yes ∷ stacked conditions.items (signed false bs.condition) bs.no ∷ goals stack.old.items) }
    ensures long { OnOk result (length stack.new.items ≡ length stack.old.items + 2) }
    ensures limit { IfErr result (IsSplitless left.old) }
{
    let Some(splits) = left.splits.checked_sub(1) else {
        return Err(LimitErr::Splits);
    };
    left.splits = splits;
    push_children(alloc, stack, conditions, bs)?;
    Ok(())
}

/// Puts the clauses of a leaf with these conditions behind those found.
fn close(
    alloc: Global,
    left: &mut Left,
    found: &mut Vec<Clause>,
    conditions: &[Term],
    form: Term,
) -> Result<(), LimitErr>
    ensures ok { OnOk result (IsLeafTaken left.old left.new (under conditions.now form) (map literals found.old.items) (map literals found.new.items)) }
    ensures limit { IfErr result (IsOverfull left.old (under conditions.now form)) }
{
    let t = under(alloc, conditions, form)?;
    let mut cs = clauses(alloc, &t)?;
    let Some(clauses) = left.clauses.checked_sub(cs.len()) else {
        return Err(LimitErr::Clauses);
    };
    left.clauses = clauses;
    found.append(&mut cs)?;
    Ok(())
}
