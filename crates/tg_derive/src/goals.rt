//! Goals of split trees: conditions, and a term under them.
ghost use Rattle.std.specs.Prelude.{true, false, ◌≡◌, ◌++◌, ◌∷◌, [], IfOk, OnOk};
ghost use Rattle.tg_derive.specs.Answers.{goals, stacked};
ghost use Rattle.tg_derive.specs.Goals.{signed, under};
ghost use Rattle.tg_rows.specs.Rows.{denied};
ghost use Rattle.tg_model.specs.Tree.{op, two, implication};

use sqlite_items::Items;
use std::alloc::{AllocError, Global};
use tg_norm::Branches;
use tg_term::{Node, OpId, Term};

/// The number of `~`.
const NEGATION: OpId = 2;

/// The number of `-->`.
const IMPLICATION: OpId = 5;

/// The conditions that were taken on the way to it, the first first, and its term before it is normalised.
#[derive(Debug, Drop)]
pub(crate) struct Goal {
    pub(crate) conditions: Vec<Term>,
    pub(crate) term: Term,
}

/// Puts the two children of a goal with these conditions on the stack, that in which the condition is met on top.
#[tactic(auto, using(crate::proofs::GoalLaws::stacking))]
pub(crate) fn push_children(
    alloc: Global,
    stack: &mut Vec<Goal>,
    conditions: Vec<Term>,
    bs: Branches,
) -> Result<(), AllocError>
    ensures { OnOk result (goals stack.new.items
        ≡ stacked conditions.items (signed true bs.condition) bs.yes ∷ stacked conditions.items (signed false bs.condition) bs.no ∷ goals stack.old.items) }
{
    let mut unmet = copied(alloc, conditions.as_slice())?;
    unmet.push(negated(alloc, &bs.condition)?)?;
    stack.push(Goal {
        conditions: unmet,
        term: bs.no,
    })?;
    let mut met = conditions;
    met.push(bs.condition)?;
    stack.push(Goal {
        conditions: met,
        term: bs.yes,
    })?;
    Ok(())
}

#[tactic(auto, using(crate::proofs::GoalLaws::copying))]
fn copied(alloc: Global, ts: &[Term]) -> Result<Vec<Term>, AllocError>
    ensures { IfOk result (λ us. us.items ≡ ts.now) }
{
    let mut us = Vec::new(alloc);
    for t in ts {
        us.push(t.share()?)?;
    }
    Ok(us)
}

/// `~ t`
fn negated(alloc: Global, t: &Term) -> Result<Term, AllocError>
    ensures { IfOk result (λ u. u ≡ denied t.now) }
{
    let mut args = Items::new(alloc);
    args.push(t.share()?)?;
    Term::new(alloc, Node::Op(NEGATION, args))
}

/// `q1 --> (q2 --> .. (qm --> t))`. It is made from the end, in a loop, for there may be more conditions than a stack has
/// room for.
#[tactic(auto, using(crate::proofs::GoalLaws::ends))]
pub(crate) fn under(alloc: Global, conditions: &[Term], mut t: Term) -> Result<Term, AllocError>
    ensures { IfOk result (λ u. u ≡ under conditions.now t) }
{
    let mut left = conditions;
    while let Some((q, before)) = left.split_last() {
        t = implication(alloc, q, t)?;
        left = before;
    }
    Ok(t)
}

/// `t --> u`
fn implication(alloc: Global, t: &Term, u: Term) -> Result<Term, AllocError>
    ensures { IfOk result (λ v. v ≡ op implication (two t.now u)) }
{
    let mut args = Items::new(alloc);
    args.push(t.share()?)?;
    args.push(u)?;
    Term::new(alloc, Node::Op(IMPLICATION, args))
}
