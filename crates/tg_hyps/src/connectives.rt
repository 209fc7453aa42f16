//! Conditions before a formula, and a disjunction of terms. They are made from the end, in a loop, for there may be
//! more of them than a stack has room for.
ghost use Rattle.std.specs.Prelude.{◌≡◌, IfOk};
ghost use Rattle.tg_hyps.specs.Hypotheses.{some_of, both_all, if_all};
ghost use Rattle.tg_model.specs.Formula.{atom};
ghost use Rattle.tg_model.specs.Tree.{op, two, disjunction};

use sqlite_items::Items;
use std::alloc::{AllocError, Global};
use tg_term::{Formula, FormulaNode, Node, OpId, Term};

/// The number of `|`.
const DISJUNCTION: OpId = 4;

/// The disjunction of the terms, grouped to the right, and False without terms.
#[tactic(auto, using(crate::proofs::EndLaws::ends))]
pub fn any_of(alloc: Global, ts: &[Term]) -> Result<Term, AllocError>
    ensures { IfOk result (λ t. t ≡ some_of ts.now) }
{
    let Some((last, others)) = ts.split_last() else {
        return Term::new(alloc, Node::Truth(false));
    };
    let mut any = last.share()?;
    let mut left = others;
    while let Some((t, before)) = left.split_last() {
        any = either(alloc, t, any)?;
        left = before;
    }
    Ok(any)
}

/// `t | u`
fn either(alloc: Global, t: &Term, u: Term) -> Result<Term, AllocError>
    ensures { IfOk result (λ v. v ≡ op disjunction (two t.now u)) }
{
    let mut args = Items::new(alloc);
    args.push(t.share()?)?;
    args.push(u)?;
    Term::new(alloc, Node::Op(DISJUNCTION, args))
}

/// The terms are true, and the formula holds.
#[tactic(auto, using(crate::proofs::EndLaws::ends))]
pub(crate) fn both_all(alloc: Global, ts: &[Term], mut f: Formula) -> Result<Formula, AllocError>
    ensures { IfOk result (λ g. g ≡ both_all ts.now f) }
{
    let mut left = ts;
    while let Some((t, before)) = left.split_last() {
        let this = atom(alloc, t)?;
        f = Formula::new(alloc, FormulaNode::And(this, f))?;
        left = before;
    }
    Ok(f)
}

/// If the terms are true, the formula holds.
#[tactic(auto, using(crate::proofs::EndLaws::ends))]
pub(crate) fn if_all(alloc: Global, ts: &[Term], mut f: Formula) -> Result<Formula, AllocError>
    ensures { IfOk result (λ g. g ≡ if_all ts.now f) }
{
    let mut left = ts;
    while let Some((t, before)) = left.split_last() {
        let this = atom(alloc, t)?;
        f = Formula::new(alloc, FormulaNode::Imp(this, f))?;
        left = before;
    }
    Ok(f)
}

fn atom(alloc: Global, t: &Term) -> Result<Formula, AllocError>
    ensures { IfOk result (λ f. f ≡ atom t.now) }
{
    Formula::new(alloc, FormulaNode::Atom(t.share()?))
}
