//! Formulas that the rules make, and what they find in them.
ghost use Rattle.std.specs.Prelude.{◌≡◌, IfOk, option_map};
ghost use Rattle.tg_calculus.specs.Draft.{as_equation};
ghost use Rattle.tg_calculus.specs.Sequent.{denied, equation};
ghost use Rattle.tg_model.specs.Formula.{atom};
ghost use Rattle.tg_model.specs.Tree.{equality, op, truth, trees};
ghost use Rattle.tg_rows.specs.Parts.{binary};

use sqlite_items::Items;
use std::alloc::{AllocError, Global};
use tg_term::{Formula, FormulaNode, Node, OpId, Term};

/// The number of `~`.
const NEGATION: OpId = 2;

/// The number of `=`.
const EQUALITY: OpId = 6;

/// The truth value is True.
pub(crate) fn truth_value(alloc: Global, b: bool) -> Result<Formula, AllocError>
    ensures { IfOk result (λ f. f ≡ atom (truth b)) }
{
    let t = Term::new(alloc, Node::Truth(b))?;
    Formula::new(alloc, FormulaNode::Atom(t))
}

/// The term is False.
pub(crate) fn denied(alloc: Global, t: &Term) -> Result<Formula, AllocError>
    ensures { IfOk result (λ f. f ≡ denied t.now) }
{
    let mut items = Items::new(alloc);
    items.push(t.share()?)?;
    let denied = Term::new(alloc, Node::Op(NEGATION, items))?;
    Formula::new(alloc, FormulaNode::Atom(denied))
}

/// The two terms are equal.
pub(crate) fn equation(alloc: Global, t: &Term, u: &Term) -> Result<Formula, AllocError>
    ensures { IfOk result (λ f. f ≡ equation t.now u.now) }
{
    let mut items = Items::new(alloc);
    items.push(t.share()?)?;
    items.push(u.share()?)?;
    let equal = Term::new(alloc, Node::Op(EQUALITY, items))?;
    Formula::new(alloc, FormulaNode::Atom(equal))
}

/// The two sides of an equation.
pub(crate) fn sides(f: &Formula) -> Option<(&Term, &Term)>
    ensures { option_map (λ p. (p.0.now, p.1.now)) result ≡ as_equation f.now }
{
    match f.node() {
        FormulaNode::Atom(t) => sides_of(t),
        _ => None,
    }
}

#[tactic(auto, using(crate::proofs::FormulaLaws::parts))]
fn sides_of(t: &Term) -> Option<(&Term, &Term)>
    ensures { option_map (λ p. (p.0.now, p.1.now)) result ≡ binary equality t.now }
{
    match t.node() {
        Node::Op(o, ts) if *o == EQUALITY => pair(ts.as_slice()),
        _ => None,
    }
}

#[tactic(auto, using(crate::proofs::FormulaLaws::lists))]
fn pair(ts: &[Term]) -> Option<(&Term, &Term)>
    ensures { option_map (λ p. (p.0.now, p.1.now)) result ≡ binary equality (op equality (trees ts.now)) }
{
    if ts.len() == 2 {
        Some((&ts[0], &ts[1]))
    } else {
        None
    }
}
