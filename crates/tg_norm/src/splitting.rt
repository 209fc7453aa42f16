//! The split of a term at an `if`.
ghost use Rattle.std.specs.Prelude.{◌≡◌, IfOk, Some, option_copied, unwrap_or};
ghost use Rattle.tg_model.specs.Equality.{same_tree};
ghost use Rattle.tg_model.specs.Tree.{bind, case, choice, trees, truth};
ghost use Rattle.tg_norm.specs.Halves.{all_conditions, condition_of, first_plain, IsSplit, replaced, all_replaced};
ghost use Rattle.tg_norm.specs.Items.{items, with_items};
ghost use Rattle.tg_norm.specs.Walking.{or_else};
ghost use Rattle.tg_term.specs.Measures.{height, heights};
ghost use Rattle.tg_term.specs.View.{arms, tree};

use crate::arguments::{add_form, case_of, other_or};
use sqlite_items::{Items, at};
use std::alloc::{AllocError, Global};
use tg_term::{Branch, Node, Term, same};
use tg_types::DataId;

/// The condition at which a term is split, and what becomes of the term.
#[derive(Debug, Drop)]
pub struct Branches {
    /// The condition.
    pub condition: Term,
    /// The term with True for each outside occurrence of the condition.
    pub yes: Term,
    /// The term with False for each.
    pub no: Term,
}

/// The split of a term at the first outside `if` in preorder whose condition has no outside `if`, or `None` exactly
/// where the term has no outside `if`. An `if`, and each other term, is outside where it doesn't stand in a branch of a
/// `case`.
#[tactic(auto, using(crate::proofs::ConditionLaws::splits))]
pub fn halves(alloc: Global, t: &Term) -> Result<Option<Branches>, AllocError>
    ensures { IfOk result (λ o. IsSplit t.now (condition_of t.now) o) }
{
    let Some(condition) = condition_of(t) else {
        return Ok(None);
    };
    let yes = half(alloc, t, condition, true)?;
    let no = half(alloc, t, condition, false)?;
    Ok(Some(Branches {
        condition: condition.share()?,
        yes,
        no,
    }))
}

/// The condition that is taken.
#[cycle(condition)]
#[tactic(auto, using(crate::proofs::ConditionLaws::finding))]
fn condition_of(t: &Term) -> Option<&Term>
    ensures { option_copied result ≡ condition_of t.now }
{
    match t.node() {
        Node::Bound(_) | Node::Free(_) | Node::Lit(_) | Node::Truth(_) => None,
        Node::Con(_, ts) => condition_among(ts.as_slice()),
        Node::Call(_, ts) => condition_among(ts.as_slice()),
        Node::Put(ts) => condition_among(ts.as_slice()),
        Node::Op(_, ts) => condition_among(ts.as_slice()),
        Node::If(ts) => condition_at(ts.as_slice()),
        Node::Case(_, t, _) => condition_of(t),
        Node::Let(t, body) => match condition_of(t) {
            Some(q) => Some(q),
            None => condition_of(body),
        },
    }
}

/// The condition that is taken in an `if`: one in its condition, or else this.
#[cycle(condition)]
#[tactic(auto, using(crate::proofs::ConditionLaws::finding))]
fn condition_at(ts: &[Term]) -> Option<&Term>
    ensures { option_copied result ≡ condition_of (choice (trees ts.now)) }
{
    let c = at(ts, 0)?;
    match condition_of(c) {
        Some(q) => Some(q),
        None => Some(c),
    }
}

/// The condition that is taken in the first of the terms that has one.
#[cycle(condition)]
#[tactic(auto, using(crate::proofs::ConditionLaws::finding))]
fn condition_among(ts: &[Term]) -> Option<&Term>
    ensures { option_copied result ≡ first_plain (all_conditions (trees ts.now)) }
{
    for t in ts {
        if let Some(q) = condition_of(t) {
            return Some(q);
        }
    }
    None
}

/// The term with a truth value for each outside occurrence of a condition.
fn half(alloc: Global, t: &Term, q: &Term, value: bool) -> Result<Term, AllocError>
    ensures { IfOk result (λ u. u ≡ replaced q.now value t.now) }
{
    match replaced(alloc, t, q, value)? {
        Some(u) => Ok(u),
        None => t.share(),
    }
}

/// The same, or `None` where nothing is replaced.
#[cycle(replaced)]
#[tactic(auto, using(crate::proofs::ReplaceLaws::replacing))]
fn replaced(alloc: Global, t: &Term, q: &Term, value: bool) -> Result<Option<Term>, AllocError>
    ensures { IfOk result (λ o. unwrap_or o t.now ≡ replaced q.now value t.now) }
{
    if equal(t, q) {
        return truth(alloc, value);
    }
    match t.node() {
        Node::Bound(_) | Node::Free(_) | Node::Lit(_) | Node::Truth(_) => Ok(None),
        Node::Con(_, ts) => replaced_items(alloc, t, ts.as_slice(), q, value),
        Node::Call(_, ts) => replaced_items(alloc, t, ts.as_slice(), q, value),
        Node::Put(ts) => replaced_items(alloc, t, ts.as_slice(), q, value),
        Node::If(ts) => replaced_items(alloc, t, ts.as_slice(), q, value),
        Node::Op(_, ts) => replaced_items(alloc, t, ts.as_slice(), q, value),
        Node::Case(d, s, bs) => replaced_case(alloc, *d, s, bs.as_slice(), q, value),
        Node::Let(s, body) => replaced_let(alloc, s, body, q, value),
    }
}

/// A truth value, apart from the recursion for the same reason as `with_items`.
#[inline(never)]
fn truth(alloc: Global, value: bool) -> Result<Option<Term>, AllocError>
    ensures { IfOk result (λ o. o ≡ Some (truth value)) }
{
    let t = Term::new(alloc, Node::Truth(value))?;
    Ok(Some(t))
}

/// Whether two terms are equal.
#[tactic(auto, using(crate::proofs::ReplaceLaws::equal_is))]
fn equal(t: &Term, u: &Term) -> bool
    ensures { result ≡ same_tree t.now u.now }
{
    same(t, u)
}

#[cycle(replaced)]
#[tactic(auto, using(crate::proofs::ReplaceLaws::replacing))]
fn replaced_case(
    alloc: Global,
    d: DataId,
    t: &Term,
    bs: &[Branch],
    q: &Term,
    value: bool,
) -> Result<Option<Term>, AllocError>
    ensures { IfOk result (λ o. unwrap_or o (case d t.now (arms bs.now)) ≡ case d (replaced q.now value t.now) (arms bs.now)) }
{
    match replaced(alloc, t, q, value)? {
        Some(u) => {
            let other = case_of(alloc, d, &u, bs)?;
            Ok(Some(other))
        }
        None => Ok(None),
    }
}

#[cycle(replaced)]
#[tactic(auto, using(crate::proofs::ReplaceLaws::replacing))]
fn replaced_let(
    alloc: Global,
    t: &Term,
    body: &Term,
    q: &Term,
    value: bool,
) -> Result<Option<Term>, AllocError>
    ensures { IfOk result (λ o. unwrap_or o (bind t.now body.now) ≡ bind (replaced q.now value t.now) (replaced q.now value body.now)) }
{
    let other_t = replaced(alloc, t, q, value)?;
    let other_body = replaced(alloc, body, q, value)?;
    if other_t.is_none() && other_body.is_none() {
        return Ok(None);
    }
    let t = other_or(&other_t, t).share()?;
    let body = other_or(&other_body, body).share()?;
    let other = Term::new(alloc, Node::Let(t, body))?;
    Ok(Some(other))
}

/// The terms with truth values for the outside occurrences, or no list where nothing is replaced.
#[cycle(replaced)]
#[tactic(auto, using(crate::proofs::ReplaceLaws::replacing))]
fn replaced_all(alloc: Global, ts: &[Term], q: &Term, value: bool) -> Result<Vec<Term>, AllocError>
    ensures { IfOk result (λ us. trees (or_else us.items ts.now) ≡ all_replaced q.now value (trees ts.now)) }
{
    let mut terms = Vec::new(alloc);
    for (at, t) in ts.iter().enumerate() {
        let other = replaced(alloc, t, q, value)?;
        add_form(&mut terms, &ts[..at], t, other)?;
    }
    Ok(terms)
}

/// A term with truth values for the outside occurrences in its list of terms.
#[cycle(replaced)]
#[tactic(auto, using(crate::proofs::ReplaceLaws::replacing))]
fn replaced_items(
    alloc: Global,
    t: &Term,
    ts: &[Term],
    q: &Term,
    value: bool,
) -> Result<Option<Term>, AllocError>
    requires items { trees ts.now ≡ items t.now }
    requires lower { heights (trees ts.now) ≡ height t.now }
    ensures { IfOk result (λ o. unwrap_or o t.now ≡ with_items t.now (all_replaced q.now value (trees ts.now))) }
{
    let terms = replaced_all(alloc, ts, q, value)?;
    if terms.is_empty() {
        return Ok(None);
    }
    let other = with_items(alloc, t.node(), Items::from_vec(terms))?;
    Ok(Some(other))
}

/// The term of a node with another list of terms, where it has one. It stands apart from the recursion, as high as terms
/// are, so that its frame isn't on the stack at each level.
#[inline(never)]
fn with_items(alloc: Global, node: &Node, terms: Items<Term>) -> Result<Term, AllocError>
    ensures { IfOk result (λ u. u ≡ with_items (tree node.now) (trees terms)) }
{
    match node {
        Node::Bound(k) => Term::new(alloc, Node::Bound(*k)),
        Node::Free(n) => Term::new(alloc, Node::Free(*n)),
        Node::Lit(n) => Term::new(alloc, Node::Lit(*n)),
        Node::Truth(b) => Term::new(alloc, Node::Truth(*b)),
        Node::Con(c, _) => Term::new(alloc, Node::Con(*c, terms)),
        Node::Call(f, _) => Term::new(alloc, Node::Call(*f, terms)),
        Node::Put(_) => Term::new(alloc, Node::Put(terms)),
        Node::If(_) => Term::new(alloc, Node::If(terms)),
        Node::Op(o, _) => Term::new(alloc, Node::Op(*o, terms)),
        Node::Case(d, t, bs) => case_of(alloc, *d, t, bs.as_slice()),
        Node::Let(t, body) => Term::new(alloc, Node::Let(t.share()?, body.share()?)),
    }
}
