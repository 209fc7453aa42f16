//! The arguments of a node, which are normalised before it, and other terms put in their places.
ghost use Rattle.std.specs.Prelude.{◌≡◌, [], ◌∷◌, ◌++◌, IfOk, OnOk, length, unwrap_or};
ghost use Rattle.tg_model.specs.Tree.{case, choice, trees};
ghost use Rattle.tg_norm.specs.Normal.{arguments, is_leaf, rebuilt};
ghost use Rattle.tg_norm.specs.Walking.{or_else};
ghost use Rattle.tg_term.specs.View.{tree, arms};

use sqlite_items::Items;
use std::alloc::{AllocError, Global};
use std::slice;
use tg_term::{Branch, Node, Term};
use tg_types::DataId;

/// Whether a term is a variable or a literal.
pub(crate) fn is_leaf(t: &Term) -> bool
    ensures { result ≡ is_leaf t.now }
{
    matches!(t.node(), Node::Bound(_) | Node::Free(_) | Node::Lit(_))
}

/// The arguments of a term.
#[tactic(auto, using(crate::proofs::ArgumentLaws::listed))]
pub(crate) fn arguments(t: &Term) -> &[Term]
    ensures { result.now ≡ arguments t.now }
{
    match t.node() {
        Node::Bound(_) | Node::Free(_) | Node::Lit(_) | Node::Truth(_) => &[],
        Node::Con(_, ts) => ts.as_slice(),
        Node::Call(_, ts) => ts.as_slice(),
        Node::Put(ts) => ts.as_slice(),
        Node::Op(_, ts) => ts.as_slice(),
        Node::If(ts) => condition(ts.as_slice()),
        Node::Case(_, t, _) => slice::from_ref(t),
        Node::Let(t, _) => slice::from_ref(t),
    }
}

/// The first of the parts of an `if`, alone.
#[tactic(auto, using(crate::proofs::ArgumentLaws::listed))]
fn condition(ts: &[Term]) -> &[Term]
    ensures { result.now ≡ arguments (choice (trees ts.now)) }
{
    match ts.first() {
        Some(t) => slice::from_ref(t),
        None => &[],
    }
}

/// A term with other arguments, or `None` where there is no list of them.
#[tactic(auto, using(crate::proofs::ArgumentLaws::replacing))]
pub(crate) fn rebuilt(alloc: Global, t: &Term, forms: Vec<Term>) -> Result<Option<Term>, AllocError>
    requires { length (or_else forms.items (arguments t.now)) ≡ length (arguments t.now) }
    ensures { IfOk result (λ o. unwrap_or o t.now ≡ rebuilt t.now (or_else forms.items (arguments t.now))) }
{
    if forms.is_empty() {
        return Ok(None);
    }
    let other = with_arguments(alloc, t.node(), forms)?;
    Ok(Some(other))
}

/// The other term, or else the term.
pub(crate) fn other_or<'a>(other: &'a Option<Term>, t: &'a Term) -> &'a Term
    ensures { result.now ≡ unwrap_or other.now t.now }
{
    match other {
        Some(u) => u,
        None => t,
    }
}

/// The term of a node with other arguments.
#[tactic(auto, using(crate::proofs::ArgumentLaws::replacing))]
fn with_arguments(alloc: Global, node: &Node, forms: Vec<Term>) -> Result<Term, AllocError>
    requires { length forms.items ≡ length (arguments (tree node.now)) }
    ensures { IfOk result (λ t. t ≡ rebuilt (tree node.now) forms.items) }
{
    match node {
        Node::Bound(k) => Term::new(alloc, Node::Bound(*k)),
        Node::Free(n) => Term::new(alloc, Node::Free(*n)),
        Node::Lit(n) => Term::new(alloc, Node::Lit(*n)),
        Node::Truth(b) => Term::new(alloc, Node::Truth(*b)),
        Node::Con(c, _) => Term::new(alloc, Node::Con(*c, Items::from_vec(forms))),
        Node::Call(f, _) => Term::new(alloc, Node::Call(*f, Items::from_vec(forms))),
        Node::Put(_) => Term::new(alloc, Node::Put(Items::from_vec(forms))),
        Node::Op(o, _) => Term::new(alloc, Node::Op(*o, Items::from_vec(forms))),
        Node::If(ts) => choice_of(alloc, forms, ts.as_slice()),
        Node::Case(d, _, bs) => case_of(alloc, *d, &forms[0], bs.as_slice()),
        Node::Let(_, body) => Term::new(alloc, Node::Let(forms[0].share()?, body.share()?)),
    }
}

/// An `if` with another condition, where it has one.
#[tactic(auto, using(crate::proofs::ArgumentLaws::replacing))]
fn choice_of(alloc: Global, condition: Vec<Term>, ts: &[Term]) -> Result<Term, AllocError>
    requires { length condition.items ≡ length (arguments (choice (trees ts.now))) }
    ensures { IfOk result (λ t. t ≡ rebuilt (choice (trees ts.now)) condition.items) }
{
    let mut parts = condition;
    let after = parts.len();
    add_shared(&mut parts, &ts[after..])?;
    Term::new(alloc, Node::If(Items::from_vec(parts)))
}

/// A `case` with another scrutinee.
#[inline(never)]
pub(crate) fn case_of(alloc: Global, d: DataId, t: &Term, bs: &[Branch]) -> Result<Term, AllocError>
    ensures { IfOk result (λ u. u ≡ case d t.now (arms bs.now)) }
{
    let mut branches = Items::new(alloc);
    for b in bs {
        branches.push(Branch {
            vars: b.vars,
            body: b.body.share()?,
        })?;
    }
    Term::new(alloc, Node::Case(d, t.share()?, branches))
}

/// Adds the normal form of an argument to those of the arguments before it. There is no list, and `forms` is empty,
/// while all arguments are as they were.
#[inline(never)]
#[tactic(auto, using(crate::proofs::ArgumentLaws::adding))]
pub(crate) fn add_form(
    forms: &mut Vec<Term>,
    before: &[Term],
    t: &Term,
    form: Option<Term>,
) -> Result<(), AllocError>
    ensures { OnOk result (or_else forms.new.items (before.now ++ t.now ∷ []) ≡ or_else forms.old.items before.now ++ unwrap_or form t.now ∷ []) }
{
    match form {
        None if forms.is_empty() => Ok(()),
        None => {
            forms.push(t.share()?)?;
            Ok(())
        }
        Some(u) => {
            if forms.is_empty() {
                add_shared(forms, before)?;
            }
            forms.push(u)?;
            Ok(())
        }
    }
}

/// Adds the terms.
fn add_shared(terms: &mut Vec<Term>, ts: &[Term]) -> Result<(), AllocError>
    ensures { OnOk result (terms.new.items ≡ terms.old.items ++ ts.now) }
{
    for t in ts {
        terms.push(t.share()?)?;
    }
    Ok(())
}
