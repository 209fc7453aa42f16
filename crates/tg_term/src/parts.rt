//! The terms directly below a node, one after the other whatever the kind of the node: so that a walk is
//! one function a level.
ghost use Rattle.std.specs.Prelude.{◌≡◌, ◌+◌, ◌++◌, IfOk, OnOk, Some, length, map, take, slice_get, option_map, unwrap_or};
ghost use Rattle.tg_model.specs.Tree.{Tree, case};
ghost use Rattle.tg_term.specs.Parts.{Part, IsWalked, term_of, seen, outside, body_part, parts, with_parts, with_bodies};
ghost use Rattle.tg_term.specs.View.{tree, arms};

use crate::terms::{Branch, Node, Term};
use sqlite_items::Items;
use std::alloc::{AllocError, Global};
use tg_types::DataId;

/// A term directly below a node.
#[derive(Clone, Copy, Debug)]
pub(crate) struct Below<'a> {
    /// The number of binders between the node and the term.
    pub(crate) vars: u32,
    /// The term.
    pub(crate) term: &'a Term,
}

/// How many terms are directly below a node.
#[tactic(auto, using(crate::proofs::PartLaws::counts))]
pub(crate) fn part_count(node: &Node) -> usize
    ensures { result ≡ length (parts (tree node.now)) }
{
    match node {
        Node::Bound(_) | Node::Free(_) | Node::Lit(_) | Node::Truth(_) => 0,
        Node::Con(_, ts) => ts.len(),
        Node::Call(_, ts) => ts.len(),
        Node::Put(ts) => ts.len(),
        Node::If(ts) => ts.len(),
        Node::Op(_, ts) => ts.len(),
        Node::Case(_, _, bs) => 1 + bs.as_slice().len(),
        Node::Let(_, _) => 2,
    }
}

/// The term at a place, from 0, among those directly below a node.
#[tactic(auto, using(crate::proofs::PartLaws::places))]
pub(crate) fn part_at(node: &Node, at: usize) -> Option<Below<'_>>
    ensures { option_map seen result ≡ slice_get (parts (tree node.now)) at }
{
    match node {
        Node::Bound(_) | Node::Free(_) | Node::Lit(_) | Node::Truth(_) => None,
        Node::Con(_, ts) => unbound(ts.as_slice(), at),
        Node::Call(_, ts) => unbound(ts.as_slice(), at),
        Node::Put(ts) => unbound(ts.as_slice(), at),
        Node::If(ts) => unbound(ts.as_slice(), at),
        Node::Op(_, ts) => unbound(ts.as_slice(), at),
        Node::Case(_, t, bs) => match at.checked_sub(1) {
            None => Some(Below { vars: 0, term: t }),
            Some(at) => body_at(bs.as_slice(), at),
        },
        Node::Let(t, body) => match at {
            0 => Some(Below { vars: 0, term: t }),
            1 => Some(Below {
                vars: 1,
                term: body,
            }),
            _ => None,
        },
    }
}

fn unbound(ts: &[Term], at: usize) -> Option<Below<'_>>
    ensures { option_map seen result ≡ option_map outside (slice_get ts.now at) }
{
    match ts.get(at) {
        Some(term) => Some(Below { vars: 0, term }),
        None => None,
    }
}

fn body_at(bs: &[Branch], at: usize) -> Option<Below<'_>>
    ensures { option_map seen result ≡ option_map body_part (slice_get bs.now at) }
{
    match bs.get(at) {
        Some(b) => Some(Below {
            vars: b.vars,
            term: &b.body,
        }),
        None => None,
    }
}

/// Adds the first of the terms directly below a node, as many as `count`.
#[tactic(auto, using(crate::proofs::PartLaws::sharing))]
fn share_parts(terms: &mut Vec<Term>, node: &Node, count: usize) -> Result<(), AllocError>
    ensures { OnOk result (terms.new.items ≡ terms.old.items ++ map term_of (take count (parts (tree node.now)))) }
{
    for at in 0..count {
        let Some(part) = part_at(node, at) else {
            continue;
        };
        terms.push(part.term.share()?)?;
    }
    Ok(())
}

/// Adds what a walk makes of the term at a place below a node. There is no list, and `terms` is empty,
/// while the walk has left all terms as they are.
#[tactic(auto, using(crate::proofs::PartLaws::adding))]
pub(crate) fn add_part(
    terms: &mut Vec<Term>,
    node: &Node,
    at: usize,
    part: &Below<'_>,
    walked: Option<Term>,
) -> Result<(), AllocError>
    requires { slice_get (parts (tree node.now)) at ≡ Some (seen part.now) }
    ensures { (f : Part → Tree) → f (seen part.now) ≡ unwrap_or walked part.now.term.now → IsWalked f (take at (parts (tree node.now))) terms.old.items
        → OnOk result (IsWalked f (take (at + 1) (parts (tree node.now))) terms.new.items) }
{
    match walked {
        None if terms.is_empty() => Ok(()),
        None => {
            terms.push(part.term.share()?)?;
            Ok(())
        }
        Some(u) => {
            if terms.is_empty() {
                share_parts(terms, node, at)?;
            }
            terms.push(u)?;
            Ok(())
        }
    }
}

/// The term of a node with other terms in the places of those below it.
#[tactic(auto, using(crate::proofs::PartLaws::replacing))]
pub(crate) fn with_parts(alloc: Global, node: &Node, terms: Vec<Term>) -> Result<Term, AllocError>
    requires { length terms.items ≡ length (parts (tree node.now)) }
    ensures { IfOk result (λ t. t ≡ with_parts (tree node.now) terms.items) }
{
    match node {
        Node::Bound(k) => Term::new(alloc, Node::Bound(*k)),
        Node::Free(n) => Term::new(alloc, Node::Free(*n)),
        Node::Lit(n) => Term::new(alloc, Node::Lit(*n)),
        Node::Truth(b) => Term::new(alloc, Node::Truth(*b)),
        Node::Con(c, _) => Term::new(alloc, Node::Con(*c, Items::from_vec(terms))),
        Node::Call(f, _) => Term::new(alloc, Node::Call(*f, Items::from_vec(terms))),
        Node::Put(_) => Term::new(alloc, Node::Put(Items::from_vec(terms))),
        Node::If(_) => Term::new(alloc, Node::If(Items::from_vec(terms))),
        Node::Op(o, _) => Term::new(alloc, Node::Op(*o, Items::from_vec(terms))),
        Node::Case(d, _, bs) => with_bodies(alloc, *d, &terms[0], bs.as_slice(), &terms[1..]),
        Node::Let(_, _) => Term::new(alloc, Node::Let(terms[0].share()?, terms[1].share()?)),
    }
}

/// The case of the term, whose branches have other bodies.
#[tactic(auto, using(crate::proofs::PartLaws::replacing))]
fn with_bodies(
    alloc: Global,
    d: DataId,
    t: &Term,
    bs: &[Branch],
    bodies: &[Term],
) -> Result<Term, AllocError>
    requires { length bodies.now ≡ length bs.now }
    ensures { IfOk result (λ u. u ≡ case d t.now (with_bodies (arms bs.now) bodies.now)) }
{
    let mut branches = Items::new(alloc);
    for (at, b) in bs.iter().enumerate() {
        branches.push(Branch {
            vars: b.vars,
            body: bodies[at].share()?,
        })?;
    }
    Term::new(alloc, Node::Case(d, t.share()?, branches))
}
