//! Core terms as resolved ones.
ghost use Rattle.std.specs.Prelude.{◌≡◌, ◌&&◌, [], IfOk, length, map, nat_eq, option_map, slice_get};
ghost use Rattle.tg_model.specs.Tree.{trees};
ghost use Rattle.tg_model.specs.TypeLaws.{branch_sizes};
ghost use Rattle.tg_accept.specs.Core.{heads_of, unnamed};
ghost use Rattle.tg_accept.specs.Declared.{theory};
ghost use Rattle.tg_term.specs.View.{arms};
ghost use Rattle.tg_typing.specs.View.{head, resolved, all_resolved, branches};
ghost use Rattle.tg_theory.specs.Embedded.{same_sizes, are_sizes, embedded, all_embedded, branches_embedded};

use sqlite_items::{Boxed, Items, at as item_at};
use std::alloc::{AllocError, Global};
use tg_declarations::{ConDef, Declarations};
use tg_term::{Branch, Node, Term};
use tg_types::{DataId, Name};
use tg_typing::{Branch as ResolvedBranch, Head, Resolved};

/// The core term as a resolved one. A `case` that hasn't its branches as declared becomes a term without a
/// typing.
#[cycle(embed)]
#[tactic(auto, using(crate::proofs::Embeddings::embeddings))]
pub(crate) fn embed(
    alloc: Global,
    declared: &Declarations,
    t: &Term,
) -> Result<Resolved, AllocError>
    ensures { IfOk result (λ r. resolved r ≡ embedded (theory [] declared.now) t.now) }
{
    match t.node() {
        Node::Bound(k) => Ok(Resolved::Bound(*k)),
        Node::Free(n) => Ok(Resolved::Free(u64::from(*n))),
        Node::Lit(n) => Ok(Resolved::Lit(*n)),
        Node::Truth(b) => Ok(Resolved::Truth(*b)),
        Node::Con(c, ts) => Ok(Resolved::Con(*c, embed_all(alloc, declared, ts.as_slice())?)),
        Node::Call(f, ts) => Ok(Resolved::Call(*f, embed_all(alloc, declared, ts.as_slice())?)),
        Node::Put(ts) => Ok(Resolved::Put(embed_all(alloc, declared, ts.as_slice())?)),
        Node::If(ts) => Ok(Resolved::If(embed_all(alloc, declared, ts.as_slice())?)),
        Node::Op(o, ts) => Ok(Resolved::Op(*o, embed_all(alloc, declared, ts.as_slice())?)),
        Node::Case(n, t, bs) => {
            if !has_branches(declared, *n, bs.as_slice()) {
                return Ok(Resolved::Misused(Items::new(alloc)));
            }
            let t = Boxed::new(alloc, embed(alloc, declared, t)?)?;
            let bs = embed_branches(alloc, declared, *n, bs.as_slice())?;
            Ok(Resolved::Case(*n, t, bs))
        }
        Node::Let(t, body) => {
            let t = Boxed::new(alloc, embed(alloc, declared, t)?)?;
            let body = Boxed::new(alloc, embed(alloc, declared, body)?)?;
            Ok(Resolved::Let(t, body))
        }
    }
}

#[cycle(embed)]
#[tactic(auto, using(crate::proofs::Embeddings::embeddings))]
fn embed_all(
    alloc: Global,
    declared: &Declarations,
    ts: &[Term],
) -> Result<Items<Resolved>, AllocError>
    ensures { IfOk result (λ rs. all_resolved rs ≡ all_embedded (theory [] declared.now) (trees ts.now)) }
{
    let mut all = Items::new(alloc);
    for t in ts {
        all.push(embed(alloc, declared, t)?)?;
    }
    Ok(all)
}

// Branches for the constructors of a datatype, in their order.
#[cycle(embed)]
#[tactic(auto, using(crate::proofs::Embeddings::embeddings))]
fn embed_branches(
    alloc: Global,
    declared: &Declarations,
    n: DataId,
    bs: &[Branch],
) -> Result<Items<ResolvedBranch>, AllocError>
    ensures { IfOk result (λ rs. branches rs ≡ branches_embedded (theory [] declared.now) (arms bs.now) (heads_of (theory [] declared.now) n)) }
{
    let mut all = Items::new(alloc);
    for (at, b) in bs.iter().enumerate() {
        let Some(head) = head_at(declared, n, at) else {
            return Ok(all);
        };
        let body = embed(alloc, declared, &b.body)?;
        let names = unnamed(alloc, b.vars)?;
        all.push(ResolvedBranch { head, names, body })?;
    }
    Ok(all)
}

// What the branch at a place is for.
#[tactic(auto, using(crate::proofs::Embeddings::heads))]
fn head_at(declared: &Declarations, n: DataId, at: usize) -> Option<Head>
    ensures { option_map head result ≡ slice_get (heads_of (theory [] declared.now) n) at }
{
    if n != 0 {
        return match item_at(declared.constructors(n), at) {
            Some(c) => Some(Head::Con(*c)),
            None => None,
        };
    }
    match at {
        0 => Some(Head::Zero),
        1 => Some(Head::Successor),
        _ => None,
    }
}

// Names for as many variables.
fn unnamed(alloc: Global, count: u32) -> Result<Items<Name>, AllocError>
    ensures { IfOk result (λ names. names ≡ unnamed count) }
{
    let mut names = Items::new(alloc);
    for _ in 0..count {
        names.push(Name::new(alloc, &[])?)?;
    }
    Ok(names)
}

/// Whether there is a branch for each constructor of a datatype, in their order, that binds as many variables
/// as the constructor has arguments.
#[tactic(auto, using(crate::proofs::Embeddings::branch_sizes_of))]
fn has_branches(declared: &Declarations, n: DataId, bs: &[Branch]) -> bool
    ensures { result ≡ are_sizes (theory [] declared.now) n (branch_sizes (arms bs.now)) }
{
    if n != 0 {
        return match declared.data_def(n) {
            Some(def) => have_sizes(bs, def.cons.as_slice()),
            None => false,
        };
    }
    if bs.len() != 2 {
        return false;
    }
    are_natural(bs[0].vars, bs[1].vars)
}

// The branches for 0 and for `Suc` bind as many variables.
fn are_natural(zero: u32, successor: u32) -> bool
    ensures { result ≡ (nat_eq zero 0 && nat_eq successor 1) }
{
    zero == 0 && successor == 1
}

#[tactic(auto, using(crate::proofs::Embeddings::sizes))]
fn have_sizes(bs: &[Branch], cons: &[ConDef]) -> bool
    ensures { result ≡ same_sizes (map (λ con. length con.args) cons.now) (branch_sizes (arms bs.now)) }
{
    if bs.len() != cons.len() {
        return false;
    }
    for (at, b) in bs.iter().enumerate() {
        if b.vars as usize != cons[at].args.len() {
            return false;
        }
    }
    true
}
