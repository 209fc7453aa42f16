//! The core terms that resolved terms stand for.
ghost use Rattle.std.specs.Prelude.{◌≡◌, [], IfOk, map};
ghost use Rattle.tg_accept.specs.Core.{core, cores, written, arranged, heads_of};
ghost use Rattle.tg_accept.specs.Declared.{theory};
ghost use Rattle.tg_equations.specs.Written.{written_branch, branch_at, no_branch, AreBranchPlaces};
ghost use Rattle.tg_model.specs.Tree.{trees};
ghost use Rattle.tg_term.specs.View.{arms, tree};
ghost use Rattle.tg_typing.specs.View.{resolved, all_resolved, branches};

use crate::heads::heads;
use crate::places::{Place, Places};
use sqlite_items::Items;
use std::alloc::{AllocError, Global};
use tg_declarations::Declarations;
use tg_term::{Branch, FunId, Node, Term};
use tg_types::DataId;
use tg_typing::{Branch as ResolvedBranch, Head, Resolved};

/// A branch as it is written, with its core term.
#[derive(Drop)]
struct Written {
    head: Head,
    branch: Branch,
}

/// The core term that a resolved term stands for, where `own` is the number of the function that is being
/// declared. Its branches are those that the datatype asks for: where there are several for a constructor the
/// first, and where there is none one that binds nothing and is False. A variable with arguments is False.
/// Memory is wanting also where the term would be higher than a term may be.
#[cycle(core)]
#[tactic(auto, using(crate::proofs::CoreLaws::cores_of))]
pub fn core_term(
    alloc: Global,
    declared: &Declarations,
    own: FunId,
    t: &Resolved,
) -> Result<Term, AllocError>
    ensures { IfOk result (λ r. r ≡ core (theory [] declared.now) own (resolved t.now)) }
{
    let node = core_node(alloc, declared, own, t)?;
    Term::new(alloc, node)
}

#[cycle(core)]
#[tactic(auto, using(crate::proofs::CoreLaws::cores_of))]
fn core_node(
    alloc: Global,
    declared: &Declarations,
    own: FunId,
    t: &Resolved,
) -> Result<Node, AllocError>
    ensures { IfOk result (λ node. tree node ≡ core (theory [] declared.now) own (resolved t.now)) }
{
    match t {
        Resolved::Bound(k) => Ok(Node::Bound(*k)),
        Resolved::Free(n) => Ok(Node::Free(u32::try_from(*n).map_err(|_| AllocError)?)),
        Resolved::Lit(n) => Ok(Node::Lit(*n)),
        Resolved::Truth(b) => Ok(Node::Truth(*b)),
        Resolved::Con(c, ts) => Ok(Node::Con(*c, core_all(alloc, declared, own, ts.as_slice())?)),
        Resolved::Call(f, ts) => Ok(Node::Call(*f, core_all(alloc, declared, own, ts.as_slice())?)),
        Resolved::Own(ts) => Ok(Node::Call(own, core_all(alloc, declared, own, ts.as_slice())?)),
        Resolved::Misused(_) => Ok(Node::Truth(false)),
        Resolved::Put(ts) => Ok(Node::Put(core_all(alloc, declared, own, ts.as_slice())?)),
        Resolved::If(ts) => Ok(Node::If(core_all(alloc, declared, own, ts.as_slice())?)),
        Resolved::Op(o, ts) => Ok(Node::Op(*o, core_all(alloc, declared, own, ts.as_slice())?)),
        Resolved::Case(n, t, bs) => {
            let t = core_term(alloc, declared, own, t.get())?;
            let bs = core_branches(alloc, declared, own, bs.as_slice())?;
            let arms = arrange(alloc, declared, *n, bs.as_slice())?;
            Ok(Node::Case(*n, t, arms))
        }
        Resolved::Let(t, body) => {
            let t = core_term(alloc, declared, own, t.get())?;
            let body = core_term(alloc, declared, own, body.get())?;
            Ok(Node::Let(t, body))
        }
    }
}

#[cycle(core)]
#[tactic(auto, using(crate::proofs::CoreLaws::cores_of))]
fn core_all(
    alloc: Global,
    declared: &Declarations,
    own: FunId,
    ts: &[Resolved],
) -> Result<Items<Term>, AllocError>
    ensures { IfOk result (λ us. trees us ≡ cores (theory [] declared.now) own (all_resolved ts.now)) }
{
    let mut all = Items::new(alloc);
    for t in ts {
        all.push(core_term(alloc, declared, own, t)?)?;
    }
    Ok(all)
}

// Branches in the order in which they are written.
#[cycle(core)]
#[tactic(auto, using(crate::proofs::CoreLaws::cores_of))]
fn core_branches(
    alloc: Global,
    declared: &Declarations,
    own: FunId,
    bs: &[ResolvedBranch],
) -> Result<Items<Written>, AllocError>
    ensures { IfOk result (λ ws. map written_branch ws ≡ written (theory [] declared.now) own (branches bs.now)) }
{
    let mut all = Items::new(alloc);
    for b in bs {
        let vars = count(b.names.len())?;
        let body = core_term(alloc, declared, own, &b.body)?;
        all.push(Written {
            head: b.head,
            branch: Branch { vars, body },
        })?;
    }
    Ok(all)
}

/// A length as a number of 32 bits; memory is wanting for a greater one.
pub(crate) fn count(len: usize) -> Result<u32, AllocError>
    ensures { IfOk result (λ n. n ≡ len) }
{
    if len > 4294967295 {
        return Err(AllocError);
    }
    Ok(len as u32)
}

// A branch for each constructor of a datatype, in their order.
fn arrange(
    alloc: Global,
    declared: &Declarations,
    n: DataId,
    ws: &[Written],
) -> Result<Items<Branch>, AllocError>
    ensures { IfOk result (λ bs. arms bs ≡ arranged (map written_branch ws.now) (heads_of (theory [] declared.now) n)) }
{
    let heads = heads(alloc, declared, n)?;
    let places = places(alloc, ws)?;
    let mut all = Items::new(alloc);
    for h in heads.as_slice() {
        all.push(branch_at(alloc, ws, places.find(*h))?)?;
    }
    Ok(all)
}

fn places(alloc: Global, ws: &[Written]) -> Result<Places, AllocError>
    ensures { IfOk result (λ places. AreBranchPlaces places (map written_branch ws.now)) }
{
    let mut places = Places::new(alloc);
    for (at, w) in ws.iter().enumerate() {
        places.note(w.head, at)?;
    }
    Ok(places)
}

// The branch at a place.
fn branch_at(alloc: Global, ws: &[Written], at: Option<Place>) -> Result<Branch, AllocError>
    ensures { IfOk result (λ b. b ≡ branch_at (map written_branch ws.now) at) }
{
    let Some(place) = at else {
        return no_branch(alloc);
    };
    match ws.get(place.first) {
        Some(w) => Ok(Branch {
            vars: w.branch.vars,
            body: w.branch.body.share()?,
        }),
        None => no_branch(alloc),
    }
}

fn no_branch(alloc: Global) -> Result<Branch, AllocError>
    ensures { IfOk result (λ b. b ≡ no_branch) }
{
    let body = Term::new(alloc, Node::Truth(false))?;
    Ok(Branch { vars: 0, body })
}
