//! One walk over terms and formulas, of which lifting, substitution, instantiation and abstraction are
//! instances. A part in which nothing is replaced is handed on as it is.
ghost use Rattle.std.specs.Prelude.{◌≡◌, ◌≤◌, ◌+◌, ◌++◌, [], ◌∷◌, IfOk, OnOk, IsTrue, unwrap_or};
ghost use Rattle.tg_model.specs.Tree.{Tree, bound, free, trees};
ghost use Rattle.tg_model.specs.Walk.{walk, walk_all, walk_formula};
ghost use Rattle.tg_term.specs.FormulaMeasures.{formula_range};
ghost use Rattle.tg_term.specs.Measures.{loose_range};
ghost use Rattle.tg_term.specs.Parts.{Part, IsWalked, outside, plain};

use crate::parts::{add_part, part_at, part_count, with_parts};
use crate::terms::{Node, Term};
use sqlite_items::Items;
use std::alloc::{AllocError, Global};

/// What stands for variables, by the number of binders round them. `None` is the variable itself.
pub(crate) trait Replace {
    ghost use Rattle.std.specs.Prelude.{ℕ};
    ghost use Rattle.tg_model.specs.Tree.{Tree};
    ghost use Rattle.tg_model.specs.Formula as model;

    ghost on_bound: { Self → ℕ → ℕ → Tree };

    ghost on_free: { Self → ℕ → ℕ → Tree };

    fn for_bound(
        &mut self,
        alloc: Global,
        depth: u64,
        index: u32,
    ) -> Result<Option<Term>, AllocError>
        ensures exact { IfOk result (λ o. unwrap_or o (bound index) ≡ on_bound self.old depth index) }
        ensures kept { OnOk result (self.new ≡ self.old) };

    fn for_free(
        &mut self,
        alloc: Global,
        depth: u64,
        number: u32,
    ) -> Result<Option<Term>, AllocError>
        ensures exact { IfOk result (λ o. unwrap_or o (free number) ≡ on_free self.old depth number) }
        ensures kept { OnOk result (self.new ≡ self.old) };

    /// Whether it is known without a walk that nothing is replaced in terms and formulas of this loose
    /// range.
    fn leaves(&self, range: u64, depth: u64) -> bool
        ensures terms { IsTrue result → (t : Tree) → loose_range t ≤ range → walk (on_bound self.now) (on_free self.now) depth t ≡ t }
        ensures formulas { IsTrue result → (f : model.Formula) → formula_range f ≤ range
            → walk_formula (on_bound self.now) (on_free self.now) depth f ≡ f };
}

/// The term that the walk gives, or `None` where nothing in it is replaced.
pub(crate) fn walk_at<R: Replace>(
    alloc: Global,
    r: &mut R,
    t: &Term,
    depth: u64,
) -> Result<Option<Term>, AllocError>
    ensures exact { IfOk result (λ o. unwrap_or o t.now ≡ walk (R.on_bound r.old) (R.on_free r.old) depth t.now) }
    ensures kept { OnOk result (r.new ≡ r.old) }
{
    if r.leaves(t.loose_range(), depth) {
        return Ok(None);
    }
    let node = t.node();
    match node {
        Node::Bound(k) => return r.for_bound(alloc, depth, *k),
        Node::Free(n) => return r.for_free(alloc, depth, *n),
        _ => {}
    }
    let mut terms = Vec::new(alloc);
    for at in 0..part_count(node) {
        let Some(part) = part_at(node, at) else {
            continue;
        };
        let walked = walk_at(alloc, r, part.term, within(depth, part.vars)?)?;
        add_part(&mut terms, node, at, &part, walked)?;
    }
    if terms.is_empty() {
        return Ok(None);
    }
    Ok(Some(with_parts(alloc, node, terms)?))
}

/// The terms that the walk gives, or `None` where nothing in them is replaced.
pub(crate) fn walk_list<R: Replace>(
    alloc: Global,
    r: &mut R,
    ts: &[Term],
    depth: u64,
) -> Result<Option<Items<Term>>, AllocError>
    ensures exact { IfOk result (λ o. trees (unwrap_or o ts.now) ≡ walk_all (R.on_bound r.old) (R.on_free r.old) depth (trees ts.now)) }
    ensures kept { OnOk result (r.new ≡ r.old) }
{
    let mut out = Vec::new(alloc);
    for (at, t) in ts.iter().enumerate() {
        let walked = walk_at(alloc, r, t, depth)?;
        add_term(&mut out, &ts[..at], t, walked)?;
    }
    if out.is_empty() {
        return Ok(None);
    }
    Ok(Some(Items::from_vec(out)))
}

/// Adds what a walk makes of a term to what it made of those before it. There is no list, and `terms` is
/// empty, while the walk has left all terms as they are.
#[tactic(auto, using(crate::proofs::PartLaws::adding_plain))]
fn add_term(
    terms: &mut Vec<Term>,
    before: &[Term],
    t: &Term,
    walked: Option<Term>,
) -> Result<(), AllocError>
    ensures { (f : Part → Tree) → f (outside t.now) ≡ unwrap_or walked t.now → IsWalked f (plain (trees before.now)) terms.old.items
        → OnOk result (IsWalked f (plain (trees before.now) ++ outside t.now ∷ []) terms.new.items) }
{
    match walked {
        None if terms.is_empty() => Ok(()),
        None => {
            terms.push(t.share()?)?;
            Ok(())
        }
        Some(u) => {
            if terms.is_empty() {
                share_all(terms, before)?;
            }
            terms.push(u)?;
            Ok(())
        }
    }
}

/// Adds the terms.
fn share_all(terms: &mut Vec<Term>, ts: &[Term]) -> Result<(), AllocError>
    ensures { OnOk result (terms.new.items ≡ terms.old.items ++ ts.now) }
{
    for t in ts {
        terms.push(t.share()?)?;
    }
    Ok(())
}

/// The term that was walked to, or else the same term.
pub(crate) fn or_shared(t: &Term, walked: Option<Term>) -> Result<Term, AllocError>
    ensures { IfOk result (λ u. u ≡ unwrap_or walked t.now) }
{
    match walked {
        Some(u) => Ok(u),
        None => t.share(),
    }
}

/// The number of binders within `vars` more. More than 2^64 are answered as want of memory.
pub(crate) fn within(depth: u64, vars: u32) -> Result<u64, AllocError>
    ensures { IfOk result (λ d. d ≡ depth + vars) }
{
    match depth.checked_add(u64::from(vars)) {
        Some(depth) => Ok(depth),
        None => Err(AllocError),
    }
}
