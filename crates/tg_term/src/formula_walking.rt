//! The walk over formulas, and substitution, instantiation, abstraction and closing in them. A part in
//! which nothing is replaced is handed on as it is.
ghost use Rattle.std.specs.Prelude.{◌≡◌, IfOk, OnOk, Some, unwrap_or};
ghost use Rattle.tg_model.specs.Closing.{closed};
ghost use Rattle.tg_model.specs.Formula.{atom, both, implies, all, some, thyp, tested, deep};
ghost use Rattle.tg_model.specs.Tree.{trees};
ghost use Rattle.tg_model.specs.Walk.{walk, walk_all, walk_formula};
ghost use Rattle.tg_types.specs.Types.{ty};
ghost use Rattle.tg_term.specs.Formulas.{formula};
ghost use Rattle.tg_term.specs.Substituting.{IsSubstitutedFormula, IsInstantiatedFormula, IsAbstractedFormula};

use crate::formulas::{Formula, FormulaNode};
use crate::substituting::{Abstraction, Arguments, Closing, Terms};
use crate::terms::Term;
use crate::walking::{Replace, walk_at, walk_list, within};
use std::alloc::{AllocError, Global};
use tg_types::{Ty, copy};

/// Each `Free(n)` becomes `vars[n - 1]`, lifted over the quantifiers and binders round it.
#[tactic(auto, using(crate::proofs::Substituted::kept))]
pub fn subst_formula(alloc: Global, f: &Formula, vars: &[Term]) -> Result<Formula, AllocError>
    ensures { IfOk result (λ g. IsSubstitutedFormula vars.now f.now g) }
{
    let walked = walk_formula_at(alloc, &mut Terms::new(alloc, vars)?, f, 0)?;
    formula_or_shared(f, walked)
}

/// The last argument stands for the loose `Bound(0)`, the one before it for `Bound(1)` and so on. Other
/// loose bound variables go down by the number of arguments.
#[tactic(auto, using(crate::proofs::Substituted::kept))]
pub fn instantiate_formula(
    alloc: Global,
    body: &Formula,
    args: &[Term],
) -> Result<Formula, AllocError>
    ensures { IfOk result (λ g. IsInstantiatedFormula args.now body.now g) }
{
    let walked = walk_formula_at(alloc, &mut Arguments::new(alloc, args)?, body, 0)?;
    formula_or_shared(body, walked)
}

/// Loose bound variables go up by 1, and `Free(n)` becomes the loose `Bound(0)`.
#[tactic(auto, using(crate::proofs::Substituted::kept))]
pub fn abstract_formula(alloc: Global, f: &Formula, n: u32) -> Result<Formula, AllocError>
    ensures { IfOk result (λ g. IsAbstractedFormula n f.now g) }
{
    let walked = walk_formula_at(alloc, &mut Abstraction { number: n }, f, 0)?;
    formula_or_shared(f, walked)
}

/// Each of `?1` to `?count` becomes the bound variable of one of as many quantifiers that the caller puts
/// round the formula, `?1` that of the outermost. Loose bound variables go up by `count`. One walk closes
/// all variables, where one call of `abstract_formula` for each would walk over the formula each time.
pub fn close_formula(alloc: Global, f: &Formula, count: u32) -> Result<Formula, AllocError>
    ensures { IfOk result (λ g. g ≡ closed count f.now) }
{
    let walked = walk_formula_at(alloc, &mut Closing { count }, f, 0)?;
    formula_or_shared(f, walked)
}

/// The formula that the walk gives, or `None` where nothing in it is replaced.
#[cycle(walk_formula)]
fn walk_formula_at<R: Replace>(
    alloc: Global,
    r: &mut R,
    f: &Formula,
    depth: u64,
) -> Result<Option<Formula>, AllocError>
    ensures exact { IfOk result (λ o. unwrap_or o f.now ≡ walk_formula (R.on_bound r.old) (R.on_free r.old) depth f.now) }
    ensures kept { OnOk result (r.new ≡ r.old) }
{
    if r.leaves(f.loose_range(), depth) {
        return Ok(None);
    }
    match f.node() {
        FormulaNode::Atom(t) => walk_atom(alloc, r, t, depth),
        FormulaNode::And(f, g) => {
            let left = walk_formula_at(alloc, r, f, depth)?;
            let right = walk_formula_at(alloc, r, g, depth)?;
            conjunction(alloc, f, left, g, right)
        }
        FormulaNode::Imp(f, g) => {
            let left = walk_formula_at(alloc, r, f, depth)?;
            let right = walk_formula_at(alloc, r, g, depth)?;
            implication(alloc, f, left, g, right)
        }
        FormulaNode::All(t, f) => {
            let walked = walk_formula_at(alloc, r, f, within(depth, 1)?)?;
            universal(alloc, t, walked)
        }
        FormulaNode::Ex(t, g) => {
            let walked = walk_formula_at(alloc, r, g, within(depth, 1)?)?;
            existential(alloc, t, walked)
        }
        FormulaNode::Thyp(f) => {
            let walked = walk_formula_at(alloc, r, f, depth)?;
            marked(alloc, walked)
        }
        FormulaNode::Tested(ts) => walk_tested(alloc, r, ts.as_slice(), depth),
        FormulaNode::Deep(k, ts) => walk_deep(alloc, r, *k, ts.as_slice(), depth),
    }
}

// What is made of the parts stands in functions of its own, which are not inlined, so that the frames of
// the walk are small.

#[inline(never)]
fn walk_atom<R: Replace>(
    alloc: Global,
    r: &mut R,
    t: &Term,
    depth: u64,
) -> Result<Option<Formula>, AllocError>
    ensures exact { IfOk result (λ o. unwrap_or o (atom t.now) ≡ atom (walk (R.on_bound r.old) (R.on_free r.old) depth t.now)) }
    ensures kept { OnOk result (r.new ≡ r.old) }
{
    match walk_at(alloc, r, t, depth)? {
        Some(t) => made(alloc, FormulaNode::Atom(t)),
        None => Ok(None),
    }
}

#[inline(never)]
fn walk_tested<R: Replace>(
    alloc: Global,
    r: &mut R,
    ts: &[Term],
    depth: u64,
) -> Result<Option<Formula>, AllocError>
    ensures exact { IfOk result (λ o. unwrap_or o (tested (trees ts.now)) ≡ tested (walk_all (R.on_bound r.old) (R.on_free r.old) depth (trees ts.now))) }
    ensures kept { OnOk result (r.new ≡ r.old) }
{
    match walk_list(alloc, r, ts, depth)? {
        Some(us) => made(alloc, FormulaNode::Tested(us)),
        None => Ok(None),
    }
}

#[inline(never)]
fn walk_deep<R: Replace>(
    alloc: Global,
    r: &mut R,
    k: u64,
    ts: &[Term],
    depth: u64,
) -> Result<Option<Formula>, AllocError>
    ensures exact { IfOk result (λ o. unwrap_or o (deep k (trees ts.now)) ≡ deep k (walk_all (R.on_bound r.old) (R.on_free r.old) depth (trees ts.now))) }
    ensures kept { OnOk result (r.new ≡ r.old) }
{
    match walk_list(alloc, r, ts, depth)? {
        Some(us) => made(alloc, FormulaNode::Deep(k, us)),
        None => Ok(None),
    }
}

#[inline(never)]
fn conjunction(
    alloc: Global,
    f: &Formula,
    left: Option<Formula>,
    g: &Formula,
    right: Option<Formula>,
) -> Result<Option<Formula>, AllocError>
    ensures { IfOk result (λ o. unwrap_or o (both f.now g.now) ≡ both (unwrap_or left f.now) (unwrap_or right g.now)) }
{
    match both_or_none(f, left, g, right)? {
        Some((f, g)) => made(alloc, FormulaNode::And(f, g)),
        None => Ok(None),
    }
}

#[inline(never)]
fn implication(
    alloc: Global,
    f: &Formula,
    left: Option<Formula>,
    g: &Formula,
    right: Option<Formula>,
) -> Result<Option<Formula>, AllocError>
    ensures { IfOk result (λ o. unwrap_or o (implies f.now g.now) ≡ implies (unwrap_or left f.now) (unwrap_or right g.now)) }
{
    match both_or_none(f, left, g, right)? {
        Some((f, g)) => made(alloc, FormulaNode::Imp(f, g)),
        None => Ok(None),
    }
}

#[inline(never)]
fn universal(alloc: Global, t: &Ty, walked: Option<Formula>) -> Result<Option<Formula>, AllocError>
    ensures { IfOk result (λ o. (f : _) → unwrap_or o (all (ty t.now) f) ≡ all (ty t.now) (unwrap_or walked f)) }
{
    match walked {
        Some(f) => made(alloc, FormulaNode::All(copy(alloc, t)?, f)),
        None => Ok(None),
    }
}

#[inline(never)]
fn existential(
    alloc: Global,
    t: &Ty,
    walked: Option<Formula>,
) -> Result<Option<Formula>, AllocError>
    ensures { IfOk result (λ o. (f : _) → unwrap_or o (some (ty t.now) f) ≡ some (ty t.now) (unwrap_or walked f)) }
{
    match walked {
        Some(f) => made(alloc, FormulaNode::Ex(copy(alloc, t)?, f)),
        None => Ok(None),
    }
}

#[inline(never)]
fn marked(alloc: Global, walked: Option<Formula>) -> Result<Option<Formula>, AllocError>
    ensures { IfOk result (λ o. (f : _) → unwrap_or o (thyp f) ≡ thyp (unwrap_or walked f)) }
{
    match walked {
        Some(f) => made(alloc, FormulaNode::Thyp(f)),
        None => Ok(None),
    }
}

/// The two formulas that were walked to, or `None` where nothing in either was replaced.
fn both_or_none(
    f: &Formula,
    left: Option<Formula>,
    g: &Formula,
    right: Option<Formula>,
) -> Result<Option<(Formula, Formula)>, AllocError>
    ensures { IfOk result (λ o. unwrap_or o (f.now, g.now) ≡ (unwrap_or left f.now, unwrap_or right g.now)) }
{
    if left.is_none() && right.is_none() {
        return Ok(None);
    }
    Ok(Some((formula_or_shared(f, left)?, formula_or_shared(g, right)?)))
}

fn made(alloc: Global, node: FormulaNode) -> Result<Option<Formula>, AllocError>
    ensures { IfOk result (λ o. o ≡ Some (formula node)) }
{
    Ok(Some(Formula::new(alloc, node)?))
}

/// The formula that was walked to, or else the same formula.
fn formula_or_shared(f: &Formula, walked: Option<Formula>) -> Result<Formula, AllocError>
    ensures { IfOk result (λ g. g ≡ unwrap_or walked f.now) }
{
    match walked {
        Some(g) => Ok(g),
        None => f.share(),
    }
}
