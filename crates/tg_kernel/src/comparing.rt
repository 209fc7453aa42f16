//! Equality of formulas and of types, as the calculus compares them. No call takes memory.
ghost use Rattle.std.specs.Prelude.{◌≡◌, map};
ghost use Rattle.tg_calculus.specs.Draft.{same_context};
ghost use Rattle.tg_kernel.specs.Comparing.{alike, all_alike, type_alike, all_types_alike};
ghost use Rattle.tg_model.specs.Equality.{same_tree, same_type, same_formula};
ghost use Rattle.tg_model.specs.Tree.{trees};
ghost use Rattle.tg_types.specs.Types.{ty, types};

use tg_term::{Formula, FormulaNode, Term, same};
use tg_types::Ty;

/// Whether two formulas are equal.
#[tactic(auto, using(crate::proofs::ComparingLaws::comparing))]
pub(crate) fn same_formula(f: &Formula, g: &Formula) -> bool
    ensures { result ≡ same_formula f.now g.now }
{
    f.nodes() == g.nodes() && is_alike(f, g)
}

#[cycle(alike)]
fn is_alike(f: &Formula, g: &Formula) -> bool
    ensures { result ≡ alike f.now g.now }
{
    match (f.node(), g.node()) {
        (FormulaNode::Atom(t), FormulaNode::Atom(u)) => same_term(t, u),
        (FormulaNode::And(a, b), FormulaNode::And(c, d)) => is_alike(a, c) && is_alike(b, d),
        (FormulaNode::Imp(a, b), FormulaNode::Imp(c, d)) => is_alike(a, c) && is_alike(b, d),
        (FormulaNode::All(t, a), FormulaNode::All(u, b)) => same_type(t, u) && is_alike(a, b),
        (FormulaNode::Ex(t, a), FormulaNode::Ex(u, b)) => same_type(t, u) && is_alike(a, b),
        (FormulaNode::Thyp(a), FormulaNode::Thyp(b)) => is_alike(a, b),
        (FormulaNode::Tested(ts), FormulaNode::Tested(us)) => {
            same_terms(ts.as_slice(), us.as_slice())
        }
        (FormulaNode::Deep(j, ts), FormulaNode::Deep(k, us)) => {
            *j == *k && same_terms(ts.as_slice(), us.as_slice())
        }
        _ => false,
    }
}

/// Whether two terms are equal.
#[tactic(auto, using(crate::proofs::ComparingLaws::comparing))]
pub(crate) fn same_term(t: &Term, u: &Term) -> bool
    ensures { result ≡ same_tree t.now u.now }
{
    same(t, u)
}

#[tactic(auto, using(crate::proofs::ComparingLaws::lists))]
fn same_terms(ts: &[Term], us: &[Term]) -> bool
    ensures { result ≡ all_alike (trees ts.now) (trees us.now) }
{
    if ts.len() != us.len() {
        return false;
    }
    for (i, t) in ts.iter().enumerate() {
        if !same_term(t, &us[i]) {
            return false;
        }
    }
    true
}

/// Whether two types are equal.
#[tactic(auto, using(crate::proofs::ComparingLaws::comparing))]
pub(crate) fn same_type(t: &Ty, u: &Ty) -> bool
    ensures { result ≡ same_type (ty t.now) (ty u.now) }
{
    is_type_alike(t, u)
}

#[cycle(types_alike)]
fn is_type_alike(t: &Ty, u: &Ty) -> bool
    ensures { result ≡ type_alike (ty t.now) (ty u.now) }
{
    match (t, u) {
        (Ty::Nat, Ty::Nat) | (Ty::Bool, Ty::Bool) => true,
        (Ty::Param(m), Ty::Param(n)) => *m == *n,
        (Ty::Meta(m), Ty::Meta(n)) => *m == *n,
        (Ty::App(d, ts), Ty::App(e, us)) => *d == *e
            && are_types_alike(ts.as_slice(), us.as_slice()),
        _ => false,
    }
}

#[cycle(types_alike)]
#[tactic(auto, using(crate::proofs::ComparingLaws::lists))]
fn are_types_alike(ts: &[Ty], us: &[Ty]) -> bool
    ensures { result ≡ all_types_alike (types ts.now) (types us.now) }
{
    if ts.len() != us.len() {
        return false;
    }
    for (i, t) in ts.iter().enumerate() {
        if !is_type_alike(t, &us[i]) {
            return false;
        }
    }
    true
}

/// Whether two lists of types are equal.
#[tactic(auto, using(crate::proofs::ComparingLaws::lists))]
pub(crate) fn same_types(ts: &[Ty], us: &[Ty]) -> bool
    ensures { result ≡ same_context (map ty ts.now) (map ty us.now) }
{
    if ts.len() != us.len() {
        return false;
    }
    for (i, t) in ts.iter().enumerate() {
        if !same_type(t, &us[i]) {
            return false;
        }
    }
    true
}
