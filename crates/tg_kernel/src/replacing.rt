//! Whether a formula comes from another by putting a term for another at some places. No call takes memory.
ghost use Rattle.std.specs.Prelude.{◌≡◌, ◌||◌};
ghost use Rattle.tg_calculus.specs.Replacing.{at_root, below, all_replace, arms_replace, replaces};
ghost use Rattle.tg_model.specs.Tree.{trees};
ghost use Rattle.tg_term.specs.View.{arms};

use crate::comparing::{same_term, same_type};
use tg_term::{Branch, Formula, FormulaNode, Node, Term};

/// Whether `g` is `f` where `t` stands for `s` at some places, none or all.
#[cycle(replaces)]
pub(crate) fn replaces(s: &Term, t: &Term, f: &Formula, g: &Formula) -> bool
    ensures { result ≡ replaces s.now t.now f.now g.now }
{
    match (f.node(), g.node()) {
        (FormulaNode::Atom(u), FormulaNode::Atom(v)) => in_term(s, t, u, v),
        (FormulaNode::And(a, b), FormulaNode::And(c, d)) => {
            replaces(s, t, a, c) && replaces(s, t, b, d)
        }
        (FormulaNode::Imp(a, b), FormulaNode::Imp(c, d)) => {
            replaces(s, t, a, c) && replaces(s, t, b, d)
        }
        (FormulaNode::All(k, a), FormulaNode::All(l, b)) => same_type(k, l) && replaces(s, t, a, b),
        (FormulaNode::Ex(k, a), FormulaNode::Ex(l, b)) => same_type(k, l) && replaces(s, t, a, b),
        (FormulaNode::Thyp(a), FormulaNode::Thyp(b)) => replaces(s, t, a, b),
        (FormulaNode::Tested(us), FormulaNode::Tested(vs)) => {
            in_terms(s, t, us.as_slice(), vs.as_slice())
        }
        (FormulaNode::Deep(j, us), FormulaNode::Deep(k, vs)) => {
            *j == *k && in_terms(s, t, us.as_slice(), vs.as_slice())
        }
        _ => false,
    }
}

/// At the root, below it, or nowhere.
#[cycle(replaced)]
fn in_term(s: &Term, t: &Term, u: &Term, v: &Term) -> bool
    ensures { result ≡ (at_root s.now t.now u.now v.now || below s.now t.now u.now v.now) }
{
    is_at_root(s, t, u, v) || is_below(s, t, u, v)
}

fn is_at_root(s: &Term, t: &Term, u: &Term, v: &Term) -> bool
    ensures { result ≡ at_root s.now t.now u.now v.now }
{
    (same_term(u, s) && same_term(v, t)) || same_term(u, v)
}

#[cycle(replaced)]
#[tactic(auto, using(crate::proofs::ReplacingLaws::replacing))]
fn is_below(s: &Term, t: &Term, u: &Term, v: &Term) -> bool
    ensures { result ≡ below s.now t.now u.now v.now }
{
    match (u.node(), v.node()) {
        (Node::Con(c, us), Node::Con(d, vs)) => *c == *d
            && in_terms(s, t, us.as_slice(), vs.as_slice()),
        (Node::Call(f, us), Node::Call(g, vs)) => *f == *g
            && in_terms(s, t, us.as_slice(), vs.as_slice()),
        (Node::Put(us), Node::Put(vs)) => in_terms(s, t, us.as_slice(), vs.as_slice()),
        (Node::If(us), Node::If(vs)) => in_terms(s, t, us.as_slice(), vs.as_slice()),
        (Node::Case(d, u, bs), Node::Case(e, v, cs)) => {
            *d == *e && in_term(s, t, u, v) && in_branches(s, t, bs.as_slice(), cs.as_slice())
        }
        (Node::Let(u, a), Node::Let(v, b)) => in_term(s, t, u, v) && in_term(s, t, a, b),
        (Node::Op(o, us), Node::Op(p, vs)) => *o == *p
            && in_terms(s, t, us.as_slice(), vs.as_slice()),
        _ => false,
    }
}

#[cycle(replaced)]
#[tactic(auto, using(crate::proofs::ReplacingLaws::replacing))]
fn in_terms(s: &Term, t: &Term, us: &[Term], vs: &[Term]) -> bool
    ensures { result ≡ all_replace s.now t.now (trees us.now) (trees vs.now) }
{
    if us.len() != vs.len() {
        return false;
    }
    for (i, u) in us.iter().enumerate() {
        if !in_term(s, t, u, &vs[i]) {
            return false;
        }
    }
    true
}

#[cycle(replaced)]
#[tactic(auto, using(crate::proofs::ReplacingLaws::replacing))]
fn in_branches(s: &Term, t: &Term, bs: &[Branch], cs: &[Branch]) -> bool
    ensures { result ≡ arms_replace s.now t.now (arms bs.now) (arms cs.now) }
{
    if bs.len() != cs.len() {
        return false;
    }
    for (i, b) in bs.iter().enumerate() {
        if b.vars != cs[i].vars || !in_term(s, t, &b.body, &cs[i].body) {
            return false;
        }
    }
    true
}
