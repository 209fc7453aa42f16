//! Equality of terms.
ghost use Rattle.std.specs.Prelude.{◌≡◌, ◌↔◌, IsTrue};

use crate::terms::{Branch, Node, Term};

/// Whether two terms are equal. It takes no memory.
///
/// Terms of other sizes are told apart at once, by what they know of themselves.
/// Two terms that share their node are walked over like any others: the kit's `Rc::ptr_eq` promises nothing
/// of the values behind two equal pointers.
#[cycle(same)]
#[tactic(auto, using(crate::proofs::Compared::compared))]
pub fn same(a: &Term, b: &Term) -> bool
    ensures { IsTrue result ↔ (a.now ≡ b.now) }
{
    if a.nodes() != b.nodes() || a.height() != b.height() {
        return false;
    }
    match (a.node(), b.node()) {
        (Node::Bound(i), Node::Bound(j)) => i == j,
        (Node::Free(m), Node::Free(n)) => m == n,
        (Node::Lit(m), Node::Lit(n)) => m == n,
        (Node::Truth(p), Node::Truth(q)) => p == q,
        (Node::Con(c, ts), Node::Con(d, us)) => *c == *d
            && same_terms(ts.as_slice(), us.as_slice()),
        (Node::Call(f, ts), Node::Call(g, us)) => *f == *g
            && same_terms(ts.as_slice(), us.as_slice()),
        (Node::Put(ts), Node::Put(us)) => same_terms(ts.as_slice(), us.as_slice()),
        (Node::If(ts), Node::If(us)) => same_terms(ts.as_slice(), us.as_slice()),
        (Node::Case(d, t, bs), Node::Case(e, u, cs)) => {
            *d == *e && same(t, u) && same_branches(bs.as_slice(), cs.as_slice())
        }
        (Node::Let(t, x), Node::Let(u, y)) => same(t, u) && same(x, y),
        (Node::Op(o, ts), Node::Op(p, us)) => *o == *p && same_terms(ts.as_slice(), us.as_slice()),
        _ => false,
    }
}

#[cycle(same)]
#[tactic(auto, using(crate::proofs::Compared::compared))]
fn same_terms(ts: &[Term], us: &[Term]) -> bool
    ensures { IsTrue result ↔ (ts.now ≡ us.now) }
{
    if ts.len() != us.len() {
        return false;
    }
    for (i, t) in ts.iter().enumerate() {
        if !same(t, &us[i]) {
            return false;
        }
    }
    true
}

#[cycle(same)]
#[tactic(auto, using(crate::proofs::Compared::compared))]
fn same_branches(bs: &[Branch], cs: &[Branch]) -> bool
    ensures { IsTrue result ↔ (bs.now ≡ cs.now) }
{
    if bs.len() != cs.len() {
        return false;
    }
    for (i, b) in bs.iter().enumerate() {
        if b.vars != cs[i].vars || !same(&b.body, &cs[i].body) {
            return false;
        }
    }
    true
}
