//! What a boolean term has at its root.
ghost use Rattle.std.specs.Prelude.{◌≡◌, ◌∷◌, [], ◌<◌};
ghost use Rattle.tg_clause.specs.Clauses.{sides, of_operation, all_sides, is_connective, is_boolean_shaped};
ghost use Rattle.tg_clause.specs.Roots.{sides_by, IsBelow};
ghost use Rattle.tg_model.specs.Tree.{op, trees, one, two};
ghost use Rattle.tg_term.specs.Measures.{height, heights};
ghost use Rattle.tg_term.specs.Operators.{operator};

use tg_term::{Node, OpId, Term};

pub(crate) const NEGATION: OpId = 2;

const CONJUNCTION: OpId = 3;

const DISJUNCTION: OpId = 4;

const IMPLICATION: OpId = 5;

const EQUALITY: OpId = 6;

const LESS: OpId = 7;

const LESS_EQUAL: OpId = 8;

/// How a term is taken apart for its clauses.
#[derive(Clone, Copy)]
pub(crate) enum Root<'a> {
    /// It isn't.
    Atom,
    /// It is a truth value.
    Truth(bool),
    /// It is a negation.
    Not(&'a Term),
    /// It is a conjunction.
    And(&'a Term, &'a Term),
    /// It is a disjunction.
    Or(&'a Term, &'a Term),
    /// It is an implication.
    Implies(&'a Term, &'a Term),
    /// It is an equation of truth values, of which one is seen to be one.
    Equal(&'a Term, &'a Term),
}

/// How a term is taken apart.
pub(crate) fn root_of(t: &Term) -> Root<'_>
    ensures is { sides t.now ≡ sides_by t.now result }
    ensures below { IsBelow (height t.now) result }
{
    match t.node() {
        Node::Truth(b) => Root::Truth(*b),
        Node::Op(o, ts) => operation(*o, ts.as_slice()),
        Node::Bound(_) | Node::Free(_) | Node::Lit(_) => Root::Atom,
        Node::Con(_, _) | Node::Call(_, _) | Node::Put(_) => Root::Atom,
        Node::If(_) | Node::Case(_, _, _) | Node::Let(_, _) => Root::Atom,
    }
}

/// How an operator at these operands is taken apart.
#[tactic(auto, using(crate::proofs::RootLaws::operations))]
fn operation(o: OpId, ts: &[Term]) -> Root<'_>
    ensures is { of_operation (operator o) (trees ts.now) (all_sides (trees ts.now)) ≡ sides_by (op (operator o) (trees ts.now)) result }
    ensures below { IsBelow (heights (trees ts.now)) result }
{
    if ts.len() == 1 {
        return unary(o, &ts[0]);
    }
    if ts.len() == 2 {
        return binary(o, &ts[0], &ts[1]);
    }
    Root::Atom
}

#[tactic(auto, using(crate::proofs::RootLaws::unaries))]
fn unary(o: OpId, a: &Term) -> Root<'_>
    ensures is { of_operation (operator o) (one a.now) (sides a.now ∷ []) ≡ sides_by (op (operator o) (one a.now)) result }
    ensures below { IsBelow (heights (one a.now)) result }
{
    if o == NEGATION {
        Root::Not(a)
    } else {
        Root::Atom
    }
}

#[tactic(auto, using(crate::proofs::RootLaws::binaries))]
fn binary<'a>(o: OpId, a: &'a Term, b: &'a Term) -> Root<'a>
    ensures is { of_operation (operator o) (two a.now b.now) (sides a.now ∷ sides b.now ∷ []) ≡ sides_by (op (operator o) (two a.now b.now)) result }
    ensures below { IsBelow (heights (two a.now b.now)) result }
{
    match o {
        CONJUNCTION => Root::And(a, b),
        DISJUNCTION => Root::Or(a, b),
        IMPLICATION => Root::Implies(a, b),
        EQUALITY if is_boolean_shaped(a) || is_boolean_shaped(b) => Root::Equal(a, b),
        _ => Root::Atom,
    }
}

/// Whether the term is seen to be a truth value: it is one, or has one of `~ & | --> = < <=` at its root.
#[tactic(auto, using(crate::proofs::RootLaws::shapes))]
fn is_boolean_shaped(t: &Term) -> bool
    ensures { result ≡ is_boolean_shaped t.now }
{
    match t.node() {
        Node::Truth(_) => true,
        Node::Op(o, _) => NEGATION <= *o && *o <= LESS_EQUAL,
        Node::Bound(_) | Node::Free(_) | Node::Lit(_) => false,
        Node::Con(_, _) | Node::Call(_, _) | Node::Put(_) => false,
        Node::If(_) | Node::Case(_, _, _) | Node::Let(_, _) => false,
    }
}
