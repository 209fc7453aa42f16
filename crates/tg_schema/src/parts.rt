//! What a term has at its root.
ghost use Rattle.std.specs.Prelude.{◌≡◌, option_map, option_copied};
ghost use Rattle.tg_rows.specs.Parts.{unary, binary, truth_of, number_of, choice_of, bind_of, case_of, made_of, called};
ghost use Rattle.tg_model.specs.Tree.{choice, op, trees};
ghost use Rattle.tg_term.specs.Operators.{operator};
ghost use Rattle.tg_term.specs.View.{arms};

use tg_term::{Branch, ConId, FunId, Node, OpId, Term};
use tg_types::DataId;

/// The operand of an operator.
#[tactic(auto, using(crate::proofs::PartLaws::parts))]
pub(crate) fn unary(t: &Term, o: OpId) -> Option<&Term>
    ensures { option_copied result ≡ unary (operator o) t.now }
{
    match t.node() {
        Node::Op(p, ts) if *p == o => only(ts.as_slice()),
        _ => None,
    }
}

/// The two operands of an operator.
#[tactic(auto, using(crate::proofs::PartLaws::parts))]
pub(crate) fn binary(t: &Term, o: OpId) -> Option<(&Term, &Term)>
    ensures { option_map (λ p. (p.0.now, p.1.now)) result ≡ binary (operator o) t.now }
{
    match t.node() {
        Node::Op(p, ts) if *p == o => pair(ts.as_slice()),
        _ => None,
    }
}

/// The one term of a list.
#[tactic(auto, using(crate::proofs::PartLaws::lists))]
fn only(ts: &[Term]) -> Option<&Term>
    ensures { (o : _) → option_copied result ≡ unary o (op o (trees ts.now)) }
{
    if ts.len() == 1 { Some(&ts[0]) } else { None }
}

/// The two terms of a list.
#[tactic(auto, using(crate::proofs::PartLaws::lists))]
fn pair(ts: &[Term]) -> Option<(&Term, &Term)>
    ensures { (o : _) → option_map (λ p. (p.0.now, p.1.now)) result ≡ binary o (op o (trees ts.now)) }
{
    if ts.len() == 2 {
        Some((&ts[0], &ts[1]))
    } else {
        None
    }
}

/// The three terms of a list.
#[tactic(auto, using(crate::proofs::PartLaws::lists))]
fn triple(ts: &[Term]) -> Option<(&Term, &Term, &Term)>
    ensures { option_map (λ p. (p.0.now, p.1.now, p.2.now)) result ≡ choice_of (choice (trees ts.now)) }
{
    if ts.len() == 3 {
        Some((&ts[0], &ts[1], &ts[2]))
    } else {
        None
    }
}

/// The truth value that a term is.
pub(crate) fn truth_of(t: &Term) -> Option<bool>
    ensures { result ≡ truth_of t.now }
{
    match t.node() {
        Node::Truth(b) => Some(*b),
        _ => None,
    }
}

/// The natural that a term is.
pub(crate) fn number_of(t: &Term) -> Option<u64>
    ensures { result ≡ number_of t.now }
{
    match t.node() {
        Node::Lit(n) => Some(*n),
        _ => None,
    }
}

/// The condition and the two sides of an `if`.
#[tactic(auto, using(crate::proofs::PartLaws::parts))]
pub(crate) fn choice_of(t: &Term) -> Option<(&Term, &Term, &Term)>
    ensures { option_map (λ p. (p.0.now, p.1.now, p.2.now)) result ≡ choice_of t.now }
{
    match t.node() {
        Node::If(ts) => triple(ts.as_slice()),
        _ => None,
    }
}

/// What is bound by a `let`, and what it is bound in.
pub(crate) fn bind_of(t: &Term) -> Option<(&Term, &Term)>
    ensures { option_map (λ p. (p.0.now, p.1.now)) result ≡ bind_of t.now }
{
    match t.node() {
        Node::Let(a, body) => Some((a, body)),
        _ => None,
    }
}

/// The datatype, the scrutinee and the branches of a `case`.
pub(crate) fn case_of(t: &Term) -> Option<(DataId, &Term, &[Branch])>
    ensures { option_map (λ p. (p.0, p.1.now, arms p.2.now)) result ≡ case_of t.now }
{
    match t.node() {
        Node::Case(d, scrutinee, branches) => Some((*d, scrutinee, branches.as_slice())),
        _ => None,
    }
}

/// The constructor at the root of a term, and its arguments.
pub(crate) fn made_of(t: &Term) -> Option<(ConId, &[Term])>
    ensures { option_map (λ p. (p.0, trees p.1.now)) result ≡ made_of t.now }
{
    match t.node() {
        Node::Con(c, ts) => Some((*c, ts.as_slice())),
        _ => None,
    }
}

/// The function that a term calls, and the call's arguments.
pub(crate) fn called(t: &Term) -> Option<(FunId, &[Term])>
    ensures { option_map (λ p. (p.0, trees p.1.now)) result ≡ called t.now }
{
    match t.node() {
        Node::Call(f, ts) => Some((*f, ts.as_slice())),
        _ => None,
    }
}
