//! What stands in a term: free variables, and calls of the program.
ghost use Rattle.std.specs.Prelude.{◌≡◌};
ghost use Rattle.tg_model.specs.Calls.{has_call, have_call, branches_have_call};
ghost use Rattle.tg_model.specs.Tree.{trees};
ghost use Rattle.tg_model.specs.Uses.{uses, use_any, use_branch};
ghost use Rattle.tg_term.specs.View.{arms};

use crate::terms::{Branch, Node, Term};

/// Whether the variable of a number, from 1, stands in the term. It takes no memory.
#[cycle(uses)]
#[tactic(auto, using(crate::proofs::UseLaws::using))]
pub fn uses(t: &Term, number: u32) -> bool
    ensures { result ≡ uses number t.now }
{
    match t.node() {
        Node::Bound(_) => false,
        Node::Free(m) => *m == number,
        Node::Lit(_) => false,
        Node::Truth(_) => false,
        Node::Con(_, ts) => use_any(ts.as_slice(), number),
        Node::Call(_, ts) => use_any(ts.as_slice(), number),
        Node::Put(ts) => use_any(ts.as_slice(), number),
        Node::If(ts) => use_any(ts.as_slice(), number),
        Node::Case(_, t, bs) => uses(t, number) || use_branch(bs.as_slice(), number),
        Node::Let(t, body) => uses(t, number) || uses(body, number),
        Node::Op(_, ts) => use_any(ts.as_slice(), number),
    }
}

#[cycle(uses)]
#[tactic(auto, using(crate::proofs::UseLaws::using))]
fn use_any(ts: &[Term], number: u32) -> bool
    ensures { result ≡ use_any number (trees ts.now) }
{
    for t in ts {
        if uses(t, number) {
            return true;
        }
    }
    false
}

#[cycle(uses)]
#[tactic(auto, using(crate::proofs::UseLaws::using))]
fn use_branch(bs: &[Branch], number: u32) -> bool
    ensures { result ≡ use_branch number (arms bs.now) }
{
    for b in bs {
        if uses(&b.body, number) {
            return true;
        }
    }
    false
}

/// Whether the program is called somewhere in the term, branches included. It takes no memory.
#[cycle(calls)]
#[tactic(auto, using(crate::proofs::UseLaws::using))]
pub fn calls_program(t: &Term) -> bool
    ensures { result ≡ has_call t.now }
{
    match t.node() {
        Node::Bound(_) | Node::Free(_) | Node::Lit(_) | Node::Truth(_) => false,
        Node::Put(_) => true,
        Node::Con(_, ts) => call_program(ts.as_slice()),
        Node::Call(_, ts) => call_program(ts.as_slice()),
        Node::If(ts) => call_program(ts.as_slice()),
        Node::Op(_, ts) => call_program(ts.as_slice()),
        Node::Case(_, t, bs) => calls_program(t) || branches_call_program(bs.as_slice()),
        Node::Let(t, body) => calls_program(t) || calls_program(body),
    }
}

#[cycle(calls)]
#[tactic(auto, using(crate::proofs::UseLaws::using))]
fn call_program(ts: &[Term]) -> bool
    ensures { result ≡ have_call (trees ts.now) }
{
    for t in ts {
        if calls_program(t) {
            return true;
        }
    }
    false
}

#[cycle(calls)]
#[tactic(auto, using(crate::proofs::UseLaws::using))]
fn branches_call_program(bs: &[Branch]) -> bool
    ensures { result ≡ branches_have_call (arms bs.now) }
{
    for b in bs {
        if calls_program(&b.body) {
            return true;
        }
    }
    false
}
