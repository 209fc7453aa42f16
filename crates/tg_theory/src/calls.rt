//! Calls in terms: whether each is right.
ghost use Rattle.std.specs.Prelude.{◌≡◌, option_copied, slice_get, unwrap_or, false};
ghost use Rattle.tg_accept.specs.Faults.{each_call, each_calls, each_call_of, is_smaller, is_lower_use, is_variable, are_variables, are_inputs, each_put, each_puts, each_put_of};
ghost use Rattle.tg_model.specs.Theory.{numbered};
ghost use Rattle.tg_model.specs.Tree.{trees};
ghost use Rattle.tg_term.specs.View.{arms};
ghost use Rattle.tg_theory.specs.Matched.{recursive};

use crate::types::datatype_of;
use tg_term::{Branch, FunId, Node, Term};
use tg_types::{DataId, Ty};

/// Whether each program call in the term has just the inputs as its arguments, in their order.
#[cycle(puts)]
#[tactic(auto, using(crate::proofs::Terms::lower))]
pub fn calls_on_inputs(t: &Term, count: usize) -> bool
    ensures { result ≡ each_put count t.now }
{
    match t.node() {
        Node::Bound(_) | Node::Free(_) | Node::Lit(_) | Node::Truth(_) => true,
        Node::Put(ts) => are_inputs(ts.as_slice(), count),
        Node::Con(_, ts) => call_on_inputs(ts.as_slice(), count),
        Node::Call(_, ts) => call_on_inputs(ts.as_slice(), count),
        Node::If(ts) => call_on_inputs(ts.as_slice(), count),
        Node::Op(_, ts) => call_on_inputs(ts.as_slice(), count),
        Node::Case(_, t, bs) => {
            calls_on_inputs(t, count) && branches_call_on_inputs(bs.as_slice(), count)
        }
        Node::Let(t, body) => calls_on_inputs(t, count) && calls_on_inputs(body, count),
    }
}

#[cycle(puts)]
#[tactic(auto, using(crate::proofs::Terms::lower))]
fn call_on_inputs(ts: &[Term], count: usize) -> bool
    ensures { result ≡ each_puts count (trees ts.now) }
{
    for t in ts {
        if !calls_on_inputs(t, count) {
            return false;
        }
    }
    true
}

#[cycle(puts)]
#[tactic(auto, using(crate::proofs::Terms::lower))]
fn branches_call_on_inputs(bs: &[Branch], count: usize) -> bool
    ensures { result ≡ each_put_of count (arms bs.now) }
{
    for b in bs {
        if !calls_on_inputs(&b.body, count) {
            return false;
        }
    }
    true
}

/// Whether the terms are the inputs, `count` of them, in their order.
#[tactic(auto, using(crate::proofs::Terms::ordered))]
fn are_inputs(ts: &[Term], count: usize) -> bool
    ensures { result ≡ are_inputs count (trees ts.now) }
{
    if ts.len() == count {
        are_variables(ts)
    } else {
        false
    }
}

/// Whether the terms are the free variables from the first on, in their order.
fn are_variables(ts: &[Term]) -> bool
    ensures { result ≡ are_variables 1 (trees ts.now) }
{
    for (at, t) in ts.iter().enumerate() {
        if !is_variable(t, at + 1) {
            return false;
        }
    }
    true
}

/// Whether the term is the free variable of a number.
fn is_variable(t: &Term, number: usize) -> bool
    ensures { result ≡ is_variable number t.now }
{
    match t.node() {
        Node::Free(n) => *n as usize == number,
        _ => false,
    }
}

/// The function that is declared, in the case of one constructor.
#[derive(Clone, Copy)]
pub(crate) struct OwnCase<'a> {
    /// The function's number.
    pub(crate) function: FunId,
    /// The place of the argument that it recurses on, from 1.
    pub(crate) place: u32,
    /// How many other arguments it has.
    pub(crate) others: usize,
    /// The constructor's arguments.
    pub(crate) arguments: Arguments<'a>,
}

/// The arguments of a constructor.
#[derive(Clone, Copy)]
pub(crate) enum Arguments<'a> {
    /// Those of 0: none.
    OfZero,
    /// That of `Suc`.
    OfSuc,
    /// Those of a constructor of the datatype of this number, by their declared types.
    Of(DataId, &'a [Ty]),
}

impl<'a> Arguments<'a> {
    /// Whether the argument at a place, from 0, is recursive: of the constructor's own type.
    fn is_recursive(&self, at: usize) -> bool
        ensures { result ≡ unwrap_or (slice_get (recursive self.now) at) false }
    {
        match self {
            Arguments::OfZero => false,
            Arguments::OfSuc => at == 0,
            Arguments::Of(d, ts) => match ts.get(at) {
                Some(t) => datatype_of(t) == *d,
                None => false,
            },
        }
    }
}

/// Whether each use that the function makes of itself in the term is at a smaller argument.
#[cycle(uses)]
#[tactic(auto, using(crate::proofs::Terms::lower))]
pub(crate) fn uses_are_lower(t: &Term, own: &OwnCase<'_>) -> bool
    ensures { result ≡ each_call (is_lower_use own.now.function own.now.place own.now.others (recursive own.now.arguments)) t.now }
{
    match t.node() {
        Node::Bound(_) | Node::Free(_) | Node::Lit(_) | Node::Truth(_) => true,
        Node::Call(f, ts) => {
            is_lower_use(*f, ts.as_slice(), own) && all_lower(ts.as_slice(), own)
        }
        Node::Put(ts) => all_lower(ts.as_slice(), own),
        Node::Con(_, ts) => all_lower(ts.as_slice(), own),
        Node::If(ts) => all_lower(ts.as_slice(), own),
        Node::Op(_, ts) => all_lower(ts.as_slice(), own),
        Node::Case(_, t, bs) => uses_are_lower(t, own) && branches_lower(bs.as_slice(), own),
        Node::Let(t, body) => uses_are_lower(t, own) && uses_are_lower(body, own),
    }
}

#[cycle(uses)]
#[tactic(auto, using(crate::proofs::Terms::lower))]
fn all_lower(ts: &[Term], own: &OwnCase<'_>) -> bool
    ensures { result ≡ each_calls (is_lower_use own.now.function own.now.place own.now.others (recursive own.now.arguments)) (trees ts.now) }
{
    for t in ts {
        if !uses_are_lower(t, own) {
            return false;
        }
    }
    true
}

#[cycle(uses)]
#[tactic(auto, using(crate::proofs::Terms::lower))]
fn branches_lower(bs: &[Branch], own: &OwnCase<'_>) -> bool
    ensures { result ≡ each_call_of (is_lower_use own.now.function own.now.place own.now.others (recursive own.now.arguments)) (arms bs.now) }
{
    for b in bs {
        if !uses_are_lower(&b.body, own) {
            return false;
        }
    }
    true
}

/// Whether a call is of another function, or has a smaller argument at the function's place.
#[tactic(auto, using(crate::proofs::Terms::places))]
fn is_lower_use(f: FunId, ts: &[Term], own: &OwnCase<'_>) -> bool
    ensures { result ≡ is_lower_use own.now.function own.now.place own.now.others (recursive own.now.arguments) f (trees ts.now) }
{
    if f != own.function {
        return true;
    }
    match item(ts, own.place) {
        Some(t) => is_smaller(t, own),
        None => false,
    }
}

/// The item of a number, from 1.
pub(crate) fn item<T>(items: &[T], number: u32) -> Option<&T>
    ensures { option_copied result ≡ numbered items.now number }
{
    items.get((number as usize).checked_sub(1)?)
}

/// Whether a term is a variable that stands for a recursive argument of the constructor.
fn is_smaller(t: &Term, own: &OwnCase<'_>) -> bool
    ensures { result ≡ is_smaller own.now.others (recursive own.now.arguments) t.now }
{
    match t.node() {
        Node::Free(n) => {
            let number = *n as usize;
            own.others < number && own.arguments.is_recursive(number - (own.others + 1))
        }
        _ => false,
    }
}
