//! The rows of `~`, `&`, `|`, `-->`, `if` and `let`, and of an equation with a truth value.
ghost use Rattle.std.specs.Prelude.{◌≡◌, option_map};
ghost use Rattle.tg_model.specs.Equality.{same_tree};
ghost use Rattle.tg_rows.specs.Rows.{left_truth, right_truth, alike, not_truth, not_not, if_truth, if_same, let_sub, eq_truth};
ghost use Rattle.tg_schema.specs.Found.{becomes, term_of};
ghost use Rattle.tg_term.specs.Operators.{operator};

use crate::found::{Arguments, Found, Other, Piece};
use crate::operators::{EQUALITY, NEGATION};
use crate::parts::{binary, bind_of, choice_of, truth_of, unary};
use tg_term::{OpId, Term, same};

/// A term that stands in the term at hand.
fn part(t: &Term) -> Found<'_>
    ensures { term_of result ≡ t.now }
{
    Found::Whole(Piece::Part(t))
}

/// What becomes of a term.
fn becomes(other: Other, t: &Term) -> Found<'_>
    ensures { term_of result ≡ becomes other t.now }
{
    match other {
        Other::Itself => part(t),
        Other::Always(b) => Found::Truth(b),
        Other::Denied => Found::Negation(t),
    }
}

/// Whether two terms are equal.
#[tactic(auto, using(crate::proofs::PartLaws::equal))]
fn equal(t: &Term, u: &Term) -> bool
    ensures { result ≡ same_tree t.now u.now }
{
    same(t, u)
}

/// An operator whose left side is the truth value.
pub(crate) fn left_truth(t: &Term, o: OpId, b: bool, other: Other) -> Option<Found<'_>>
    ensures { option_map term_of result ≡ left_truth (operator o) b (becomes other) t.now }
{
    let (left, right) = binary(t, o)?;
    if truth_of(left)? == b {
        Some(becomes(other, right))
    } else {
        None
    }
}

/// An operator whose right side is the truth value.
pub(crate) fn right_truth(t: &Term, o: OpId, b: bool, other: Other) -> Option<Found<'_>>
    ensures { option_map term_of result ≡ right_truth (operator o) b (becomes other) t.now }
{
    let (left, right) = binary(t, o)?;
    if truth_of(right)? == b {
        Some(becomes(other, left))
    } else {
        None
    }
}

/// An operator whose two sides are equal.
pub(crate) fn alike(t: &Term, o: OpId, other: Other) -> Option<Found<'_>>
    ensures { option_map term_of result ≡ alike (operator o) (becomes other) t.now }
{
    let (left, right) = binary(t, o)?;
    if equal(left, right) {
        Some(becomes(other, left))
    } else {
        None
    }
}

/// `~ True`, or `~ False`.
pub(crate) fn not_truth(t: &Term, b: bool) -> Option<Found<'_>>
    ensures { option_map term_of result ≡ not_truth b t.now }
{
    let a = unary(t, NEGATION)?;
    if truth_of(a)? == b {
        Some(Found::Truth(!b))
    } else {
        None
    }
}

/// `~ ~ a`.
pub(crate) fn not_not(t: &Term) -> Option<Found<'_>>
    ensures { option_map term_of result ≡ not_not t.now }
{
    let a = unary(t, NEGATION)?;
    Some(part(unary(a, NEGATION)?))
}

/// An `if` whose condition is the truth value.
pub(crate) fn if_truth(t: &Term, b: bool) -> Option<Found<'_>>
    ensures { option_map term_of result ≡ if_truth b t.now }
{
    let (condition, left, right) = choice_of(t)?;
    if truth_of(condition)? == b {
        Some(part(if b { left } else { right }))
    } else {
        None
    }
}

/// An `if` whose two sides are equal.
pub(crate) fn if_same(t: &Term) -> Option<Found<'_>>
    ensures { option_map term_of result ≡ if_same t.now }
{
    let (_, left, right) = choice_of(t)?;
    if equal(left, right) {
        Some(part(left))
    } else {
        None
    }
}

/// A `let`.
pub(crate) fn let_sub(t: &Term) -> Option<Found<'_>>
    ensures { option_map term_of result ≡ let_sub t.now }
{
    let (a, body) = bind_of(t)?;
    Some(Found::Instantiated(Arguments::Only(Piece::Part(a)), body))
}

/// An equation with the truth value on the right, or else on the left.
pub(crate) fn eq_truth(t: &Term, b: bool, other: Other) -> Option<Found<'_>>
    ensures { option_map term_of result ≡ eq_truth b (becomes other) t.now }
{
    match right_truth(t, EQUALITY, b, other) {
        Some(found) => Some(found),
        None => left_truth(t, EQUALITY, b, other),
    }
}
