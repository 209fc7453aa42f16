//! The rows of equations between constructors, and between successors.
ghost use Rattle.std.specs.Prelude.{◌≡◌, Some, option_map};
ghost use Rattle.tg_model.specs.Tree.{literal, successor};
ghost use Rattle.tg_rows.specs.Parts.{and_then, number_of, unary};
ghost use Rattle.tg_rows.specs.Rows.{before, eq_con, eq_con_diff, eq_suc, eq_zero_suc, eq_suc_lit, equal_parts, equation, zero_successor};
ghost use Rattle.tg_schema.specs.Found.{term_of};

use crate::found::{Found, Piece};
use crate::operators::{EQUALITY, SUCCESSOR};
use crate::parts::{binary, made_of, number_of, unary};
use tg_term::Term;

/// The equations between the terms of two lists that are equally long and not empty.
#[tactic(auto, using(crate::proofs::EquationLaws::lengths))]
fn equal_parts<'a>(ts: &'a [Term], us: &'a [Term]) -> Option<Found<'a>>
    ensures { option_map term_of result ≡ equal_parts ts.now us.now }
{
    if ts.len() != us.len() || ts.len() == 0 {
        return None;
    }
    Some(Found::Equations(ts, us))
}

/// An equation between two terms made by one constructor, which has arguments.
#[tactic(auto, using(crate::proofs::EquationLaws::constructors))]
pub(crate) fn eq_con(t: &Term) -> Option<Found<'_>>
    ensures { option_map term_of result ≡ eq_con t.now }
{
    let (left, right) = binary(t, EQUALITY)?;
    let (c, ts) = made_of(left)?;
    let (d, us) = made_of(right)?;
    if c == d { equal_parts(ts, us) } else { None }
}

/// An equation between terms made by two constructors.
pub(crate) fn eq_con_diff(t: &Term) -> Option<Found<'_>>
    ensures { option_map term_of result ≡ eq_con_diff t.now }
{
    let (left, right) = binary(t, EQUALITY)?;
    let (c, _) = made_of(left)?;
    let (d, _) = made_of(right)?;
    if c == d {
        None
    } else {
        Some(Found::Truth(false))
    }
}

/// An equation between two successors.
pub(crate) fn eq_suc(t: &Term) -> Option<Found<'_>>
    ensures { option_map term_of result ≡ eq_suc t.now }
{
    let (left, right) = binary(t, EQUALITY)?;
    let a = unary(left, SUCCESSOR)?;
    let b = unary(right, SUCCESSOR)?;
    Some(Found::Equation(Piece::Part(a), Piece::Part(b)))
}

/// 0 and a successor, which differ.
fn zero_successor<'a>(t: &Term, u: &Term) -> Option<Found<'a>>
    ensures { option_map term_of result ≡ zero_successor t.now u.now }
{
    let n = number_of(t)?;
    let _ = unary(u, SUCCESSOR)?;
    if n == 0 {
        Some(Found::Truth(false))
    } else {
        None
    }
}

/// An equation between 0 and a successor.
pub(crate) fn eq_zero_suc(t: &Term) -> Option<Found<'_>>
    ensures { option_map term_of result ≡ eq_zero_suc t.now }
{
    let (left, right) = binary(t, EQUALITY)?;
    match zero_successor(left, right) {
        Some(found) => Some(found),
        None => zero_successor(right, left),
    }
}

/// The number before a positive one.
#[tactic(auto, using(crate::proofs::EquationLaws::numbers))]
fn before(n: u64) -> Option<u64>
    ensures { result ≡ before n }
{
    n.checked_sub(1)
}

/// A successor, and a positive number, on the left and on the right.
fn left_successor<'a>(t: &'a Term, u: &Term) -> Option<Found<'a>>
    ensures { option_map term_of result ≡ and_then (unary successor t.now) (λ a. and_then (number_of u.now) (λ n.
        and_then (before n) (λ m. Some (equation a (literal m))))) }
{
    let a = unary(t, SUCCESSOR)?;
    let m = before(number_of(u)?)?;
    Some(Found::Equation(Piece::Part(a), Piece::Number(m)))
}

/// The same with the sides changed.
fn right_successor<'a>(t: &'a Term, u: &Term) -> Option<Found<'a>>
    ensures { option_map term_of result ≡ and_then (unary successor t.now) (λ a. and_then (number_of u.now) (λ n.
        and_then (before n) (λ m. Some (equation (literal m) a)))) }
{
    let a = unary(t, SUCCESSOR)?;
    let m = before(number_of(u)?)?;
    Some(Found::Equation(Piece::Number(m), Piece::Part(a)))
}

/// An equation between a successor and a positive number.
pub(crate) fn eq_suc_lit(t: &Term) -> Option<Found<'_>>
    ensures { option_map term_of result ≡ eq_suc_lit t.now }
{
    let (left, right) = binary(t, EQUALITY)?;
    match left_successor(left, right) {
        Some(found) => Some(found),
        None => right_successor(right, left),
    }
}
