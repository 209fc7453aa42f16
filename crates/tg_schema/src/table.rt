//! The table of the rows.
ghost use Rattle.std.specs.Prelude.{◌≡◌, ◌≤◌, ◌<◌, [], option_map};
ghost use Rattle.tg_accept.specs.Declared.{theory};
ghost use Rattle.tg_rows.specs.Rows.{row};
ghost use Rattle.tg_schema.specs.Found.{term_of};

use crate::calls::{case_by, unfold_by, unfold_def};
use crate::equalities::{eq_con, eq_con_diff, eq_suc, eq_suc_lit, eq_zero_suc};
use crate::found::{Calculation, Found, Other, Writing};
use crate::numbers::{literals, suc_lit};
use crate::operators::{
    CONJUNCTION, DISJUNCTION, DIVIDE, EQUALITY, IMPLICATION, LESS, LESS_EQUAL, MINUS, MODULO, PLUS,
    TIMES,
};
use crate::truths::{
    alike, eq_truth, if_same, if_truth, left_truth, let_sub, not_not, not_truth, right_truth,
};
use tg_declarations::Declarations;
use tg_term::Term;

/// What a row makes of a term, by the row's number, from 1.
pub(crate) fn find<'a>(declared: &'a Declarations, number: u32, t: &'a Term) -> Option<Found<'a>>
    ensures { option_map term_of result ≡ row (theory [] declared.now) number t.now }
{
    if number < 19 {
        of_truths(number, t)
    } else if number < 30 {
        of_binders(declared, number, t)
    } else if number < 39 {
        of_equations(number, t)
    } else if number < 49 {
        of_numbers(number, t)
    } else {
        None
    }
}

/// The rows of `~`, `&`, `|` and `-->`.
#[tactic(auto, using(crate::proofs::TableLaws::of_truths))]
fn of_truths(number: u32, t: &Term) -> Option<Found<'_>>
    requires high { number < 19 }
    ensures { (th : _) → option_map term_of result ≡ row th number t.now }
{
    match number {
        1 => not_truth(t, true),
        2 => not_truth(t, false),
        3 => not_not(t),
        4 => left_truth(t, CONJUNCTION, true, Other::Itself),
        5 => left_truth(t, CONJUNCTION, false, Other::Always(false)),
        6 => right_truth(t, CONJUNCTION, true, Other::Itself),
        7 => right_truth(t, CONJUNCTION, false, Other::Always(false)),
        8 => alike(t, CONJUNCTION, Other::Itself),
        9 => left_truth(t, DISJUNCTION, true, Other::Always(true)),
        10 => left_truth(t, DISJUNCTION, false, Other::Itself),
        11 => right_truth(t, DISJUNCTION, true, Other::Always(true)),
        12 => right_truth(t, DISJUNCTION, false, Other::Itself),
        13 => alike(t, DISJUNCTION, Other::Itself),
        14 => left_truth(t, IMPLICATION, true, Other::Itself),
        15 => left_truth(t, IMPLICATION, false, Other::Always(true)),
        16 => right_truth(t, IMPLICATION, true, Other::Always(true)),
        17 => right_truth(t, IMPLICATION, false, Other::Denied),
        18 => alike(t, IMPLICATION, Other::Always(true)),
        _ => None,
    }
}

/// The rows of `if`, `let`, `case` and calls.
#[tactic(auto, using(crate::proofs::TableLaws::of_binders))]
fn of_binders<'a>(declared: &'a Declarations, number: u32, t: &'a Term) -> Option<Found<'a>>
    requires low { 19 ≤ number }
    requires high { number < 30 }
    ensures { option_map term_of result ≡ row (theory [] declared.now) number t.now }
{
    match number {
        19 => if_truth(t, true),
        20 => if_truth(t, false),
        21 => if_same(t),
        22 => let_sub(t),
        23 => case_by(declared, Writing::Constructor, t),
        24 => case_by(declared, Writing::Successor, t),
        25 => case_by(declared, Writing::Literal, t),
        26 => unfold_def(declared, t),
        27 => unfold_by(declared, Writing::Constructor, t),
        28 => unfold_by(declared, Writing::Successor, t),
        29 => unfold_by(declared, Writing::Literal, t),
        _ => None,
    }
}

/// The rows of equations.
#[tactic(auto, using(crate::proofs::TableLaws::of_equations))]
fn of_equations(number: u32, t: &Term) -> Option<Found<'_>>
    requires low { 30 ≤ number }
    requires high { number < 39 }
    ensures { (th : _) → option_map term_of result ≡ row th number t.now }
{
    match number {
        30 => alike(t, EQUALITY, Other::Always(true)),
        31 => eq_con(t),
        32 => eq_con_diff(t),
        33 => literals(t, EQUALITY, Calculation::Different),
        34 => eq_suc(t),
        35 => eq_zero_suc(t),
        36 => eq_suc_lit(t),
        37 => eq_truth(t, true, Other::Itself),
        38 => eq_truth(t, false, Other::Denied),
        _ => None,
    }
}

/// The rows of numbers.
#[tactic(auto, using(crate::proofs::TableLaws::of_numbers))]
fn of_numbers(number: u32, t: &Term) -> Option<Found<'_>>
    requires low { 39 ≤ number }
    requires high { number < 49 }
    ensures { (th : _) → option_map term_of result ≡ row th number t.now }
{
    match number {
        39 => suc_lit(t),
        40 => literals(t, PLUS, Calculation::Sum),
        41 => literals(t, MINUS, Calculation::Difference),
        42 => literals(t, TIMES, Calculation::Product),
        43 => literals(t, DIVIDE, Calculation::Quotient),
        44 => literals(t, MODULO, Calculation::Remainder),
        45 => alike(t, LESS, Other::Always(false)),
        46 => literals(t, LESS, Calculation::Less),
        47 => alike(t, LESS_EQUAL, Other::Always(true)),
        48 => literals(t, LESS_EQUAL, Calculation::LessEqual),
        _ => None,
    }
}
