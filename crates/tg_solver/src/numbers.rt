//! The small numbers that are tried for a variable.
ghost use Rattle.std.specs.Prelude.{◌≡◌, ◌<◌, ◌≤◌, ◌^◌, nat_le};
ghost use Rattle.tg_solver.specs.Numbers.{is_truth, as_value, last_number, most_number};
ghost use Rattle.tg_types.specs.Types.{ty};

use tg_eval::Held;
use tg_types::Ty;

/// So many assignments of small numbers may the variables of a class have.
const MOST_ASSIGNMENTS: u64 = 20_000;

/// Whether the type is that of the truth values.
#[tactic(auto, using(crate::proofs::NumberLaws::kinds))]
pub(crate) fn is_truth(t: &Ty) -> bool
    ensures { result ≡ is_truth (ty t.now) }
{
    match t {
        Ty::Bool => true,
        Ty::Nat => false,
        Ty::Param(_) => false,
        Ty::Meta(_) => false,
        Ty::App(_, _) => false,
    }
}

/// The value that a number stands for: for a truth variable, 1 for True.
pub(crate) fn as_value(truth: bool, n: u64) -> Held
    ensures { result ≡ as_value truth n }
{
    if truth {
        Held::truth(n == 1)
    } else {
        Held::nat(n)
    }
}

/// The greatest number of a variable, where numbers go up to `greatest`.
pub(crate) fn last_number(greatest: u32, truth: bool) -> u32
    ensures { result ≡ last_number greatest truth }
{
    if truth { greatest.min(1) } else { greatest }
}

/// The greatest number up to the bound with which so many variables have at most 20,000 assignments.
#[tactic(auto, using(crate::proofs::NumberLaws::bounds))]
pub(crate) fn most_number(count: usize, bound: u32) -> u32
    ensures { result ≡ most_number count bound }
{
    let mut most: u32 = 0;
    while most < bound && fits(u64::from(most) + 2, count) {
        most += 1;
    }
    most
}

/// Whether so many variables have at most 20,000 assignments, where each has `choices` values.
#[tactic(auto, using(crate::proofs::NumberLaws::powers))]
fn fits(choices: u64, count: usize) -> bool
    requires some { 0 < choices }
    requires few { choices ≤ 4294967297 }
    ensures { result ≡ nat_le (choices ^ count) 20000 }
{
    let mut product: u64 = 1;
    for _ in 0..count {
        product *= choices;
        if product > MOST_ASSIGNMENTS {
            return false;
        }
    }
    true
}
