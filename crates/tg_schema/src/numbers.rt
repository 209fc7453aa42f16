//! The rows of operators at literals.
ghost use Rattle.std.specs.Prelude.{◌≡◌, option_map};
ghost use Rattle.tg_model.specs.Denotation.{quotient, remainder};
ghost use Rattle.tg_model.specs.Tree.{literal};
ghost use Rattle.tg_rows.specs.Rows.{literals, suc_lit, small};
ghost use Rattle.tg_schema.specs.Found.{calculated, term_of};
ghost use Rattle.tg_term.specs.Operators.{operator};

use crate::found::{Calculation, Found, Piece};
use crate::operators::SUCCESSOR;
use crate::parts::{binary, number_of, unary};
use tg_term::{OpId, Term};

/// A natural.
#[tactic(auto, using(crate::proofs::NumberLaws::numbers))]
fn natural<'a>(n: u64) -> Option<Found<'a>>
    ensures { option_map term_of result ≡ small n }
{
    Some(Found::Whole(Piece::Number(n)))
}

/// The quotient, and 0 where the divisor is 0.
#[tactic(auto, using(crate::proofs::NumberLaws::division))]
fn quotient(m: u64, n: u64) -> u64
    ensures { result ≡ quotient m n }
{
    if n == 0 { 0 } else { m / n }
}

/// The remainder, and the dividend where the divisor is 0.
#[tactic(auto, using(crate::proofs::NumberLaws::division))]
fn remainder(m: u64, n: u64) -> u64
    ensures { result ≡ remainder m n }
{
    if n == 0 { m } else { m % n }
}

/// What a calculation makes of two naturals.
#[tactic(auto, using(crate::proofs::NumberLaws::numbers))]
fn calculated<'a>(calculation: Calculation, m: u64, n: u64) -> Option<Found<'a>>
    ensures { option_map term_of result ≡ calculated calculation m n }
{
    match calculation {
        Calculation::Different => if m == n {
            None
        } else {
            Some(Found::Truth(false))
        },
        Calculation::Less => Some(Found::Truth(m < n)),
        Calculation::LessEqual => Some(Found::Truth(m <= n)),
        Calculation::Sum => natural(m.checked_add(n)?),
        Calculation::Difference => natural(m.saturating_sub(n)),
        Calculation::Product => natural(m.checked_mul(n)?),
        Calculation::Quotient => natural(quotient(m, n)),
        Calculation::Remainder => natural(remainder(m, n)),
    }
}

/// An operator at two literals.
pub(crate) fn literals(t: &Term, o: OpId, calculation: Calculation) -> Option<Found<'_>>
    ensures { option_map term_of result ≡ literals (operator o) (calculated calculation) t.now }
{
    let (left, right) = binary(t, o)?;
    calculated(calculation, number_of(left)?, number_of(right)?)
}

/// `Suc` at a literal.
#[tactic(auto, using(crate::proofs::NumberLaws::numbers))]
pub(crate) fn suc_lit(t: &Term) -> Option<Found<'_>>
    ensures { option_map term_of result ≡ suc_lit t.now }
{
    let n = number_of(unary(t, SUCCESSOR)?)?;
    natural(n.checked_add(1)?)
}
