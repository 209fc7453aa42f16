//! The signs of operators.
ghost use Rattle.std.specs.Prelude.{◌≡◌};
ghost use Rattle.tg_report.specs.TermTexts.{is_infix};
ghost use Rattle.tg_report.specs.Words.{sign};
ghost use Rattle.tg_term.specs.Operators.{operator};

use tg_term::OpId;

/// The sign of an operator, empty where its number names none.
#[tactic(auto, using(crate::proofs::OperatorLaws::signs))]
pub(crate) fn sign(o: OpId) -> &'static [u8]
    ensures { result.now ≡ (sign (operator o)).text }
{
    match o {
        1 => b"Suc",
        2 => b"~",
        3 => b"&",
        4 => b"|",
        5 => b"-->",
        6 => b"=",
        7 => b"<",
        8 => b"<=",
        9 => b"+",
        10 => b"-",
        11 => b"*",
        12 => b"div",
        13 => b"mod",
        _ => &[],
    }
}

/// Whether an operator stands between its operands.
#[tactic(auto, using(crate::proofs::OperatorLaws::signs))]
pub(crate) fn is_infix(o: OpId) -> bool
    ensures { result ≡ is_infix (operator o) }
{
    matches!(o, 3 | 4 | 5 | 6 | 7 | 8 | 9 | 10 | 11 | 12 | 13)
}
