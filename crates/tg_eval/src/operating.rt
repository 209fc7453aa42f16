//! What the operators give on values.
ghost use Rattle.std.specs.Prelude.{◌≡◌, ◌+◌, ◌-◌, ◌*◌, [], ◌∷◌, true, false};
ghost use Rattle.tg_eval.specs.Limited.{decided};
ghost use Rattle.tg_model.specs.Denotation.{operated, quotient, remainder};
ghost use Rattle.tg_model.specs.Value.{number, boolean, same_value, same_values, values};
ghost use Rattle.tg_term.specs.Operators.{operator};
ghost use Rattle.tg_eval.specs.Operating.{bounded, connects};

use crate::held::{Held, Seen};
use tg_term::OpId;

/// The value of a use that no typing allows.
pub(crate) fn wrong() -> Held
    ensures { result ≡ boolean false }
{
    Held::truth(false)
}

/// The value of an operator at one operand, or `None` where it is a number that reaches 2^64.
#[tactic(auto, using(crate::proofs::OperatorLaws::operators))]
pub(crate) fn unary(o: OpId, v: &Held) -> Option<Held>
    ensures { result ≡ bounded (operated (operator o) (v.now ∷ [])) }
{
    match (o, v.seen()) {
        (1, Seen::Nat(n)) => Some(Held::nat(n.checked_add(1)?)),
        (2, Seen::Truth(b)) => Some(Held::truth(!b)),
        _ => Some(wrong()),
    }
}

/// The value of an operator at two operands, or `None` where it is a number that reaches 2^64.
#[tactic(auto, using(crate::proofs::OperatorLaws::operators))]
pub(crate) fn binary(o: OpId, v: &Held, w: &Held) -> Option<Held>
    ensures { result ≡ bounded (operated (operator o) (v.now ∷ w.now ∷ [])) }
{
    if o == 6 {
        return Some(Held::truth(same(v, w)));
    }
    match (v.seen(), w.seen()) {
        (Seen::Nat(m), Seen::Nat(n)) => of_numbers(o, m, n),
        (Seen::Truth(a), Seen::Truth(b)) => Some(of_truths(o, a, b)),
        _ => Some(wrong()),
    }
}

/// Whether an operator is `&`, `|` or `-->`.
#[tactic(auto, using(crate::proofs::OperatorLaws::connectives))]
pub(crate) fn is_connective(o: OpId) -> bool
    ensures { result ≡ connects (operator o) }
{
    matches!(o, 3 | 4 | 5)
}

/// What the left side of a connective decides alone.
#[tactic(auto, using(crate::proofs::OperatorLaws::connectives))]
pub(crate) fn decided(o: OpId, v: &Held) -> Option<bool>
    ensures { result ≡ decided (operator o) v.now }
{
    match (o, v.seen()) {
        (3, Seen::Truth(false)) => Some(false),
        (4, Seen::Truth(true)) => Some(true),
        (5, Seen::Truth(false)) => Some(true),
        _ => None,
    }
}

/// The value of a connective.
#[tactic(auto, using(crate::proofs::OperatorLaws::connectives))]
pub(crate) fn joined(o: OpId, v: &Held, w: &Held) -> Held
    requires { connects (operator o) ≡ true }
    ensures { result ≡ operated (operator o) (v.now ∷ w.now ∷ []) }
{
    match (v.seen(), w.seen()) {
        (Seen::Truth(a), Seen::Truth(b)) => of_truths(o, a, b),
        _ => wrong(),
    }
}

#[tactic(auto, using(crate::proofs::OperatorLaws::operators))]
fn of_numbers(o: OpId, m: u64, n: u64) -> Option<Held>
    requires { ¬ (o ≡ 6) }
    ensures { result ≡ bounded (operated (operator o) (number m ∷ number n ∷ [])) }
{
    match o {
        7 => Some(Held::truth(m < n)),
        8 => Some(Held::truth(m <= n)),
        9 => Some(Held::nat(m.checked_add(n)?)),
        10 => Some(Held::nat(m.saturating_sub(n))),
        11 => Some(Held::nat(m.checked_mul(n)?)),
        12 => Some(Held::nat(quotient(m, n))),
        13 => Some(Held::nat(remainder(m, n))),
        _ => Some(wrong()),
    }
}

#[tactic(auto, using(crate::proofs::OperatorLaws::operators))]
fn of_truths(o: OpId, a: bool, b: bool) -> Held
    requires { ¬ (o ≡ 6) }
    ensures { result ≡ operated (operator o) (boolean a ∷ boolean b ∷ []) }
{
    match o {
        3 => Held::truth(a && b),
        4 => Held::truth(a || b),
        5 => Held::truth(!a || b),
        _ => wrong(),
    }
}

/// The quotient, and 0 where the divisor is 0.
#[tactic(auto, using(crate::proofs::OperatorLaws::division))]
fn quotient(m: u64, n: u64) -> u64
    ensures { result ≡ quotient m n }
{
    if n == 0 { 0 } else { m / n }
}

/// The remainder, and the dividend where the divisor is 0.
#[tactic(auto, using(crate::proofs::OperatorLaws::division))]
fn remainder(m: u64, n: u64) -> u64
    ensures { result ≡ remainder m n }
{
    if n == 0 { m } else { m % n }
}

/// Whether two values are equal.
#[cycle(same)]
#[tactic(auto, using(crate::proofs::OperatorLaws::comparing))]
pub fn same(a: &Held, b: &Held) -> bool
    ensures { result ≡ same_value a.now b.now }
{
    match (a.seen(), b.seen()) {
        (Seen::Nat(m), Seen::Nat(n)) => m == n,
        (Seen::Truth(p), Seen::Truth(q)) => p == q,
        (Seen::Con(c, vs), Seen::Con(d, ws)) => c == d && same_all(vs, ws),
        _ => false,
    }
}

#[cycle(same)]
#[tactic(auto, using(crate::proofs::OperatorLaws::comparing))]
fn same_all(vs: &[Held], ws: &[Held]) -> bool
    ensures { result ≡ same_values (values vs.now) (values ws.now) }
{
    if vs.len() != ws.len() {
        return false;
    }
    for (i, v) in vs.iter().enumerate() {
        if !same(v, &ws[i]) {
            return false;
        }
    }
    true
}
