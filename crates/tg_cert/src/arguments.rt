//! The rules by their numbers.
ghost use Rattle.std.specs.Prelude.{◌≡◌, IfOk, option_map};
ghost use Rattle.tg_cert.specs.Arguments.{first_of, numbers_apart, rule_of};
ghost use Rattle.tg_cert.specs.Code.{arguments};
ghost use Rattle.tg_kernel.specs.Rules.{as_rule};

use sqlite_items::Items;
use std::alloc::AllocError;
use tg_kernel::{Context, Rule};
use tg_schema::SchemaId;
use tg_term::{Formula, Term};

/// The number of the rule `exhaust`, whose first number is that of a variable.
const EXHAUST: u32 = 24;

/// The number of the rule `deep`, whose first number is a depth.
const DEEP: u32 = 25;

/// What a line has beside its premises.
#[derive(Drop)]
pub(crate) struct Arguments {
    /// A context, or the types of new variables.
    pub(crate) types: Context,
    /// The row of the schema that is named.
    pub(crate) row: Option<SchemaId>,
    /// The formula.
    pub(crate) formula: Option<Formula>,
    /// The terms.
    pub(crate) terms: Items<Term>,
    /// The number of a variable or a depth.
    pub(crate) number: u64,
}

/// The rule of the number with what it has of the arguments; `None` where they lack something, or there is no such rule.
pub(crate) fn rule_of(number: u32, given: Arguments) -> Result<Option<Rule>, AllocError>
    ensures { IfOk result (λ o. option_map as_rule o ≡ rule_of (arguments given) number) }
{
    let term = match given.terms.as_slice().first() {
        Some(t) => Some(t.share()?),
        None => None,
    };
    Ok(with_arguments(number, given, term))
}

#[tactic(auto, using(crate::proofs::ArgumentLaws::ruling))]
fn with_arguments(number: u32, given: Arguments, term: Option<Term>) -> Option<Rule>
    requires { term ≡ first_of given.terms }
    ensures { option_map as_rule result ≡ rule_of (arguments given) number }
{
    match number {
        1 => Some(Rule::Hyp(given.types, given.formula?)),
        2 => Some(Rule::Weak(given.formula?)),
        3 => Some(Rule::Cut),
        4 => Some(Rule::Grow(given.types)),
        5 => Some(Rule::AndI),
        6 => Some(Rule::AndL),
        7 => Some(Rule::AndR),
        8 => Some(Rule::ImpI(given.formula?)),
        9 => Some(Rule::Mp),
        10 => Some(Rule::AllI),
        11 => Some(Rule::AllE(term?)),
        12 => Some(Rule::ExI(given.formula?, term?)),
        13 => Some(Rule::ExE),
        14 => Some(Rule::ThypI),
        15 => Some(Rule::ThypE),
        16 => Some(Rule::Truth(given.types)),
        17 => Some(Rule::Absurd(given.formula?)),
        18 => Some(Rule::Split(term?)),
        19 => Some(Rule::Refl(given.types, term?)),
        20 => Some(Rule::Sym),
        21 => Some(Rule::Trans),
        22 => Some(Rule::Replace(given.formula?)),
        23 => Some(Rule::Schema(given.types, given.row?, term?)),
        EXHAUST => Some(Rule::Exhaust(given.number)),
        DEEP => Some(Rule::Deep(given.types, given.number, given.terms)),
        26 => Some(Rule::Compute(given.types, term?)),
        _ => None,
    }
}

/// Of the numbers of a line, that of a variable or a depth, or 0 where the rule has none, and those of the premises.
pub(crate) fn numbers_apart(rule: u32, numbers: &[u64]) -> (u64, &[u64])
    ensures number { result.0 ≡ (numbers_apart rule numbers.now).0 }
    ensures premises { result.1.now ≡ (numbers_apart rule numbers.now).1 }
{
    match numbers.split_first() {
        Some((first, rest)) if rule == EXHAUST || rule == DEEP => (*first, rest),
        _ => (0, numbers),
    }
}
