//! The rules as they are written in a line.
ghost use Rattle.std.specs.Prelude.{◌≡◌};
ghost use Rattle.tg_kernel.specs.Books.{rule_number};
ghost use Rattle.tg_kernel.specs.Rules.{as_rule};

use crate::contexts::Context;
use sqlite_items::Items;
use tg_schema::SchemaId;
use tg_term::{Formula, Term};

/// A rule with the arguments that aren't premises, in the order of the calculus.
#[derive(Debug, Drop)]
pub enum Rule {
    /// A formula of the context proves itself.
    Hyp(Context, Formula),
    /// A further hypothesis.
    Weak(Formula),
    /// The goal of the first premise, which the second needn't assume.
    Cut,
    /// Further variables of these types.
    Grow(Context),
    /// The conjunction of two goals.
    AndI,
    /// The left side of a conjunction.
    AndL,
    /// The right side of a conjunction.
    AndR,
    /// The implication from the formula to the goal.
    ImpI(Formula),
    /// The right side of an implication whose left side is proved.
    Mp,
    /// For all values of the last variable.
    AllI,
    /// What holds of all, at the term.
    AllE(Term),
    /// The formula, which holds of the term, holds of something.
    ExI(Formula, Term),
    /// What is said to be, named by a new variable.
    ExE,
    /// The goal, marked.
    ThypI,
    /// The goal without its mark.
    ThypE,
    /// True is true.
    Truth(Context),
    /// The formula, from False.
    Absurd(Formula),
    /// The goal, which follows from the term and from its negation.
    Split(Term),
    /// The term equals itself.
    Refl(Context, Term),
    /// The equation with its sides exchanged.
    Sym,
    /// The outer sides of two equations.
    Trans,
    /// The formula, which is the goal with equals put for equals.
    Replace(Formula),
    /// What the row of a number makes of the term.
    Schema(Context, SchemaId, Term),
    /// The cases of the variable of a number.
    Exhaust(u64),
    /// The inputs are deeper than the number.
    Deep(Context, u64, Items<Term>),
    /// The term computes to True.
    Compute(Context, Term),
}

impl Rule {
    /// The rule's number in the order of the calculus, from 1.
    pub fn number(&self) -> u32
        ensures { result ≡ rule_number (as_rule self.now) }
    {
        match self {
            Rule::Hyp(_, _) => 1,
            Rule::Weak(_) => 2,
            Rule::Cut => 3,
            Rule::Grow(_) => 4,
            Rule::AndI => 5,
            Rule::AndL => 6,
            Rule::AndR => 7,
            Rule::ImpI(_) => 8,
            Rule::Mp => 9,
            Rule::AllI => 10,
            Rule::AllE(_) => 11,
            Rule::ExI(_, _) => 12,
            Rule::ExE => 13,
            Rule::ThypI => 14,
            Rule::ThypE => 15,
            Rule::Truth(_) => 16,
            Rule::Absurd(_) => 17,
            Rule::Split(_) => 18,
            Rule::Refl(_, _) => 19,
            Rule::Sym => 20,
            Rule::Trans => 21,
            Rule::Replace(_) => 22,
            Rule::Schema(_, _, _) => 23,
            Rule::Exhaust(_) => 24,
            Rule::Deep(_, _, _) => 25,
            Rule::Compute(_, _) => 26,
        }
    }
}

/// What a line of a book says.
#[derive(Debug, Drop)]
pub struct RuleLine {
    /// The rule.
    pub rule: Rule,
    /// The numbers, from 1, of the earlier lines that are its premises.
    pub premises: Items<u64>,
}
