//! Formulas.
ghost use Rattle.std.specs.Prelude.{◌≡◌, ◌<◌, length, OnOk};
ghost use Rattle.tg_grammar.specs.Making.{connected};
ghost use Rattle.tg_grammar.specs.Page.{term_formula, for_all, there_is, test_hypothesis, tested, deep};
ghost use Rattle.tg_grammar.specs.Parts.{Formula, MarkedFormula, InnerFormula};
ghost use Rattle.tg_grammar.specs.Reading.{reads};
ghost use Rattle.tg_reading.specs.Answers.{Gives, by_rule};
ghost use Rattle.tg_reading.specs.Pieces.{quantified};

use crate::modes::Mode;
use crate::operators::connective;
use crate::reader::{Reader, Stop};
use crate::terms::{arguments, term};
use crate::types::type_atom;
use sqlite_items::Boxed;
use std::alloc::Global;
use tg_grammar::kinds::{
    ALL_WORD, CLOSE_BRACKET, CLOSE_PAREN, DEEP_RULE, DOT, EXISTS_WORD, OPEN_BRACKET, OPEN_PAREN,
    TESTED_WORD, THYP_WORD,
};
use tg_grammar::operators::IMPLIES;
use tg_grammar::{RawFormula, RawTy};

/// `[`, a term and `]`, or a formula in round brackets.
#[cycle(formulas)]
#[tactic(auto, using(crate::proofs::FormulaRules::formula_is))]
pub fn formula(alloc: Global, reader: &mut Reader) -> Result<Boxed<RawFormula>, Stop>
    ensures exact { Gives result reader.new (reads Formula reader.old) }
    ensures less { OnOk result (length reader.new < length reader.old) }
{
    if reader.is_next(&[OPEN_BRACKET]) {
        return term_formula(alloc, reader);
    }
    reader.take(OPEN_PAREN)?;
    let inner = inner_formula(alloc, reader)?;
    reader.take(CLOSE_PAREN)?;
    Ok(inner)
}

/// `[`, a term and `]`.
fn term_formula(alloc: Global, reader: &mut Reader) -> Result<Boxed<RawFormula>, Stop>
    ensures exact { Gives result reader.new (by_rule term_formula reader.old) }
    ensures less { OnOk result (length reader.new < length reader.old) }
{
    reader.take(OPEN_BRACKET)?;
    let term = term(alloc, Mode::Certificate, reader)?;
    reader.take(CLOSE_BRACKET)?;
    Ok(Boxed::new(alloc, RawFormula::Atom(term))?)
}

/// What stands in round brackets: a formula with a mark, or two formulas with `&` or `-->` between them.
#[cycle(formulas)]
#[tactic(auto, using(crate::proofs::FormulaRules::inner_formula_is))]
fn inner_formula(alloc: Global, reader: &mut Reader) -> Result<Boxed<RawFormula>, Stop>
    ensures exact { Gives result reader.new (reads InnerFormula reader.old) }
    ensures less { OnOk result (length reader.new < length reader.old) }
{
    if reader.is_next(&[ALL_WORD, EXISTS_WORD, THYP_WORD, TESTED_WORD, DEEP_RULE]) {
        return marked_formula(alloc, reader);
    }
    let left = formula(alloc, reader)?;
    let operator = connective(reader)?;
    let right = formula(alloc, reader)?;
    Ok(Boxed::new(alloc, connected(left, operator, right))?)
}

/// `ALL`, `EX`, `THYP`, `tested` or `deep`, and what belongs to it.
#[cycle(formulas)]
#[tactic(auto, using(crate::proofs::FormulaRules::marked_formula_is))]
fn marked_formula(alloc: Global, reader: &mut Reader) -> Result<Boxed<RawFormula>, Stop>
    ensures exact { Gives result reader.new (reads MarkedFormula reader.old) }
    ensures less { OnOk result (length reader.new < length reader.old) }
{
    if reader.is_next(&[ALL_WORD]) {
        return for_all(alloc, reader);
    }
    if reader.is_next(&[EXISTS_WORD]) {
        return there_is(alloc, reader);
    }
    if reader.is_next(&[THYP_WORD]) {
        return test_hypothesis(alloc, reader);
    }
    if reader.is_next(&[TESTED_WORD]) {
        return tested(alloc, reader);
    }
    deep(alloc, reader)
}

/// `ALL`, a type, `.` and a formula.
#[cycle(formulas)]
fn for_all(alloc: Global, reader: &mut Reader) -> Result<Boxed<RawFormula>, Stop>
    ensures exact { Gives result reader.new (by_rule for_all reader.old) }
    ensures less { OnOk result (length reader.new < length reader.old) }
{
    reader.take(ALL_WORD)?;
    let (ty, body) = quantified(alloc, reader)?;
    Ok(Boxed::new(alloc, RawFormula::All(ty, body))?)
}

/// `EX`, a type, `.` and a formula.
#[cycle(formulas)]
fn there_is(alloc: Global, reader: &mut Reader) -> Result<Boxed<RawFormula>, Stop>
    ensures exact { Gives result reader.new (by_rule there_is reader.old) }
    ensures less { OnOk result (length reader.new < length reader.old) }
{
    reader.take(EXISTS_WORD)?;
    let (ty, body) = quantified(alloc, reader)?;
    Ok(Boxed::new(alloc, RawFormula::Ex(ty, body))?)
}

/// A type, `.` and a formula.
#[cycle(formulas)]
fn quantified(alloc: Global, reader: &mut Reader) -> Result<(RawTy, Boxed<RawFormula>), Stop>
    ensures exact { Gives result reader.new (quantified reader.old) }
    ensures less { OnOk result (length reader.new < length reader.old) }
{
    let ty = type_atom(alloc, reader)?;
    reader.take(DOT)?;
    let body = formula(alloc, reader)?;
    Ok((ty, body))
}

/// `THYP` and a formula.
#[cycle(formulas)]
fn test_hypothesis(alloc: Global, reader: &mut Reader) -> Result<Boxed<RawFormula>, Stop>
    ensures exact { Gives result reader.new (by_rule test_hypothesis reader.old) }
    ensures less { OnOk result (length reader.new < length reader.old) }
{
    reader.take(THYP_WORD)?;
    let body = formula(alloc, reader)?;
    Ok(Boxed::new(alloc, RawFormula::Thyp(body))?)
}

/// `tested` and one atom or more.
fn tested(alloc: Global, reader: &mut Reader) -> Result<Boxed<RawFormula>, Stop>
    ensures exact { Gives result reader.new (by_rule tested reader.old) }
    ensures less { OnOk result (length reader.new < length reader.old) }
{
    reader.take(TESTED_WORD)?;
    let terms = arguments(alloc, Mode::Certificate, reader)?;
    Ok(Boxed::new(alloc, RawFormula::Tested(terms))?)
}

/// `deep`, a number and one atom or more.
fn deep(alloc: Global, reader: &mut Reader) -> Result<Boxed<RawFormula>, Stop>
    ensures exact { Gives result reader.new (by_rule deep reader.old) }
    ensures less { OnOk result (length reader.new < length reader.old) }
{
    reader.take(DEEP_RULE)?;
    let depth = reader.number()?;
    let terms = arguments(alloc, Mode::Certificate, reader)?;
    Ok(Boxed::new(alloc, RawFormula::Deep(depth, terms))?)
}

/// Two formulas with `&` or `-->` between them.
fn connected(left: Boxed<RawFormula>, operator: u32, right: Boxed<RawFormula>) -> RawFormula
    ensures { result ≡ connected left operator right }
{
    if operator == IMPLIES {
        RawFormula::Imp(left, right)
    } else {
        RawFormula::And(left, right)
    }
}
