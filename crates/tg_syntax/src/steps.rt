//! The steps of a certificate: a rule of the calculus and its arguments.
ghost use Rattle.std.specs.Prelude.{◌≡◌, ◌<◌, ◌≤◌, length, OnOk};
ghost use Rattle.tg_grammar.specs.Parts.{Step, Context, Numbers};
ghost use Rattle.tg_grammar.specs.Reading.{reads};
ghost use Rattle.tg_grammar.specs.Steps.{argument};
ghost use Rattle.tg_reading.specs.Answers.{Gives, by_rule};
ghost use Rattle.tg_syntax.specs.Steps.{Adds, arguments_of, type_atoms_by_commas};

use sqlite_items::Items;
use std::alloc::Global;
use tg_grammar::kinds::{
    ALL_E_RULE, ALL_I_RULE, AND_I_RULE, AND_L_RULE, AND_R_RULE, CLOSE_BRACE, COMMA, COMPUTE_RULE,
    CUT_RULE, DEEP_RULE, EXHAUST_RULE, EXISTS_E_RULE, EXISTS_I_RULE, FALSE_RULE, GROW_RULE,
    HYP_RULE, IMP_I_RULE, MP_RULE, OPEN_BRACE, REFL_RULE, REPLACE_RULE, SCHEMA_RULE, SPLIT_RULE,
    SYM_RULE, THYP_E_RULE, THYP_I_RULE, TRANS_RULE, TRUE_RULE, WEAK_RULE,
};
use tg_grammar::{Argument, RawLine, RawTy};
use tg_reading::{Growing, Mode, Reader, Stop, atom, atoms, formula, type_atom};

/// A rule and its arguments.
#[tactic(auto, using(crate::proofs::StepRules::step_by, crate::proofs::StepRules::arguments_by))]
pub(crate) fn step(alloc: Global, reader: &mut Reader) -> Result<RawLine, Stop>
    ensures exact { Gives result reader.new (reads Step reader.old) }
    ensures less { OnOk result (length reader.new < length reader.old) }
{
    let rule = reader.rule()?;
    let wanted = arguments_of(rule);
    let mut line = RawLine {
        number: 0,
        rule: rule.saturating_sub(HYP_RULE - 1),
        nums: Items::new(alloc),
        vars: Items::new(alloc),
        word: None,
        formula: None,
        terms: Items::new(alloc),
    };
    for argument in wanted {
        add_argument(alloc, reader, *argument, &mut line)?;
    }
    Ok(line)
}

/// The arguments of the rule whose name has this kind.
#[tactic(auto, unfolding(crate::specs::Steps::arguments_of))]
fn arguments_of(rule: u32) -> &'static [Argument]
    ensures { result.now ≡ arguments_of rule }
{
    match rule {
        HYP_RULE => &[Argument::Context, Argument::Formula],
        TRUE_RULE => &[Argument::Context],
        SCHEMA_RULE => &[Argument::Context, Argument::Word, Argument::Atom],
        DEEP_RULE => &[
            Argument::Context,
            Argument::Number,
            Argument::Atom,
            Argument::Atoms,
        ],
        AND_L_RULE | AND_R_RULE | ALL_I_RULE | THYP_I_RULE | THYP_E_RULE | SYM_RULE => {
            &[Argument::Number]
        }
        CUT_RULE | AND_I_RULE | MP_RULE | EXISTS_E_RULE | TRANS_RULE => {
            &[Argument::Number, Argument::Number]
        }
        WEAK_RULE | IMP_I_RULE | FALSE_RULE => &[Argument::Number, Argument::Formula],
        GROW_RULE => &[Argument::Number, Argument::Context],
        ALL_E_RULE => &[Argument::Number, Argument::Atom],
        EXISTS_I_RULE => &[Argument::Number, Argument::Formula, Argument::Atom],
        SPLIT_RULE => &[Argument::Number, Argument::Number, Argument::Atom],
        REPLACE_RULE => &[Argument::Number, Argument::Number, Argument::Formula],
        EXHAUST_RULE => &[Argument::Number, Argument::Number, Argument::Numbers],
        _ => &[Argument::Context, Argument::Atom],
    }
}

/// An argument, which is added to those of the line.
#[tactic(auto, using(crate::proofs::StepRules::argument_by))]
fn add_argument(
    alloc: Global,
    reader: &mut Reader,
    wanted: Argument,
    line: &mut RawLine,
) -> Result<(), Stop>
    ensures exact { Adds result line.old line.new reader.new (by_rule (argument wanted) reader.old) }
    ensures less { OnOk result (length reader.new ≤ length reader.old) }
{
    match wanted {
        Argument::Context => {
            let types = context(alloc, reader)?;
            line.vars.append(types)?;
        }
        Argument::Formula => {
            let formula = formula(alloc, reader)?;
            line.formula = Some(formula);
        }
        Argument::Atom => {
            let term = atom(alloc, Mode::Certificate, reader)?;
            line.terms.push(term)?;
        }
        Argument::Atoms => {
            let terms = atoms(alloc, Mode::Certificate, reader)?;
            line.terms.append(terms)?;
        }
        Argument::Number => {
            let number = reader.number()?;
            line.nums.push(number)?;
        }
        Argument::Numbers => {
            let numbers = numbers(alloc, reader)?;
            line.nums.append(numbers)?;
        }
        Argument::Word => {
            let word = reader.word(alloc)?;
            line.word = Some(word);
        }
    }
    Ok(())
}

/// `{`, types with commas between them, and `}`.
#[tactic(auto, using(crate::proofs::CertificateRules::context_is))]
fn context(alloc: Global, reader: &mut Reader) -> Result<Items<RawTy>, Stop>
    ensures exact { Gives result reader.new (reads Context reader.old) }
    ensures less { OnOk result (length reader.new < length reader.old) }
{
    reader.take(OPEN_BRACE)?;
    if !reader.is_type_atom_next() {
        reader.take(CLOSE_BRACE)?;
        return Ok(Items::new(alloc));
    }
    let types = type_atoms_by_commas(alloc, reader)?;
    reader.take(CLOSE_BRACE)?;
    Ok(types)
}

/// Types in brackets and simple ones, with commas between them.
#[tactic(auto, using(crate::proofs::CertificateRules::type_atoms_by))]
fn type_atoms_by_commas(alloc: Global, reader: &mut Reader) -> Result<Items<RawTy>, Stop>
    ensures exact { Gives result reader.new (type_atoms_by_commas reader.old) }
    ensures less { OnOk result (length reader.new < length reader.old) }
{
    let mut types = Growing::new(alloc);
    loop {
        types.push(type_atom(alloc, reader)?)?;
        if !reader.skips(COMMA) {
            return Ok(types.done());
        }
    }
}

/// Numbers, one after another.
#[tactic(auto, using(crate::proofs::CertificateRules::numbers_by))]
fn numbers(alloc: Global, reader: &mut Reader) -> Result<Items<u64>, Stop>
    ensures exact { Gives result reader.new (reads Numbers reader.old) }
    ensures less { OnOk result (length reader.new ≤ length reader.old) }
{
    let mut numbers = Growing::new(alloc);
    while let Some(number) = reader.next_number() {
        numbers.push(number)?;
    }
    Ok(numbers.done())
}
