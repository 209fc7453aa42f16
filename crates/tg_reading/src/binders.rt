//! Variables, numbered or where they are bound.
ghost use Rattle.std.specs.Prelude.{◌≡◌, ◌<◌, ◌≤◌, length, OnOk};
ghost use Rattle.tg_grammar.specs.Page.{numbered_variable};
ghost use Rattle.tg_grammar.specs.Parts.{Variable, Variables, BranchHead};
ghost use Rattle.tg_grammar.specs.Reading.{reads};
ghost use Rattle.tg_reading.specs.Answers.{Gives, by_rule};
ghost use Rattle.tg_reading.specs.Modes.{mode_view};

use crate::lists::{Growing, one};
use crate::modes::{Mode, is_variable_next};
use crate::reader::{Reader, Stop};
use sqlite_items::Items;
use std::alloc::Global;
use tg_grammar::kinds::{BANG, QUESTION, SUC_WORD, ZERO_NUMBER};
use tg_grammar::{Binder, RawCon, RawTerm};

/// A variable that is bound: a word in a theory, `!` and a number in a certificate.
#[tactic(auto, using(crate::proofs::TermRules::variable_is))]
pub(crate) fn variable(alloc: Global, mode: Mode, reader: &mut Reader) -> Result<Binder, Stop>
    ensures exact { Gives result reader.new (reads (Variable (mode_view mode)) reader.old) }
    ensures less { OnOk result (length reader.new < length reader.old) }
{
    match mode {
        Mode::Theory => Ok(Binder::Named(reader.word(alloc)?)),
        Mode::Certificate => {
            reader.take(BANG)?;
            Ok(Binder::Level(reader.number()?))
        }
    }
}

/// Variables, one after another.
#[tactic(auto, using(crate::proofs::TermRepetitions::variables_by))]
fn variables(alloc: Global, mode: Mode, reader: &mut Reader) -> Result<Items<Binder>, Stop>
    ensures exact { Gives result reader.new (reads (Variables (mode_view mode)) reader.old) }
    ensures less { OnOk result (length reader.new ≤ length reader.old) }
{
    let mut variables = Growing::new(alloc);
    while is_variable_next(mode, reader) {
        variables.push(variable(alloc, mode, reader)?)?;
    }
    Ok(variables.done())
}

/// `0`, `Suc` and a variable, or a word and variables.
#[tactic(auto, using(crate::proofs::TermRules::branch_head_is))]
pub(crate) fn branch_head(
    alloc: Global,
    mode: Mode,
    reader: &mut Reader,
) -> Result<(RawCon, Items<Binder>), Stop>
    ensures exact { Gives result reader.new (reads (BranchHead (mode_view mode)) reader.old) }
    ensures less { OnOk result (length reader.new < length reader.old) }
{
    if reader.skips(ZERO_NUMBER) {
        return Ok((RawCon::Zero, Items::new(alloc)));
    }
    if reader.skips(SUC_WORD) {
        let argument = variable(alloc, mode, reader)?;
        return Ok((RawCon::Suc, one(alloc, argument)?));
    }
    let name = reader.word(alloc)?;
    Ok((RawCon::Named(name), variables(alloc, mode, reader)?))
}

/// `?` or `!`, and a number.
pub(crate) fn numbered_variable(reader: &mut Reader) -> Result<RawTerm, Stop>
    ensures exact { Gives result reader.new (by_rule numbered_variable reader.old) }
    ensures less { OnOk result (length reader.new < length reader.old) }
{
    if reader.skips(QUESTION) {
        return Ok(RawTerm::Free(reader.number()?));
    }
    reader.take(BANG)?;
    Ok(RawTerm::Bound(reader.number()?))
}
