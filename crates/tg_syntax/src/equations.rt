//! Equations of functions.
ghost use Rattle.std.specs.Prelude.{◌≡◌, ◌<◌, length, OnOk};
ghost use Rattle.tg_grammar.specs.Page.{equations};
ghost use Rattle.tg_grammar.specs.Parts.{Equation};
ghost use Rattle.tg_grammar.specs.Reading.{reads};
ghost use Rattle.tg_reading.specs.Answers.{Gives, by_rule};

use sqlite_items::Items;
use std::alloc::Global;
use tg_grammar::RawEq;
use tg_grammar::kinds::{EQUAL, SEMICOLON};
use tg_reading::{Growing, Mode, Reader, Stop, patterns, term};

/// A name, patterns, `=`, a term and `;`.
#[tactic(auto, using(crate::proofs::DeclarationRules::equation_is))]
fn equation(alloc: Global, reader: &mut Reader) -> Result<RawEq, Stop>
    ensures exact { Gives result reader.new (reads Equation reader.old) }
    ensures less { OnOk result (length reader.new < length reader.old) }
{
    let head = reader.word(alloc)?;
    let pats = patterns(alloc, reader)?;
    reader.take(EQUAL)?;
    let body = term(alloc, Mode::Theory, reader)?;
    reader.take(SEMICOLON)?;
    Ok(RawEq { head, pats, body })
}

/// One equation or more.
#[tactic(auto, using(crate::proofs::DeclarationRules::equations_by))]
pub(crate) fn equations(alloc: Global, reader: &mut Reader) -> Result<Items<RawEq>, Stop>
    ensures exact { Gives result reader.new (by_rule equations reader.old) }
    ensures less { OnOk result (length reader.new < length reader.old) }
{
    let mut equations = Growing::new(alloc);
    loop {
        equations.push(equation(alloc, reader)?)?;
        if !reader.is_word_next() {
            return Ok(equations.done());
        }
    }
}
