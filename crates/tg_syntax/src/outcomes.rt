//! Outcomes: the settings of a test, and what the program did.
ghost use Rattle.std.specs.Prelude.{◌≡◌, ◌<◌, ◌≤◌, length, OnOk};
ghost use Rattle.tg_grammar.specs.Parts as parts;
ghost use Rattle.tg_grammar.specs.Reading.{reads};
ghost use Rattle.tg_reading.specs.Answers.{Gives};
ghost use Rattle.tg_syntax.specs.Outcomes.{setting};

use sqlite_items::Items;
use std::alloc::Global;
use tg_grammar::kinds::{
    ANSWER_WORD, BEGIN_WORD, BOUND_WORD, CLOSE_PAREN, DEPTH_WORD, END_WORD, FALSE_WORD, OPEN_PAREN,
    OUTCOMES_WORD, RAISED_WORD, SEED_WORD, SEMICOLON, TRIES_WORD, TRUE_WORD, WIDTH_WORD,
};
use tg_grammar::{RawItem, RawOutcomes, RawTerm};
use tg_reading::{Growing, Mode, Reader, Stop, is_atom_next, is_plain_atom_next};

/// `outcomes`, the settings, `begin`, the outcomes and `end`.
#[tactic(auto, using(crate::proofs::OutcomeRules::outcomes_is))]
pub(crate) fn outcomes(alloc: Global, reader: &mut Reader) -> Result<RawOutcomes, Stop>
    ensures exact { Gives result reader.new (reads parts.Outcomes reader.old) }
    ensures less { OnOk result (length reader.new < length reader.old) }
{
    reader.take(OUTCOMES_WORD)?;
    let depth = setting(reader, DEPTH_WORD)?;
    let bound = setting(reader, BOUND_WORD)?;
    let seed = setting(reader, SEED_WORD)?;
    let tries = setting(reader, TRIES_WORD)?;
    let width = setting(reader, WIDTH_WORD)?;
    reader.take(BEGIN_WORD)?;
    let items = items(alloc, reader)?;
    reader.take(END_WORD)?;
    Ok(RawOutcomes {
        settings: [depth, bound, seed, tries, width],
        items,
    })
}

/// A word and its number.
#[tactic(auto, unfolding(crate::specs::Outcomes::setting))]
fn setting(reader: &mut Reader, word: u32) -> Result<u64, Stop>
    ensures exact { Gives result reader.new (setting word reader.old) }
    ensures less { OnOk result (length reader.new < length reader.old) }
{
    reader.take(word)?;
    reader.number()
}

/// Outcomes, one after another.
#[tactic(auto, using(crate::proofs::OutcomeRules::items))]
fn items(alloc: Global, reader: &mut Reader) -> Result<Items<RawItem>, Stop>
    ensures exact { Gives result reader.new (reads parts.Items reader.old) }
    ensures less { OnOk result (length reader.new ≤ length reader.old) }
{
    let mut items = Growing::new(alloc);
    while reader.is_next(&[ANSWER_WORD, RAISED_WORD]) {
        items.push(item(alloc, reader)?)?;
    }
    Ok(items.done())
}

/// `answer`, the number of a test, the answer and `;`, or `raised`, the number and `;`.
#[tactic(auto, using(crate::proofs::OutcomeRules::item_is))]
fn item(alloc: Global, reader: &mut Reader) -> Result<RawItem, Stop>
    ensures exact { Gives result reader.new (reads parts.Item reader.old) }
    ensures less { OnOk result (length reader.new < length reader.old) }
{
    if reader.skips(ANSWER_WORD) {
        let test = reader.number()?;
        let answer = answer(alloc, reader)?;
        reader.take(SEMICOLON)?;
        return Ok(RawItem {
            test,
            answer: Some(answer),
        });
    }
    reader.take(RAISED_WORD)?;
    let test = reader.number()?;
    reader.take(SEMICOLON)?;
    Ok(RawItem { test, answer: None })
}

/// A plain answer, or a word and what it is applied to.
#[cycle(answers)]
#[tactic(auto, using(crate::proofs::OutcomeRules::answer_is))]
fn answer(alloc: Global, reader: &mut Reader) -> Result<RawTerm, Stop>
    ensures exact { Gives result reader.new (reads parts.Answer reader.old) }
    ensures less { OnOk result (length reader.new < length reader.old) }
{
    if is_plain_atom_next(Mode::Theory, reader) {
        return plain_answer(alloc, reader);
    }
    let name = reader.word(alloc)?;
    let args = answer_atoms(alloc, reader)?;
    Ok(RawTerm::Use(name, args))
}

/// A plain answer or a word.
#[cycle(answers)]
#[tactic(auto, using(crate::proofs::OutcomeRules::answer_atom_is))]
fn answer_atom(alloc: Global, reader: &mut Reader) -> Result<RawTerm, Stop>
    ensures exact { Gives result reader.new (reads parts.AnswerAtom reader.old) }
    ensures less { OnOk result (length reader.new < length reader.old) }
{
    if is_plain_atom_next(Mode::Theory, reader) {
        return plain_answer(alloc, reader);
    }
    Ok(RawTerm::Use(reader.word(alloc)?, Items::new(alloc)))
}

/// Plain answers and words, one after another.
#[cycle(answers)]
#[tactic(auto, using(crate::proofs::OutcomeRules::answer_atoms_by))]
fn answer_atoms(alloc: Global, reader: &mut Reader) -> Result<Items<RawTerm>, Stop>
    ensures exact { Gives result reader.new (reads parts.AnswerAtoms reader.old) }
    ensures less { OnOk result (length reader.new ≤ length reader.old) }
{
    let mut atoms = Growing::new(alloc);
    while is_atom_next(Mode::Theory, reader) {
        atoms.push(answer_atom(alloc, reader)?)?;
    }
    Ok(atoms.done())
}

/// A number, `True`, `False` or an answer in brackets.
#[cycle(answers)]
#[tactic(auto, using(crate::proofs::OutcomeRules::plain_answer_is))]
fn plain_answer(alloc: Global, reader: &mut Reader) -> Result<RawTerm, Stop>
    ensures exact { Gives result reader.new (reads parts.PlainAnswer reader.old) }
    ensures less { OnOk result (length reader.new < length reader.old) }
{
    if let Some(number) = reader.next_number() {
        return Ok(RawTerm::Num(number));
    }
    if reader.skips(TRUE_WORD) {
        return Ok(RawTerm::Truth(true));
    }
    if reader.skips(FALSE_WORD) {
        return Ok(RawTerm::Truth(false));
    }
    reader.take(OPEN_PAREN)?;
    let answer = answer(alloc, reader)?;
    reader.take(CLOSE_PAREN)?;
    Ok(answer)
}
