//! Patterns of the arguments of functions.
ghost use Rattle.std.specs.Prelude.{◌≡◌, ◌<◌, ◌≤◌, length, OnOk};
ghost use Rattle.tg_rules.specs.Reader.{starts};
ghost use Rattle.tg_grammar.specs.First.{pattern_kinds};
ghost use Rattle.tg_grammar.specs.Page.{bracketed_pattern, pattern_head, names};
ghost use Rattle.tg_grammar.specs.Parts.{Pattern, Patterns, Words};
ghost use Rattle.tg_grammar.specs.Reading.{kind, reads};
ghost use Rattle.tg_reading.specs.Answers.{Gives, by_rule};

use crate::lists::Growing;
use crate::reader::{Reader, Stop};
use sqlite_items::Items;
use std::alloc::Global;
use tg_grammar::kinds::{CLOSE_PAREN, OPEN_PAREN, SUC_WORD, ZERO_NUMBER};
use tg_grammar::{RawCon, RawPat};
use tg_types::Name;

/// `0`, a constructor and names in brackets, or a name.
#[tactic(auto, using(crate::proofs::PatternRules::pattern_is))]
fn pattern(alloc: Global, reader: &mut Reader) -> Result<RawPat, Stop>
    ensures exact { Gives result reader.new (reads Pattern reader.old) }
    ensures less { OnOk result (length reader.new < length reader.old) }
{
    if reader.skips(ZERO_NUMBER) {
        return Ok(RawPat::Zero);
    }
    if reader.is_next(&[OPEN_PAREN]) {
        return bracketed_pattern(alloc, reader);
    }
    Ok(RawPat::Word(reader.word(alloc)?))
}

/// `(`, a constructor, names and `)`.
fn bracketed_pattern(alloc: Global, reader: &mut Reader) -> Result<RawPat, Stop>
    ensures exact { Gives result reader.new (by_rule bracketed_pattern reader.old) }
    ensures less { OnOk result (length reader.new < length reader.old) }
{
    reader.take(OPEN_PAREN)?;
    let constructor = pattern_head(alloc, reader)?;
    let names = words(alloc, reader)?;
    reader.take(CLOSE_PAREN)?;
    Ok(RawPat::Con(constructor, names))
}

/// `Suc` or a name.
fn pattern_head(alloc: Global, reader: &mut Reader) -> Result<RawCon, Stop>
    ensures exact { Gives result reader.new (by_rule pattern_head reader.old) }
    ensures less { OnOk result (length reader.new < length reader.old) }
{
    if reader.skips(SUC_WORD) {
        return Ok(RawCon::Suc);
    }
    Ok(RawCon::Named(reader.word(alloc)?))
}

/// Patterns, one after another.
#[tactic(auto, using(crate::proofs::PatternRules::patterns))]
pub fn patterns(alloc: Global, reader: &mut Reader) -> Result<Items<RawPat>, Stop>
    ensures exact { Gives result reader.new (reads Patterns reader.old) }
    ensures less { OnOk result (length reader.new ≤ length reader.old) }
{
    let mut patterns = Growing::new(alloc);
    while is_pattern_next(reader) {
        patterns.push(pattern(alloc, reader)?)?;
    }
    Ok(patterns.done())
}

/// The next token begins a pattern.
#[tactic(auto, using(crate::proofs::TermRules::starts_either))]
fn is_pattern_next(reader: &Reader) -> bool
    ensures { result ≡ starts kind pattern_kinds reader.now }
{
    reader.is_next(&[ZERO_NUMBER, OPEN_PAREN]) || reader.is_word_next()
}

/// Names, one after another.
#[tactic(auto, using(crate::proofs::PatternRules::words_by))]
fn words(alloc: Global, reader: &mut Reader) -> Result<Items<Name>, Stop>
    ensures exact { Gives result reader.new (reads Words reader.old) }
    ensures less { OnOk result (length reader.new ≤ length reader.old) }
{
    if !reader.is_word_next() {
        return Ok(Items::new(alloc));
    }
    names(alloc, reader)
}

/// One name or more.
#[tactic(auto, using(crate::proofs::PatternRules::names_by))]
pub fn names(alloc: Global, reader: &mut Reader) -> Result<Items<Name>, Stop>
    ensures exact { Gives result reader.new (by_rule names reader.old) }
    ensures less { OnOk result (length reader.new < length reader.old) }
{
    let mut names = Growing::new(alloc);
    loop {
        names.push(reader.word(alloc)?)?;
        if !reader.is_word_next() {
            return Ok(names.done());
        }
    }
}
