//! Where a term stands, and the tokens that tell what comes next there.
ghost use Rattle.std.specs.Prelude.{◌≡◌};
ghost use Rattle.tg_rules.specs.Reader.{starts};
ghost use Rattle.tg_grammar.specs.First.{atoms, plain_atoms, variables};
ghost use Rattle.tg_grammar.specs.Reading.{kind};
ghost use Rattle.tg_reading.specs.Modes.{mode_view};

use crate::reader::Reader;
use tg_grammar::kinds::{
    BANG, FALSE_WORD, ONE_NUMBER, OPEN_PAREN, OTHER_NUMBER, QUESTION, SMALL_NUMBER, TRUE_WORD,
    TWO_NUMBER, ZERO_NUMBER,
};

/// Where a term stands. Variables that are bound are words in a theory, and numbered in a certificate.
#[derive(Clone, Copy)]
pub enum Mode {
    /// In a theory.
    Theory,
    /// In a certificate.
    Certificate,
}

/// A variable that is bound is next.
pub(crate) fn is_variable_next(mode: Mode, reader: &Reader) -> bool
    ensures { result ≡ starts kind (variables (mode_view mode)) reader.now }
{
    match mode {
        Mode::Theory => reader.is_word_next(),
        Mode::Certificate => reader.is_next(&[BANG]),
    }
}

/// An atom that isn't a word is next.
pub fn is_plain_atom_next(mode: Mode, reader: &Reader) -> bool
    ensures { result ≡ starts kind (plain_atoms (mode_view mode)) reader.now }
{
    match mode {
        Mode::Theory => reader.is_next(&[
            ZERO_NUMBER,
            ONE_NUMBER,
            TWO_NUMBER,
            SMALL_NUMBER,
            OTHER_NUMBER,
            TRUE_WORD,
            FALSE_WORD,
            OPEN_PAREN,
        ]),
        Mode::Certificate => reader.is_next(&[
            ZERO_NUMBER,
            ONE_NUMBER,
            TWO_NUMBER,
            SMALL_NUMBER,
            OTHER_NUMBER,
            TRUE_WORD,
            FALSE_WORD,
            OPEN_PAREN,
            QUESTION,
            BANG,
        ]),
    }
}

/// An atom is next.
#[tactic(auto, using(crate::proofs::TermRules::starts_either))]
pub fn is_atom_next(mode: Mode, reader: &Reader) -> bool
    ensures { result ≡ starts kind (atoms (mode_view mode)) reader.now }
{
    is_plain_atom_next(mode, reader) || reader.is_word_next()
}
