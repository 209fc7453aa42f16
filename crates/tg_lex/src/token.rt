ghost use Rattle.std.specs.Prelude.{◌≡◌};

use sqlite_items::Items;
use std::alloc::AllocFailed;

/// What a token is.
#[derive(Clone, Copy, Debug, PartialEq, Eq)]
pub enum Kind {
    /// A letter, then letters, digits and `_`. The reserved words are words.
    Word,
    /// `'` and a word.
    TyVar,
    /// A run of digits whose value is below 2^64.
    Number,
    /// The symbol of this code in the table of the symbols.
    Sym(u32),
}

/// A token of a text, which is the text's bytes from `start` to before `end`.
#[derive(Clone, Copy, Debug, PartialEq, Eq)]
pub struct Token {
    /// What it is.
    pub kind: Kind,
    /// Where its first byte stands, from 0.
    pub start: usize,
    /// Where the byte after its last one stands.
    pub end: usize,
}

/// Why a text has no tokens. It is the first fault from the left, with the tokens before it.
#[derive(Debug, Drop)]
pub enum LexErr {
    /// The byte at `at` begins no token.
    Byte {
        /// Where the byte stands, from 0.
        at: usize,
        /// The tokens before it.
        before: Items<Token>,
    },
    /// The comment that begins at `at` isn't closed.
    Comment {
        /// Where its `(*` stands, from 0; of nested ones the outermost.
        at: usize,
        /// The tokens before it.
        before: Items<Token>,
    },
    /// The number that begins at `at` is 2^64 or more.
    Number {
        /// Where its first digit stands, from 0.
        at: usize,
        /// The tokens before it.
        before: Items<Token>,
    },
    /// Memory ran out.
    Memory,
}

impl From<AllocFailed<Token>> for LexErr {
    ghost use Rattle.tg_lex.specs.declared.token.LexErr.TheVariants as errors;

    ghost from_gives = { λ _ e. e ≡ errors.Memory };

    fn from(_failed: AllocFailed<Token>) -> LexErr {
        LexErr::Memory
    }
}
