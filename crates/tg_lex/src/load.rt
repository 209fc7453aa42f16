ghost use Rattle.std.specs.Prelude.{◌≡◌, ◌≤◌, [], ◌∷◌, All, IfOk, OnOk};
ghost use Rattle.tg_lex.specs.Grammar.{IsTokenOf};
ghost use Rattle.tg_lex.specs.Load.{is_counted_word, symbol_effect, word_effect, effect, step, load_of, load_limit, load_passes, text_of};

use crate::token::{Kind, Token};
use std::alloc::{AllocError, Global};
use std::marker::Model;
use tg_tables::symbol_codes::{
    ARROW, CLOSE_BRACE, CLOSE_BRACKET, CLOSE_PAREN, COMMA, EQUAL, OPEN_BRACE, OPEN_BRACKET,
    OPEN_PAREN, SEMICOLON,
};

/// The load of nesting that a text may have.
pub const LOAD_LIMIT: u32 = 400;

/// What a token does to the counters.
#[derive(Clone, Copy, Debug, PartialEq, Eq)]
pub(crate) enum Effect {
    /// Adds a counter at the end.
    Opens,
    /// Takes the last counter away, unless it is the only one.
    Closes,
    /// Sets the last counter to 0.
    Resets,
    /// Adds 1 to the last counter.
    Counts,
    /// Leaves them.
    Nothing,
}

/// The counters, and their load, which is their sum and one for each of them but the first.
#[derive(Debug, Drop)]
struct Counters {
    before: Vec<u32>,
    last: u32,
    load: u32,
}

impl Model for Counters {
    ghost use Rattle.std.specs.Prelude.{◌≡◌, ◌≤◌, ◌+◌, ◌++◌, ◌∷◌, [], List, ℕ};
    ghost use Rattle.tg_lex.specs.Load.{load_of, load_limit};

    ghost Value = { List ℕ };

    ghost view = { λ c. c.before.items ++ c.last ∷ [] };

    ghost invariant = { λ c. (c.load ≡ load_of (c.before.items ++ c.last ∷ [])) × (c.load ≤ load_limit + 1) };
}

impl Counters {
    fn new(alloc: Global) -> Counters
        ensures { result ≡ 0 ∷ [] }
    {
        Counters {
            before: Vec::new(alloc),
            last: 0,
            load: 0,
        }
    }

    fn load(&self) -> u32
        ensures { result ≡ load_of self.now }
    {
        self.load
    }

    fn apply(&mut self, effect: Effect) -> Result<(), AllocError>
        requires { load_of self.old ≤ load_limit }
        ensures { OnOk result (self.new ≡ step effect self.old) }
    {
        match effect {
            Effect::Opens => {
                self.before.push(self.last)?;
                self.last = 0;
                self.load += 1;
            }
            Effect::Closes => {
                if let Some(counter) = self.before.pop() {
                    self.load -= self.last + 1;
                    self.last = counter;
                }
            }
            Effect::Resets => {
                self.load -= self.last;
                self.last = 0;
            }
            Effect::Counts => {
                self.last += 1;
                self.load += 1;
            }
            Effect::Nothing => {}
        }
        Ok(())
    }
}

/// Whether the load of nesting of these tokens of the bytes is above `LOAD_LIMIT` at one of them.
pub fn is_nested(alloc: Global, bytes: &[u8], tokens: &[Token]) -> Result<bool, AllocError>
    requires { All (IsTokenOf bytes.now) tokens.now }
    ensures { IfOk result (λ nested. nested ≡ load_passes load_limit bytes.now tokens.now) }
{
    let mut counters = Counters::new(alloc);
    for token in tokens {
        counters.apply(effect_of(bytes, token))?;
        if counters.load() > LOAD_LIMIT {
            return Ok(true);
        }
    }
    Ok(false)
}

fn effect_of(bytes: &[u8], token: &Token) -> Effect
    requires { IsTokenOf bytes.now token.now }
    ensures { result ≡ effect (text_of bytes.now token.now) }
{
    match token.kind {
        Kind::Sym(code) => symbol_effect(code),
        Kind::Word => word_effect(&bytes[token.start..token.end]),
        Kind::TyVar | Kind::Number => Effect::Nothing,
    }
}

fn symbol_effect(code: u32) -> Effect
    ensures { result ≡ symbol_effect code }
{
    match code {
        OPEN_PAREN | OPEN_BRACE | OPEN_BRACKET => Effect::Opens,
        CLOSE_PAREN | CLOSE_BRACE | CLOSE_BRACKET => Effect::Closes,
        COMMA | SEMICOLON => Effect::Resets,
        EQUAL..=ARROW => Effect::Counts,
        _ => Effect::Nothing,
    }
}

fn word_effect(word: &[u8]) -> Effect
    ensures { result ≡ word_effect word.now }
{
    if is_counted_word(word) {
        Effect::Counts
    } else {
        Effect::Nothing
    }
}

fn is_counted_word(word: &[u8]) -> bool
    ensures { result ≡ is_counted_word word.now }
{
    word == b"div".as_slice()
        || word == b"mod".as_slice()
        || word == b"if".as_slice()
        || word == b"let".as_slice()
        || word == b"case".as_slice()
}
