//! The tokens that are still to be read.
ghost use Rattle.std.specs.Prelude.{◌≡◌, ◌<◌, [], ◌∷◌, All, length, drop, IfOk, IfErr, OnOk, None, Some};
ghost use Rattle.tg_lex.specs.Grammar.{IsTokenOf};
ghost use Rattle.tg_rules.specs.Rule.{has};
ghost use Rattle.tg_rules.specs.Reader.{starts, token_at};
ghost use Rattle.tg_grammar.specs.First.{words, numbers, rules, type_atoms};
ghost use Rattle.tg_grammar.specs.Kinds.{type_variable};
ghost use Rattle.tg_grammar.specs.Reading.{kind};
ghost use Rattle.tg_grammar.specs.Seen.{seen_with};
ghost use Rattle.tg_reading.specs.Answers.{Gives, Takes, Skips, Finds, text_at, value_at, next_kind, next_text, next_value, rule_at};

use std::alloc::{AllocError, Global};
use std::marker::Model;
use tg_grammar::kinds::{
    BOOL_WORD, COMPUTE_RULE, HYP_RULE, LAST_NAME, NAT_WORD, OPEN_PAREN, OTHER_NUMBER, OTHER_WORD,
    TYPE_VARIABLE, ZERO_NUMBER,
};
use tg_grammar::{Vocabulary, kind_of, text_of, value_of};
use tg_lex::Token;
use tg_types::Name;

/// Why a part isn't read.
#[derive(Clone, Copy)]
pub enum Stop {
    /// Memory ran out.
    Memory,
    /// The next token is wrong, or where there is none the end.
    Wrong,
}

impl From<AllocError> for Stop {
    ghost use Rattle.tg_reading.specs.declared.reader.Stop.TheVariants as stops;

    ghost from_gives = { λ _ s. s ≡ stops.Memory };

    fn from(_error: AllocError) -> Stop {
        Stop::Memory
    }
}

/// The tokens of a text that are still to be read. A contract sees them as the grammar does. Of the kinds
/// only that of the next token is kept.
#[derive(Drop)]
pub struct Reader<'a> {
    vocabulary: Vocabulary,
    bytes: &'a [u8],
    tokens: &'a [Token],
    at: usize,
    next: Option<u32>,
}

impl<'a> Model for Reader<'a> {
    ghost use Rattle.std.specs.Prelude.{◌≡◌, ◌≤◌, All, List, drop, length};
    ghost use Rattle.tg_lex.specs.Grammar.{IsTokenOf};
    ghost use Rattle.tg_grammar.specs.Seen.{Seen, seen_with};
    ghost use Rattle.tg_reading.specs.Answers.{next_kind};

    ghost Value = { List Seen };

    ghost view = { λ r. drop r.at (seen_with r.vocabulary r.bytes.now r.tokens.now) };

    ghost invariant = { λ r. All (IsTokenOf r.bytes.now) r.tokens.now × (r.next ≡ next_kind (drop r.at (seen_with r.vocabulary r.bytes.now r.tokens.now))) × (r.at ≤ length r.tokens.now) };
}

impl<'a> Reader<'a> {
    /// All tokens of the bytes are still to be read, with these words.
    pub fn new(vocabulary: Vocabulary, bytes: &'a [u8], tokens: &'a [Token]) -> Reader<'a>
        requires { All (IsTokenOf bytes.now) tokens.now }
        ensures { result ≡ seen_with vocabulary bytes.now tokens.now }
    {
        let next = kind_at(&vocabulary, bytes, tokens, 0);
        Reader {
            vocabulary,
            bytes,
            tokens,
            at: 0,
            next,
        }
    }

    /// How many tokens are still to be read.
    pub fn len(&self) -> usize
        ensures { result ≡ length self.now }
    {
        self.tokens.len() - self.at
    }

    /// The kind of the next token.
    pub(crate) fn next_kind(&self) -> Option<u32>
        ensures { result ≡ next_kind self.now }
    {
        self.next
    }

    /// The text of the next token.
    fn next_text(&self) -> &[u8]
        ensures { result.now ≡ next_text self.now }
    {
        if self.at < self.tokens.len() {
            text_of(self.bytes, &self.tokens[self.at])
        } else {
            b""
        }
    }

    /// The value of the next token.
    fn next_value(&self) -> u64
        ensures { result ≡ next_value self.now }
    {
        if self.at < self.tokens.len() {
            value_of(self.bytes, &self.tokens[self.at])
        } else {
            0
        }
    }

    /// Leaves the next token behind.
    fn advance(&mut self)
        ensures { self.new ≡ drop 1 self.old }
    {
        if self.at < self.tokens.len() {
            self.at += 1;
            self.next = kind_at(&self.vocabulary, self.bytes, self.tokens, self.at);
        }
    }

    /// The next token is of one of these kinds.
    #[tactic(auto, using(crate::proofs::Left::next))]
    pub fn is_next(&self, kinds: &[u32]) -> bool
        ensures { result ≡ starts kind kinds.now self.now }
    {
        match self.next_kind() {
            Some(kind) => is_among(kinds, kind),
            None => false,
        }
    }

    /// The next token is a word that isn't reserved.
    #[tactic(auto, using(crate::proofs::Left::next))]
    pub fn is_word_next(&self) -> bool
        ensures { result ≡ starts kind words self.now }
    {
        match self.next_kind() {
            Some(kind) => is_word(kind),
            None => false,
        }
    }

    /// The next token begins a type in brackets or a simple one.
    pub fn is_type_atom_next(&self) -> bool
        ensures { result ≡ starts kind type_atoms self.now }
    {
        match self.next_kind() {
            Some(kind) => is_type_atom(kind),
            None => false,
        }
    }

    /// The next token is a number.
    #[tactic(auto, using(crate::proofs::Left::next))]
    pub fn is_number_next(&self) -> bool
        ensures { result ≡ starts kind numbers self.now }
    {
        match self.next_kind() {
            Some(kind) => is_number(kind),
            None => false,
        }
    }

    /// The next token, which is the name of a rule. The answer is its kind.
    #[tactic(auto, using(crate::proofs::Left::next))]
    pub fn rule(&mut self) -> Result<u32, Stop>
        ensures exact { Gives result self.new (rule_at self.old) }
        ensures less { OnOk result (length self.new < length self.old) }
    {
        match self.next_kind() {
            Some(kind) if is_rule(kind) => {
                self.advance();
                Ok(kind)
            }
            _ => Err(Stop::Wrong),
        }
    }

    /// Leaves the next token behind where it is of this kind, or says that it isn't.
    #[tactic(auto, using(crate::proofs::Left::next))]
    pub fn skips(&mut self, wanted: u32) -> bool
        ensures { Skips result (wanted ∷ []) self.old self.new }
    {
        match self.next_kind() {
            Some(kind) if kind == wanted => {
                self.advance();
                true
            }
            _ => false,
        }
    }

    /// The next token, which is of this kind.
    pub fn take(&mut self, wanted: u32) -> Result<(), Stop>
        ensures exact { Takes result self.old self.new (token_at kind (wanted ∷ []) self.old) }
        ensures less { OnOk result (length self.new < length self.old) }
    {
        if self.skips(wanted) {
            Ok(())
        } else {
            Err(Stop::Wrong)
        }
    }

    /// The next token, which is a number.
    pub fn number(&mut self) -> Result<u64, Stop>
        ensures exact { Gives result self.new (value_at numbers self.old) }
        ensures less { OnOk result (length self.new < length self.old) }
    {
        match self.next_number() {
            Some(value) => Ok(value),
            None => Err(Stop::Wrong),
        }
    }

    /// The number that is next, which is left behind, or None.
    #[tactic(auto, using(crate::proofs::Left::next))]
    pub fn next_number(&mut self) -> Option<u64>
        ensures { Finds result numbers self.old self.new (value_at numbers self.old) }
    {
        match self.next_kind() {
            Some(kind) if is_number(kind) => {
                let value = self.next_value();
                self.advance();
                Some(value)
            }
            _ => None,
        }
    }

    /// The next token, which is a word that isn't reserved.
    #[tactic(auto, using(crate::proofs::Left::next))]
    pub fn word(&mut self, alloc: Global) -> Result<Name, Stop>
        ensures exact { Gives result self.new (text_at words self.old) }
        ensures less { OnOk result (length self.new < length self.old) }
    {
        match self.next_kind() {
            Some(kind) if is_word(kind) => self.name(alloc),
            _ => Err(Stop::Wrong),
        }
    }

    /// The next token, which is a type variable.
    #[tactic(auto, using(crate::proofs::Left::next))]
    pub fn type_variable(&mut self, alloc: Global) -> Result<Name, Stop>
        ensures exact { Gives result self.new (text_at (type_variable ∷ []) self.old) }
        ensures less { OnOk result (length self.new < length self.old) }
    {
        match self.next_kind() {
            Some(TYPE_VARIABLE) => self.name(alloc),
            _ => Err(Stop::Wrong),
        }
    }

    /// The text of the next token, which is left behind.
    fn name(&mut self, alloc: Global) -> Result<Name, Stop>
        ensures text { IfOk result (λ n. n ≡ next_text self.old) }
        ensures left { OnOk result (self.new ≡ drop 1 self.old) }
        ensures stop { IfErr result (λ s. s ≡ Stop.Memory) }
    {
        let name = Name::new(alloc, self.next_text())?;
        self.advance();
        Ok(name)
    }
}

/// The kind of the token at a place, from 0, if there is one.
fn kind_at(vocabulary: &Vocabulary, bytes: &[u8], tokens: &[Token], at: usize) -> Option<u32>
    requires { All (IsTokenOf bytes.now) tokens.now }
    ensures { result ≡ next_kind (drop at (seen_with vocabulary.now bytes.now tokens.now)) }
{
    if at < tokens.len() {
        Some(kind_of(vocabulary, bytes, &tokens[at]))
    } else {
        None
    }
}

/// The kind is one of these.
fn is_among(kinds: &[u32], kind: u32) -> bool
    ensures { result ≡ has kinds.now kind }
{
    for k in kinds {
        if *k == kind {
            return true;
        }
    }
    false
}

/// The kind is that of a word that isn't reserved.
fn is_word(kind: u32) -> bool
    ensures { result ≡ has words kind }
{
    OTHER_WORD <= kind && kind <= LAST_NAME
}

/// The kind is that of a number.
fn is_number(kind: u32) -> bool
    ensures { result ≡ has numbers kind }
{
    ZERO_NUMBER <= kind && kind <= OTHER_NUMBER
}

/// The kind is that of a token with which a type in brackets or a simple one begins.
fn is_type_atom(kind: u32) -> bool
    ensures { result ≡ has type_atoms kind }
{
    kind == OPEN_PAREN
        || kind == NAT_WORD
        || kind == BOOL_WORD
        || kind == TYPE_VARIABLE
        || is_word(kind)
}

/// The kind is that of the name of a rule.
fn is_rule(kind: u32) -> bool
    ensures { result ≡ has rules kind }
{
    HYP_RULE <= kind && kind <= COMPUTE_RULE
}
