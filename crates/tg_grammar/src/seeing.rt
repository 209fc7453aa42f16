//! What the grammar sees of a token.
ghost use Rattle.std.specs.Prelude.{◌≡◌, All, map};
ghost use Rattle.tg_lex.specs.Grammar.{IsTokenOf};
ghost use Rattle.tg_lex.specs.Load.{text_of};
ghost use Rattle.tg_grammar.specs.Seen.{seen_token, seen, value_of, number_kind, is_declaration, declarations};

use crate::kinds::{
    ONE_NUMBER, OTHER_NUMBER, SMALL_NUMBER, TWO_NUMBER, TYPE_VARIABLE, ZERO_NUMBER,
};
use crate::words::Vocabulary;
use tg_lex::{Kind, Token, number};

/// The kind of a token of the bytes, where these words have kinds of their own. A word is looked up by
/// halving.
pub fn kind_of(vocabulary: &Vocabulary, bytes: &[u8], token: &Token) -> u32
    requires { IsTokenOf bytes.now token.now }
    ensures { let s = seen_token vocabulary.now bytes.now token.now in result ≡ s.kind }
{
    match token.kind {
        Kind::Word => vocabulary.kind(text_of(bytes, token)),
        Kind::TyVar => TYPE_VARIABLE,
        Kind::Number => number_kind(number(bytes, token)),
        Kind::Sym(code) => code,
    }
}

/// The value of a number token of the bytes, and 0 of another token.
pub fn value_of(bytes: &[u8], token: &Token) -> u64
    requires { IsTokenOf bytes.now token.now }
    ensures { result ≡ value_of token.now.kind (text_of bytes.now token.now) }
{
    match token.kind {
        Kind::Number => number(bytes, token),
        Kind::Word | Kind::TyVar | Kind::Sym(_) => 0,
    }
}

/// The text of a token of the bytes.
pub fn text_of<'a>(bytes: &'a [u8], token: &Token) -> &'a [u8]
    requires { IsTokenOf bytes.now token.now }
    ensures { result.now ≡ text_of bytes.now token.now }
{
    &bytes[token.start..token.end]
}

/// How many of the words `datatype`, `primrec`, `definition`, `program`, `spec`, `outcomes` and
/// `certificate` are among the tokens of the bytes. It takes no memory.
pub fn place(bytes: &[u8], tokens: &[Token]) -> u64
    requires { All (IsTokenOf bytes.now) tokens.now }
    ensures { result ≡ declarations (seen bytes.now tokens.now) }
{
    let mut count = 0;
    for token in tokens {
        if is_declaration(text_of(bytes, token)) {
            count += 1;
        }
    }
    count
}

fn is_declaration(text: &[u8]) -> bool
    ensures { result ≡ is_declaration text.now }
{
    text == b"datatype".as_slice()
        || text == b"primrec".as_slice()
        || text == b"definition".as_slice()
        || text == b"program".as_slice()
        || text == b"spec".as_slice()
        || text == b"outcomes".as_slice()
        || text == b"certificate".as_slice()
}

fn number_kind(value: u64) -> u32
    ensures { result ≡ number_kind value }
{
    match value {
        0 => ZERO_NUMBER,
        1 => ONE_NUMBER,
        2 => TWO_NUMBER,
        3..=8 => SMALL_NUMBER,
        _ => OTHER_NUMBER,
    }
}
