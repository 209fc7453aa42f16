ghost use Rattle.std.specs.Prelude.{◌≡◌, ◌<◌, length};
ghost use Rattle.tg_lex.specs.Grammar.{IsFirst};
ghost use Rattle.tg_lex.specs.Scan.{number_part, variable_part, part_of};

use crate::bytes::{digit_len, is_blank, is_digit, is_letter, name_len};
use crate::comment::{comment_part, opens};
use crate::digits::value_of;
use crate::symbol::{symbol, symbol_part};
use crate::token::Kind;

/// What stands first among some bytes.
#[derive(Clone, Copy, Debug, PartialEq, Eq)]
pub(crate) enum Part {
    /// This many bytes that separate tokens.
    Skip(usize),
    /// A token of this many bytes.
    Token(Kind, usize),
}

/// Why no part stands first.
#[derive(Clone, Copy, Debug, PartialEq, Eq)]
pub(crate) enum Fault {
    Byte,
    Comment,
    Number,
}

// The part that stands first, with the longest token that begins there.
pub(crate) fn first_part(bytes: &[u8]) -> Result<Part, Fault>
    requires { 0 < length bytes.now }
    ensures { IsFirst bytes.now result }
{
    find_part(bytes)
}

#[tactic(auto, unfolding(crate::specs::Scan::part_of))]
fn find_part(bytes: &[u8]) -> Result<Part, Fault>
    ensures { result ≡ part_of bytes.now }
{
    match bytes {
        [] => Err(Fault::Byte),
        [first, after @ ..] => {
            if is_blank(*first) {
                Ok(Part::Skip(1))
            } else if is_letter(*first) {
                Ok(Part::Token(Kind::Word, name_len(after) + 1))
            } else if is_digit(*first) {
                number_part(bytes)
            } else if *first == b'\'' {
                variable_part(after)
            } else if opens(bytes) {
                comment_part(bytes)
            } else {
                symbol_part(symbol(*first, after))
            }
        }
    }
}

#[tactic(auto, unfolding(crate::specs::Scan::number_part))]
fn number_part(bytes: &[u8]) -> Result<Part, Fault>
    ensures { result ≡ number_part bytes.now }
{
    let len = digit_len(bytes);
    match value_of(&bytes[..len]) {
        Some(_) => Ok(Part::Token(Kind::Number, len)),
        None => Err(Fault::Number),
    }
}

// The type variable whose `'` stands before these bytes.
#[tactic(auto, unfolding(crate::specs::Scan::variable_part))]
fn variable_part(bytes: &[u8]) -> Result<Part, Fault>
    ensures { result ≡ variable_part bytes.now }
{
    match bytes {
        [] => Err(Fault::Byte),
        [first, after @ ..] => {
            if is_letter(*first) {
                Ok(Part::Token(Kind::TyVar, name_len(after) + 2))
            } else {
                Err(Fault::Byte)
            }
        }
    }
}
