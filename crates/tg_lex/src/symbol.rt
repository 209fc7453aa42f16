ghost use Rattle.std.specs.Prelude.{◌≡◌};
ghost use Rattle.tg_lex.specs.Scan.{next_is, is_arrow, one_byte, symbol_of, symbol_part};

use crate::part::{Fault, Part};
use crate::token::Kind;
use tg_tables::symbol_codes::{
    AND, ARROW, BANG, CLOSE_BRACE, CLOSE_BRACKET, CLOSE_PAREN, COMMA, DOT, DOUBLE_ARROW,
    DOUBLE_COLON, EQUAL, LESS, LESS_EQUAL, MINUS, NOT, OPEN_BRACE, OPEN_BRACKET, OPEN_PAREN, OR,
    PLUS, QUESTION, SEMICOLON, TIMES,
};

// The longest symbol that begins with `first` and goes on in `after`: its code and how many bytes it has.
#[tactic(auto, unfolding(crate::specs::Scan::symbol_of))]
pub(crate) fn symbol(first: u8, after: &[u8]) -> Option<(u32, usize)>
    ensures { result ≡ symbol_of first after.now }
{
    if first == b'-' && is_arrow(after) {
        Some((ARROW, 3))
    } else if first == b'<' && next_is(after, b'=') {
        Some((LESS_EQUAL, 2))
    } else if first == b'=' && next_is(after, b'>') {
        Some((DOUBLE_ARROW, 2))
    } else if first == b':' && next_is(after, b':') {
        Some((DOUBLE_COLON, 2))
    } else {
        match one_byte(first) {
            Some(code) => Some((code, 1)),
            None => None,
        }
    }
}

pub(crate) fn symbol_part(symbol: Option<(u32, usize)>) -> Result<Part, Fault>
    ensures { result ≡ symbol_part symbol }
{
    match symbol {
        Some((code, len)) => Ok(Part::Token(Kind::Sym(code), len)),
        None => Err(Fault::Byte),
    }
}

fn next_is(bytes: &[u8], byte: u8) -> bool
    ensures { result ≡ next_is byte bytes.now }
{
    match bytes {
        [] => false,
        [first, ..] => *first == byte,
    }
}

// Whether `->` stands here.
fn is_arrow(bytes: &[u8]) -> bool
    ensures { result ≡ is_arrow bytes.now }
{
    match bytes {
        [] => false,
        [first, after @ ..] => *first == b'-' && next_is(after, b'>'),
    }
}

// The code of a symbol of one byte, as the table of the symbols has it.
fn one_byte(byte: u8) -> Option<u32>
    ensures { result ≡ one_byte byte }
{
    match byte {
        b'(' => Some(OPEN_PAREN),
        b')' => Some(CLOSE_PAREN),
        b'{' => Some(OPEN_BRACE),
        b'}' => Some(CLOSE_BRACE),
        b'[' => Some(OPEN_BRACKET),
        b']' => Some(CLOSE_BRACKET),
        b',' => Some(COMMA),
        b';' => Some(SEMICOLON),
        b'.' => Some(DOT),
        b'=' => Some(EQUAL),
        b'<' => Some(LESS),
        b'+' => Some(PLUS),
        b'-' => Some(MINUS),
        b'*' => Some(TIMES),
        b'&' => Some(AND),
        b'|' => Some(OR),
        b'~' => Some(NOT),
        b'?' => Some(QUESTION),
        b'!' => Some(BANG),
        _ => None,
    }
}
