ghost use Rattle.std.specs.Prelude.{◌≡◌};
ghost use Rattle.tg_tables.specs.Lists.{symbol_list};

use crate::row::Row;
use crate::symbol_codes::{
    AND, ARROW, BANG, CLOSE_BRACE, CLOSE_BRACKET, CLOSE_PAREN, COMMA, DOT, DOUBLE_ARROW,
    DOUBLE_COLON, EQUAL, LESS, LESS_EQUAL, MINUS, NOT, OPEN_BRACE, OPEN_BRACKET, OPEN_PAREN, OR,
    PLUS, QUESTION, SEMICOLON, TIMES,
};
use crate::table::Table;

/// How many symbols there are.
pub const SYMBOL_COUNT: usize = 23;

/// The symbols and their codes.
pub static SYMBOL_ROWS: [Row; SYMBOL_COUNT] = [
    Row {
        name: "!",
        code: BANG,
    },
    Row {
        name: "&",
        code: AND,
    },
    Row {
        name: "(",
        code: OPEN_PAREN,
    },
    Row {
        name: ")",
        code: CLOSE_PAREN,
    },
    Row {
        name: "*",
        code: TIMES,
    },
    Row {
        name: "+",
        code: PLUS,
    },
    Row {
        name: ",",
        code: COMMA,
    },
    Row {
        name: "-",
        code: MINUS,
    },
    Row {
        name: "-->",
        code: ARROW,
    },
    Row {
        name: ".",
        code: DOT,
    },
    Row {
        name: "::",
        code: DOUBLE_COLON,
    },
    Row {
        name: ";",
        code: SEMICOLON,
    },
    Row {
        name: "<",
        code: LESS,
    },
    Row {
        name: "<=",
        code: LESS_EQUAL,
    },
    Row {
        name: "=",
        code: EQUAL,
    },
    Row {
        name: "=>",
        code: DOUBLE_ARROW,
    },
    Row {
        name: "?",
        code: QUESTION,
    },
    Row {
        name: "[",
        code: OPEN_BRACKET,
    },
    Row {
        name: "]",
        code: CLOSE_BRACKET,
    },
    Row {
        name: "{",
        code: OPEN_BRACE,
    },
    Row {
        name: "|",
        code: OR,
    },
    Row {
        name: "}",
        code: CLOSE_BRACE,
    },
    Row {
        name: "~",
        code: NOT,
    },
];

/// The table of the symbols.
pub fn symbols() -> Table<'static, SYMBOL_COUNT>
    ensures { result ≡ symbol_list }
{
    Table::of(&SYMBOL_ROWS)
}
