ghost use Rattle.std.specs.Prelude.{◌≡◌};
ghost use Rattle.tg_tables.specs.Lists.{reserved_words};

use crate::row::Row;
use crate::table::Table;

/// How many reserved words there are.
pub const RESERVED_COUNT: usize = 26;

/// The reserved words. A word's code is its place in the list `theory version begin end datatype
/// primrec definition where program spec outcomes certificate if then else let in case of div mod Suc
/// True False nat bool`.
pub static RESERVED_ROWS: [Row; RESERVED_COUNT] = [
    Row {
        name: "False",
        code: 24,
    },
    Row {
        name: "Suc",
        code: 22,
    },
    Row {
        name: "True",
        code: 23,
    },
    Row {
        name: "begin",
        code: 3,
    },
    Row {
        name: "bool",
        code: 26,
    },
    Row {
        name: "case",
        code: 18,
    },
    Row {
        name: "certificate",
        code: 12,
    },
    Row {
        name: "datatype",
        code: 5,
    },
    Row {
        name: "definition",
        code: 7,
    },
    Row {
        name: "div",
        code: 20,
    },
    Row {
        name: "else",
        code: 15,
    },
    Row {
        name: "end",
        code: 4,
    },
    Row {
        name: "if",
        code: 13,
    },
    Row {
        name: "in",
        code: 17,
    },
    Row {
        name: "let",
        code: 16,
    },
    Row {
        name: "mod",
        code: 21,
    },
    Row {
        name: "nat",
        code: 25,
    },
    Row {
        name: "of",
        code: 19,
    },
    Row {
        name: "outcomes",
        code: 11,
    },
    Row {
        name: "primrec",
        code: 6,
    },
    Row {
        name: "program",
        code: 9,
    },
    Row {
        name: "spec",
        code: 10,
    },
    Row {
        name: "then",
        code: 14,
    },
    Row {
        name: "theory",
        code: 1,
    },
    Row {
        name: "version",
        code: 2,
    },
    Row {
        name: "where",
        code: 8,
    },
];

/// The table of the reserved words.
pub fn reserved() -> Table<'static, RESERVED_COUNT>
    ensures { result ≡ reserved_words }
{
    Table::of(&RESERVED_ROWS)
}
