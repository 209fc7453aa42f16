ghost use Rattle.std.specs.Prelude.{◌≡◌};
ghost use Rattle.tg_tables.specs.Lists.{schema_list};

use crate::row::Row;
use crate::table::Table;

/// How many rewrite schemas there are.
pub const SCHEMA_COUNT: usize = 48;

/// The names of the rewrite schemas. A schema's code is its place in the order in which they are tried.
pub static SCHEMA_ROWS: [Row; SCHEMA_COUNT] = [
    Row {
        name: "add_lit",
        code: 40,
    },
    Row {
        name: "and_false_l",
        code: 5,
    },
    Row {
        name: "and_false_r",
        code: 7,
    },
    Row {
        name: "and_same",
        code: 8,
    },
    Row {
        name: "and_true_l",
        code: 4,
    },
    Row {
        name: "and_true_r",
        code: 6,
    },
    Row {
        name: "case_con",
        code: 23,
    },
    Row {
        name: "case_lit",
        code: 25,
    },
    Row {
        name: "case_suc",
        code: 24,
    },
    Row {
        name: "div_lit",
        code: 43,
    },
    Row {
        name: "eq_con",
        code: 31,
    },
    Row {
        name: "eq_con_diff",
        code: 32,
    },
    Row {
        name: "eq_false",
        code: 38,
    },
    Row {
        name: "eq_lit",
        code: 33,
    },
    Row {
        name: "eq_same",
        code: 30,
    },
    Row {
        name: "eq_suc",
        code: 34,
    },
    Row {
        name: "eq_suc_lit",
        code: 36,
    },
    Row {
        name: "eq_true",
        code: 37,
    },
    Row {
        name: "eq_zero_suc",
        code: 35,
    },
    Row {
        name: "if_false",
        code: 20,
    },
    Row {
        name: "if_same",
        code: 21,
    },
    Row {
        name: "if_true",
        code: 19,
    },
    Row {
        name: "imp_false_l",
        code: 15,
    },
    Row {
        name: "imp_false_r",
        code: 17,
    },
    Row {
        name: "imp_same",
        code: 18,
    },
    Row {
        name: "imp_true_l",
        code: 14,
    },
    Row {
        name: "imp_true_r",
        code: 16,
    },
    Row {
        name: "le_lit",
        code: 48,
    },
    Row {
        name: "le_same",
        code: 47,
    },
    Row {
        name: "less_lit",
        code: 46,
    },
    Row {
        name: "less_same",
        code: 45,
    },
    Row {
        name: "let_sub",
        code: 22,
    },
    Row {
        name: "mod_lit",
        code: 44,
    },
    Row {
        name: "mul_lit",
        code: 42,
    },
    Row {
        name: "not_false",
        code: 2,
    },
    Row {
        name: "not_not",
        code: 3,
    },
    Row {
        name: "not_true",
        code: 1,
    },
    Row {
        name: "or_false_l",
        code: 10,
    },
    Row {
        name: "or_false_r",
        code: 12,
    },
    Row {
        name: "or_same",
        code: 13,
    },
    Row {
        name: "or_true_l",
        code: 9,
    },
    Row {
        name: "or_true_r",
        code: 11,
    },
    Row {
        name: "sub_lit",
        code: 41,
    },
    Row {
        name: "suc_lit",
        code: 39,
    },
    Row {
        name: "unfold_con",
        code: 27,
    },
    Row {
        name: "unfold_def",
        code: 26,
    },
    Row {
        name: "unfold_lit",
        code: 29,
    },
    Row {
        name: "unfold_suc",
        code: 28,
    },
];

/// The table of the names of the rewrite schemas.
pub fn schemas() -> Table<'static, SCHEMA_COUNT>
    ensures { result ≡ schema_list }
{
    Table::of(&SCHEMA_ROWS)
}
