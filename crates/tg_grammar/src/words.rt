ghost use Rattle.std.specs.Prelude.{◌≡◌, ◌<◌, length, map, slice_get};
ghost use Rattle.tg_grammar.specs.Seen.{word_kind};
ghost use Rattle.tg_grammar.specs.Words.{version_one};
ghost use Rattle.tg_tables.specs.Rows.{entries_of};

use crate::kinds::{
    ALL_E_RULE, ALL_I_RULE, ALL_WORD, AND_I_RULE, AND_L_RULE, AND_R_RULE, ANSWER_WORD, BEGIN_WORD,
    BOOL_WORD, BOUND_WORD, CASE_WORD, CERTIFICATE_WORD, COMPUTE_RULE, CUT_RULE, DATATYPE_WORD,
    DEEP_RULE, DEFINITION_WORD, DEPTH_WORD, DIV_WORD, ELSE_WORD, END_WORD, EXHAUST_RULE,
    EXISTS_E_RULE, EXISTS_I_RULE, EXISTS_WORD, FALSE_RULE, FALSE_WORD, GROW_RULE, HYP_RULE,
    IF_WORD, IMP_I_RULE, IN_WORD, LET_WORD, MOD_WORD, MP_RULE, NAT_WORD, OF_WORD, OTHER_WORD,
    OUTCOMES_WORD, PRIMREC_WORD, PROGRAM_WORD, RAISED_WORD, REFL_RULE, REPLACE_RULE, SCHEMA_RULE,
    SEED_WORD, SPEC_WORD, SPLIT_RULE, SUC_WORD, SYM_RULE, TESTED_WORD, THEN_WORD, THEORY_WORD,
    THYP_E_RULE, THYP_I_RULE, THYP_WORD, TRANS_RULE, TRIES_WORD, TRUE_RULE, TRUE_WORD,
    VERSION_WORD, WEAK_RULE, WHERE_WORD, WIDTH_WORD,
};
use std::marker::Model;
use tg_tables::{Row, find_row};

/// The words that have a kind of their own in version 1 of the language, in the order of their bytes.
static VERSION_ONE: [Row; 63] = [
    Row {
        name: "ALL",
        code: ALL_WORD,
    },
    Row {
        name: "EX",
        code: EXISTS_WORD,
    },
    Row {
        name: "False",
        code: FALSE_WORD,
    },
    Row {
        name: "Suc",
        code: SUC_WORD,
    },
    Row {
        name: "THYP",
        code: THYP_WORD,
    },
    Row {
        name: "True",
        code: TRUE_WORD,
    },
    Row {
        name: "allE",
        code: ALL_E_RULE,
    },
    Row {
        name: "allI",
        code: ALL_I_RULE,
    },
    Row {
        name: "andI",
        code: AND_I_RULE,
    },
    Row {
        name: "andL",
        code: AND_L_RULE,
    },
    Row {
        name: "andR",
        code: AND_R_RULE,
    },
    Row {
        name: "answer",
        code: ANSWER_WORD,
    },
    Row {
        name: "begin",
        code: BEGIN_WORD,
    },
    Row {
        name: "bool",
        code: BOOL_WORD,
    },
    Row {
        name: "bound",
        code: BOUND_WORD,
    },
    Row {
        name: "case",
        code: CASE_WORD,
    },
    Row {
        name: "certificate",
        code: CERTIFICATE_WORD,
    },
    Row {
        name: "compute",
        code: COMPUTE_RULE,
    },
    Row {
        name: "cut",
        code: CUT_RULE,
    },
    Row {
        name: "datatype",
        code: DATATYPE_WORD,
    },
    Row {
        name: "deep",
        code: DEEP_RULE,
    },
    Row {
        name: "definition",
        code: DEFINITION_WORD,
    },
    Row {
        name: "depth",
        code: DEPTH_WORD,
    },
    Row {
        name: "div",
        code: DIV_WORD,
    },
    Row {
        name: "else",
        code: ELSE_WORD,
    },
    Row {
        name: "end",
        code: END_WORD,
    },
    Row {
        name: "exE",
        code: EXISTS_E_RULE,
    },
    Row {
        name: "exI",
        code: EXISTS_I_RULE,
    },
    Row {
        name: "exhaust",
        code: EXHAUST_RULE,
    },
    Row {
        name: "false",
        code: FALSE_RULE,
    },
    Row {
        name: "grow",
        code: GROW_RULE,
    },
    Row {
        name: "hyp",
        code: HYP_RULE,
    },
    Row {
        name: "if",
        code: IF_WORD,
    },
    Row {
        name: "impI",
        code: IMP_I_RULE,
    },
    Row {
        name: "in",
        code: IN_WORD,
    },
    Row {
        name: "let",
        code: LET_WORD,
    },
    Row {
        name: "mod",
        code: MOD_WORD,
    },
    Row {
        name: "mp",
        code: MP_RULE,
    },
    Row {
        name: "nat",
        code: NAT_WORD,
    },
    Row {
        name: "of",
        code: OF_WORD,
    },
    Row {
        name: "outcomes",
        code: OUTCOMES_WORD,
    },
    Row {
        name: "primrec",
        code: PRIMREC_WORD,
    },
    Row {
        name: "program",
        code: PROGRAM_WORD,
    },
    Row {
        name: "raised",
        code: RAISED_WORD,
    },
    Row {
        name: "refl",
        code: REFL_RULE,
    },
    Row {
        name: "replace",
        code: REPLACE_RULE,
    },
    Row {
        name: "schema",
        code: SCHEMA_RULE,
    },
    Row {
        name: "seed",
        code: SEED_WORD,
    },
    Row {
        name: "spec",
        code: SPEC_WORD,
    },
    Row {
        name: "split",
        code: SPLIT_RULE,
    },
    Row {
        name: "sym",
        code: SYM_RULE,
    },
    Row {
        name: "tested",
        code: TESTED_WORD,
    },
    Row {
        name: "then",
        code: THEN_WORD,
    },
    Row {
        name: "theory",
        code: THEORY_WORD,
    },
    Row {
        name: "thypE",
        code: THYP_E_RULE,
    },
    Row {
        name: "thypI",
        code: THYP_I_RULE,
    },
    Row {
        name: "trans",
        code: TRANS_RULE,
    },
    Row {
        name: "tries",
        code: TRIES_WORD,
    },
    Row {
        name: "true",
        code: TRUE_RULE,
    },
    Row {
        name: "version",
        code: VERSION_WORD,
    },
    Row {
        name: "weak",
        code: WEAK_RULE,
    },
    Row {
        name: "where",
        code: WHERE_WORD,
    },
    Row {
        name: "width",
        code: WIDTH_WORD,
    },
];

/// The words that have a kind of their own in an input, and their kinds: those that are reserved there, and those that have a
/// meaning in one place. A contract sees the rows.
#[derive(Drop)]
pub struct Vocabulary {
    rows: &'static [Row],
}

impl Model for Vocabulary {
    ghost use Rattle.std.specs.Prelude.{List};
    ghost use Rattle.std.specs.Prelude.{◌≡◌, true};
    ghost use Rattle.tg_tables.specs.Rows.{Entry, entries_of, names, Rises};
    ghost use Rattle.tg_grammar.specs.Seen.{are_longer};

    ghost Value = { List Entry };

    ghost view = { λ v. entries_of v.rows.now };

    ghost invariant = { λ v. Rises (names (entries_of v.rows.now)) × (are_longer 1 (entries_of v.rows.now) ≡ true) };
}

impl Vocabulary {
    /// The words of version 1 of the language.
    pub fn version_one() -> Vocabulary
        ensures { result ≡ version_one }
    {
        Vocabulary { rows: &VERSION_ONE }
    }

    /// The kind of a word. It is looked up by halving, unless it has one byte alone, as many names have and
    /// no word of a vocabulary.
    pub(crate) fn kind(&self, word: &[u8]) -> u32
        ensures { result ≡ word_kind self.now word.now }
    {
        let rows = self.rows;
        if word.len() == 1 {
            return OTHER_WORD;
        }
        match find_row(rows, word) {
            Some(at) => code_at(rows, at),
            None => OTHER_WORD,
        }
    }
}

/// The code of the row at a place, from 0.
#[tactic(auto, using(crate::proofs::WordKinds::code_there))]
fn code_at(rows: &[Row], at: usize) -> u32
    requires { at < length rows.now }
    ensures { slice_get (map (λ e. e.code) (entries_of rows.now)) at ≡ Some result }
{
    rows[at].code
}
