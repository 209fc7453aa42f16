//! The kinds of tokens: what the grammar tells apart. A kind is a number, so that a class of tokens is
//! a list of numbers.

// A symbol has its code in the table of the symbols.
pub use tg_tables::symbol_codes::{
    AND, ARROW, BANG, CLOSE_BRACE, CLOSE_BRACKET, CLOSE_PAREN, COMMA, DOT, DOUBLE_ARROW,
    DOUBLE_COLON, EQUAL, LESS, LESS_EQUAL, MINUS, NOT, OPEN_BRACE, OPEN_BRACKET, OPEN_PAREN, OR,
    PLUS, QUESTION, SEMICOLON, TIMES,
};

// Type variables and numbers. The grammar tells 0, 1, 2 and the numbers from 3 to 8 from the others.

/// A type variable.
pub const TYPE_VARIABLE: u32 = 24;

/// A number of the value 0.
pub const ZERO_NUMBER: u32 = 25;

/// A number of the value 1.
pub const ONE_NUMBER: u32 = 26;

/// A number of the value 2.
pub const TWO_NUMBER: u32 = 27;

/// A number of a value from 3 to 8.
pub const SMALL_NUMBER: u32 = 28;

/// Any other number.
pub const OTHER_NUMBER: u32 = 29;

// A reserved word has 30 more than its code in the table of the reserved words. The kinds 57 to 68 are
// left for the reserved words of further versions and commands.

/// `theory`.
pub const THEORY_WORD: u32 = 31;

/// `version`.
pub const VERSION_WORD: u32 = 32;

/// `begin`.
pub const BEGIN_WORD: u32 = 33;

/// `end`.
pub const END_WORD: u32 = 34;

/// `datatype`.
pub const DATATYPE_WORD: u32 = 35;

/// `primrec`.
pub const PRIMREC_WORD: u32 = 36;

/// `definition`.
pub const DEFINITION_WORD: u32 = 37;

/// `where`.
pub const WHERE_WORD: u32 = 38;

/// `program`.
pub const PROGRAM_WORD: u32 = 39;

/// `spec`.
pub const SPEC_WORD: u32 = 40;

/// `outcomes`.
pub const OUTCOMES_WORD: u32 = 41;

/// `certificate`.
pub const CERTIFICATE_WORD: u32 = 42;

/// `if`.
pub const IF_WORD: u32 = 43;

/// `then`.
pub const THEN_WORD: u32 = 44;

/// `else`.
pub const ELSE_WORD: u32 = 45;

/// `let`.
pub const LET_WORD: u32 = 46;

/// `in`.
pub const IN_WORD: u32 = 47;

/// `case`.
pub const CASE_WORD: u32 = 48;

/// `of`.
pub const OF_WORD: u32 = 49;

/// `div`.
pub const DIV_WORD: u32 = 50;

/// `mod`.
pub const MOD_WORD: u32 = 51;

/// `Suc`.
pub const SUC_WORD: u32 = 52;

/// `True`.
pub const TRUE_WORD: u32 = 53;

/// `False`.
pub const FALSE_WORD: u32 = 54;

/// `nat`.
pub const NAT_WORD: u32 = 55;

/// `bool`.
pub const BOOL_WORD: u32 = 56;

// Names: the ordinary ones, and words with a meaning in one place. They are the last kinds, so that
// further words come behind them.

/// A word that is no other kind of word.
pub const OTHER_WORD: u32 = 69;

/// `depth`.
pub const DEPTH_WORD: u32 = 70;

/// `bound`.
pub const BOUND_WORD: u32 = 71;

/// `seed`.
pub const SEED_WORD: u32 = 72;

/// `tries`.
pub const TRIES_WORD: u32 = 73;

/// `width`.
pub const WIDTH_WORD: u32 = 74;

/// `answer`.
pub const ANSWER_WORD: u32 = 75;

/// `raised`.
pub const RAISED_WORD: u32 = 76;

/// `ALL`.
pub const ALL_WORD: u32 = 77;

/// `EX`.
pub const EXISTS_WORD: u32 = 78;

/// `THYP`.
pub const THYP_WORD: u32 = 79;

/// `tested`.
pub const TESTED_WORD: u32 = 80;

// The rules of the calculus have such a meaning too. A rule has 80 more than its place among the 26
// rules.

/// `hyp`.
pub const HYP_RULE: u32 = 81;

/// `weak`.
pub const WEAK_RULE: u32 = 82;

/// `cut`.
pub const CUT_RULE: u32 = 83;

/// `grow`.
pub const GROW_RULE: u32 = 84;

/// `andI`.
pub const AND_I_RULE: u32 = 85;

/// `andL`.
pub const AND_L_RULE: u32 = 86;

/// `andR`.
pub const AND_R_RULE: u32 = 87;

/// `impI`.
pub const IMP_I_RULE: u32 = 88;

/// `mp`.
pub const MP_RULE: u32 = 89;

/// `allI`.
pub const ALL_I_RULE: u32 = 90;

/// `allE`.
pub const ALL_E_RULE: u32 = 91;

/// `exI`.
pub const EXISTS_I_RULE: u32 = 92;

/// `exE`.
pub const EXISTS_E_RULE: u32 = 93;

/// `thypI`.
pub const THYP_I_RULE: u32 = 94;

/// `thypE`.
pub const THYP_E_RULE: u32 = 95;

/// `true`.
pub const TRUE_RULE: u32 = 96;

/// `false`.
pub const FALSE_RULE: u32 = 97;

/// `split`.
pub const SPLIT_RULE: u32 = 98;

/// `refl`.
pub const REFL_RULE: u32 = 99;

/// `sym`.
pub const SYM_RULE: u32 = 100;

/// `trans`.
pub const TRANS_RULE: u32 = 101;

/// `replace`.
pub const REPLACE_RULE: u32 = 102;

/// `schema`.
pub const SCHEMA_RULE: u32 = 103;

/// `exhaust`.
pub const EXHAUST_RULE: u32 = 104;

/// `deep`.
pub const DEEP_RULE: u32 = 105;

/// `compute`.
pub const COMPUTE_RULE: u32 = 106;

/// The last kind of a name.
pub const LAST_NAME: u32 = COMPUTE_RULE;
