//! The numbers of the operators.

use tg_term::OpId;

/// `Suc`.
pub(crate) const SUCCESSOR: OpId = 1;

/// `~`.
pub(crate) const NEGATION: OpId = 2;

/// `&`.
pub(crate) const CONJUNCTION: OpId = 3;

/// `|`.
pub(crate) const DISJUNCTION: OpId = 4;

/// `-->`.
pub(crate) const IMPLICATION: OpId = 5;

/// `=`.
pub(crate) const EQUALITY: OpId = 6;

/// `<`.
pub(crate) const LESS: OpId = 7;

/// `<=`.
pub(crate) const LESS_EQUAL: OpId = 8;

/// `+`.
pub(crate) const PLUS: OpId = 9;

/// `-`.
pub(crate) const MINUS: OpId = 10;

/// `*`.
pub(crate) const TIMES: OpId = 11;

/// `div`.
pub(crate) const DIVIDE: OpId = 12;

/// `mod`.
pub(crate) const MODULO: OpId = 13;
