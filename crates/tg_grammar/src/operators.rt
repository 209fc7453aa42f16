//! The operators of a raw term. An operator's number is its place in the list `Suc ~ & | --> = < <= + - *
//! div mod`, from 1.

/// `Suc`.
pub const SUC: u32 = 1;

/// `~`.
pub const NOT: u32 = 2;

/// `&`.
pub const AND: u32 = 3;

/// `|`.
pub const OR: u32 = 4;

/// `-->`.
pub const IMPLIES: u32 = 5;

/// `=`.
pub const EQUAL: u32 = 6;

/// `<`.
pub const LESS: u32 = 7;

/// `<=`.
pub const LESS_EQUAL: u32 = 8;

/// `+`.
pub const PLUS: u32 = 9;

/// `-`.
pub const MINUS: u32 = 10;

/// `*`.
pub const TIMES: u32 = 11;

/// `div`.
pub const DIV: u32 = 12;

/// `mod`.
pub const MOD: u32 = 13;
