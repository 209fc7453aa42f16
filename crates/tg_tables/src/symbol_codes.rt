//! The codes of the symbols: a symbol's code is its place in the list `( ) { } [ ] , ; . = < <= + - * & | ~
//! --> => :: ? !`.

/// `(`.
pub const OPEN_PAREN: u32 = 1;

/// `)`.
pub const CLOSE_PAREN: u32 = 2;

/// `{`.
pub const OPEN_BRACE: u32 = 3;

/// `}`.
pub const CLOSE_BRACE: u32 = 4;

/// `[`.
pub const OPEN_BRACKET: u32 = 5;

/// `]`.
pub const CLOSE_BRACKET: u32 = 6;

/// `,`.
pub const COMMA: u32 = 7;

/// `;`.
pub const SEMICOLON: u32 = 8;

/// `.`.
pub const DOT: u32 = 9;

/// `=`.
pub const EQUAL: u32 = 10;

/// `<`.
pub const LESS: u32 = 11;

/// `<=`.
pub const LESS_EQUAL: u32 = 12;

/// `+`.
pub const PLUS: u32 = 13;

/// `-`.
pub const MINUS: u32 = 14;

/// `*`.
pub const TIMES: u32 = 15;

/// `&`.
pub const AND: u32 = 16;

/// `|`.
pub const OR: u32 = 17;

/// `~`.
pub const NOT: u32 = 18;

/// `-->`.
pub const ARROW: u32 = 19;

/// `=>`.
pub const DOUBLE_ARROW: u32 = 20;

/// `::`.
pub const DOUBLE_COLON: u32 = 21;

/// `?`.
pub const QUESTION: u32 = 22;

/// `!`.
pub const BANG: u32 = 23;
