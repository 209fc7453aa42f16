//! The tokens of a text of the language.
//!
//! Spaces, tabs, CR, LF and comments separate tokens. Comments begin with `(*`, end with `*)` and nest.
//! A word is a letter, then letters, digits and `_`; a type variable is `'` and a word; a number is a
//! run of digits; the symbols are those of `tg_tables`. The longest token is taken. `specs/Grammar.antt`
//! says it exactly.
#![tactic(auto)]

mod bytes;
mod comment;
mod digits;
mod laws;
mod lexing;
mod load;
mod part;
mod symbol;
#[cfg(test)]
mod tests;
mod token;

pub use laws::{fronts, joins, readings};
pub use lexing::{lex, number};
pub use load::{LOAD_LIMIT, is_nested};
pub use token::{Kind, LexErr, Token};
