//! Fixed tables of names, each in the order of its bytes, and the look-up of a name in them.
//!
//! The tables are the reserved words and the symbols of the language, and the names of the rewrite schemas.
#![tactic(auto)]

mod row;
mod schema_list;
pub mod symbol_codes;
mod symbol_list;
mod table;
#[cfg(test)]
mod tests;
mod word_list;

pub use row::Row;
pub use schema_list::{SCHEMA_COUNT, SCHEMA_ROWS, schemas};
pub use symbol_list::{SYMBOL_COUNT, SYMBOL_ROWS, symbols};
pub use table::{Table, find_row};
pub use word_list::{RESERVED_COUNT, RESERVED_ROWS, reserved};
