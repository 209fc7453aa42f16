//! Reads types, patterns, terms and formulas from the tokens of a text, exactly as the grammar of `tg_grammar`
//! has them, one reader a part of the grammar.
#![tactic(auto)]

mod binders;
mod formulas;
mod lists;
mod modes;
mod operators;
mod pattern;
mod reader;
mod terms;
mod types;

pub use formulas::formula;
pub use lists::{Growing, one};
pub use modes::{Mode, is_atom_next, is_plain_atom_next};
pub use pattern::{names, patterns};
pub use reader::{Reader, Stop};
pub use terms::{atom, atoms, term};
pub use types::{function_type, type_atom, type_atoms};
