//! The texts of types, values, terms, formulas, classes and settings. Each is a list of tokens, or of lines of tokens, which
//! `specs/` says, and `tg_render` writes its bytes. What is named `put_..` writes behind what is written already, so a long report
//! is made once; what is named `.._text` answers the text alone.
#![tactic(auto)]

mod classes;
mod formulas;
mod laws;
mod names;
mod operators;
mod terms;
#[cfg(test)]
mod tests;
mod texts;
mod tokens;
mod types;
mod values;

pub use classes::{put_class, put_settings, put_settings_line};
pub use formulas::put_formula;
pub use laws::{read_back, told_by_texts, typed_texts};
pub use terms::{put_term, put_terms};
pub use texts::{class_text, formula_text, settings_text, term_text, ty_text, value_text};
pub use types::put_ty;
pub use values::{put_value, put_values};
