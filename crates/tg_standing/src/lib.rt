//! What the terms and formulas of certificates, and the values of outcomes, stand for in an accepted theory.
#![tactic(auto)]

mod closed_types;
mod formulas;
mod inputs;
mod names;
mod places;
mod quantified;
mod terms;
mod types_of_values;
mod values;

pub use closed_types::type_of;
pub use formulas::formula_of;
pub use names::words_of;
pub use terms::term_of;
pub use types_of_values::has_type;
pub use values::value_of;
