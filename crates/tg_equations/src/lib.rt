//! Equations whose words are looked up: their types, their shape and their core terms.
#![tactic(auto)]

mod bodies;
mod cases;
mod core_terms;
mod equations;
mod heads;
mod instances;
mod left_sides;
mod matching;
mod names;
mod places;
mod shapes;
#[cfg(test)]
mod tests;
mod typings;

pub use bodies::whole_function;
pub use cases::{are_cases_right, are_cases_shaped};
pub use core_terms::core_term;
pub use equations::{Equation, Pattern};
pub use instances::instance;
pub use left_sides::left_types;
pub use names::are_distinct;
pub use shapes::{is_function_written, is_specification_shaped};
pub use typings::{count_equation_typings, count_specification_typings};
