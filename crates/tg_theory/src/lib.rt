//! Theories, accepted by construction: a builder asks of each declaration what is asked beyond its types, and
//! whoever holds a theory holds an accepted one.
#![tactic(auto)]

mod adding;
mod building;
mod calls;
#[cfg(test)]
mod data_tests;
mod embedding;
mod errors;
mod least;
mod names;
mod shapes;
#[cfg(test)]
mod tests;
mod theories;
mod typed;
mod types;

pub use building::Builder;
pub use calls::calls_on_inputs;
pub use errors::BuildErr;
pub use shapes::{is_body_shaped, is_datatype_shaped, is_program_fit};
pub use theories::Theory;
pub use typed::{are_declared, is_closed};
pub use types::has_parameter;
