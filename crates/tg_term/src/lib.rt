//! Terms, values, formulas, and the classes of inputs that are made of them.
#![tactic(auto)]

mod classes;
mod comparing;
mod filling;
mod formula_walking;
mod formulas;
mod lifted;
mod measuring;
mod parts;
mod substituting;
mod terms;
#[cfg(test)]
mod tests;
mod using;
mod valued;
mod values;
mod walking;

pub use classes::{Class, Outcome, Pattern, Test};
pub use comparing::same;
pub use filling::{fill, matches};
pub use formula_walking::{abstract_formula, close_formula, instantiate_formula, subst_formula};
pub use formulas::{Formula, FormulaNode};
pub use substituting::{abstract_var, instantiate, lift, subst};
pub use terms::{Branch, ConId, FunId, Node, OpId, Term};
pub use using::{calls_program, uses};
pub use valued::{copy_value, depth};
pub use values::Value;
