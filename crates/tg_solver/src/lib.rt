//! Data of classes: the first candidate at which each constraint is True. `specs/Candidates.antt` lists the candidates
//! plainly; the search leaves out those that have values in common at which a constraint is known to fail. One function has no code,
//! and its contract is a law.
#![tactic(auto)]

mod constraints;
mod data;
mod drawing;
mod numbers;
mod stages;
#[cfg(test)]
mod tests;
mod walking;

ghost use Rattle.tg_solver.specs.Laws.{DataFit};

pub use data::datum;

/// A datum satisfies the constraints of its class, and where the variables are naturals and truth values it has one value
/// of the type of each.
pub fn data_fit()
    ensures { DataFit }
{}
