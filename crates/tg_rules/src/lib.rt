//! A theory of grammars as tables of rules, one rule a part. What a text of a part is, and its value, is
//! said by the rules alone; it is read with one token of foresight; and all laws are proved once, for
//! any table whose parts pass conditions that compute. Who has a grammar writes the table, what each
//! part may begin with and go on with, and a sample of each part. `specs/` has the definitions, one file
//! a subject; the functions here have no code, and their contracts are the laws. A contract can't
//! speak of all types, so the laws are of the ghost members of a trait, which an `impl` gives.
#![tactic(auto)]

mod grammar;
mod laws;

pub use grammar::{Differences, Grammar, Tables};
pub use laws::{differences, faults, pages, reading, texts};
