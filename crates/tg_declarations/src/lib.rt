//! Declarations as the program holds them, in their order, and found by number at once. Whether they make an
//! accepted theory isn't asked here.
#![tactic(auto)]

mod declarations;
mod definitions;
mod owners;

pub use declarations::Declarations;
pub use definitions::{Body, ConDef, DataDef, FunDef, ProgDef};
