//! Types that share their parts: the nodes of a table, united by union-find. A table means the
//! assignments of types to its nodes that fit it, so a type that is large as a tree takes no more than
//! its nodes.
#![tactic(auto)]

mod finding;
mod joining;
mod nodes;
mod planting;
mod settling;
mod tables;
#[cfg(test)]
mod tests;
mod uniting;
mod visiting;

pub use nodes::Node;
pub use settling::Solutions;
pub use tables::Table;
