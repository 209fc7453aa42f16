//! What is left of the limits.

/// The calls that normalise, the inner nodes of split trees and the clauses of leaves that may still be made.
#[derive(Clone, Copy, Debug, PartialEq, Eq)]
pub(crate) struct Left {
    pub(crate) steps: u64,
    pub(crate) splits: usize,
    pub(crate) clauses: usize,
}

impl Left {
    /// What is left at first.
    pub(crate) const WHOLE: Left = Left {
        steps: 2_000_000,
        splits: 4096,
        clauses: 4096,
    };
}
