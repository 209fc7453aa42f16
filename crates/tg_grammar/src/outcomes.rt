use crate::terms::RawTerm;
use sqlite_items::Items;

/// The recorded outcomes of tests, as they are written.
#[derive(Drop)]
pub struct RawOutcomes {
    /// The settings of their header, in the order depth, bound, seed, tries, width.
    pub settings: [u64; 5],
    /// The outcomes.
    pub items: Items<RawItem>,
}

/// What the program did in one test.
#[derive(Drop)]
pub struct RawItem {
    /// The number of the test.
    pub test: u64,
    /// What the program answered. `None` where it raised an error.
    pub answer: Option<RawTerm>,
}
