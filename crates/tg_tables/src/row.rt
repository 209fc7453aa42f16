ghost use Rattle.std.specs.Prelude.{◌≡◌, ◌↔◌, IsTrue};
ghost use Rattle.std.specs.Cmp.Lexicographic.{slice_cmp};
ghost use Rattle.std.specs.Ordering.{nat_cmp};
ghost use Rattle.tg_tables.specs.Rows.{Below};

use std::cmp::Ordering;

/// A name of a table and the code that it stands for.
#[derive(Clone, Copy, Debug)]
pub struct Row {
    /// The name.
    pub name: &'static str,
    /// Its place, from 1, in the list that the table is made from.
    pub code: u32,
}

// Whether the name of `low` comes before that of `high`, by bytes.
pub(crate) fn is_below(low: &Row, high: &Row) -> bool
    ensures { IsTrue result ↔ Below low.now.name.now high.now.name.now }
{
    low.name < high.name
}

// How the name of the row compares with `name`, by bytes.
pub(crate) fn order(row: &Row, name: &[u8]) -> Ordering
    ensures { result ≡ slice_cmp nat_cmp row.now.name.now name.now }
{
    row.name.as_bytes().cmp(name)
}
