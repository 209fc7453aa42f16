ghost use Rattle.std.specs.Prelude.{◌≡◌, ◌↔◌, ◌<◌, ℕ, Some, IsTrue, length, slice_get, IfSome, IfNone};
ghost use Rattle.tg_tables.specs.Rows.{entry_of, entries_of, names, Rises, FailsToRise, rises};

use crate::row::{Row, is_below, order};
use std::cmp::Ordering;
use std::marker::Model;

/// A table of `N` rows whose names rise strictly by bytes, so that each name stands once. A contract
/// sees it as the names and codes of its rows.
#[derive(Debug, Drop)]
pub struct Table<'a, const N: usize> {
    // Not `&'a [Row; N]`: no proof is made for an array of rows whose length is a parameter.
    rows: &'a [Row],
}

impl<'a, const N: usize> Model for Table<'a, N> {
    ghost use Rattle.std.specs.Prelude.{◌≡◌, List, length};
    ghost use Rattle.tg_tables.specs.Rows.{Entry, entries_of, names, Rises};

    ghost Value = { List Entry };

    ghost view = { λ table. entries_of table.rows.now };

    ghost invariant = { λ table. (length table.rows.now ≡ N) × Rises (names (entries_of table.rows.now)) };
}

impl<'a, const N: usize> Table<'a, N> {
    /// A table of these `N` rows. `None` exactly where two neighbouring names don't rise strictly by
    /// bytes.
    pub fn new(rows: &'a [Row]) -> Option<Table<'a, N>>
        requires { length rows.now ≡ N }
        ensures made { IfSome result (λ table. table ≡ entries_of rows.now) }
        ensures rising { IfSome result (λ table. Rises (names (entries_of rows.now))) }
        ensures none { IfNone result (FailsToRise (names (entries_of rows.now))) }
    {
        for i in 1..rows.len() {
            if !is_below(&rows[i - 1], &rows[i]) {
                return None;
            }
        }
        Some(Table { rows })
    }

    // A table of rows that are known to rise.
    pub(crate) fn of(rows: &'a [Row]) -> Table<'a, N>
        requires all { length rows.now ≡ N }
        requires rising { IsTrue (rises (names (entries_of rows.now))) }
        ensures { result ≡ entries_of rows.now }
    {
        Table { rows }
    }

    /// The place, from 0, of the row that has this name. `None` exactly where no row has it.
    pub fn find(&self, name: &[u8]) -> Option<usize>
        ensures exact { (i : ℕ) → (result ≡ Some i) ↔ (slice_get (names self.now) i ≡ Some name.now) }
        ensures within { IfSome result (λ i. i < N) }
    {
        find_row(self.rows, name)
    }

    /// The row at a place, from 0.
    pub fn get(&self, i: usize) -> &Row
        requires { i < N }
        ensures { slice_get self.now i ≡ Some (entry_of result.now) }
    {
        row_at(self.rows, i)
    }
}

fn row_at(rows: &[Row], i: usize) -> &Row
    requires { i < length rows.now }
    ensures { slice_get rows.now i ≡ Some result.now }
{
    &rows[i]
}

/// The place, from 0, of the row that has this name, among rows whose names rise strictly by bytes. `None`
/// exactly where no row has it. It halves the range in which the name can stand.
pub fn find_row(rows: &[Row], name: &[u8]) -> Option<usize>
    requires { Rises (names (entries_of rows.now)) }
    ensures exact { (i : ℕ) → (result ≡ Some i) ↔ (slice_get (names (entries_of rows.now)) i ≡ Some name.now) }
    ensures within { IfSome result (λ i. i < length rows.now) }
{
    let (mut low, mut high) = (0, rows.len());
    while low < high {
        let middle = low + (high - low) / 2;
        match order(&rows[middle], name) {
            Ordering::Less => low = middle + 1,
            Ordering::Equal => return Some(middle),
            Ordering::Greater => high = middle,
        }
    }
    None
}
