//! Finds the row of two places.
ghost use Rattle.std.specs.Prelude.{◌≡◌, IfSome, Some, None, true, slice_get};
ghost use Rattle.race_groups.specs.GroupRows.{HasNoRow, IsRowAt};

use crate::kinds::{Groups, Row};
use crate::rows::{ordered, row_at};

impl Groups {
    /// The index of the row of two places, which are given in either order; None if they have no row.
    pub fn row_of(&self, first: u32, second: u32) -> Option<usize>
        // The row has these places; None means that no row has them.
        ensures found { IfSome result (IsRowAt self.now first second) }
        ensures none { result ≡ None → HasNoRow self.now first second }
    {
        let places = ordered(first, second);
        if let Some(at) = self.guesses.guess(first, second) {
            if is_row(self.rows.as_slice(), at, places) {
                return Some(at);
            }
        }
        row_at(&self.index, places)
    }
}

// Whether the row at this index has these places.
fn is_row(rows: &[Row], at: usize, places: (u32, u32)) -> bool
    ensures { result ≡ true → (row : Row) × (slice_get rows.now at ≡ Some row) × (row.places ≡ places) }
{
    match rows.get(at) {
        Some(row) => row.places.0 == places.0 && row.places.1 == places.1,
        None => false,
    }
}
