//! Pairs of places whose conflicting pairs no correct reordering shows.
ghost use Rattle.std.specs.Prelude.{◌≡◌, ◌↔◌, IsTrue, true, slice_index};
ghost use Rattle.race_groups.specs.Kinds.{IsRow, IsRowNeverShown};

use crate::kinds::Row;
use event_index::Indexed;
use must_order::apart_is_never_shown;

/// Whether all conflicting pairs of the row's two places are forced or guarded. `places` has the number of each
/// event's place.
pub fn is_apart(indexed: &Indexed, places: &[u32], row: Row) -> bool
    requires { IsRow indexed.now (slice_index places.now) row }
    ensures counts { IsTrue result ↔ ((row.counts.candidates ≡ 0) × (row.counts.open_pairs ≡ 0)) }
    // Then no correct reordering shows a pair of events of the row's places.
    ensures never { result ≡ true → IsRowNeverShown indexed.now.events (slice_index places.now) row }
{
    apart_is_never_shown();
    let _len = indexed.len();
    let _places = places.len();
    if row.counts.candidates != 0 {
        return false;
    }
    row.counts.open_pairs == 0
}
