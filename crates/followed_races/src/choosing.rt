//! Finds the entry about a pair of locations.
ghost use Rattle.std.specs.Prelude.{◌≡◌, ◌&&◌, bytes_eq};
ghost use Rattle.followed_races.specs.Choosing.{is_on, told_at};

use crate::entries::Followed;

/// Whether the two locations of the entry are these, in either order.
pub fn is_on(followed: &Followed, here: &[u8], there: &[u8]) -> bool
    ensures { result ≡ is_on here.now there.now followed.now }
{
    are(followed, here, there) || are(followed, there, here)
}

/// Whether the two locations of the entry are these, in this order.
fn are(followed: &Followed, here: &[u8], there: &[u8]) -> bool
    ensures { result ≡ (bytes_eq followed.now.first_location.items here.now && bytes_eq followed.now.second_location.items there.now) }
{
    followed.first_location.as_slice() == here && followed.second_location.as_slice() == there
}

/// The index of the first entry whose two locations are these, in either order.
pub fn told_of(all: &[Followed], here: &[u8], there: &[u8]) -> Option<usize>
    ensures { result ≡ told_at here.now there.now all.now }
{
    all.iter().position(|followed| is_on(followed, here, there))
}
