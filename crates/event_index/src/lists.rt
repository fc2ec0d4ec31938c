//! Lists of events that their caller owns.

use rapid_text::Items;

/// A list of event numbers. Contracts see it as that list.
pub type EventList = Items<u32>;

/// A list of pairs of event numbers. Contracts see it as that list.
pub type Pairs = Items<(u32, u32)>;
