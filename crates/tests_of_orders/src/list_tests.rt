//! What no clause says of a list that a caller owns: that an item is appended if memory suffices, and that otherwise
//! the list is as it was.

use rapid_text::Items;
use std::alloc::Global;

// Whether a list keeps the items that are pushed to it, each at a second call where memory was wanting at the first.
fn are_kept<T: Copy + PartialEq + Drop>(alloc: Global, items: &[T]) -> bool {
    let mut list = Items::new(alloc);
    let mut are_taken = true;
    for item in items {
        are_taken = are_taken && (list.push(*item).is_ok() || list.push(*item).is_ok());
    }
    are_taken && list.items() == items
}

// Those of `Bytes`, `EventList` and `Pairs`.
#[test]
fn memory_lists_keep_what_they_have(rt: HostRuntime) {
    let pairs = [
        (0, 7),
        (1, 7),
        (2, 7),
        (3, 7),
        (4, 7),
        (5, 7),
        (6, 7),
        (7, 7),
        (8, 7u32),
    ];
    assert!(rt; are_kept(rt.alloc(), [0, 1, 2, 3, 4, 5, 6, 7, 8u8].as_slice()));
    assert!(rt; are_kept(rt.alloc(), [0, 1, 2, 3, 4, 5, 6, 7, 8u32].as_slice()));
    assert!(rt; are_kept(rt.alloc(), pairs.as_slice()));
}
