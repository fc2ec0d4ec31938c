//! What no clause says of `left_of` and `have_events`: that ample memory gives an answer. Two parts have one race and an undecided pair.

use calls::read_part;
use calls::triage::{Choice, Filters, have_events, left_of};
use client_scripts::FromRead;
use race_parts::{Parts, cells_of, rows_of};
use rapid_text::OutOfMemory;
use std::alloc::Global;

/// A race at `a.c:1` and `b.c:2`, and an undecided pair at `c.c:3` and `d.c:4`.
const ONE: &[u8] = b"{\"apart\":0,\"events\":4,\"kind\":\"counts\",\"races\":1,\"undecided\":1}
{\"accesses\":[{\"event\":0,\"holds\":[],\"location\":\"a.c:1\",\"operation\":\"w\",\"thread\":\"T1\",\"variable\":\"x\"},\
{\"event\":1,\"holds\":[],\"location\":\"b.c:2\",\"operation\":\"r\",\"thread\":\"T2\",\"variable\":\"x\"}],\
\"events\":0,\"how\":\"candidate\",\"kind\":\"race\",\"pairs\":1,\"threads\":0,\"variables\":1}
{\"accesses\":[{\"event\":2,\"holds\":[],\"location\":\"c.c:3\",\"operation\":\"w\",\"thread\":\"T1\",\"variable\":\"y\"},\
{\"event\":3,\"holds\":[],\"location\":\"d.c:4\",\"operation\":\"w\",\"thread\":\"T2\",\"variable\":\"y\"}],\
\"kind\":\"undecided\",\"pairs\":1,\"tried\":1,\"variables\":1}
";

/// The same race, undecided.
const OTHER: &[u8] = b"{\"apart\":0,\"events\":0,\"kind\":\"counts\",\"races\":0,\"undecided\":1}
{\"accesses\":[{\"event\":0,\"holds\":[],\"location\":\"b.c:2\",\"operation\":\"r\",\"thread\":\"T2\",\"variable\":\"x\"},\
{\"event\":1,\"holds\":[],\"location\":\"a.c:1\",\"operation\":\"w\",\"thread\":\"T1\",\"variable\":\"x\"}],\
\"kind\":\"undecided\",\"pairs\":1,\"tried\":1,\"variables\":1}
";

/// A text of known races with the race.
const RACE: &[u8] = b"race 0 1\n  T2|r(x)|b.c:2\n  T1|w(x)|a.c:1\n";

/// One with the undecided pair.
const UNDECIDED: &[u8] = b"race 2 3\n  T1|w(y)|c.c:3\n  T2|w(y)|d.c:4\n";

/// What is left out: how many cells stay, and the counts of known races and of what the filters drop.
type Counts = (usize, Option<u64>, Option<u64>);

/// The same of the parts.
fn counts_of(alloc: Global, parts: &Parts, choice: Choice<'_>) -> Result<Counts, OutOfMemory> {
    let rows = rows_of(alloc, parts)?;
    let cells = cells_of(alloc, &rows)?;
    let left = left_of(alloc, &rows, &cells, choice)?;
    Ok((left.cells.len(), left.known, left.hidden))
}

/// Whether these counts are what is left out by a text of known races and by filters.
fn leaves<'a>(
    alloc: Global,
    parts: &Parts,
    known: Option<&'a [u8]>,
    filters: Filters<'a>,
    wanted: Counts,
) -> bool {
    let choice = Choice {
        known,
        entries: None,
        filters,
    };
    match counts_of(alloc, parts, choice) {
        Ok(found) => found == wanted,
        Err(_) => false,
    }
}

/// Takes in a part. Answers whether it is one.
fn takes(alloc: Global, parts: &mut Parts, name: &[u8], text: &[u8]) -> bool {
    read_part(alloc, parts, name, &mut FromRead::new(text), 1).is_ok()
}

#[test]
fn pairs_of_locations_are_left_out_whole_and_counted(rt: HostRuntime) {
    let alloc = rt.alloc();
    let mut parts = Parts::new(alloc);
    assert!(rt; !have_events(alloc, &parts).unwrap_or(true));
    assert!(rt; takes(alloc, &mut parts, b"other", OTHER));
    assert!(rt; !have_events(alloc, &parts).unwrap_or(true));
    assert!(rt; takes(alloc, &mut parts, b"one", ONE));
    assert!(rt; have_events(alloc, &parts).unwrap_or(false));
    let none: &[&str] = &[];
    let all = Filters {
        only: none,
        hide: none,
    };
    let only_c = Filters {
        only: &["|c.c:"],
        hide: none,
    };
    let no_y = Filters {
        only: none,
        hide: &["(y)"],
    };
    let neither = Filters {
        only: &["|a.c:1"],
        hide: &["r(x)"],
    };
    assert!(rt; leaves(alloc, &parts, None, all, (3, None, None)));
    assert!(rt; leaves(alloc, &parts, Some(RACE), all, (1, Some(1), None)));
    assert!(rt; leaves(alloc, &parts, Some(UNDECIDED), all, (3, Some(0), None)));
    assert!(rt; leaves(alloc, &parts, None, only_c, (1, None, Some(1))));
    assert!(rt; leaves(alloc, &parts, None, no_y, (2, None, Some(1))));
    assert!(rt; leaves(alloc, &parts, None, neither, (0, None, Some(2))));
    assert!(rt; leaves(alloc, &parts, Some(RACE), no_y, (0, Some(1), Some(1))));
}
