//! Which sort and which row a verdict has.
ghost use Rattle.std.specs.Prelude.{◌≡◌, [], Some, IfOk, OnOk, option_map};
ghost use Rattle.std.specs.List.{filter};
ghost use Rattle.race_page.specs.Rows.{entry_at, entry_seen, followed_in, is_of, is_sort, order_seen, outcome_sort, row_of, seen_at, seen_beside};

use crate::about::About;
use crate::shown::{Seen, Shown, Sort};
use event_index::Indexed;
use explain_report::places::location_of;
use followed_races::{Followed, told_of};
use race_triage::{Outcome, Verdict};
use rapid_text::OutOfMemory;
use std::alloc::Global;

/// The sort of a verdict.
fn sort_of(verdict: Verdict) -> Sort
    ensures { result ≡ outcome_sort verdict.outcome }
{
    match verdict.outcome {
        Outcome::Race {
            how: _,
            events: _,
            threads: _,
        } => Sort::Race,
        Outcome::Undecided { tried: _ } => Sort::Undecided,
        Outcome::Apart => Sort::Apart,
    }
}

/// Whether two sorts are the same.
fn are_same(one: Sort, other: Sort) -> bool
    ensures { result ≡ is_sort one other }
{
    match (one, other) {
        (Sort::Race, Sort::Race) => true,
        (Sort::Undecided, Sort::Undecided) => true,
        (Sort::Apart, Sort::Apart) => true,
        _ => false,
    }
}

/// The first entry on the locations of the two events, if there is one.
pub(crate) fn entry_of<'a>(
    about: About<'a>,
    indexed: &Indexed,
    first: u32,
    second: u32,
) -> Option<&'a Followed>
    ensures { option_map (λ f. f.now) result ≡ entry_at indexed.now (followed_in about.entry) first second }
{
    let all = about.followed?;
    match told_of(
        all,
        location_of(indexed, first),
        location_of(indexed, second),
    ) {
        Some(at) => all.get(at),
        None => None,
    }
}

/// What an entry says of a race, or that no entry is on the race.
fn seen_by(found: Option<&Followed>) -> Seen
    ensures { result ≡ entry_seen (option_map (λ f. f.now) found.entry) }
{
    match found {
        Some(followed) => seen_in(followed),
        None => Seen::NotFollowed,
    }
}

/// What an entry says of a race.
fn seen_in(followed: &Followed) -> Seen
    ensures { result ≡ entry_seen (Some followed.now) }
{
    if followed.ended.as_slice() == b"departed".as_slice() {
        return Seen::Departed;
    }
    match followed.same_memory {
        Some(false) => Seen::OtherMemory,
        Some(true) => order_of(followed.matters),
        None => order_of(followed.matters),
    }
}

/// The outcome, by whether the order of the two accesses matters.
fn order_of(matters: Option<bool>) -> Seen
    ensures { result ≡ order_seen matters }
{
    match matters {
        Some(true) => Seen::Matters,
        Some(false) => Seen::Same,
        None => Seen::Unknown,
    }
}

/// The word beside a race of the two events.
fn race_seen(about: About<'_>, indexed: &Indexed, first: u32, second: u32) -> Seen
    ensures { result ≡ seen_at indexed.now (followed_in about.entry) first second }
{
    if about.followed.is_none() {
        return Seen::Unasked;
    }
    seen_by(entry_of(about, indexed, first, second))
}

/// The word beside the row of a verdict. Only races have one.
fn seen_of(about: About<'_>, indexed: &Indexed, verdict: Verdict) -> Seen
    ensures { result ≡ seen_beside indexed.now (followed_in about.entry) verdict }
{
    match sort_of(verdict) {
        Sort::Race => race_seen(about, indexed, verdict.first, verdict.second),
        Sort::Undecided => Seen::Unasked,
        Sort::Apart => Seen::Unasked,
    }
}

/// The row of a verdict.
pub(crate) fn shown_of(about: About<'_>, indexed: &Indexed, verdict: Verdict) -> Shown
    ensures { result ≡ row_of indexed.now (followed_in about.entry) verdict }
{
    Shown {
        sort: sort_of(verdict),
        first: verdict.first,
        second: verdict.second,
        seen: seen_of(about, indexed, verdict),
        verdict,
    }
}

/// The verdicts of a sort, in their order.
pub(crate) fn of_sort(
    alloc: Global,
    told: &[Verdict],
    sort: Sort,
) -> Result<Vec<Verdict>, OutOfMemory>
    ensures { IfOk result (λ kept. kept.items ≡ filter (is_of sort) told.now) }
{
    let mut kept = Vec::new(alloc);
    match keep_sort(&mut kept, told, sort) {
        Ok(()) => Ok(kept),
        Err(refused) => Err(refused),
    }
}

/// Adds the verdicts of a sort to `kept`, which is empty.
fn keep_sort(kept: &mut Vec<Verdict>, told: &[Verdict], sort: Sort) -> Result<(), OutOfMemory>
    requires { kept.now.items ≡ [] }
    ensures { OnOk result (kept.new.items ≡ filter (is_of sort) told.now) }
{
    for verdict in told {
        if is_of_sort(verdict, sort) {
            kept.push(*verdict)?;
        }
    }
    Ok(())
}

/// Whether the verdict is of the sort.
fn is_of_sort(verdict: &Verdict, sort: Sort) -> bool
    ensures { result ≡ is_of sort verdict.now }
{
    are_same(sort_of(*verdict), sort)
}
