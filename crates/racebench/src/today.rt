//! Which day it is.

use std::time::{SystemTime, UNIX_EPOCH};

/// Today as one number, such as 20271231. It is the given day, or else the clock's in UTC; None if the clock has no
/// date.
pub(crate) fn today_of(rt: &HostRuntime, given: Option<u32>) -> Option<u32> {
    match given {
        Some(day) => Some(day),
        None => day_now(rt),
    }
}

/// The day that the clock shows.
fn day_now(rt: &HostRuntime) -> Option<u32> {
    let now = SystemTime::now(rt).ok()?;
    let since = now.duration_since(UNIX_EPOCH).ok()?;
    u32::try_from(day_after(since.as_secs() / 86_400)).ok()
}

/// The number of the day that comes `days` days after 1 January 1970. Years begin in March here, so that a leap day is
/// the last of its year.
fn day_after(days: u64) -> u64 {
    let all = days.saturating_add(719_468);
    let (era, day) = (all / 146_097, all % 146_097);
    let leaps = (day / 36_524).saturating_sub(day / 146_096);
    let year = day.saturating_sub(day / 1_460).saturating_add(leaps) / 365;
    let before = year.saturating_mul(365).saturating_add(year / 4);
    let of_year = day.saturating_sub(before.saturating_sub(year / 100));
    day_in(era.saturating_mul(400).saturating_add(year), of_year)
}

/// The number of a day of a year that begins in March.
fn day_in(year: u64, day: u64) -> u64 {
    let month = day.saturating_mul(5).saturating_add(2) / 153;
    let before = month.saturating_mul(153).saturating_add(2) / 5;
    let date = day.saturating_sub(before).saturating_add(1);
    if month < 10 {
        number_of(year, month.saturating_add(3), date)
    } else {
        number_of(year.saturating_add(1), month.saturating_sub(9), date)
    }
}

/// Year, month and day as one number, such as 20271231.
fn number_of(year: u64, month: u64, date: u64) -> u64 {
    let days = month.saturating_mul(100).saturating_add(date);
    year.saturating_mul(10_000).saturating_add(days)
}
