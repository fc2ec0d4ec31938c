//! Reads a single argument: a number, a name, a date, or a path.
ghost use Rattle.std.specs.Prelude.{◌≤◌, IfOk};

use crate::task::Named;
use std::alloc::AllocError;

/// Why arguments that `clap` accepts are refused.
pub(crate) enum Unread {
    /// For this reason.
    Refused(&'static str),
    /// Out of memory.
    OutOfMemory,
}

impl From<AllocError> for Unread {
    fn from(_error: AllocError) -> Unread {
        Unread::OutOfMemory
    }
}

/// Whether the argument is one or more decimal digits.
pub(crate) fn is_number(word: &str) -> bool {
    !word.is_empty() && word.as_bytes().iter().all(|byte| byte.is_ascii_digit())
}

/// The argument as a number from `least` to `most`. `clap` has checked the limits, but accepts a sign before the
/// digits. A number with a sign is refused for this reason.
pub(crate) fn number(word: &str, least: u32, most: u32, reason: &'static str) -> Result<u32, Unread>
    ensures { IfOk result (λ n. (least ≤ n) × (n ≤ most)) }
{
    if !is_number(word) {
        return Err(Unread::Refused(reason));
    }
    match word.parse::<u32>() {
        Ok(number) if least <= number && number <= most => Ok(number),
        _ => Err(Unread::Refused(reason)),
    }
}

/// What the argument names: digits are an event, anything else is a place. A number that does not fit in 32 bits
/// becomes an event that no trace has.
pub(crate) fn named(word: &str) -> Named<'_> {
    if !is_number(word) {
        return Named::Place(word);
    }
    Named::Event(word.parse::<u32>().unwrap_or(u32::MAX))
}

/// The path that means standard input.
pub(crate) const STANDARD: &str = "-";

/// How many of the paths are standard input.
fn standards(paths: &[&str]) -> u32 {
    let mut count = 0u32;
    for path in paths {
        if *path == STANDARD {
            count = count.saturating_add(1);
        }
    }
    count
}

/// Whether more than one path of the two lists is standard input.
pub(crate) fn share_input(paths: &[&str], others: &[&str]) -> bool {
    standards(paths).saturating_add(standards(others)) > 1
}

/// Refuses more than one path that is standard input.
pub(crate) fn check_inputs(paths: &[&str], others: &[&str]) -> Result<(), Unread> {
    if share_input(paths, others) {
        return Err(Unread::Refused("`-` is standard input, and may be given once"));
    }
    Ok(())
}

/// A date such as 2027-12-31 as the number 20271231, if one is given. It is refused unless `may_be` is true.
pub(crate) fn day(word: Option<&str>, may_be: bool) -> Result<Option<u32>, Unread> {
    let Some(word) = word else {
        return Ok(None);
    };
    if !may_be {
        return Err(Unread::Refused("`--today` goes with `--triage`"));
    }
    match day_of(word.as_bytes()) {
        Some(day) => Ok(Some(day)),
        None => Err(Unread::Refused("`--today` takes a date such as 2027-12-31")),
    }
}

/// The number of a date. Returns None if it is not a date.
fn day_of(word: &[u8]) -> Option<u32> {
    if word.len() != 10 || word[4] != b'-' || word[7] != b'-' {
        return None;
    }
    let mut day = 0u32;
    for at in 0..10 {
        if at != 4 && at != 7 {
            day = with_digit(day, word[at])?;
        }
    }
    let date = day % 100;
    if 1 <= date && date <= days_of(day / 10_000, day / 100 % 100) {
        Some(day)
    } else {
        None
    }
}

/// How many days a month has; 0 if no month has this number.
fn days_of(year: u32, month: u32) -> u32 {
    match month {
        2 => { if is_leap(year) { 29 } else { 28 } }
        4 | 6 | 9 | 11 => 30,
        1 | 3 | 5 | 7 | 8 | 10 | 12 => 31,
        _ => 0,
    }
}

/// Whether the year is a leap year.
fn is_leap(year: u32) -> bool {
    year % 4 == 0 && (year % 100 != 0 || year % 400 == 0)
}

/// The number with one more digit. Returns None if the byte is not a digit.
fn with_digit(number: u32, digit: u8) -> Option<u32> {
    if !(b'0' <= digit && digit <= b'9') {
        return None;
    }
    Some(
        number
            .saturating_mul(10)
            .saturating_add(u32::from(digit - b'0')),
    )
}
