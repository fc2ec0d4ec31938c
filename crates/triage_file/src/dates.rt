//! Days, each as one number: the digits of the year, the month and the day, one after another.
ghost use Rattle.std.specs.Prelude.{◌≡◌, option_and_then};
ghost use Rattle.toml.specs.Data.{as_datetime};
ghost use Rattle.toml.specs.View.{view};
ghost use Rattle.triage_file.specs.Entries.{day_at, day_by, day_of, is_day, is_expired};

use toml::Value;
use toml::value::{Date, Datetime};

/// The number of a date.
fn day_of(date: Date) -> u32
    ensures { result ≡ day_of date }
{
    u32::from(date.year) * 10_000 + u32::from(date.month) * 100 + u32::from(date.day)
}

/// The number of a date without a time. Returns None for any other value.
fn day_by(found: &Datetime) -> Option<u32>
    ensures { result ≡ day_by found.now }
{
    if found.time.is_some() || found.offset.is_some() {
        return None;
    }
    match found.date {
        Some(date) => Some(day_of(date)),
        None => None,
    }
}

/// The number of a member that is a date without a time.
fn day_at(entry: &Value, name: &str) -> Option<u32>
    ensures { result ≡ day_at name.now (view entry.now) }
{
    match entry.get(name) {
        Some(found) => day_in(found),
        None => None,
    }
}

/// The number of a value that is a date without a time.
fn day_in(value: &Value) -> Option<u32>
    ensures { result ≡ option_and_then day_by (as_datetime (view value.now)) }
{
    match value.as_datetime() {
        Some(found) => day_by(found),
        None => None,
    }
}

/// Whether the member is a date without a time.
pub(crate) fn is_day(entry: &Value, name: &str) -> bool
    ensures { result ≡ is_day name.now (view entry.now) }
{
    day_at(entry, name).is_some()
}

/// Whether the entry's last day is before today.
pub(crate) fn is_expired(entry: &Value, today: u32) -> bool
    ensures { result ≡ is_expired today (view entry.now) }
{
    match day_at(entry, "expires") {
        Some(day) => day < today,
        None => false,
    }
}
