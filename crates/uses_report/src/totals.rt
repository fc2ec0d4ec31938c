//! The counts of a table.
ghost use Rattle.std.specs.Prelude.{◌≡◌};
ghost use Rattle.uses_report.specs.Totals.{accesses_in, flags_set};

use variable_uses::Uses;

/// How many flags are set, at most 2^64 - 1.
pub(crate) fn flags_set(flags: &[bool]) -> u64
    ensures { result ≡ flags_set flags.now }
{
    let mut count = 0u64;
    for flag in flags {
        count = count.saturating_add(if *flag { 1 } else { 0 });
    }
    count
}

/// How many accesses the rows have together, at most 2^64 - 1.
pub(crate) fn accesses_in(uses: &Uses) -> u64
    ensures { result ≡ accesses_in uses.now }
{
    let mut count = 0u64;
    for row in uses.counts.as_slice() {
        count = count.saturating_add(u64::from(*row));
    }
    count
}
