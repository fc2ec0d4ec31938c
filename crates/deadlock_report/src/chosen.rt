//! Chooses the verdicts to print.
ghost use Rattle.std.specs.Prelude.{◌≡◌, ◌++◌, IfOk, count_by, filter};
ghost use Rattle.race_triage.specs.Pieces.{capped};
ghost use Rattle.deadlock_report.specs.Chosen.{AreChosen, body_text, is_fresh, is_kept, is_known, is_wanted, known_in, left_out};
ghost use Rattle.deadlock_report.specs.Counts.{is_of};
ghost use Rattle.deadlock_report.specs.declared.kinds.Kind.TheVariants.{Shown};

use crate::counts::one_if;
use crate::kinds::{Kind, belongs};
use crate::known::{Known, block_in, has_block_key};
use crate::requests::append_request;
use deadlock_triage::{Deadlocks, Verdict};
use must_order::Analysis;
use race_triage::Filters;
use rapid_text::OutOfMemory;
use std::alloc::Global;

/// The verdicts to print, and how many are left out.
#[derive(Drop)]
pub struct Chosen {
    /// The verdicts, in the order of all verdicts.
    pub verdicts: Vec<Verdict>,
    /// How many of them are deadlocks.
    pub deadlocks: u64,
    /// How many deadlocks are left out because they are known; None if no text of known ones was given.
    pub known: Option<u64>,
    /// How many blocks the filters leave out; None if there is no filter.
    pub hidden: Option<u64>,
}

/// Chooses the verdicts to print: all but those that are apart, unless `apart` is true. It leaves out known deadlocks,
/// and then the blocks that the filters drop.
pub fn chosen_of(
    alloc: Global,
    analysis: &Analysis<'_>,
    found: &Deadlocks,
    known: &Option<Known>,
    filters: Filters<'_>,
    apart: bool,
) -> Result<Chosen, OutOfMemory>
    // The result has exactly these verdicts, and counts those that are left out.
    ensures { IfOk result (AreChosen analysis.now (known_in known.now) filters.entry apart found.now.verdicts.items) }
{
    let wanted = wanted_of(alloc, found.verdicts.as_slice(), apart)?;
    let fresh = fresh_of(alloc, analysis, wanted.as_slice(), known)?;
    let verdicts = kept_of(alloc, analysis, fresh.as_slice(), filters)?;
    Ok(Chosen {
        deadlocks: deadlocks_in(verdicts.as_slice()),
        known: left_out(known.is_some(), wanted.len(), fresh.len()),
        hidden: left_out(filters.is_any(), fresh.len(), verdicts.len()),
        verdicts,
    })
}

// The verdicts without those that are apart, unless `apart` is true.
fn wanted_of(alloc: Global, verdicts: &[Verdict], apart: bool) -> Result<Vec<Verdict>, OutOfMemory>
    ensures { IfOk result (λ wanted. wanted.items ≡ filter (is_wanted apart) verdicts.now) }
{
    let mut wanted = Vec::new(alloc);
    for verdict in verdicts {
        if is_wanted(verdict, apart) {
            wanted.push(*verdict)?;
        }
    }
    Ok(wanted)
}

// Whether the verdict is not apart, or those are wanted.
fn is_wanted(verdict: &Verdict, apart: bool) -> bool
    ensures { result ≡ is_wanted apart verdict.now }
{
    apart || !belongs(verdict, Kind::Never)
}

// The verdicts that are no known deadlocks.
fn fresh_of(
    alloc: Global,
    analysis: &Analysis<'_>,
    verdicts: &[Verdict],
    known: &Option<Known>,
) -> Result<Vec<Verdict>, OutOfMemory>
    ensures { IfOk result (λ fresh. fresh.items ≡ filter (is_fresh analysis.now (known_in known.now)) verdicts.now) }
{
    let mut fresh = Vec::new(alloc);
    for verdict in verdicts {
        if is_fresh(alloc, analysis, known, verdict)? {
            fresh.push(*verdict)?;
        }
    }
    Ok(fresh)
}

// Whether the verdict is no known deadlock.
fn is_fresh(
    alloc: Global,
    analysis: &Analysis<'_>,
    known: &Option<Known>,
    verdict: &Verdict,
) -> Result<bool, OutOfMemory>
    ensures { IfOk result (λ fresh. fresh ≡ is_fresh analysis.now (known_in known.now) verdict.now) }
{
    let Some(known) = known else {
        return Ok(true);
    };
    if !belongs(verdict, Kind::Shown) {
        return Ok(true);
    }
    Ok(!is_known(alloc, analysis, known, verdict)?)
}

// Whether the locations of the verdict's block are known.
fn is_known(
    alloc: Global,
    analysis: &Analysis<'_>,
    known: &Known,
    verdict: &Verdict,
) -> Result<bool, OutOfMemory>
    ensures { IfOk result (λ is. is ≡ is_known analysis.now known.now.keys verdict.now) }
{
    let body = body_of(alloc, analysis, verdict)?;
    match block_in(Some(body.as_slice())) {
        Some(block) => has_block_key(alloc, known, &block),
        None => Ok(false),
    }
}

// The lines of the verdict's block below the first one.
fn body_of(
    alloc: Global,
    analysis: &Analysis<'_>,
    verdict: &Verdict,
) -> Result<Vec<u8>, OutOfMemory>
    ensures { IfOk result (λ body. body.items ≡ body_text analysis.now verdict.now) }
{
    let mut body = Vec::new(alloc);
    append_request(&mut body, analysis, verdict.first, verdict.second)?;
    append_request(&mut body, analysis, verdict.second, verdict.first)?;
    Ok(body)
}

// The verdicts that the filters keep.
fn kept_of(
    alloc: Global,
    analysis: &Analysis<'_>,
    verdicts: &[Verdict],
    filters: Filters<'_>,
) -> Result<Vec<Verdict>, OutOfMemory>
    ensures { IfOk result (λ kept. kept.items ≡ filter (is_kept analysis.now filters.entry) verdicts.now) }
{
    let mut kept = Vec::new(alloc);
    for verdict in verdicts {
        if is_kept(alloc, analysis, filters, verdict)? {
            kept.push(*verdict)?;
        }
    }
    Ok(kept)
}

// Whether the filters keep the block of the verdict.
fn is_kept(
    alloc: Global,
    analysis: &Analysis<'_>,
    filters: Filters<'_>,
    verdict: &Verdict,
) -> Result<bool, OutOfMemory>
    ensures { IfOk result (λ kept. kept ≡ is_kept analysis.now filters.entry verdict.now) }
{
    if !filters.is_any() {
        return Ok(true);
    }
    let mut first = Vec::new(alloc);
    let mut second = Vec::new(alloc);
    append_request(&mut first, analysis, verdict.first, verdict.second)?;
    append_request(&mut second, analysis, verdict.second, verdict.first)?;
    Ok(filters.keeps(first.as_slice(), second.as_slice()))
}

// How many of the verdicts are deadlocks.
fn deadlocks_in(verdicts: &[Verdict]) -> u64
    ensures { result ≡ capped (count_by (is_of Shown) verdicts.now) }
{
    let mut count = 0u64;
    for verdict in verdicts {
        count = count.saturating_add(one_if(verdict, Kind::Shown));
    }
    count
}

// How many are left out if `kept` of `all` are kept; None if that is not counted.
fn left_out(is_counted: bool, all: usize, kept: usize) -> Option<u64>
    ensures { result ≡ left_out is_counted all kept }
{
    if is_counted {
        Some(all.saturating_sub(kept) as u64)
    } else {
        None
    }
}
