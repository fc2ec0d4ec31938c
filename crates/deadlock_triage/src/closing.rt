//! Whether the closed order of two requests contradicts itself, so that no correct reordering shows them.
ghost use Rattle.std.specs.Prelude.{◌≡◌, ◌<◌, [], ◌∷◌, IfOk, IfSome, IsTrue, length};
ghost use Rattle.closed_order.specs.Steps.{IsContradiction};
ghost use Rattle.deadlock_triage.specs.Verdicts.{IsNeverShown};

use closed_order::{Closing, Step, contradicted_is_no_deadlock};
use must_order::Analysis;
use rapid_text::OutOfMemory;
use std::alloc::Global;

/// Whether the order of the two requests was found to contradict itself.
pub(crate) fn are_contradicted(
    closing: &mut Closing,
    alloc: Global,
    analysis: &Analysis<'_>,
    first: u32,
    second: u32,
) -> Result<bool, OutOfMemory>
    requires first { first < length analysis.now.events }
    requires second { second < length analysis.now.events }
    ensures never { IfOk result (λ so. IsTrue so → IsNeverShown analysis.now.events first second) }
{
    let found = closing.contradiction(alloc, analysis, first, second)?;
    Ok(is_contradiction(analysis, &found, first, second))
}

// Whether steps were found that contradict the requests.
fn is_contradiction(
    analysis: &Analysis<'_>,
    found: &Option<Vec<Step>>,
    _first: u32,
    _second: u32,
) -> bool
    requires { IfSome found.now (λ steps. IsContradiction analysis.now.events (_first ∷ _second ∷ []) steps.items) }
    ensures { IsTrue result → IsNeverShown analysis.now.events _first _second }
{
    contradicted_is_no_deadlock();
    let indexed = analysis.indexed();
    let _len = indexed.len();
    match found {
        None => false,
        Some(_) => true,
    }
}
