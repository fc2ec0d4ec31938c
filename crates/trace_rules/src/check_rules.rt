//! Checks a trace against the rules on locks, forks and joins.
ghost use Rattle.std.specs.Prelude.{◌≡◌, ◌⊎◌, IfOk, IfErr, Some, None};
ghost use Rattle.trace_rules.specs.Rules.{IsDisciplined, IsFirstBreach, first_breach, no_memory};

use crate::refusal::{RuleCause, RuleRefusal};
use crate::state::State;
use crate::trace::Trace;
use rapid_text::RawTrace;
use std::alloc::Global;

/// Accepts exactly the traces that keep the rules. Otherwise returns the trace with a refusal: the first event that
/// breaks a rule, and the first rule that it breaks (11 to 16). Error 17 means out of memory, whether or not the
/// trace breaks a rule.
pub fn check(alloc: Global, raw: RawTrace) -> Result<Trace, (RawTrace, RuleRefusal)>
    ensures same { IfOk result (λ trace. trace ≡ raw) }
    ensures returned { IfErr result (λ refused. refused.0 ≡ raw) }
    // `check` accepts exactly the traces that keep the rules, unless memory runs out.
    ensures disciplined { IfOk result (λ trace. IsDisciplined trace.events) }
    ensures undisciplined { IfErr result (λ refused. (refused.1 ≡ no_memory) ⊎ ¬ IsDisciplined raw.events) }
    ensures first { IfErr result (λ r. (r.1 ≡ no_memory) ⊎ IsFirstBreach raw.events r.1) }
    // The same by the function `first_breach`, for definitions that build on it.
    ensures accepted { IfOk result (λ trace. first_breach trace.events ≡ None) }
    ensures refused { IfErr result (λ r. (r.1 ≡ no_memory) ⊎ (first_breach raw.events ≡ Some r.1)) }
{
    let Ok(mut state) = State::new(alloc, &raw) else {
        let no_memory = RuleRefusal {
            event: 0,
            why: RuleCause::OutOfMemory,
        };
        return Err((raw, no_memory));
    };
    for event in 0..raw.len() {
        if let Some(why) = state.breach(&raw, event) {
            return Err((raw, RuleRefusal { event, why }));
        }
        state.apply(&raw, event);
    }
    Ok(Trace { raw })
}
