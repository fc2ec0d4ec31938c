//! A law about reports. The function here does nothing: its contract is a law of the definitions.
ghost use Rattle.calls.specs.triage.Laws.{ListingsAreOne};

/// Without a triage file, the trace, the text of known races and the options determine any report in lines: text, JSON,
/// lines for editors, or a triage file, up to which rows are settled by a contradiction. It does not depend on how many
/// workers found it.
pub fn listings_are_one()
    ensures { ListingsAreOne }
{}
