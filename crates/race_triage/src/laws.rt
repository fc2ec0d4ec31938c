//! Laws of verdicts. Each function here does nothing: its contract is a law that follows from the definitions.
ghost use Rattle.race_triage.specs.Same.{TextsAreOne, VerdictsAreOne};
ghost use Rattle.race_triage.specs.Totals.{TotalsAreOfTheTrace};

/// Correct verdicts give the counts of the whole trace.
pub fn totals_are_of_the_trace()
    ensures { TotalsAreOfTheTrace }
{}

/// Two correct lists of verdicts on a trace that settled the same rows have the same verdicts in the same order, and the
/// same counts.
pub fn verdicts_are_one()
    ensures { VerdictsAreOne }
{}

/// So there is only one text. It depends on the trace, the known races, the options and which rows are settled, and not
/// on who found the verdicts.
pub fn texts_are_one()
    ensures { TextsAreOne }
{}
