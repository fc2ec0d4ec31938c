//! What escaped text is. Each function here does nothing: its contract is a law of the definitions, stated in
//! `specs/Laws.antt`.
ghost use Rattle.markup.specs.Laws.{EscapedIsText, EscapedReadsBack};

/// For all bytes, the escaped text has no `<`, `>`, `"` or `'`, and each `&` begins an entity.
pub fn escaped_is_text()
    ensures { EscapedIsText }
{}

/// A text without replaced characters is read back unchanged.
pub fn escaped_reads_back()
    ensures { EscapedReadsBack }
{}
