//! What a window of a trace says about the trace. Each function here does nothing: its contract is a law of the
//! definitions, which `specs/Laws.antt`, `specs/CutLaws.antt` and `specs/StreamLaws.antt` state.
ghost use Rattle.window.specs.CutLaws.{CutAtReadsAsWindow, CutIsSound, CutReadsAsWindow};
ghost use Rattle.window.specs.StreamLaws.{StreamBegins, StreamBreaks, StreamGoesOn, StreamIsSound, StreamKeepsRules, StreamReads, StreamRefuses};
ghost use Rattle.window.specs.Laws.{ApartInWindow, ProloguesAreShort, PrologueIsApart, RenamingKeepsReorderings, WindowIsComplete, WindowIsDisciplined, WindowIsMade, WindowIsSound, WindowOfABeginning, WindowOfIsWindow};

/// A window of a trace that keeps the rules keeps them too.
pub fn window_is_disciplined()
    ensures { WindowIsDisciplined }
{}

/// If a correct reordering of the window shows a pair, a correct reordering of the trace shows it.
pub fn window_is_sound()
    ensures { WindowIsSound }
{}

/// The window that is built meets the definition of a window.
pub fn window_is_made()
    ensures { WindowIsMade }
{}

/// Take a list that begins as recorded up to the window and has no event after it. If it shows a pair in the trace,
/// the window shows the pair.
pub fn window_is_complete()
    ensures { WindowIsComplete }
{}

/// `window_of` meets the definition of a window.
pub fn window_of_is_window()
    ensures { WindowOfIsWindow }
{}

/// The window never shows a pair exactly if no such list of the trace shows it: one that begins as recorded up to the
/// window and has no event after it.
pub fn apart_in_window()
    ensures { ApartInWindow }
{}

/// No correct reordering shows a pair with an event of the prologue.
pub fn prologue_is_apart()
    ensures { PrologueIsApart }
{}

/// A window of the events read so far is a window of the whole trace.
pub fn window_of_a_beginning()
    ensures { WindowOfABeginning }
{}

/// Other numbers for threads, variables and locks change nothing.
pub fn renaming_keeps_reorderings()
    ensures { RenamingKeepsReorderings }
{}

/// A prologue has at most seventeen times as many events as its part of the trace.
pub fn prologues_are_short()
    ensures { ProloguesAreShort }
{}

/// The text that is cut from a trace reads as the window of that trace.
pub fn cut_reads_as_window()
    ensures { CutReadsAsWindow }
{}

/// The same if the events have other numbers in a longer trace.
pub fn cut_at_reads_as_window()
    ensures { CutAtReadsAsWindow }
{}

/// A race of the text that is cut is a race of the trace.
pub fn cut_is_sound()
    ensures { CutIsSound }
{}

/// The summary before the first event is empty.
pub fn stream_begins()
    ensures { StreamBegins }
{}

/// What was read and the piece after it keep the rules, if the piece keeps them after a text that leaves the same
/// state.
pub fn stream_keeps_rules()
    ensures { StreamKeepsRules }
{}

/// The summary after a piece is that of all that was read.
pub fn stream_goes_on()
    ensures { StreamGoesOn }
{}

/// The first event of the piece that breaks a rule after such a text is the first in all that was read.
pub fn stream_breaks()
    ensures { StreamBreaks }
{}

/// If no line of the piece is refused, no line of all that was read is.
pub fn stream_reads()
    ensures { StreamReads }
{}

/// The first refused line of the piece is the first in all that was read.
pub fn stream_refuses()
    ensures { StreamRefuses }
{}

/// A window after such a text is a part of the whole trace. A race of it is a race of the trace. A pair that it never
/// shows, no such list shows: one that begins as recorded up to the window and has no event after it.
pub fn stream_is_sound()
    ensures { StreamIsSound }
{}
